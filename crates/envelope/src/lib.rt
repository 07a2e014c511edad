// Message envelopes (document 01, "Envelope", and document 02, requests 2 and 9): a header `letter,group,A length,M length,`, and then metadata,
// cryptogram and tag. Reading takes any bytes and hands out the caller's own. A refusal is a check of document 01's "What stops a call".
// specs/Layout.antt has the layout and Read.antt what is found; the theorems over them are in proofs/.
#![tactic(auto)]

ghost use Rattle.std.specs.Prelude.{◌≡◌};
ghost use Rattle.envelope.specs.Layout.{tag_length};
ghost use Rattle.envelope.specs.Read.{read_header, read_parts, read_envelope, read_answer, header_part, metadata_part, cryptogram_part, tag_part};

use decimal::read_decimal;
use refusals::Refusal;

// The largest group, and the most bytes that metadata and message have.
pub const MAX_GROUP: u32 = 31;

pub const MAX_LENGTH: u32 = 16384;

pub const COMMA: u8 = b',';

// The letters: S for a message of SANSE, N for one of SANE, F for an old letter of the first version, which is read and never written. They stay
// bytes: C hands any byte to each call, and gets one, so that an enum would be made and undone in each, and say no more.
pub const LETTER_S: u8 = b'S';

pub const LETTER_N: u8 = b'N';

pub const LETTER_F: u8 = b'F';

// A header: letter, group, the lengths of metadata and message, and the place after it.
#[derive(Clone, Copy)]
pub struct Header {
    pub letter: u8,
    pub group: u32,
    pub alen: usize,
    pub mlen: usize,
    pub place: usize,
}

// Letter, group, where the parts of an envelope begin, and the place after it.
#[derive(Clone, Copy)]
pub struct Parts {
    pub letter: u8,
    pub group: u32,
    pub metadata: usize,
    pub cryptogram: usize,
    pub tag: usize,
    pub place: usize,
}

// The letter and the group of an envelope, and the place after it.
#[derive(Clone, Copy)]
pub struct Envelope {
    pub letter: u8,
    pub group: u32,
    pub place: usize,
}

// What C gets of reading: number 0 and the parts; or the number of the check that was met, and zeros.
#[repr(C)]
#[derive(Clone, Copy)]
pub struct ReadResult {
    pub number: u32,
    pub letter: u8,
    pub group: u32,
    pub metadata: usize,
    pub cryptogram: usize,
    pub tag: usize,
    pub place: usize,
}

impl From<Result<Parts, Refusal>> for ReadResult {
    ghost from_gives = { λ r a. a ≡ read_answer r };

    fn from(r: Result<Parts, Refusal>) -> ReadResult {
        match r {
            Ok(p) => ReadResult {
                number: 0,
                letter: p.letter,
                group: p.group,
                metadata: p.metadata,
                cryptogram: p.cryptogram,
                tag: p.tag,
                place: p.place,
            },
            Err(e) => ReadResult {
                number: u32::from(e),
                letter: 0,
                group: 0,
                metadata: 0,
                cryptogram: 0,
                tag: 0,
                place: 0,
            },
        }
    }
}

// How many bytes the tag has, by the letter; 0 for a byte that is no letter of an envelope.
#[tactic(auto, unfolding(crate::specs::Layout::tag_length))]
pub fn tag_len(letter: u8) -> usize
    ensures { result ≡ tag_length letter }
{
    match letter {
        LETTER_S => 32,
        LETTER_N | LETTER_F => 16,
        _ => 0,
    }
}

// The header at the start of some bytes. It may end early, and anything may follow it.
#[tactic(auto, unfolding(crate::specs::Read::read_header))]
pub fn read_header(s: &[u8]) -> Option<Header>
    ensures { result ≡ read_header s.now }
{
    let [letter, COMMA, ..] = *s else {
        return None;
    };
    if tag_len(letter) == 0 {
        return None;
    }
    let group = read_decimal(s, 2, MAX_GROUP, COMMA)?;
    let alen = read_decimal(s, group.next, MAX_LENGTH, COMMA)?;
    let mlen = read_decimal(s, alen.next, MAX_LENGTH, COMMA)?;
    Some(Header {
        letter,
        group: group.value,
        alen: alen.value as usize,
        mlen: mlen.value as usize,
        place: mlen.next,
    })
}

// The letter and the group of the envelope at the start of some bytes, where its parts begin, and where it ends. Refusals: 1 (no header stands
// there), 2 (too few bytes follow it).
#[tactic(auto, using(crate::proofs::PartSteps::small), unfolding(crate::specs::Read::read_parts, crate::specs::Read::parts_of))]
pub fn read_parts(s: &[u8]) -> Result<Parts, Refusal>
    ensures { result ≡ read_parts s.now }
{
    let h = read_header(s).ok_or(Refusal::BadHeader)?;
    let body = h.alen + h.mlen + tag_len(h.letter);
    if s.len() - h.place < body {
        return Err(Refusal::TooFewBytes);
    }
    let cryptogram = h.place + h.alen;
    Ok(Parts {
        letter: h.letter,
        group: h.group,
        metadata: h.place,
        cryptogram,
        tag: cryptogram + h.mlen,
        place: h.place + body,
    })
}

// Reads the envelope at the start of some bytes: its letter, its group and the place after it. Refusals: 1 and 2, as `read_parts`.
#[tactic(auto, unfolding(crate::specs::Read::read_envelope))]
pub fn read_envelope(s: &[u8]) -> Result<Envelope, Refusal>
    ensures { result ≡ read_envelope s.now }
{
    let p = read_parts(s)?;
    Ok(Envelope {
        letter: p.letter,
        group: p.group,
        place: p.place,
    })
}

// The header's bytes of the envelope at the start of some bytes, as a part of these; empty where it is refused. The three parts below are told in the
// same way by two places each; a function that is handed these would be no shorter.
#[tactic(auto, using(crate::proofs::Reading::in_order), unfolding(crate::specs::Read::header_part))]
pub fn header_bytes(s: &[u8]) -> &[u8]
    ensures { result.now ≡ header_part s.now }
{
    match read_parts(s) {
        Ok(p) => &s[..p.metadata],
        Err(_) => &[],
    }
}

// The metadata of the envelope at the start of some bytes, as a part of these; empty where it is refused.
#[tactic(auto, using(crate::proofs::Reading::in_order), unfolding(crate::specs::Read::metadata_part))]
pub fn metadata(s: &[u8]) -> &[u8]
    ensures { result.now ≡ metadata_part s.now }
{
    match read_parts(s) {
        Ok(p) => &s[p.metadata..p.cryptogram],
        Err(_) => &[],
    }
}

// The cryptogram of the envelope at the start of some bytes, as a part of these; empty where it is refused.
#[tactic(auto, using(crate::proofs::Reading::in_order), unfolding(crate::specs::Read::cryptogram_part))]
pub fn cryptogram(s: &[u8]) -> &[u8]
    ensures { result.now ≡ cryptogram_part s.now }
{
    match read_parts(s) {
        Ok(p) => &s[p.cryptogram..p.tag],
        Err(_) => &[],
    }
}

// The tag of the envelope at the start of some bytes, as a part of these; empty where it is refused.
#[tactic(auto, using(crate::proofs::Reading::in_order), unfolding(crate::specs::Read::tag_part))]
pub fn tag(s: &[u8]) -> &[u8]
    ensures { result.now ≡ tag_part s.now }
{
    match read_parts(s) {
        Ok(p) => &s[p.tag..p.place],
        Err(_) => &[],
    }
}
