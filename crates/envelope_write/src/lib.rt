// Writes envelopes (document 01, "Envelope", and document 02, request 2), and headers alone (request 7), to the start of a lent buffer, but none with the
// letter F (request 9). A refusal is a check of document 01's "What stops a call". specs/Write.antt says what is written; that reading gives it back is
// shown in proofs/RoundTrip.antt.
#![tactic(auto)]

ghost use Rattle.std.specs.Prelude.{◌≡◌, ℕ, ◌≤◌, length, MatchResult};
ghost use Rattle.refusals.specs.Numbers.{number_of};
ghost use Rattle.decimal.specs.Buffer.{written_at};
ghost use Rattle.envelope.specs.Layout.{field, header};
ghost use Rattle.envelope_write.specs.Checks.{ToWrite};
ghost use Rattle.envelope_write.specs.Write.{range_then, write_result, write_answer, write_buffer, header_answer, header_buffer};

use decimal::{decimal_len, write_decimal};
use envelope::{COMMA, LETTER_F, MAX_GROUP, MAX_LENGTH, tag_len};
use refusals::Refusal;

// What C gets of writing: the number of the check that was met, or 0, and how many bytes were written.
#[repr(C)]
#[derive(Clone, Copy)]
pub struct WriteResult {
    pub number: u32,
    pub len: usize,
}

impl From<Result<usize, Refusal>> for WriteResult {
    ghost from_gives = { λ r w. w ≡ write_result r };

    fn from(r: Result<usize, Refusal>) -> WriteResult {
        match r {
            Ok(len) => WriteResult { number: 0, len },
            Err(e) => WriteResult {
                number: u32::from(e),
                len: 0,
            },
        }
    }
}

// Writes bytes to the start of a buffer that has room for them, and gives how many.
fn put(src: &[u8], out: &mut [u8]) -> usize
    requires { length src.now ≤ length out.old }
    ensures { (result ≡ length src.now) × (out.new ≡ written_at out.old 0 src.now) }
{
    // no `copy_from_slice`: of two lent slices it needs the C library's `memmove`
    for (i, b) in src.iter().enumerate() {
        out[i] = *b;
    }
    src.len()
}

// Writes a number of the header and its comma to the start of a buffer that has room for them, and gives how many bytes that are.
#[tactic(auto, using(crate::proofs::WriteSteps::lengths))]
fn write_field(n: u32, out: &mut [u8]) -> usize
    requires { length (field n) ≤ length out.old }
    ensures { (result ≡ length (field n)) × (out.new ≡ written_at out.old 0 (field n)) }
{
    let len = write_decimal(n, out, 0);
    out[len] = COMMA;
    len + 1
}

// How many bytes a header has, whatever its letter.
#[tactic(auto, using(crate::proofs::WriteSteps::lengths))]
pub fn header_len(group: u32, alen: u32, mlen: u32) -> usize
    ensures { (letter : ℕ) → result ≡ length (header letter group alen mlen) }
{
    5 + decimal_len(group) + decimal_len(alen) + decimal_len(mlen)
}

// A header that can be written: letter, group, and the lengths of metadata and message, each within its range.
#[derive(Clone, Copy)]
struct Fields {
    letter: u8,
    group: u32,
    alen: u32,
    mlen: u32,
    ghost to_write: { ToWrite letter group alen mlen },
}

impl Fields {
    // These as a header; or the first of the checks 18, 1, 3 and 6 that they meet.
    #[tactic(auto, unfolding(crate::specs::Write::range_then))]
    fn new(letter: u8, group: u32, alen: usize, mlen: usize) -> Result<Fields, Refusal>
        ensures { MatchResult result
            (λ h. (h.letter ≡ letter) × (h.group ≡ group) × (h.alen ≡ alen) × (h.mlen ≡ mlen))
            (λ e. number_of e ≡ range_then letter group alen mlen 0) }
    {
        if letter == LETTER_F {
            return Err(Refusal::ReadOnly);
        }
        if tag_len(letter) == 0 {
            return Err(Refusal::BadHeader);
        }
        if group > MAX_GROUP {
            return Err(Refusal::BadGroup);
        }
        if alen > MAX_LENGTH as usize || mlen > MAX_LENGTH as usize {
            return Err(Refusal::TooLong);
        }
        Ok(Fields {
            letter,
            group,
            alen: alen as u32,
            mlen: mlen as u32,
        })
    }

    // How many bytes the header has.
    fn len(self) -> usize
        ensures { result ≡ length (header self.letter self.group self.alen self.mlen) }
    {
        header_len(self.group, self.alen, self.mlen)
    }

    // Writes the header to the start of a buffer that has room for it, and gives the place after it.
    #[tactic(auto, using(crate::proofs::WriteSteps::lengths))]
    fn put(self, out: &mut [u8]) -> usize
        requires { length (header self.letter self.group self.alen self.mlen) ≤ length out.old }
        ensures { (result ≡ length (header self.letter self.group self.alen self.mlen))
            × (out.new ≡ written_at out.old 0 (header self.letter self.group self.alen self.mlen)) }
    {
        out[0] = self.letter;
        out[1] = COMMA;
        let p = 2 + write_field(self.group, &mut out[2..]);
        let q = p + write_field(self.alen, &mut out[p..]);
        q + write_field(self.mlen, &mut out[q..])
    }
}

// Writes a header alone to the start of a buffer and gives how many bytes that are; the rest of the buffer is kept. Refusals: 18 (the letter is F), 1 (it
// is neither S nor N), 3 (the group), 6 (a length is above 16,384), 8 (the buffer is shorter than the header); then the buffer is unaltered.
pub fn write_header(
    letter: u8,
    group: u32,
    alen: usize,
    mlen: usize,
    out: &mut [u8],
) -> Result<usize, Refusal>
    ensures { (write_result result ≡ header_answer letter group alen mlen out.old)
        × (out.new ≡ header_buffer letter group alen mlen out.old) }
{
    let h = Fields::new(letter, group, alen, mlen)?;
    if out.len() < h.len() {
        return Err(Refusal::NoRoom);
    }
    Ok(h.put(out))
}

// Writes an envelope to the start of a buffer and gives how many bytes that are; the rest of the buffer is kept. Refusals: 18 (the letter is F), 1 (it is
// neither S nor N), 3 (the group), 6 (metadata or cryptogram too long), 7 (the tag has not the letter's length: 32 bytes for S, 16 for N), 8 (the
// buffer is shorter than the envelope); then the buffer is unaltered.
#[tactic(auto, using(crate::proofs::WriteSteps::lengths))]
pub fn write_envelope(
    letter: u8,
    group: u32,
    metadata: &[u8],
    cryptogram: &[u8],
    tag: &[u8],
    out: &mut [u8],
) -> Result<usize, Refusal>
    ensures { (write_result result ≡ write_answer letter group metadata.now cryptogram.now tag.now out.old)
        × (out.new ≡ write_buffer letter group metadata.now cryptogram.now tag.now out.old) }
{
    let h = Fields::new(letter, group, metadata.len(), cryptogram.len())?;
    if tag.len() != tag_len(letter) {
        return Err(Refusal::BadTagLength);
    }
    if out.len() < h.len() + metadata.len() + cryptogram.len() + tag.len() {
        return Err(Refusal::NoRoom);
    }
    let p = h.put(out);
    let q = p + put(metadata, &mut out[p..]);
    let r = q + put(cryptogram, &mut out[q..]);
    Ok(r + put(tag, &mut out[r..]))
}
