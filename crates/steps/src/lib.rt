// Steps that session modes share: what a call gives, the checks, the strings that enter the history, tag and keystream, and the handling of buffers. A
// mode's closing bytes, the length of its tag and the offset of its keystream are parameters; so is, as `four`, whether full blocks are taken four
// side by side (document 02, request 10), of which no contract speaks: it alters nothing but the time. It stays a `bool`: a type parameter would stand in as
// many signatures, and each law of clauses (proofs/Contracts of the crates above) would have to be said of two instances.
#![tactic(auto)]

ghost use Rattle.std.specs.Prelude.{◌≡◌, not, ◌||◌, ◌++◌, ◌+◌, ◌≤◌, ◌<◌, cond, length, replicate, fold, bit_or, bit_xor};
ghost use Rattle.std.specs.List.{zip};
ghost use Rattle.refusals.specs.Numbers.{number_of, number_given};
ghost use Rattle.word.specs.Lists.{sum};
ghost use Rattle.deck.specs.Deck.{run};
ghost use Rattle.deck.specs.Incremental.{output};
ghost use Rattle.deck.specs.Closing.{closed_by};
ghost use Rattle.modes.specs.Mode.{is_empty};
ghost use Rattle.modes.specs.Rules.{growth, first_check_of, written, same_bytes};
ghost use Rattle.steps.specs.Steps.{compressed_if, output_count};

use deck::{Closing, DeckState};
use refusals::Refusal;
use xoofff::Compressed;

// ---- what a call gives

// What a call gives beside its buffers: its number (0: accepted), the permutations done, and the record after it. A number and no `Result`:
// `result_of` (session/specs/Lent) makes one of what C gets, and of that the demands over lent records speak; a refusal by 11 has a count too.
#[derive(Clone, Copy)]
pub struct CallResult<S> {
    pub number: u32,
    pub count: u32,
    pub left: S,
}

// What C gets of it: its number and the permutations done.
#[repr(C)]
#[derive(Clone, Copy)]
pub struct Answer {
    pub number: u32,
    pub count: u32,
}

// The record stays with the program.
impl<S: Copy> From<CallResult<S>> for Answer {
    ghost from_gives = { λ r a. a ≡ record { number = r.number; count = r.count } };

    fn from(r: CallResult<S>) -> Answer {
        Answer {
            number: r.number,
            count: r.count,
        }
    }
}

// What a call gives that a check stopped, after this many permutations.
pub fn refused<S>(e: Refusal, count: u32, left: S) -> CallResult<S>
    ensures { result ≡ record { number = number_of e; count = count; left = left } }
{
    CallResult {
        number: e.into(),
        count,
        left,
    }
}

// ---- checks 5 to 9

// The lengths that the checks go by: of A's string, of the metadata, of the text, of the tag and of the output buffer.
#[derive(Clone, Copy)]
pub struct Lengths {
    pub string: usize,
    pub metadata: usize,
    pub text: usize,
    pub tag: usize,
    pub out: usize,
}

// How far a call moves the index, by the lengths of A and of the text.
fn index_growth(alen: usize, mlen: usize) -> u64
    ensures { result ≡ growth alen mlen }
{
    let both = if mlen == 0 {
        alen / 48 + 2
    } else if alen == 0 {
        mlen / 48 + 2
    } else {
        alen / 48 + mlen / 48 + 4
    };
    both as u64
}

// The index after a call, by the index before it and the lengths of the string of A and of the text; in 64 bits, since a record may hold any index.
pub fn index_after(index: u32, alen: usize, mlen: usize) -> u64
    ensures { result ≡ index + growth alen mlen }
{
    index as u64 + index_growth(alen, mlen)
}

// The first of the checks 5 to 9 that is met: by whether the session is open, the index after the call, the length `wanted` of a tag in this mode,
// and the call's lengths.
pub fn first_check(opened: bool, index: u64, wanted: usize, n: Lengths) -> Result<(), Refusal>
    ensures { number_given result ≡ first_check_of opened index wanted n.metadata n.text n.tag n.out }
{
    if !opened {
        return Err(Refusal::NotOpen);
    }
    if 16384 < n.metadata || 16384 < n.text {
        return Err(Refusal::TooLong);
    }
    if n.tag != wanted {
        return Err(Refusal::BadTagLength);
    }
    if n.out < n.text {
        return Err(Refusal::NoRoom);
    }
    if 1048576 < index {
        return Err(Refusal::IndexFull);
    }
    Ok(())
}

// The same by the index before the call: 9 by the length of A's string, 6 by that of the metadata.
pub fn check(opened: bool, index: u32, wanted: usize, n: Lengths) -> Result<(), Refusal>
    ensures { number_given result ≡ first_check_of opened (index + growth n.string n.text) wanted n.metadata n.text n.tag n.out }
{
    first_check(opened, index_after(index, n.string, n.text), wanted, n)
}

// ---- the history

// The history gains A, which is the header's bytes `head` and then the metadata `a`, with this closing byte, if A is not empty or the text is. The
// metadata is read where it stands.
// That an index is within the limit is asked of each call, and is no invariant of `DeckState`: C lends sessions with any index, and check 9 comes first.
pub fn append_metadata(
    d: DeckState,
    head: &[u8],
    a: &[u8],
    m: &[u8],
    closing: Closing,
    four: bool,
) -> Compressed
    requires { (length head.now ≤ 17) × (length a.now ≤ 16384) × (d.index ≤ 1048576) }
    ensures gives { result ≡ compressed_if (not (is_empty (head.now ++ a.now)) || is_empty m.now) d
        (closed_by (head.now ++ a.now) closing.byte) }
    ensures few { result.count ≤ 16402 }
{
    if head.len() != 0 {
        joined::compress_joined(d, head, a, closing, four)
    } else if a.len() != 0 || m.len() == 0 {
        compress4::compress_by(d, a, closing, four)
    } else {
        Compressed { state: d, count: 0 }
    }
}

// The history gains a text, with this closing byte, if it is not empty.
pub fn append_text(d: DeckState, text: &[u8], closing: Closing, four: bool) -> Compressed
    requires { (length text.now ≤ 16401) × (d.index ≤ 1048576) }
    ensures gives { result ≡ compressed_if (not (is_empty text.now)) d (closed_by text.now closing.byte) }
    ensures few { result.count ≤ 16402 }
{
    if text.len() == 0 {
        return Compressed { state: d, count: 0 };
    }
    // not by `compress_by`: what it gives would be copied once more, 3 hundredths of a wrap of 64 bytes
    if four {
        return compress4::compress_four(d, text, closing);
    }
    xoofff::compress(d, text, closing)
}

// ---- tag and keystream

// Adds the output for a history to a buffer, from the output's byte `offset` on; gives the permutations done.
pub fn add_output(d: DeckState, offset: usize, buffer: &mut [u8], four: bool) -> u32
    requires { offset + length buffer.old ≤ 65536 }
    ensures adds { buffer.new ≡ sum buffer.old (run (output d) offset (length buffer.old)) }
    ensures counts { result ≡ output_count offset (length buffer.old) }
    ensures few { result ≤ 65537 }
{
    let y = xoodoo::permute(d.acc);
    expand4::expand_by(y, &d.mask, offset, buffer, four) + 1
}

// The tag of a history fills a buffer; gives the permutations done.
pub fn tag_of(d: DeckState, tag: &mut [u8]) -> u32
    requires { length tag.old ≤ 65536 }
    ensures fills { tag.new ≡ run (output d) 0 (length tag.old) }
    ensures counts { result ≡ output_count 0 (length tag.old) }
    ensures few { result ≤ 65537 }
{
    tag.fill(0);
    add_output(d, 0, tag, false)
}

// A text plus the keystream of a history from byte `offset` on goes to the start of a buffer; gives the permutations done.
pub fn add_keystream(d: DeckState, offset: usize, text: &[u8], out: &mut [u8], four: bool) -> u32
    requires { (offset + length text.now ≤ 65536) × (length text.now ≤ length out.old) }
    ensures adds { out.new ≡ written (sum text.now (run (output d) offset (length text.now))) out.old }
    ensures counts { result ≡ output_count offset (length text.now) }
    ensures few { result ≤ 65537 }
{
    let n = text.len();
    copy(text, out);
    add_output(d, offset, &mut out[..n], four)
}

// The same, and nothing done, for a text that may be empty.
pub fn add_stream(d: DeckState, offset: usize, text: &[u8], out: &mut [u8], four: bool) -> u32
    requires { (offset + length text.now ≤ 65536) × (length text.now ≤ length out.old) }
    ensures adds { out.new ≡ written (sum text.now (run (output d) offset (length text.now))) out.old }
    ensures counts { result ≡ cond (is_empty text.now) 0 (output_count offset (length text.now)) }
    ensures few { result ≤ 65537 }
{
    if text.len() == 0 {
        return 0;
    }
    add_keystream(d, offset, text, out, four)
}

// The history gains a text, with this closing byte, if it is not empty, and its tag fills a buffer; gives the history and the permutations done.
pub fn finish(d: DeckState, text: &[u8], closing: Closing, tag: &mut [u8], four: bool) -> Compressed
    requires { (length text.now ≤ 16401) × (length tag.old ≤ 65536) × (d.index ≤ 1048576) }
    ensures gains { result.state ≡ (compressed_if (not (is_empty text.now)) d (closed_by text.now closing.byte)).state }
    ensures fills { tag.new ≡ run (output result.state) 0 (length tag.old) }
    ensures counts { result.count ≡ (compressed_if (not (is_empty text.now)) d (closed_by text.now closing.byte)).count + output_count 0 (length tag.old) }
    ensures few { result.count ≤ 81939 }
{
    let h = append_text(d, text, closing, four);
    let count = h.count + tag_of(h.state, tag);
    Compressed { count, ..h }
}

// ---- buffers

// A text goes to the start of a buffer, and the rest is kept.
pub fn copy(text: &[u8], out: &mut [u8])
    requires { length text.now ≤ length out.old }
    ensures { out.new ≡ written text.now out.old }
{
    // no `copy_from_slice`: of two lent slices it needs the C library's `memmove`
    for (i, b) in text.iter().enumerate() {
        out[i] = *b;
    }
}

// The first n bytes of a buffer become zero, and the rest is kept.
pub fn clear(out: &mut [u8], n: usize)
    requires { n ≤ length out.old }
    ensures { out.new ≡ written (replicate n 0) out.old }
{
    out[..n].fill(0);
}

// The bits in which any two bytes differ that stand at one place. Every byte is read, whatever they are.
fn differing(a: &[u8], b: &[u8]) -> u8
    ensures { result ≡ fold (λ d p. bit_or d (bit_xor p.0 p.1)) 0 (zip a.now b.now) }
{
    a.iter().zip(b).fold(0, |d, (x, y)| d | (x ^ y))
}

// Whether two runs of bytes of one length are equal. Every byte is read, whatever they are.
pub fn same_bytes(a: &[u8], b: &[u8]) -> bool
    requires { length a.now ≡ length b.now }
    ensures { result ≡ same_bytes a.now b.now }
{
    differing(a, b) == 0
}
