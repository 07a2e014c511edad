// Xoofff-SANE by value (document 02, request 2): start with a nonce, wrap and unwrap over a session record, without an envelope and for one, whose
// header is under the tag then (request 7). A refused call leaves the record and the buffers as they were; a refused start gives a closed record.
// `four` is whether full blocks are taken four side by side (request 10): it alters nothing but the time.
#![tactic(auto)]

ghost use Rattle.std.specs.Prelude.{◌≡◌, ◌&&◌, not, [], ◌∷◌, ◌≤◌, leb, length};
ghost use Rattle.refusals.specs.Numbers.{number_given};
ghost use Rattle.deck.specs.Closing.{closing_byte};
ghost use Rattle.modes.specs.Mode.{sane, sane_parameters, incremental};
ghost use Rattle.modes.specs.Rules.{wrap_from5, unwrap_from5, wrap_at, unwrap_at, nonce_check, nonce_start_at};
ghost use Rattle.sane.specs.Session.{state_of, nonce_result, call_result, handed, handed_for};

use deck::{Closing, DeckState};
use envelope::LETTER_N;
use refusals::Refusal;
use steps::{CallResult, Lengths};

// A session of SANE, a type of its own: its history, which is the accumulator, the mask at the index and the input index; e; and whether it is open.
#[repr(C)]
#[derive(Clone, Copy)]
pub struct SaneSession {
    pub history: DeckState,
    pub toggle: bool,
    pub opened: bool,
}

// ---- parts of the calls

// The byte that follows a string: its kind (0: A, 1: the cryptogram), e, and the padding bit.
#[tactic(auto, unfolding(deck::specs::Closing::closing_byte))]
fn closing(cryptogram: bool, e: bool) -> Closing
    ensures { result.byte ≡ closing_byte (cryptogram ∷ e ∷ []) }
{
    let byte = match (cryptogram, e) {
        (false, false) => 4,
        (true, false) => 5,
        (false, true) => 6,
        (true, true) => 7,
    };
    Closing { byte }
}

// The first of the checks 4, 6 and 7 that a start meets, by the lengths of key, nonce and tag buffer.
fn start_check(keylen: usize, noncelen: usize, taglen: usize) -> Result<(), Refusal>
    ensures { number_given result ≡ nonce_check (leb 16 keylen && leb keylen 47) 16 noncelen taglen }
{
    if keylen < 16 || 47 < keylen {
        return Err(Refusal::BadKey);
    }
    if 16384 < noncelen {
        return Err(Refusal::TooLong);
    }
    if taglen != 16 {
        return Err(Refusal::BadTagLength);
    }
    Ok(())
}

// What an accepted call gives, with this history in the session after it, and e changed.
fn accepted(count: u32, history: DeckState, s: SaneSession) -> CallResult<SaneSession>
    ensures { result ≡ record { number = 0; count = count; left = record { history = history; toggle = not s.toggle; opened = s.opened } } }
{
    let left = SaneSession {
        history,
        toggle: !s.toggle,
        ..s
    };
    CallResult {
        number: 0,
        count,
        left,
    }
}

// ---- the calls

// Opens a session under a key of 16 to 47 bytes, with a nonce of up to 16,384 bytes that was not used under this key before. The tag of the
// start fills `tag`, which has 16 bytes. Checks 4, 6 and 7; a refused start gives a closed record: zero in all its numbers.
pub fn start(key: &[u8], nonce: &[u8], tag: &mut [u8]) -> CallResult<SaneSession>
    ensures { nonce_result result tag.new ≡ nonce_start_at sane_parameters key.now nonce.now tag.old }
{
    let zero = DeckState {
        acc: [0; 12],
        mask: [0; 12],
        index: 0,
    };
    if let Err(e) = start_check(key.len(), nonce.len(), tag.len()) {
        let closed = SaneSession {
            history: zero,
            toggle: false,
            opened: false,
        };
        return steps::refused(e, 0, closed);
    }
    let empty = DeckState {
        mask: xoofff::key_mask(key),
        ..zero
    };
    let h = xoofff::compress(empty, nonce, Closing { byte: 1 });
    let t = steps::tag_of(h.state, tag);
    let left = SaneSession {
        history: h.state,
        toggle: false,
        opened: true,
    };
    CallResult {
        number: 0,
        count: 1 + h.count + t,
        left,
    }
}

// Wraps a message, where check 1 is not met: A is the header's bytes `head`, none for a call without an envelope, and then the metadata. Checks 5
// to 9.
pub fn wrap_string(
    s: SaneSession,
    head: &[u8],
    metadata: &[u8],
    message: &[u8],
    out: &mut [u8],
    tag: &mut [u8],
    four: bool,
) -> CallResult<SaneSession>
    requires { length head.now ≤ 17 }
    ensures { call_result result out.new tag.new
        ≡ wrap_from5 sane incremental (state_of s) (handed_for head.now metadata.now message.now out.old tag.old) }
{
    let n = message.len();
    let lengths = Lengths {
        string: head.len() + metadata.len(),
        metadata: metadata.len(),
        text: n,
        tag: tag.len(),
        out: out.len(),
    };
    if let Err(e) = steps::check(s.opened, s.history.index, 16, lengths) {
        return steps::refused(e, 0, s);
    }
    let e = s.toggle;
    let h = steps::append_metadata(s.history, head, metadata, message, closing(false, e), four);
    let c = steps::add_stream(s.history, 16, message, out, four);
    let g = steps::finish(h.state, &out[..n], closing(true, e), tag, four);
    accepted(c + h.count + g.count, g.state, s)
}

// Unwraps a cryptogram, where check 1 is not met, with A as in `wrap_string`. Checks 5 to 9, and 11 for a tag that differs, whose 16 bytes are all
// compared.
pub fn unwrap_string(
    s: SaneSession,
    head: &[u8],
    metadata: &[u8],
    cryptogram: &[u8],
    tag: &[u8],
    out: &mut [u8],
    four: bool,
) -> CallResult<SaneSession>
    requires { length head.now ≤ 17 }
    ensures { call_result result out.new tag.now
        ≡ unwrap_from5 sane incremental (state_of s) (handed_for head.now metadata.now cryptogram.now out.old tag.now) }
{
    let n = cryptogram.len();
    let lengths = Lengths {
        string: head.len() + metadata.len(),
        metadata: metadata.len(),
        text: n,
        tag: tag.len(),
        out: out.len(),
    };
    if let Err(e) = steps::check(s.opened, s.history.index, 16, lengths) {
        return steps::refused(e, 0, s);
    }
    let e = s.toggle;
    let h = steps::append_metadata(
        s.history,
        head,
        metadata,
        cryptogram,
        closing(false, e),
        four,
    );
    let c = steps::add_stream(s.history, 16, cryptogram, out, four);
    let mut found = [0u8; 16];
    let g = steps::finish(h.state, cryptogram, closing(true, e), &mut found, four);
    let count = c + h.count + g.count;
    if steps::same_bytes(tag, &found) {
        return accepted(count, g.state, s);
    }
    steps::clear(out, n);
    steps::refused(Refusal::WrongTag, count, s)
}

// ---- calls without an envelope

// Wraps a message: the cryptogram goes to the start of `out`, and the tag fills `tag`, which has 16 bytes. Checks 5 to 9.
pub fn wrap(
    s: SaneSession,
    metadata: &[u8],
    message: &[u8],
    out: &mut [u8],
    tag: &mut [u8],
    four: bool,
) -> CallResult<SaneSession>
    ensures { call_result result out.new tag.new
        ≡ wrap_at sane incremental (state_of s) (handed metadata.now message.now out.old tag.old) }
{
    wrap_string(s, &[], metadata, message, out, tag, four)
}

// Unwraps a cryptogram: the message goes to the start of `out`. Checks 5 to 9, and 11 for a tag that differs, whose 16 bytes are all compared.
pub fn unwrap(
    s: SaneSession,
    metadata: &[u8],
    cryptogram: &[u8],
    tag: &[u8],
    out: &mut [u8],
    four: bool,
) -> CallResult<SaneSession>
    ensures { call_result result out.new tag.now
        ≡ unwrap_at sane incremental (state_of s) (handed metadata.now cryptogram.now out.old tag.now) }
{
    unwrap_string(s, &[], metadata, cryptogram, tag, out, four)
}

// ---- calls for an envelope

// Wraps a message for the envelope with this header, whose bytes go before the metadata under the tag. Check 1 where the header is not the layout's
// with letter N and the lengths of metadata and message, and then as `wrap`.
pub fn wrap_envelope(
    s: SaneSession,
    header: &[u8],
    metadata: &[u8],
    message: &[u8],
    out: &mut [u8],
    tag: &mut [u8],
    four: bool,
) -> CallResult<SaneSession>
    ensures { call_result result out.new tag.new
        ≡ wrap_at sane incremental (state_of s) (handed_for header.now metadata.now message.now out.old tag.old) }
{
    if !headers::fits(LETTER_N, header, metadata.len(), message.len()) {
        return steps::refused(Refusal::BadHeader, 0, s);
    }
    wrap_string(s, header, metadata, message, out, tag, four)
}

// Unwraps the cryptogram of the envelope with this header. Check 1 where the header is not the layout's with letter N and the lengths of metadata
// and cryptogram, and then as `unwrap`.
pub fn unwrap_envelope(
    s: SaneSession,
    header: &[u8],
    metadata: &[u8],
    cryptogram: &[u8],
    tag: &[u8],
    out: &mut [u8],
    four: bool,
) -> CallResult<SaneSession>
    ensures { call_result result out.new tag.now
        ≡ unwrap_at sane incremental (state_of s) (handed_for header.now metadata.now cryptogram.now out.old tag.now) }
{
    if !headers::fits(LETTER_N, header, metadata.len(), cryptogram.len()) {
        return steps::refused(Refusal::BadHeader, 0, s);
    }
    unwrap_string(s, header, metadata, cryptogram, tag, out, four)
}
