// Xoofff-SANSE by value: start, wrap and unwrap over a session record, without an envelope and for one, whose header is under the tag then
// (document 02, request 7). A refused call leaves the record and the buffers as they were. `four` is whether full blocks are taken four
// side by side (request 10): it alters nothing but the time.
#![tactic(auto)]

ghost use Rattle.std.specs.Prelude.{◌≡◌, false, true, not, cond, [], ◌∷◌, ◌+◌, ◌≤◌, ◌<◌, length};
ghost use Rattle.word.specs.Lists.{sum};
ghost use Rattle.deck.specs.Strings.{b};
ghost use Rattle.deck.specs.Deck.{run};
ghost use Rattle.deck.specs.Incremental.{append, output};
ghost use Rattle.deck.specs.Closing.{closing_byte, closed_by};
ghost use Rattle.modes.specs.Mode.{sanse, incremental, is_empty};
ghost use Rattle.modes.specs.Rules.{written, wrap_from5, unwrap_from5, wrap_at, unwrap_at, start_at};
ghost use Rattle.steps.specs.Steps.{output_count};
ghost use Rattle.sanse.specs.Session.{state_of, start_result, call_result, handed, handed_for};

use deck::{Closing, DeckState};
use envelope::LETTER_S;
use refusals::Refusal;
use steps::{CallResult, Lengths};

// A session: its history, which is the accumulator, the mask at the index and the input index; e; and whether it is open.
// SANE's and SAE's sessions have the same fields in types of their own, which C's compiler tells apart.
#[repr(C)]
#[derive(Clone, Copy)]
pub struct Session {
    pub history: DeckState,
    pub toggle: bool,
    pub opened: bool,
}

// ---- the bytes that follow a string: its frame bits and the padding bit. One fold over any bits would be no plainer than these values

// After A: 0, e.
#[tactic(auto, unfolding(deck::specs::Closing::closing_byte))]
fn closing_a(e: bool) -> Closing
    ensures { result.byte ≡ closing_byte (false ∷ e ∷ []) }
{
    Closing {
        byte: if e { 6 } else { 4 },
    }
}

// After M: 0, 1, e.
#[tactic(auto, unfolding(deck::specs::Closing::closing_byte))]
fn closing_m(e: bool) -> Closing
    ensures { result.byte ≡ closing_byte (false ∷ true ∷ e ∷ []) }
{
    Closing {
        byte: if e { 14 } else { 10 },
    }
}

// After T: 1, 1, e.
#[tactic(auto, unfolding(deck::specs::Closing::closing_byte))]
fn closing_t(e: bool) -> Closing
    ensures { result.byte ≡ closing_byte (true ∷ true ∷ e ∷ []) }
{
    Closing {
        byte: if e { 15 } else { 11 },
    }
}

// ---- parts of the calls

// A text plus the keystream of the history with the tag goes to the start of a buffer; gives the permutations done, none for an empty text.
fn add_body(
    d: DeckState,
    text: &[u8],
    tag: &[u8],
    closing: Closing,
    out: &mut [u8],
    four: bool,
) -> u32
    requires { (length tag.now ≤ 16401) × (d.index ≤ 1048576) × (length text.now ≤ 16384) × (length text.now ≤ length out.old) }
    ensures adds { out.new ≡ written (sum text.now (run (output (append d (closed_by tag.now closing.byte))) 0 (length text.now))) out.old }
    ensures counts { result ≡ cond (is_empty text.now) 0 (b (length tag.now) + output_count 0 (length text.now)) }
    ensures few { result ≤ 81939 }
{
    if text.len() == 0 {
        return 0;
    }
    let h = xoofff::compress(d, tag, closing);
    h.count + steps::add_keystream(h.state, 0, text, out, four)
}

// What an accepted call gives, with this history in the session after it, and e changed.
fn accepted(count: u32, history: DeckState, s: Session) -> CallResult<Session>
    ensures { result ≡ record { number = 0; count = count; left = record { history = history; toggle = not s.toggle; opened = s.opened } } }
{
    let left = Session {
        history,
        toggle: !s.toggle,
        ..s
    };
    CallResult {
        number: 0,
        count,
        left,
    }
}

// ---- the calls

// Opens a session under a key of 16 to 47 bytes. Another length is refused by 4, with a closed record: zero in all its numbers.
#[tactic(auto, unfolding(modes::specs::Rules::start_at))]
pub fn start(key: &[u8]) -> CallResult<Session>
    ensures { start_result result ≡ start_at key.now }
{
    let zero = DeckState {
        acc: [0; 12],
        mask: [0; 12],
        index: 0,
    };
    if key.len() < 16 || 47 < key.len() {
        let closed = Session {
            history: zero,
            toggle: false,
            opened: false,
        };
        return steps::refused(Refusal::BadKey, 0, closed);
    }
    let left = Session {
        history: DeckState {
            mask: xoofff::key_mask(key),
            ..zero
        },
        toggle: false,
        opened: true,
    };
    CallResult {
        number: 0,
        count: 1,
        left,
    }
}

// Wraps a message, where check 1 is not met: A is the header's bytes `head`, none for a call without an envelope, and then the metadata. Checks 5
// to 9.
pub fn wrap_string(
    s: Session,
    head: &[u8],
    metadata: &[u8],
    message: &[u8],
    out: &mut [u8],
    tag: &mut [u8],
    four: bool,
) -> CallResult<Session>
    requires { length head.now ≤ 17 }
    ensures { call_result result
        out.new tag.new ≡ wrap_from5 sanse incremental (state_of s) (handed_for head.now metadata.now message.now out.old tag.old) }
{
    let lengths = Lengths {
        string: head.len() + metadata.len(),
        metadata: metadata.len(),
        text: message.len(),
        tag: tag.len(),
        out: out.len(),
    };
    if let Err(e) = steps::check(s.opened, s.history.index, 32, lengths) {
        return steps::refused(e, 0, s);
    }
    let e = s.toggle;
    let h = steps::append_metadata(s.history, head, metadata, message, closing_a(e), four);
    let g = steps::append_text(h.state, message, closing_m(e), four);
    let t = steps::tag_of(g.state, tag);
    let c = add_body(h.state, message, tag, closing_t(e), out, four);
    accepted(h.count + g.count + t + c, g.state, s)
}

// Unwraps a cryptogram, where check 1 is not met, with A as in `wrap_string`. Checks 5 to 9, and 11 for a tag that differs, whose 32 bytes are all
// compared.
pub fn unwrap_string(
    s: Session,
    head: &[u8],
    metadata: &[u8],
    cryptogram: &[u8],
    tag: &[u8],
    out: &mut [u8],
    four: bool,
) -> CallResult<Session>
    requires { length head.now ≤ 17 }
    ensures { call_result result
        out.new tag.now ≡ unwrap_from5 sanse incremental (state_of s) (handed_for head.now metadata.now cryptogram.now out.old tag.now) }
{
    let n = cryptogram.len();
    let lengths = Lengths {
        string: head.len() + metadata.len(),
        metadata: metadata.len(),
        text: n,
        tag: tag.len(),
        out: out.len(),
    };
    if let Err(e) = steps::check(s.opened, s.history.index, 32, lengths) {
        return steps::refused(e, 0, s);
    }
    let e = s.toggle;
    let h = steps::append_metadata(s.history, head, metadata, cryptogram, closing_a(e), four);
    let c = add_body(h.state, cryptogram, tag, closing_t(e), out, four);
    let g = steps::append_text(h.state, &out[..n], closing_m(e), four);
    let mut found = [0u8; 32];
    let t = steps::tag_of(g.state, &mut found);
    let count = h.count + g.count + t + c;
    if steps::same_bytes(tag, &found) {
        return accepted(count, g.state, s);
    }
    steps::clear(out, n);
    steps::refused(Refusal::WrongTag, count, s)
}

// ---- calls without an envelope

// Wraps a message: the cryptogram goes to the start of `out`, and the tag fills `tag`, which has 32 bytes. Checks 5 to 9.
pub fn wrap(
    s: Session,
    metadata: &[u8],
    message: &[u8],
    out: &mut [u8],
    tag: &mut [u8],
    four: bool,
) -> CallResult<Session>
    ensures { call_result result out.new tag.new
        ≡ wrap_at sanse incremental (state_of s) (handed metadata.now message.now out.old tag.old) }
{
    wrap_string(s, &[], metadata, message, out, tag, four)
}

// Unwraps a cryptogram: the message goes to the start of `out`. Checks 5 to 9, and 11 for a tag that differs, whose 32 bytes are all compared.
pub fn unwrap(
    s: Session,
    metadata: &[u8],
    cryptogram: &[u8],
    tag: &[u8],
    out: &mut [u8],
    four: bool,
) -> CallResult<Session>
    ensures { call_result result out.new tag.now
        ≡ unwrap_at sanse incremental (state_of s) (handed metadata.now cryptogram.now out.old tag.now) }
{
    unwrap_string(s, &[], metadata, cryptogram, tag, out, four)
}

// ---- calls for an envelope

// Wraps a message for the envelope with this header, whose bytes go before the metadata under the tag. Check 1 where the header is not the layout's
// with letter S and the lengths of metadata and message, and then as `wrap`.
pub fn wrap_envelope(
    s: Session,
    header: &[u8],
    metadata: &[u8],
    message: &[u8],
    out: &mut [u8],
    tag: &mut [u8],
    four: bool,
) -> CallResult<Session>
    ensures { call_result result
        out.new tag.new ≡ wrap_at sanse incremental (state_of s) (handed_for header.now metadata.now message.now out.old tag.old) }
{
    if !headers::fits(LETTER_S, header, metadata.len(), message.len()) {
        return steps::refused(Refusal::BadHeader, 0, s);
    }
    wrap_string(s, header, metadata, message, out, tag, four)
}

// Unwraps the cryptogram of the envelope with this header. Check 1 where the header is not the layout's with letter S and the lengths of metadata
// and cryptogram, and then as `unwrap`.
pub fn unwrap_envelope(
    s: Session,
    header: &[u8],
    metadata: &[u8],
    cryptogram: &[u8],
    tag: &[u8],
    out: &mut [u8],
    four: bool,
) -> CallResult<Session>
    ensures { call_result result
        out.new tag.now ≡ unwrap_at sanse incremental (state_of s) (handed_for header.now metadata.now cryptogram.now out.old tag.now) }
{
    if !headers::fits(LETTER_S, header, metadata.len(), cryptogram.len()) {
        return steps::refused(Refusal::BadHeader, 0, s);
    }
    unwrap_string(s, header, metadata, cryptogram, tag, out, four)
}
