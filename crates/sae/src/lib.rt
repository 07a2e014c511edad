// Farfalle-SAE over Xoofff by value (document 02, request 9): sessions that open old letters of the first version. Start and unwrap over a session record, and a
// wrap that is always refused. A refused call leaves the record and the buffers as they were; a refused start gives a closed record.
#![tactic(auto)]

ghost use Rattle.std.specs.Prelude.{◌≡◌};
ghost use Rattle.modes.specs.Mode.{incremental};
ghost use Rattle.modes.specs.Rules.{nonce_start_at};
ghost use Rattle.sae_mode.specs.Sae.{sae_parameters, sae_wrap_at, sae_unwrap_at};
ghost use Rattle.sae.specs.Session.{state_of, nonce_result, call_result, handed};

use deck::{Closing, DeckState};
use refusals::Refusal;
use steps::{CallResult, Lengths};

// A session of SAE, a type of its own: its history, which is the accumulator, the mask at the index and the input index; e, which no call alters; and whether
// it is open.
#[repr(C)]
#[derive(Clone, Copy)]
pub struct SaeSession {
    pub history: DeckState,
    pub toggle: bool,
    pub opened: bool,
}

// The bytes that follow the strings of A and of the cryptogram: their one frame bit, 0 or 1, and the padding bit.
const CLOSING_A: Closing = Closing { byte: 2 };

const CLOSING_C: Closing = Closing { byte: 3 };

// ---- the calls

// Opens a session under a key of 16 to 47 bytes, with the nonce of an old session, up to 16,384 bytes: a start of SANE, whose tag fills `tag`, which has 16 bytes.
// Checks 4, 6 and 7; a refused start gives a closed record: zero in all its numbers.
pub fn start(key: &[u8], nonce: &[u8], tag: &mut [u8]) -> CallResult<SaeSession>
    ensures { nonce_result result tag.new ≡ nonce_start_at sae_parameters key.now nonce.now tag.old }
{
    // from SANE's record to SAE's, which are types of their own for C
    let r = sane::start(key, nonce, tag);
    let left = SaeSession {
        history: r.left.history,
        toggle: r.left.toggle,
        opened: r.left.opened,
    };
    CallResult {
        number: r.number,
        count: r.count,
        left,
    }
}

// Unwraps a cryptogram: the message goes to the start of `out`. Checks 5 to 9, and 11 for a tag that differs, whose 16 bytes are all compared.
pub fn unwrap(
    s: SaeSession,
    metadata: &[u8],
    cryptogram: &[u8],
    tag: &[u8],
    out: &mut [u8],
) -> CallResult<SaeSession>
    ensures { call_result result out.new tag.now
        ≡ sae_unwrap_at incremental (state_of s) (handed metadata.now cryptogram.now out.old tag.now) }
{
    let n = cryptogram.len();
    let lengths = Lengths {
        string: metadata.len(),
        metadata: metadata.len(),
        text: n,
        tag: tag.len(),
        out: out.len(),
    };
    if let Err(e) = steps::check(s.opened, s.history.index, 16, lengths) {
        return steps::refused(e, 0, s);
    }
    let h = steps::append_metadata(s.history, &[], metadata, cryptogram, CLOSING_A, false);
    let c = steps::add_stream(s.history, 16, cryptogram, out, false);
    let mut found = [0u8; 16];
    let g = steps::finish(h.state, cryptogram, CLOSING_C, &mut found, false);
    let count = c + h.count + g.count;
    if steps::same_bytes(tag, &found) {
        let left = SaeSession {
            history: g.state,
            ..s
        };
        return CallResult {
            number: 0,
            count,
            left,
        };
    }
    steps::clear(out, n);
    steps::refused(Refusal::WrongTag, count, s)
}

// No session of SAE wraps: 18 before every other check, whatever the record and the buffers are.
pub fn wrap(
    s: SaeSession,
    metadata: &[u8],
    message: &[u8],
    out: &mut [u8],
    tag: &mut [u8],
) -> CallResult<SaeSession>
    ensures { call_result result out.new tag.new
        ≡ sae_wrap_at (state_of s) (handed metadata.now message.now out.old tag.old) }
{
    steps::refused(Refusal::ReadOnly, 0, s)
}
