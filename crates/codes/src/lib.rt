// Codes of packets: 8 bytes of the deck function of a session's history, by value and of a record that is lent to be read. No session is
// altered, and nothing is counted for a day.
#![tactic(auto)]

ghost use Rattle.std.specs.Prelude.{◌≡◌, ◌+◌, ◌*◌, ◌≤◌, length};
ghost use Rattle.refusals.specs.Numbers.{number_given};
ghost use Rattle.deck.specs.Deck.{run};
ghost use Rattle.deck.specs.Incremental.{output};
ghost use Rattle.modes.specs.Mode.{incremental};
ghost use Rattle.modes.specs.Rules.{written};
ghost use Rattle.modes.specs.Codes.{code_check, code_at};
ghost use Rattle.sanse.specs.Session.{state_of};
ghost use Rattle.codes.specs.Code.{code_result, Coded};

use deck::DeckState;
use refusals::Refusal;
use sanse::Session;
use steps::Answer;

// The first of the checks 5, 12 and 8 that is met, in this order: by whether the session is open, its index, the packet, and the length of the
// output buffer.
fn first_check(opened: bool, index: u32, packet: u32, outlen: usize) -> Result<(), Refusal>
    ensures { number_given result ≡ code_check opened index packet outlen }
{
    if !opened {
        return Err(Refusal::NotOpen);
    }
    if index == 0 || 2047 < packet {
        return Err(Refusal::NoCode); // no message was accepted yet, or there is no such packet
    }
    if outlen < 8 {
        return Err(Refusal::NoRoom);
    }
    Ok(())
}

// The code of a packet goes to the start of a buffer: 8 bytes of the output for a history, from byte 32 + 8 p on; gives the permutations done.
fn write_code(d: DeckState, packet: u32, out: &mut [u8]) -> u32
    requires { (packet ≤ 2047) × (8 ≤ length out.old) }
    ensures { (out.new ≡ written (run (output d) (32 + 8 * packet) 8) out.old) × (result ≡ 2) }
{
    let offset = 32 + 8 * (packet as usize);
    steps::add_keystream(d, offset, &[0; 8], out, false)
}

// The code of a packet, 0 to 2,047, of a session by value. Checks 5, 12 and 8.
pub fn code_of(s: Session, packet: u32, out: &mut [u8]) -> Answer
    ensures { code_result result out.new ≡ code_at incremental (state_of s) packet out.old }
{
    if let Err(e) = first_check(s.opened, s.history.index, packet, out.len()) {
        return Answer {
            number: e.into(),
            count: 0,
        };
    }
    let count = write_code(s.history, packet, out);
    Answer { number: 0, count }
}

// The same of a record that is lent to be read.
pub fn code(s: &Session, packet: u32, out: &mut [u8]) -> Answer
    ensures { Coded s.now packet out.old result out.new }
{
    code_of(*s, packet, out)
}
