// Codes of packets, of a session that is lent to be read.
ghost use Rattle.codes.specs.Code.{Coded};

use sanse::Session;
use steps::Answer;

// The code of a packet, 0 to 2,047: 8 bytes at the start of `out`. Checks 5, 12 and 8, in this order. No session is altered.
#[unsafe(no_mangle)]
pub extern "C" fn pevghazo_code(session: &Session, packet: u32, out: &mut [u8]) -> Answer
    ensures { Coded session.now packet out.old result out.new }
{
    codes::code(session, packet, out)
}
