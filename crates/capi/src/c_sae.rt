// A lone session of SAE, for old letters: one record of a type of its own, lent to each call.
ghost use Rattle.sae.specs.Session.{handed};
ghost use Rattle.sae_session.specs.Lent.{Started, Unwrapped, Wrapped};

use sae::SaeSession;
use steps::Answer;

// Opens a session in the place of the record, under a key of 16 to 47 bytes and with the nonce that the letters were made with; the tag of the start
// fills `tag`. Checks 4, 6 and 7; a refused start closes the record, and the session that it held is lost.
#[unsafe(no_mangle)]
pub extern "C" fn pevghazo_sae_start(
    session: &mut SaeSession,
    key: &[u8],
    nonce: &[u8],
    tag: &mut [u8],
) -> Answer
    ensures { Started key.now nonce.now tag.old result session.new tag.new }
{
    sae_session::start(session, key, nonce, tag)
}

// Opens the next letter: the message goes to the start of `out`. Checks 5 to 9 and 11.
#[unsafe(no_mangle)]
pub extern "C" fn pevghazo_sae_unwrap(
    session: &mut SaeSession,
    metadata: &[u8],
    cryptogram: &[u8],
    tag: &[u8],
    out: &mut [u8],
) -> Answer
    ensures { Unwrapped session.old (handed metadata.now cryptogram.now out.old tag.now)
        result session.new out.new tag.now }
{
    sae_session::unwrap(session, metadata, cryptogram, tag, out)
}

// No letter is made: 18, whatever the record and the rest, and nothing is altered.
#[unsafe(no_mangle)]
pub extern "C" fn pevghazo_sae_wrap(
    session: &mut SaeSession,
    metadata: &[u8],
    message: &[u8],
    out: &mut [u8],
    tag: &mut [u8],
) -> Answer
    ensures { Wrapped session.old (handed metadata.now message.now out.old tag.old)
        result session.new out.new tag.new }
{
    sae_session::wrap(session, metadata, message, out, tag)
}
