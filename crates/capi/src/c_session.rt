// A lone session: one record, lent to each call.
ghost use Rattle.sanse.specs.Session.{handed, handed_for};
ghost use Rattle.session.specs.Lent.{Started, Wrapped, Unwrapped};

use sanse::Session;
use steps::Answer;

// Opens a session under a key of 16 to 47 bytes in the place of the record. Check 4; a refused start closes the record,
// and the session that it held is lost.
#[unsafe(no_mangle)]
pub extern "C" fn pevghazo_start(session: &mut Session, key: &[u8]) -> Answer
    ensures { Started key.now result session.new }
{
    session::start(session, key)
}

// Wraps a message: the cryptogram goes to the start of `out`, and the tag fills `tag`. Checks 5 to 9.
#[unsafe(no_mangle)]
pub extern "C" fn pevghazo_wrap(
    session: &mut Session,
    metadata: &[u8],
    message: &[u8],
    out: &mut [u8],
    tag: &mut [u8],
) -> Answer
    ensures { Wrapped session.old (handed metadata.now message.now out.old tag.old)
        result session.new out.new tag.new }
{
    session::wrap(session, metadata, message, out, tag, false)
}

// Unwraps a cryptogram: the message goes to the start of `out`. Checks 5 to 9 and 11.
#[unsafe(no_mangle)]
pub extern "C" fn pevghazo_unwrap(
    session: &mut Session,
    metadata: &[u8],
    cryptogram: &[u8],
    tag: &[u8],
    out: &mut [u8],
) -> Answer
    ensures { Unwrapped session.old (handed metadata.now cryptogram.now out.old tag.now)
        result session.new out.new tag.now }
{
    session::unwrap(session, metadata, cryptogram, tag, out, false)
}

// ---- calls for an envelope, whose header's bytes go before the metadata under the tag

// Wraps a message for the envelope with this header: one of the layout with letter S and the lengths of metadata and message, of any group. Check 1,
// and then 5 to 9.
#[unsafe(no_mangle)]
pub extern "C" fn pevghazo_wrap_envelope(
    session: &mut Session,
    header: &[u8],
    metadata: &[u8],
    message: &[u8],
    out: &mut [u8],
    tag: &mut [u8],
) -> Answer
    ensures { Wrapped session.old
        (handed_for header.now metadata.now message.now out.old tag.old) result
        session.new out.new tag.new }
{
    session::wrap_envelope(session, header, metadata, message, out, tag, false)
}

// Unwraps the cryptogram of the envelope with this header: the message goes to the start of `out`. Check 1, and then 5 to 9 and 11.
#[unsafe(no_mangle)]
pub extern "C" fn pevghazo_unwrap_envelope(
    session: &mut Session,
    header: &[u8],
    metadata: &[u8],
    cryptogram: &[u8],
    tag: &[u8],
    out: &mut [u8],
) -> Answer
    ensures { Unwrapped session.old
        (handed_for header.now metadata.now cryptogram.now out.old tag.now) result
        session.new out.new tag.now }
{
    session::unwrap_envelope(session, header, metadata, cryptogram, tag, out, false)
}

// ---- the same with full blocks taken four side by side (document 02, request 10): each has the contract of the function without `_four`, and alters
// nothing but the time

// Wraps a message, as `pevghazo_wrap` does.
#[unsafe(no_mangle)]
pub extern "C" fn pevghazo_wrap_four(
    session: &mut Session,
    metadata: &[u8],
    message: &[u8],
    out: &mut [u8],
    tag: &mut [u8],
) -> Answer
    ensures { Wrapped session.old (handed metadata.now message.now out.old tag.old)
        result session.new out.new tag.new }
{
    session::wrap(session, metadata, message, out, tag, true)
}

// Unwraps a cryptogram, as `pevghazo_unwrap` does.
#[unsafe(no_mangle)]
pub extern "C" fn pevghazo_unwrap_four(
    session: &mut Session,
    metadata: &[u8],
    cryptogram: &[u8],
    tag: &[u8],
    out: &mut [u8],
) -> Answer
    ensures { Unwrapped session.old (handed metadata.now cryptogram.now out.old tag.now)
        result session.new out.new tag.now }
{
    session::unwrap(session, metadata, cryptogram, tag, out, true)
}

// Wraps a message for the envelope with this header, as `pevghazo_wrap_envelope` does.
#[unsafe(no_mangle)]
pub extern "C" fn pevghazo_wrap_envelope_four(
    session: &mut Session,
    header: &[u8],
    metadata: &[u8],
    message: &[u8],
    out: &mut [u8],
    tag: &mut [u8],
) -> Answer
    ensures { Wrapped session.old
        (handed_for header.now metadata.now message.now out.old tag.old) result
        session.new out.new tag.new }
{
    session::wrap_envelope(session, header, metadata, message, out, tag, true)
}

// Unwraps the cryptogram of the envelope with this header, as `pevghazo_unwrap_envelope` does.
#[unsafe(no_mangle)]
pub extern "C" fn pevghazo_unwrap_envelope_four(
    session: &mut Session,
    header: &[u8],
    metadata: &[u8],
    cryptogram: &[u8],
    tag: &[u8],
    out: &mut [u8],
) -> Answer
    ensures { Unwrapped session.old
        (handed_for header.now metadata.now cryptogram.now out.old tag.now) result
        session.new out.new tag.now }
{
    session::unwrap_envelope(session, header, metadata, cryptogram, tag, out, true)
}
