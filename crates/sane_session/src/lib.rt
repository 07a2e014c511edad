// Xoofff-SANE over a lent record: start, and wrap and unwrap without an envelope and for one, call the functions by value and store the session that
// they give. Held alone; the office's table has no such records. `four` is whether full blocks are taken four side by side (document 02, request
// 10): it alters nothing but the time, and no clause speaks of it.
#![tactic(auto)]

ghost use Rattle.sane.specs.Session.{handed, handed_for};
ghost use Rattle.sane_session.specs.Lent.{Started, Wrapped, Unwrapped};

use sane::SaneSession;
use steps::Answer;

// Opens a session in the place of the record, under a key of 16 to 47 bytes and with a nonce of up to 16,384 bytes that was not used under this
// key before. The tag of the start fills `tag`, which has 16 bytes. Checks 4, 6 and 7; a refused start closes the record and keeps `tag`.
pub fn start(s: &mut SaneSession, key: &[u8], nonce: &[u8], tag: &mut [u8]) -> Answer
    ensures { Started key.now nonce.now tag.old result s.new tag.new }
{
    let r = sane::start(key, nonce, tag);
    *s = r.left;
    r.into()
}

// Wraps a message: the cryptogram goes to the start of `out`, and the tag fills `tag`. Checks 5 to 9.
pub fn wrap(
    s: &mut SaneSession,
    metadata: &[u8],
    message: &[u8],
    out: &mut [u8],
    tag: &mut [u8],
    four: bool,
) -> Answer
    ensures { Wrapped s.old (handed metadata.now message.now out.old tag.old)
        result s.new out.new tag.new }
{
    let r = sane::wrap(*s, metadata, message, out, tag, four);
    *s = r.left;
    r.into()
}

// Unwraps a cryptogram: the message goes to the start of `out`. Checks 5 to 9 and 11.
pub fn unwrap(
    s: &mut SaneSession,
    metadata: &[u8],
    cryptogram: &[u8],
    tag: &[u8],
    out: &mut [u8],
    four: bool,
) -> Answer
    ensures { Unwrapped s.old (handed metadata.now cryptogram.now out.old tag.now)
        result s.new out.new tag.now }
{
    let r = sane::unwrap(*s, metadata, cryptogram, tag, out, four);
    *s = r.left;
    r.into()
}

// ---- calls for an envelope

// Wraps a message for the envelope with this header, whose bytes go before the metadata under the tag. Check 1 where the header is not the layout's
// with letter N and the lengths of metadata and message, and then as `wrap`.
pub fn wrap_envelope(
    s: &mut SaneSession,
    header: &[u8],
    metadata: &[u8],
    message: &[u8],
    out: &mut [u8],
    tag: &mut [u8],
    four: bool,
) -> Answer
    ensures { Wrapped s.old
        (handed_for header.now metadata.now message.now out.old tag.old)
        result s.new out.new tag.new }
{
    let r = sane::wrap_envelope(*s, header, metadata, message, out, tag, four);
    *s = r.left;
    r.into()
}

// Unwraps the cryptogram of the envelope with this header. Check 1 where the header is not the layout's with letter N and the lengths of metadata
// and cryptogram, and then as `unwrap`.
pub fn unwrap_envelope(
    s: &mut SaneSession,
    header: &[u8],
    metadata: &[u8],
    cryptogram: &[u8],
    tag: &[u8],
    out: &mut [u8],
    four: bool,
) -> Answer
    ensures { Unwrapped s.old
        (handed_for header.now metadata.now cryptogram.now out.old tag.now)
        result s.new out.new tag.now }
{
    let r = sane::unwrap_envelope(*s, header, metadata, cryptogram, tag, out, four);
    *s = r.left;
    r.into()
}
