// Xoofff-SANSE over a lent record: start, wrap and unwrap, without an envelope and for one, call the functions by value and store the session that
// they give. `four` is whether full blocks are taken four side by side (document 02, request 10): it alters nothing but the time, and no clause
// speaks of it. SANE's and SAE's records have functions of their own (`sane_session`, `sae_session`): their promises name other rules, and a generic
// function would share two lines.
#![tactic(auto)]

ghost use Rattle.sanse.specs.Session.{handed, handed_for};
ghost use Rattle.session.specs.Lent.{Started, Wrapped, Unwrapped};

use sanse::Session;
use steps::Answer;

// Opens a session under a key of 16 to 47 bytes in the place of the record. Another length is refused by 4, and the record is closed then.
pub fn start(s: &mut Session, key: &[u8]) -> Answer
    ensures { Started key.now result s.new }
{
    let r = sanse::start(key);
    *s = r.left;
    r.into()
}

// Wraps a message: the cryptogram goes to the start of `out`, and the tag fills `tag`. Checks 5 to 9.
pub fn wrap(
    s: &mut Session,
    metadata: &[u8],
    message: &[u8],
    out: &mut [u8],
    tag: &mut [u8],
    four: bool,
) -> Answer
    ensures { Wrapped s.old (handed metadata.now message.now out.old tag.old)
        result s.new out.new tag.new }
{
    let r = sanse::wrap(*s, metadata, message, out, tag, four);
    *s = r.left;
    r.into()
}

// Unwraps a cryptogram: the message goes to the start of `out`. Checks 5 to 9 and 11.
pub fn unwrap(
    s: &mut Session,
    metadata: &[u8],
    cryptogram: &[u8],
    tag: &[u8],
    out: &mut [u8],
    four: bool,
) -> Answer
    ensures { Unwrapped s.old (handed metadata.now cryptogram.now out.old tag.now)
        result s.new out.new tag.now }
{
    let r = sanse::unwrap(*s, metadata, cryptogram, tag, out, four);
    *s = r.left;
    r.into()
}

// ---- calls for an envelope

// Wraps a message for the envelope with this header, which must be the layout's with letter S and the lengths of metadata and message: the header's
// bytes and then the metadata are under the tag. Check 1, and then 5 to 9.
pub fn wrap_envelope(
    s: &mut Session,
    header: &[u8],
    metadata: &[u8],
    message: &[u8],
    out: &mut [u8],
    tag: &mut [u8],
    four: bool,
) -> Answer
    ensures { Wrapped s.old
        (handed_for header.now metadata.now message.now out.old tag.old)
        result s.new out.new tag.new }
{
    let r = sanse::wrap_envelope(*s, header, metadata, message, out, tag, four);
    *s = r.left;
    r.into()
}

// Unwraps the cryptogram of the envelope with this header. Check 1, and then 5 to 9 and 11.
pub fn unwrap_envelope(
    s: &mut Session,
    header: &[u8],
    metadata: &[u8],
    cryptogram: &[u8],
    tag: &[u8],
    out: &mut [u8],
    four: bool,
) -> Answer
    ensures { Unwrapped s.old
        (handed_for header.now metadata.now cryptogram.now out.old tag.now)
        result s.new out.new tag.now }
{
    let r = sanse::unwrap_envelope(*s, header, metadata, cryptogram, tag, out, four);
    *s = r.left;
    r.into()
}
