// Old letters of the first version (document 02, request 9), Farfalle-SAE over Xoofff, over a lent record: start and unwrap, and wrap, which is refused,
// call the functions by value and store the session that they give. Held alone; the office's table has no such records, and there are no calls for
// an envelope: its header is not under the tag.
#![tactic(auto)]

ghost use Rattle.sae.specs.Session.{handed};
ghost use Rattle.sae_session.specs.Lent.{Started, Unwrapped, Wrapped};

use sae::SaeSession;
use steps::Answer;

// Opens a session in the place of the record, under a key of 16 to 47 bytes and with the nonce that the letters were made with, up to 16,384 bytes.
// The tag of the start fills `tag`, which has 16 bytes. Checks 4, 6 and 7; a refused start closes the record and keeps `tag`.
pub fn start(s: &mut SaeSession, key: &[u8], nonce: &[u8], tag: &mut [u8]) -> Answer
    ensures { Started key.now nonce.now tag.old result s.new tag.new }
{
    let r = sae::start(key, nonce, tag);
    *s = r.left;
    r.into()
}

// Opens the next letter: the message goes to the start of `out`. Checks 5 to 9 and 11.
pub fn unwrap(
    s: &mut SaeSession,
    metadata: &[u8],
    cryptogram: &[u8],
    tag: &[u8],
    out: &mut [u8],
) -> Answer
    ensures { Unwrapped s.old (handed metadata.now cryptogram.now out.old tag.now)
        result s.new out.new tag.now }
{
    let r = sae::unwrap(*s, metadata, cryptogram, tag, out);
    *s = r.left;
    r.into()
}

// No letter is made: 18, whatever the record and the rest, and nothing is altered.
pub fn wrap(
    s: &mut SaeSession,
    metadata: &[u8],
    message: &[u8],
    out: &mut [u8],
    tag: &mut [u8],
) -> Answer
    ensures { Wrapped s.old (handed metadata.now message.now out.old tag.old)
        result s.new out.new tag.new }
{
    let r = sae::wrap(*s, metadata, message, out, tag);
    *s = r.left;
    r.into()
}
