// One more string of two runs of bytes, compressed where they stand: only the block in which they meet is assembled.
#![tactic(auto)]

ghost use Rattle.std.specs.Prelude.{◌≡◌, ◌++◌, ◌+◌, ◌≤◌, ◌<◌, length, get_or, take};
ghost use Rattle.deck.specs.Closing.{closed_by};
ghost use Rattle.xoofff.specs.Leaves.{compressed};

use deck::{Closing, DeckState};
use xoofff::Compressed;

// A block that begins with the first n bytes of `head` followed by `s`.
fn assemble(head: &[u8], s: &[u8], n: usize) -> [u8; 48]
    requires { (n ≤ 48) × (n ≤ length head.now + length s.now) }
    ensures { (length result ≡ 48) × (take n result ≡ take n (head.now ++ s.now)) }
{
    let h = head.len().min(n);
    let mut b = [0u8; 48];
    b[..h].copy_from_slice(&head[..h]);
    b[h..n].copy_from_slice(&s[..n - h]);
    b
}

// One more string, of the bytes of `head` followed by those of `s`, and this closing byte: the first block is assembled, and every other full
// block is read where it stands in `s`, four at a time where `four` says so.
pub fn compress_joined(
    d: DeckState,
    head: &[u8],
    s: &[u8],
    closing: Closing,
    four: bool,
) -> Compressed
    requires { (length head.now ≤ 48) × (length head.now + length s.now ≤ 16401) × (d.index ≤ 1048576) }
    ensures { result ≡ compressed d (closed_by (head.now ++ s.now) closing.byte) }
{
    let h = head.len();
    let n = h + s.len();
    if n < 48 {
        let b = assemble(head, s, n);
        return xoofff::compress(d, &b[..n], closing);
    }
    let b = assemble(head, s, 48);
    let x = state::from_bytes(&b);
    let added = xoofff::add_block(d.acc, d.mask, x);
    let rolled = rolling::roll_in(d.mask);
    let first = DeckState {
        acc: added,
        mask: rolled,
        index: d.index,
    };
    let rest = compress4::compress_by(first, &s[48 - h..], closing, four);
    let mut state = rest.state;
    state.index += 1;
    let count = rest.count + 1;
    Compressed { state, count }
}
