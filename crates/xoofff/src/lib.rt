// The deck function Xoofff, incremental: the leaves that compress a string and expand the output.
#![tactic(auto)]

ghost use Rattle.std.specs.Prelude.{◌≡◌, ◌+◌, ◌-◌, ◌/◌, ◌≤◌, ◌<◌, min, length, get_or};
ghost use Rattle.word.specs.Lists.{sum};
ghost use Rattle.state.specs.Bytes.{state_byte};
ghost use Rattle.xoodoo.specs.Xoodoo.{perm};
ghost use Rattle.rolling.specs.Rolling.{roll_out};
ghost use Rattle.deck.specs.Strings.{block};
ghost use Rattle.deck.specs.Deck.{iterate, key_mask, output_byte, run};
ghost use Rattle.deck.specs.Closing.{closed_by};
ghost use Rattle.xoofff.specs.Leaves.{compressed, output_blocks, Added};

use deck::{Closing, DeckState};

// The state after one more string, and the permutations done for it.
#[derive(Clone, Copy)]
pub struct Compressed {
    pub state: DeckState,
    pub count: u32,
}

// The last block of the string of these bytes and this closing byte: the bytes behind the full blocks, the closing byte, and zeros.
fn last_block(s: &[u8], closing: Closing) -> [u32; 12]
    ensures { result ≡ block (closed_by s.now closing.byte) (length s.now / 48) }
{
    let n = s.len() % 48;
    let at = 48 * (s.len() / 48);
    let mut b = [0u8; 48];
    b[..n].copy_from_slice(&s[at..]);
    b[n] = closing.byte;
    state::from_bytes(&b)
}

// The mask k of a key: one permutation.
pub fn key_mask(key: &[u8]) -> [u32; 12]
    requires { length key.now ≤ 47 }
    ensures { result ≡ key_mask key.now }
{
    let b = last_block(key, Closing { byte: 1 });
    xoodoo::permute(b)
}

// The accumulator with one more block, to which this mask is added.
pub fn add_block(acc: [u32; 12], mask: [u32; 12], b: [u32; 12]) -> [u32; 12]
    ensures { result ≡ sum acc (perm (sum b mask)) }
{
    state::add(acc, xoodoo::permute(state::add(b, mask)))
}

// One more string, of these bytes and this closing byte: the full blocks from where they stand, the last one, and the mask rolled once more for
// the blank index.
pub fn compress(d: DeckState, s: &[u8], closing: Closing) -> Compressed
    requires { (length s.now ≤ 16401) × (d.index ≤ 1048576) }
    ensures { result ≡ compressed d (closed_by s.now closing.byte) }
{
    let blocks = s.len() / 48;
    let mut acc = d.acc;
    let mut mask = d.mask;
    let mut turns: u32 = 0;
    for j in 0..blocks {
        let b = state::from_bytes_at(s, 48 * j);
        (acc, mask, turns) = (add_block(acc, mask, b), rolling::roll_in(mask), turns + 1);
    }
    let b = last_block(s, closing);
    let x = add_block(acc, mask, b);
    let blank = rolling::roll_in(rolling::roll_in(mask));
    let count = turns + 1;
    let index = d.index + count + 1;
    let state = DeckState {
        acc: x,
        mask: blank,
        index,
    };
    Compressed { state, count }
}

// y after n output rollings.
pub fn roll_by(y: [u32; 12], n: usize) -> [u32; 12]
    ensures { result ≡ iterate n roll_out y }
{
    let mut z = y;
    for _ in 0..n {
        // by t, since `z = roll_out(z)` got no proof; nor did `(0..n).fold(..)`
        let t = rolling::roll_out(z);
        z = t;
    }
    z
}

// The output block that the rolled state y gives.
fn output_block(y: [u32; 12], mask: &[u32; 12]) -> [u32; 12]
    ensures { result ≡ sum (perm y) mask.now }
{
    state::add(xoodoo::permute(y), *mask)
}

// Adds bytes to as many bytes of the buffer.
fn xor_bytes(bytes: &[u8], out: &mut [u8])
    requires { length bytes.now ≡ length out.old }
    ensures { out.new ≡ sum out.old bytes.now }
{
    // by index: after `iter_mut().zip(..)` a proof knows no element
    for (i, o) in out.iter_mut().enumerate() {
        *o ^= bytes[i];
    }
}

// Adds the bytes of a block from byte `skip` on to the buffer, as many as there are and fit; gives their number. A whole block is added by lanes.
fn xor_block(block: &[u32; 12], skip: usize, out: &mut [u8]) -> usize
    requires { skip < 48 }
    ensures { (result ≡ min (48 - skip) (length out.old))
        × Added (λ k. state_byte block.now (skip + k)) 0 result out.old out.new }
{
    let n = (48 - skip).min(out.len());
    if n < 48 {
        let b = state::to_bytes(block);
        xor_bytes(&b[skip..skip + n], &mut out[0..n]);
    } else {
        state::add_bytes(block, &mut out[0..48]);
    }
    n
}

// Adds the output bytes from byte `from` on to the buffer, of the output that starts from the rolled state y; gives the permutations done.
pub fn expand(y: [u32; 12], mask: &[u32; 12], from: usize, out: &mut [u8]) -> u32
    requires { from + length out.old ≤ 65536 }
    ensures { (out.new ≡ sum out.old (run (output_byte y mask.now) from (length out.old)))
        × (result ≡ output_blocks from (length out.old)) }
{
    let mut z = roll_by(y, from / 48);
    let mut at: usize = 0;
    let mut count: u32 = 0;
    // no `for`: `at` goes by as many bytes as a block fills
    while at < out.len() {
        let b = output_block(z, mask);
        at += xor_block(&b, (from + at) % 48, &mut out[at..]);
        (z, count) = (rolling::roll_out(z), count + 1);
    }
    count
}
