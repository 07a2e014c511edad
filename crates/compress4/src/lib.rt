// A second compression, which takes four full blocks with four masks side by side, sums the results of all such groups side by side and adds the four
// sums at the end (document 02, request 10), and the choice between it and the present one.
#![tactic(auto)]

ghost use Rattle.std.specs.Prelude.{◌≡◌, ◌+◌, ◌<◌, ◌≤◌, length};
ghost use Rattle.word.specs.Lists.{sum};
ghost use Rattle.xoodoo.specs.Xoodoo.{perm};
ghost use Rattle.xoodoo4.specs.Four.{beside, laid};
ghost use Rattle.deck.specs.Strings.{b};
ghost use Rattle.deck.specs.Closing.{closed_by};
ghost use Rattle.xoofff.specs.Leaves.{compressed};
ghost use Rattle.compress4.specs.Four.{add_four, block_at};

use deck::{Closing, DeckState};
use rows::{Input, Row};
use xoofff::Compressed;

// The first four blocks, side by side.
fn blocks_beside(s: &[u8]) -> [u32; 48]
    requires { 192 ≤ length s.now }
    ensures { result ≡ beside (block_at s.now 0) }
{
    let mut w = [0u32; 48];
    for i in 0..12 {
        let p = 4 * i;
        w[4 * i] = state::lane_at(s, p);
        w[4 * i + 1] = state::lane_at(s, p + 48);
        w[4 * i + 2] = state::lane_at(s, p + 96);
        w[4 * i + 3] = state::lane_at(s, p + 144);
    }
    w
}

// The next four states of a row, added to those of w.
fn add_row(w: [u32; 48], row: &Row<Input>) -> [u32; 48]
    ensures { result ≡ sum w (beside (laid row.now.at 3 1 row.now.words)) }
{
    let r = &row.words;
    let mut t = [0u32; 48];
    for i in 0..12 {
        let p = 3 * (i % 4) + i / 4 + row.at;
        t[4 * i] = w[4 * i] ^ r[p];
        t[4 * i + 1] = w[4 * i + 1] ^ r[p + 1];
        t[4 * i + 2] = w[4 * i + 2] ^ r[p + 2];
        t[4 * i + 3] = w[4 * i + 3] ^ r[p + 3];
    }
    t
}

// Adds to the sums the permutations of the first four full blocks, with the next four masks of their row.
fn add_group(sums: &mut [u32; 48], s: &[u8], row: &Row<Input>)
    requires { (length sums.old ≡ 48) × (192 ≤ length s.now) }
    ensures { sums.new ≡ sum sums.old (beside (λ j. perm (sum (block_at s.now 0 j) (laid row.now.at 3 1 row.now.words j)))) }
{
    let w = add_row(blocks_beside(s), row);
    xoodoo4::permute_into(sums, true, &w, 0, 4, 16);
}

// x with the four states of w added.
fn add_four(x: [u32; 12], w: &[u32; 48]) -> [u32; 12]
    ensures { result ≡ add_four x w.now }
{
    // no loop: its step `x = state::add(x, ..)` got no proof, as a call's result laid in the array that it was handed
    let p = state::add(x, xoodoo4::part(w, 0));
    let q = state::add(p, xoodoo4::part(w, 1));
    let r = state::add(q, xoodoo4::part(w, 2));
    state::add(r, xoodoo4::part(w, 3))
}

// One more string, of these bytes and this closing byte: what `xoofff::compress` gives, with full blocks taken four at a time and the leftover by
// that function. It is for every string and every index for which the index afterwards fits into its 32 bits, and so for all within the limit.
pub fn compress_four(d: DeckState, s: &[u8], closing: Closing) -> Compressed
    requires { d.index + b (length s.now) + 1 ≤ 4294967295 }
    ensures { result ≡ compressed d (closed_by s.now closing.byte) }
{
    let groups = s.len() / 192;
    let mut sums = [0u32; 48];
    let mut row = Row::<Input>::new(d.mask);
    let mut taken: u32 = 0;
    for j in 0..groups {
        add_group(&mut sums, &s[192 * j..], &row);
        row.advance();
        taken += 4;
    }
    let acc = add_four(d.acc, &sums);
    let mask = row.state();
    let r = xoofff::compress(
        DeckState {
            acc,
            mask,
            index: 0,
        },
        &s[192 * groups..],
        closing,
    );
    let before = d.index + taken;
    let mut state = r.state;
    state.index += before;
    let count = taken + r.count;
    Compressed { state, count }
}

// One more string, of these bytes and this closing byte: four full blocks at a time where `four` says so.
pub fn compress_by(d: DeckState, s: &[u8], closing: Closing, four: bool) -> Compressed
    requires { (length s.now ≤ 16401) × (d.index ≤ 1048576) }
    ensures { result ≡ compressed d (closed_by s.now closing.byte) }
{
    if four {
        return compress_four(d, s, closing);
    }
    xoofff::compress(d, s, closing)
}
