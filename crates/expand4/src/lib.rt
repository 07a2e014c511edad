// A second expansion, which makes four output blocks side by side (document 02, request 10), and the choice between it and the present one.
#![tactic(auto)]

ghost use Rattle.std.specs.Prelude.{◌≡◌, ◌+◌, ◌<◌, ◌≤◌, length};
ghost use Rattle.word.specs.Lists.{tabulate, sum};
ghost use Rattle.state.specs.Bytes.{to_bytes};
ghost use Rattle.xoodoo.specs.Xoodoo.{perm};
ghost use Rattle.xoodoo4.specs.Four.{part, beside, laid};
ghost use Rattle.deck.specs.Deck.{output_byte, run};
ghost use Rattle.xoofff.specs.Leaves.{output_blocks};
ghost use Rattle.expand4.specs.Four.{four_byte};

use rows::{Output, Row};

// Adds the 48 bytes of state j of w plus the mask to as many bytes.
fn add_part(w: &[u32; 48], j: usize, mask: &[u32; 12], out: &mut [u8])
    requires { (j < 4) × (length out.old ≡ 48) }
    ensures { out.new ≡ sum out.old (to_bytes (sum (part j w.now) mask.now)) }
{
    let o = state::add(xoodoo4::part(w, j), *mask);
    state::add_bytes(&o, out);
}

// Adds to 192 bytes the four blocks that the next four states of a row give; w is where their permutations are put.
fn four_out(w: &mut [u32; 48], row: &Row<Output>, mask: &[u32; 12], out: &mut [u8])
    requires { (length w.old ≡ 48) × (length out.old ≡ 192) }
    ensures { (w.new ≡ beside (λ j. perm (laid row.now.at 3 1 row.now.words j)))
        × (out.new ≡ sum out.old (tabulate 192 (four_byte (laid row.now.at 3 1 row.now.words) mask.now))) }
{
    xoodoo4::permute_into(w, false, &row.words, row.at, 3, 1);
    add_part(w, 0, mask, &mut out[0..48]);
    add_part(w, 1, mask, &mut out[48..96]);
    add_part(w, 2, mask, &mut out[96..144]);
    add_part(w, 3, mask, &mut out[144..192]);
}

// Adds the output from its first byte on to the buffer, whole blocks four at a time; gives the permutations done.
fn expand_groups(y: [u32; 12], mask: &[u32; 12], out: &mut [u8]) -> u32
    requires { length out.old ≤ 65536 }
    ensures { (out.new ≡ sum out.old (run (output_byte y mask.now) 0 (length out.old)))
        × (result ≡ output_blocks 0 (length out.old)) }
{
    // a copy, which no store to the buffer can alter: it is read once
    let k = *mask;
    let groups = out.len() / 192;
    let mut w = [0u32; 48];
    let mut row = Row::<Output>::new(y);
    let mut given: u32 = 0;
    for j in 0..groups {
        four_out(&mut w, &row, &k, &mut out[192 * j..192 * j + 192]);
        row.advance();
        given += 4;
    }
    let count = xoofff::expand(row.state(), mask, 0, &mut out[192 * groups..]);
    given + count
}

// Adds the output bytes from byte `from` on to the buffer, of the output that starts from the rolled state y; gives the permutations done: what
// `xoofff::expand` does, with whole blocks taken four at a time, and the bytes up to a block's start and the leftover by that function.
pub fn expand_four(y: [u32; 12], mask: &[u32; 12], from: usize, out: &mut [u8]) -> u32
    requires { from + length out.old ≤ 65536 }
    ensures { (out.new ≡ sum out.old (run (output_byte y mask.now) from (length out.old)))
        × (result ≡ output_blocks from (length out.old)) }
{
    let skip = from % 48;
    let head = ((48 - skip) % 48).min(out.len());
    let z = xoofff::roll_by(y, from / 48);
    let first = xoofff::expand(z, mask, skip, &mut out[0..head]);
    let t = xoofff::roll_by(z, (skip + head) / 48);
    let count = expand_groups(t, mask, &mut out[head..]);
    first + count
}

// Adds the output bytes from byte `from` on to the buffer, four blocks at a time where `four` says so; gives the permutations done.
pub fn expand_by(y: [u32; 12], mask: &[u32; 12], from: usize, out: &mut [u8], four: bool) -> u32
    requires { from + length out.old ≤ 65536 }
    ensures { (out.new ≡ sum out.old (run (output_byte y mask.now) from (length out.old)))
        × (result ≡ output_blocks from (length out.old)) }
{
    if four {
        return expand_four(y, mask, from, out);
    }
    xoofff::expand(y, mask, from, out)
}
