// What the benchmark and a test call, exported to C: the leaves, as the crates above them call them.
#![tactic(auto)]

ghost use Rattle.std.specs.Prelude.{◌≡◌, ◌≤◌, ◌+◌, length};
ghost use Rattle.word.specs.Lists.{sum};
ghost use Rattle.xoodoo.specs.Xoodoo.{perm};
ghost use Rattle.deck.specs.Deck.{output_byte, run};
ghost use Rattle.xoofff.specs.Leaves.{output_blocks};
ghost use Rattle.bench_exports.specs.Bench.{acc_after, mask_after};

use deck::{Closing, DeckState};

// The permutation, in place.
#[unsafe(no_mangle)]
pub extern "C" fn pevghazo_permute(s: &mut [u32; 12])
    ensures { s.new ≡ perm s.old }
{
    *s = xoodoo::permute(*s);
}

// Accumulator and mask, in place, after the string of these bytes with no frame bits.
#[unsafe(no_mangle)]
pub extern "C" fn pevghazo_compress(acc: &mut [u32; 12], mask: &mut [u32; 12], s: &[u8])
    requires { length s.now ≤ 16401 }
    ensures { (acc.new ≡ acc_after acc.old mask.old s.now)
        × (mask.new ≡ mask_after acc.old mask.old s.now) }
{
    let d = DeckState {
        acc: *acc,
        mask: *mask,
        index: 0,
    };
    let r = xoofff::compress(d, s, Closing { byte: 1 });
    (*acc, *mask) = (r.state.acc, r.state.mask);
}

// The output of the rolled state y under the mask, from its first byte on, added to the buffer.
#[unsafe(no_mangle)]
pub extern "C" fn pevghazo_expand(y: &[u32; 12], mask: &[u32; 12], out: &mut [u8]) -> u32
    requires { length out.old ≤ 65536 }
    ensures { (out.new ≡ sum out.old (run (output_byte y.now mask.now) 0 (length out.old)))
        × (result ≡ output_blocks 0 (length out.old)) }
{
    xoofff::expand(*y, mask, 0, out)
}

// ---- the same two, with full blocks taken four side by side: functions of their own, since C names each

#[unsafe(no_mangle)]
pub extern "C" fn pevghazo_compress_four(acc: &mut [u32; 12], mask: &mut [u32; 12], s: &[u8])
    requires { length s.now ≤ 16401 }
    ensures { (acc.new ≡ acc_after acc.old mask.old s.now)
        × (mask.new ≡ mask_after acc.old mask.old s.now) }
{
    let d = DeckState {
        acc: *acc,
        mask: *mask,
        index: 0,
    };
    let r = compress4::compress_four(d, s, Closing { byte: 1 });
    (*acc, *mask) = (r.state.acc, r.state.mask);
}

#[unsafe(no_mangle)]
pub extern "C" fn pevghazo_expand_four(y: &[u32; 12], mask: &[u32; 12], out: &mut [u8]) -> u32
    requires { length out.old ≤ 65536 }
    ensures { (out.new ≡ sum out.old (run (output_byte y.now mask.now) 0 (length out.old)))
        × (result ≡ output_blocks 0 (length out.old)) }
{
    expand4::expand_four(*y, mask, 0, out)
}
