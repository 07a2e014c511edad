// The permutation Xoodoo[6] of four states side by side in 48 lanes: lane i of state j is element 4 i + j, so that a processor which
// works on four lanes together does a step of all four states at once.
#![tactic(auto)]

ghost use Rattle.std.specs.Prelude.{◌≡◌, ◌+◌, ◌*◌, ◌<◌, ◌≤◌, length};
ghost use Rattle.xoodoo.specs.Xoodoo.{round, perm};
ghost use Rattle.xoodoo4.specs.Four.{part, put, beside, each, laid, into};

use std::array;

// State j of the four.
pub fn part(w: &[u32; 48], j: usize) -> [u32; 12]
    requires { j < 4 }
    ensures { result ≡ part j w.now }
{
    array::from_fn(|i| w[4 * i + j])
}

// State j becomes s; the others stay.
fn put(w: &mut [u32; 48], j: usize, s: [u32; 12])
    requires { j < 4 }
    ensures { w.new ≡ put 12 j s w.old }
{
    for i in 0..12 {
        w[4 * i + j] = s[i];
    }
}

// One round of each state, with the constant c. Not by `from_fn` of four new states: the permutation took 478 ns for 80 ns.
fn round_four(w: [u32; 48], c: u32) -> [u32; 48]
    ensures { result ≡ each (round c) w }
{
    let mut r = w;
    for j in 0..4 {
        put(&mut r, j, xoodoo::round_step(part(&w, j), c));
    }
    r
}

// The permutation of each state.
fn permute_four(w: [u32; 48]) -> [u32; 48]
    ensures { result ≡ each perm w }
{
    xoodoo::CONSTANTS.iter().copied().fold(w, round_four)
}

// The permutation of each of four states that are laid out in a with the steps dx and dy from place n on; the results are added to w, or put in its
// place. A flag says which: where the caller added what is put, `compress` took 83 ns for 79 ns (docs/BENCHMARKS.md, "What was tried on the way").
pub fn permute_into(w: &mut [u32; 48], add: bool, a: &[u32], n: usize, dx: usize, dy: usize)
    requires { (length w.old ≡ 48) × (n + 3 * dx + 2 * dy + 4 ≤ length a.now) }
    ensures { w.new ≡ into add w.old (beside (λ j. perm (laid n dx dy a.now j))) }
{
    // not by one `from_fn`, nor by `copy_from_slice`: 145 and 87 ns for 80 ns
    let mut t = [0u32; 48];
    for i in 0..12 {
        let p = n + dx * (i % 4) + dy * (i / 4);
        let q = &a[p..p + 4];
        t[4 * i] = q[0];
        t[4 * i + 1] = q[1];
        t[4 * i + 2] = q[2];
        t[4 * i + 3] = q[3];
    }
    let s = permute_four(t);
    *w = if add { state::add(*w, s) } else { s };
}
