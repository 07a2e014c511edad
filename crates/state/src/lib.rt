// States of twelve lanes, the lane at x of plane y being element x + 4 y: their sum, and states as 48 bytes.
#![tactic(auto)]

ghost use Rattle.std.specs.Prelude.{◌≡◌, ◌+◌, ◌≤◌, length, drop};
ghost use Rattle.word.specs.Lists.{sum};
ghost use Rattle.state.specs.State.{lane};
ghost use Rattle.state.specs.Bytes.{byte_bit, from_bytes, to_bytes};

use std::array;

// The sum of two states, or of as many lanes of several. A loop: of a closure over arrays of N lanes the check learns nothing without a clause.
pub fn add<const N: usize>(mut a: [u32; N], b: [u32; N]) -> [u32; N]
    ensures { result ≡ sum a.entry b.entry }
{
    for i in 0..N {
        a[i] ^= b[i];
    }
    a
}

// The lane of the four bytes from byte `at` on, the lowest first. An offset, for a part of s would give each caller a `take` and a `drop` in its laws.
pub fn lane_at(s: &[u8], at: usize) -> u32
    requires { at + 4 ≤ length s.now }
    ensures { result ≡ lane (byte_bit (drop at s.now)) }
{
    u32::from_le_bytes([s[at], s[at + 1], s[at + 2], s[at + 3]])
}

// The state of the 48 bytes from byte `at` on, read where they stand; an offset as in `lane_at`.
pub fn from_bytes_at(s: &[u8], at: usize) -> [u32; 12]
    requires { at + 48 ≤ length s.now }
    ensures { result ≡ from_bytes (drop at s.now) }
{
    array::from_fn(|i| lane_at(s, at + 4 * i))
}

// The state of 48 bytes.
pub fn from_bytes(b: &[u8; 48]) -> [u32; 12]
    ensures { result ≡ from_bytes b.now }
{
    from_bytes_at(b, 0)
}

// Adds the 48 bytes of a state to as many bytes, lane by lane. Not by `copy_from_slice`, which compares addresses first: `expand` took 1.25 of its time.
pub fn add_bytes(s: &[u32; 12], out: &mut [u8])
    requires { length out.old ≡ 48 }
    ensures { out.new ≡ sum out.old (to_bytes s.now) }
{
    for i in 0..12 {
        let x = lane_at(out, 4 * i) ^ s[i];
        let b = x.to_le_bytes();
        out[4 * i] = b[0];
        out[4 * i + 1] = b[1];
        out[4 * i + 2] = b[2];
        out[4 * i + 3] = b[3];
    }
}

// The 48 bytes of a state. Not `from_fn`, byte by byte: it took 40 ns for 2 ns.
pub fn to_bytes(s: &[u32; 12]) -> [u8; 48]
    ensures { result ≡ to_bytes s.now }
{
    let mut b = [0u8; 48];
    add_bytes(s, &mut b);
    b
}
