// The permutation Xoodoo[6], on states of twelve lanes: the lane at x of plane y is element x + 4 y.
#![tactic(auto)]

ghost use Rattle.std.specs.Prelude.{◌≡◌};
ghost use Rattle.word.specs.Word.{bit, of_bits, rotate_left, ◌⊕◌};
ghost use Rattle.state.specs.State.{lane, on};
ghost use Rattle.xoodoo.specs.Xoodoo.{theta, rho_west, iota, chi, rho_east, round, perm};

use std::array;

// One lane of E, from the lane of P to its west: p rotated by 5 plus p rotated by 14.
fn effect(p: u32) -> u32
    ensures { result ≡ lane (λ z. rotate_left 32 5 (bit p) z ⊕ rotate_left 32 14 (bit p) z) }
{
    word::rotl(p, 5) ^ word::rotl(p, 14)
}

// theta: each plane gains E.
fn theta_step(a: [u32; 12]) -> [u32; 12]
    ensures { result ≡ on theta a }
{
    let p: [u32; 4] = array::from_fn(|x| a[x] ^ a[x + 4] ^ a[x + 8]);
    let e: [u32; 4] = array::from_fn(|x| effect(p[(x + 3) % 4]));
    array::from_fn(|i| a[i] ^ e[i % 4])
}

// rho west: A_1 is shifted by (1, 0), and A_2 by (0, 11).
fn rho_west(a: [u32; 12]) -> [u32; 12]
    ensures { result ≡ on rho_west a }
{
    [
        a[0],
        a[1],
        a[2],
        a[3],
        a[7],
        a[4],
        a[5],
        a[6],
        word::rotl(a[8], 11),
        word::rotl(a[9], 11),
        word::rotl(a[10], 11),
        word::rotl(a[11], 11),
    ]
}

// iota: lane 0 of A_0 gains the round constant c.
fn iota_step(mut a: [u32; 12], c: u32) -> [u32; 12]
    ensures { result ≡ on (iota c) a }
{
    a[0] ^= c;
    a
}

// chi: each plane gains the complement of the next times the one after it.
fn chi_step(a: [u32; 12]) -> [u32; 12]
    ensures { result ≡ on chi a }
{
    array::from_fn(|i| a[i] ^ (!a[(i + 4) % 12] & a[(i + 8) % 12]))
}

// rho east: A_1 is shifted by (0, 1), and A_2 by (2, 8).
fn rho_east(a: [u32; 12]) -> [u32; 12]
    ensures { result ≡ on rho_east a }
{
    [
        a[0],
        a[1],
        a[2],
        a[3],
        word::rotl(a[4], 1),
        word::rotl(a[5], 1),
        word::rotl(a[6], 1),
        word::rotl(a[7], 1),
        word::rotl(a[10], 8),
        word::rotl(a[11], 8),
        word::rotl(a[8], 8),
        word::rotl(a[9], 8),
    ]
}

// One round, with the constant c.
pub fn round_step(a: [u32; 12], c: u32) -> [u32; 12]
    ensures { result ≡ round c a }
{
    rho_east(chi_step(iota_step(rho_west(theta_step(a)), c)))
}

// The round constants, in the order of the rounds.
pub const CONSTANTS: [u32; 6] = [0x60, 0x2C, 0x380, 0xF0, 0x1A0, 0x12];

// The permutation Xoodoo[6].
pub fn permute(a: [u32; 12]) -> [u32; 12]
    ensures { result ≡ perm a }
{
    CONSTANTS.iter().copied().fold(a, round_step)
}
