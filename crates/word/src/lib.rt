// Words of 32 bits: what the language's own operators leave out.
#![tactic(auto)]

ghost use Rattle.std.specs.Prelude.{◌≡◌, ◌<◌};
ghost use Rattle.word.specs.Word.{bit, of_bits, rotate_left};

// x rotated to the left by v: std's rotation, which its contract states by bits.
pub fn rotl(x: u32, v: u32) -> u32
    requires { (0 < v) × (v < 32) }
    ensures { result ≡ of_bits 32 (rotate_left 32 v (bit x)) }
{
    x.rotate_left(v)
}
