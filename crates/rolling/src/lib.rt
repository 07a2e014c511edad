// The rolling functions of Xoofff, on states of twelve lanes: the lane at x of plane y is element x + 4 y.
#![tactic(auto)]

ghost use Rattle.std.specs.Prelude.{◌≡◌};
ghost use Rattle.word.specs.Word.{bit};
ghost use Rattle.state.specs.State.{on};
ghost use Rattle.rolling.specs.Rolling.{set_first, move_planes, roll_in, roll_out};

// The move that both rollings share: lane s_i moves to s_(i-1), and n is the new s_11.
fn move_lanes(a: [u32; 12], n: u32) -> [u32; 12]
    ensures { result ≡ on (λ A. move_planes (set_first (bit n) A)) a }
{
    [
        a[4], a[5], a[6], a[7], a[8], a[9], a[10], a[11], a[1], a[2], a[3], n,
    ]
}

// Input rolling.
pub fn roll_in(a: [u32; 12]) -> [u32; 12]
    ensures { result ≡ roll_in a }
{
    let s0 = a[0];
    let s1 = a[4];
    move_lanes(a, s0 ^ (s0 << 13) ^ word::rotl(s1, 3))
}

// Output rolling.
pub fn roll_out(a: [u32; 12]) -> [u32; 12]
    ensures { result ≡ roll_out a }
{
    let s0 = a[0];
    let s1 = a[4];
    let s2 = a[8];
    move_lanes(a, (s1 & s2) ^ word::rotl(s0, 5) ^ word::rotl(s1, 13) ^ 7)
}
