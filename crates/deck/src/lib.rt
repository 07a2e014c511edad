// What a session keeps of its history, and the byte that closes a string.
#![tactic(auto)]

ghost use Rattle.std.specs.Prelude.{◌≡◌, ◌<◌, ◌↔◌, IsSome, IfSome};

// What a session keeps of its history: the accumulator, the mask at the index, and the input index. It is the first part of the sessions of C.
#[repr(C)]
#[derive(Clone, Copy)]
pub struct DeckState {
    pub acc: [u32; 12],
    pub mask: [u32; 12],
    pub index: u32,
}

// A closing byte (deck/specs/Closing): a string's frame bits and the padding bit, so never zero.
#[derive(Clone, Copy)]
pub struct Closing {
    pub byte: u8,
    ghost positive: { 0 < byte },
}

impl Closing {
    // The closing byte of this value, which is any but zero.
    pub fn new(byte: u8) -> Option<Self>
        ensures found { IsSome result ↔ (0 < byte) }
        ensures same { IfSome result (λ c. c.byte ≡ byte) }
    {
        if 0 < byte {
            Some(Closing { byte })
        } else {
            None
        }
    }
}
