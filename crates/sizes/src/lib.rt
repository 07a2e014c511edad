// The ring sizes A to H (document 02, request 6), each known by its letter. specs/Sizes.antt has which letter is whose.
#![tactic(auto)]

ghost use Rattle.std.specs.Prelude.{◌≡◌, ◌<◌, ◌+◌};
ghost use Rattle.sizes.specs.Sizes.{letter_of, Reads};

// The sizes, in the order of their letters.
#[derive(Clone, Copy, Debug, PartialEq, Eq)]
pub enum Size {
    A,
    B,
    C,
    D,
    E,
    F,
    G,
    H,
}

// A byte that is the letter of no size.
#[derive(Clone, Copy, Debug, PartialEq, Eq)]
pub struct NoSize(pub u8);

impl Size {
    // Its letter, as a byte.
    pub fn letter(self) -> u8
        ensures { result ≡ letter_of self }
    {
        match self {
            Size::A => b'A',
            Size::B => b'B',
            Size::C => b'C',
            Size::D => b'D',
            Size::E => b'E',
            Size::F => b'F',
            Size::G => b'G',
            Size::H => b'H',
        }
    }

    // Its place among the eight, from 0.
    pub fn index(self) -> usize
        ensures place { result + 65 ≡ letter_of self }
        ensures in_range { result < 8 }
    {
        (self.letter() - b'A') as usize
    }
}

// The size whose letter a byte is.
impl TryFrom<u8> for Size {
    type Error = NoSize;

    ghost try_from_gives = { Reads };

    fn try_from(byte: u8) -> Result<Size, NoSize> {
        match byte {
            b'A' => Ok(Size::A),
            b'B' => Ok(Size::B),
            b'C' => Ok(Size::C),
            b'D' => Ok(Size::D),
            b'E' => Ok(Size::E),
            b'F' => Ok(Size::F),
            b'G' => Ok(Size::G),
            b'H' => Ok(Size::H),
            _ => Err(NoSize(byte)),
        }
    }
}
