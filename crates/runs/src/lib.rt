// Runs of ring numbers (document 02, request 6): the numbers first to last of one size. Two runs may meet or touch, and two that touch are
// joined into one. specs/Runs.antt says so of lists of runs too, specs/Meaning.antt which numbers a list holds, and proofs/ what follows.
#![tactic(auto)]

ghost use Rattle.std.specs.Prelude.{◌≡◌, ◌≤◌};
ghost use Rattle.runs.specs.Runs.{meets, touches, join, rings_in};

// The ring numbers first to last of a size, which is the byte of its letter. C has these records, in a pool.
#[repr(C)]
#[derive(Clone, Copy)]
pub struct Run {
    pub size: u32,
    pub first: u32,
    pub last: u32,
}

impl Run {
    // Whether two runs have a number of one size in common.
    #[tactic(auto, unfolding(crate::specs::Runs::meets))]
    pub fn meets(self, other: Run) -> bool
        ensures { result ≡ meets self other }
    {
        self.size == other.size && self.first <= other.last && other.first <= self.last
    }

    // Whether two runs of one size touch: one ends just before the other begins.
    #[tactic(auto, unfolding(crate::specs::Runs::touches))]
    pub fn touches(self, other: Run) -> bool
        ensures { result ≡ touches self other }
    {
        other.size == self.size
            && (u64::from(self.last) + 1 == u64::from(other.first)
                || u64::from(other.last) + 1 == u64::from(self.first))
    }

    // Two runs that touch, as one.
    #[tactic(auto, unfolding(crate::specs::Runs::join))]
    pub fn joined(self, other: Run) -> Run
        ensures { result ≡ join self other }
    {
        if self.last < other.first {
            Run {
                first: self.first,
                ..other
            }
        } else {
            Run {
                last: self.last,
                ..other
            }
        }
    }

    // How many rings a run has: none where its first number is above its last.
    pub fn rings(self) -> u64
        ensures value { result ≡ rings_in self }
        ensures few { result ≤ 4294967296 }
    {
        (u64::from(self.last) + 1).saturating_sub(u64::from(self.first))
    }
}
