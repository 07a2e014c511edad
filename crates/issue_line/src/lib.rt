// Issue lines (document 02, request 6): `group,size,first,last,day` and a line feed, as in `7,C,12001,12100,20250304`. Bytes are one line or none:
// specs/Layout.antt has the layout, specs/Read.antt what is found, and proofs/Reading.antt that this is just what is spelled.
#![tactic(auto)]

ghost use Rattle.std.specs.Prelude.{◌≡◌};
ghost use Rattle.issue_line.specs.Read.{read_size, read_day, found_line, read_line};

use decimal::{Number, digit_of, read_decimal};
use sizes::Size;

// The largest group, and the largest number of a ring.
const MAX_GROUP: u32 = 31;

const MAX_RING: u32 = 99999999;

const COMMA: u8 = b',';

const LINE_FEED: u8 = 10;

// A line: the group, the size, the first and the last ring, and the day's eight digits as a number.
#[derive(Clone, Copy)]
pub struct Line {
    pub group: u32,
    pub size: Size,
    pub first: u32,
    pub last: u32,
    pub day: u32,
}

// A size that was found, and the place after its comma.
#[derive(Clone, Copy)]
struct FoundSize {
    size: Size,
    next: usize,
}

// The size that stands at a place, as `read_decimal` has places: its letter and a comma.
#[tactic(auto, using(sizes::proofs::Letters::read, crate::proofs::Steps::size_out), unfolding(crate::specs::Read::read_size))]
fn read_size(s: &[u8], at: usize) -> Option<FoundSize>
    ensures { result ≡ read_size s.now at }
{
    let size = Size::try_from(*s.get(at)?).ok()?;
    let end = *s.get(at + 1)?;
    (end == COMMA).then_some(FoundSize { size, next: at + 2 })
}

// The day that stands at a place: eight digits and a line feed.
fn read_day(s: &[u8], at: usize) -> Option<Number>
    ensures { result ≡ read_day s.now at }
{
    let field = s.get(at..)?;
    let mut value = 0;
    for b in field.get(..8)? {
        value = value * 10 + digit_of(*b)?;
    }
    let end = *field.get(8)?;
    (end == LINE_FEED).then_some(Number {
        value,
        next: at + 9,
    })
}

// The line that some bytes are, line feed included. Each field is read at the place after the one before it.
#[tactic(auto, unfolding(crate::specs::Read::read_line, crate::specs::Read::read_fields, crate::specs::Read::line_of))]
pub fn read_line(s: &[u8]) -> Option<Line>
    ensures { found_line result ≡ read_line s.now }
{
    let group = read_decimal(s, 0, MAX_GROUP, COMMA)?;
    let size = read_size(s, group.next)?;
    let first = read_decimal(s, size.next, MAX_RING, COMMA)?;
    let last = read_decimal(s, first.next, MAX_RING, COMMA)?;
    let day = read_day(s, last.next)?;
    let whole = 0 < first.value && first.value <= last.value && day.next == s.len();
    whole.then_some(Line {
        group: group.value,
        size: size.size,
        first: first.value,
        last: last.value,
        day: day.value,
    })
}
