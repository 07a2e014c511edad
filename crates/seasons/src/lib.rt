// Issue seasons (document 02, request 8): each of the eight sizes has a window, and its rings are issued on the days on which that is open.
// specs/Seasons.antt says which number a day gets, specs/FirstDay.antt what the first permitted day is; proofs/ shows both.
#![tactic(auto)]

ghost use Rattle.std.specs.Prelude.{◌≡◌, cond};
ghost use Rattle.refusals.specs.Numbers.{number_given};
ghost use Rattle.sizes.specs.Sizes.{letter_of};
ghost use Rattle.seasons.specs.Seasons.{window_of, passes16, season_number};
ghost use Rattle.seasons.specs.FirstDay.{FirstDay, first_of};

use days::{exists, next_day};
use refusals::Refusal;
use sizes::Size;
use windows::{Window, good_window, open_on};

// The last day of the calendar.
const LAST_DAY: u32 = 21991231;

// The windows of the sizes A to H.
#[repr(C)]
#[derive(Clone, Copy)]
pub struct Windows {
    pub sizes: [Window; 8],
}

// The answer to the question for the first permitted day: a number; whether there is a day; and the day, or 0.
// A flag and a number beside the day: C gets this from `pevghazo_first_day`.
#[repr(C)]
#[derive(Clone, Copy)]
pub struct First {
    pub number: u32,
    pub found: bool,
    pub day: u32,
}

// The answer by what the question gave: a day, none, or the number that refuses.
impl From<Result<Option<u32>, Refusal>> for First {
    ghost from_gives = { λ r f. f ≡ first_of r };

    fn from(r: Result<Option<u32>, Refusal>) -> First {
        match r {
            Ok(Some(day)) => First {
                number: 0,
                found: true,
                day,
            },
            Ok(None) => First {
                number: 0,
                found: false,
                day: 0,
            },
            Err(e) => First {
                number: u32::from(e),
                found: false,
                day: 0,
            },
        }
    }
}

// The window of a size.
fn window_of(windows: Windows, size: Size) -> Window
    ensures { result ≡ window_of windows (letter_of size) }
{
    windows.sizes[size.index()]
}

// Whether a day exists, and some leap year has the dates of a window. Refusal: 16.
#[tactic(auto, unfolding(crate::specs::Seasons::passes16))]
fn check_dates(w: Window, day: u32) -> Result<(), Refusal>
    ensures { number_given result ≡ cond (passes16 w day) 0 16 }
{
    if exists(day) && good_window(w) {
        Ok(())
    } else {
        Err(Refusal::NoSuchDay)
    }
}

// Whether a day is in the season of a size. Refusals: 16, it does not exist, or a date of that size's window is one that no leap year has; 17, the
// window is not open on it.
#[tactic(auto, unfolding(crate::specs::Seasons::season_number))]
pub fn check_day(windows: Windows, size: Size, day: u32) -> Result<(), Refusal>
    ensures { number_given result ≡ season_number (window_of windows (letter_of size)) day }
{
    let w = window_of(windows, size);
    check_dates(w, day)?;
    if open_on(w, day) {
        Ok(())
    } else {
        Err(Refusal::OutOfSeason)
    }
}

// The first day from a day on, up to the last of the calendar, on which the window of a size is open. Refusal: 16 as above.
pub fn first_day(windows: Windows, size: Size, day: u32) -> Result<Option<u32>, Refusal>
    ensures { FirstDay (window_of windows (letter_of size)) day (first_of result) }
{
    let w = window_of(windows, size);
    check_dates(w, day)?;
    // A `while`: days are no range, and an iterator of them is a type with a contract of its own in the place of these lines.
    let mut d = day;
    while d <= LAST_DAY {
        if open_on(w, d) {
            return Ok(Some(d));
        }
        d = next_day(d);
    }
    Ok(None)
}
