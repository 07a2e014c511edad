// Windows of the year (document 02, request 8): rings may be issued from an opening to a closing month and day. specs/Windows.antt has the rules,
// specs/Computed.antt what is computed, and proofs/ that both are the same.
#![tactic(auto)]

ghost use Rattle.std.specs.Prelude.{◌+◌, ◌*◌, ◌≡◌};
ghost use Rattle.windows.specs.Computed.{date_in, open_on, leap_year_has, good_window};

use days::{leap, month_length};

// 29 February as month * 100 + day, and what it stands for in a year without it: as an opening 1 March, as a closing 28 February.
const LEAP_DAY: u32 = 229;

const FIRST_OF_MARCH: u32 = 301;

const LAST_OF_FEBRUARY: u32 = 228;

// A window: the month and day on which it opens and on which it closes, both included. One that opens later than it closes runs over New Year.
// Four bytes and not two dates: C lends this, to `pevghazo_first_day` and `pevghazo_pool_add_in_season`.
#[repr(C)]
#[derive(Clone, Copy)]
pub struct Window {
    pub open_month: u8,
    pub open_day: u8,
    pub close_month: u8,
    pub close_day: u8,
}

// A date as it is written: a month and a day of it.
#[derive(Clone, Copy)]
struct MonthDay {
    month: u8,
    day: u8,
}

impl MonthDay {
    // As one number, so that a later date of a year is a larger number.
    fn number(self) -> u32
        ensures { result ≡ self.month * 100 + self.day }
    {
        u32::from(self.month) * 100 + u32::from(self.day)
    }

    // Whether a leap year has it.
    #[tactic(auto, unfolding(crate::specs::Computed::leap_year_has))]
    fn in_leap_years(self) -> bool
        ensures { result ≡ leap_year_has self.month self.day }
    {
        1 <= self.day && u32::from(self.day) <= month_length(true, u32::from(self.month))
    }
}

impl Window {
    // Its two dates.
    fn opening(self) -> MonthDay
        ensures month { result.month ≡ self.open_month }
        ensures day { result.day ≡ self.open_day }
    {
        MonthDay {
            month: self.open_month,
            day: self.open_day,
        }
    }

    fn closing(self) -> MonthDay
        ensures month { result.month ≡ self.close_month }
        ensures day { result.day ≡ self.close_day }
    {
        MonthDay {
            month: self.close_month,
            day: self.close_day,
        }
    }
}

// The date that a written one stands for, in a leap year or another, where `instead` is put for 29 February.
#[tactic(auto, unfolding(crate::specs::Computed::date_in))]
fn date_in(long: bool, written: u32, instead: u32) -> u32
    ensures { result ≡ date_in long written instead }
{
    // the year first: what follows is then the same for every other year, and a search over days works it out once
    if long {
        written
    } else if written == LEAP_DAY {
        instead
    } else {
        written
    }
}

// Whether a window is open on a day. Which way it runs is told from the dates as written.
#[tactic(auto, unfolding(crate::specs::Computed::open_on))]
pub fn open_on(w: Window, day: u32) -> bool
    ensures { result ≡ open_on w day }
{
    let long = leap(day / 10000);
    let date = day % 10000;
    let opening = w.opening().number();
    let closing = w.closing().number();
    let from = date_in(long, opening, FIRST_OF_MARCH);
    let to = date_in(long, closing, LAST_OF_FEBRUARY);
    if opening <= closing {
        from <= date && date <= to
    } else {
        from <= date || date <= to
    }
}

// Whether a leap year has both dates of a window.
#[tactic(auto, unfolding(crate::specs::Computed::good_window))]
pub fn good_window(w: Window) -> bool
    ensures { result ≡ good_window w }
{
    w.opening().in_leap_years() && w.closing().in_leap_years()
}
