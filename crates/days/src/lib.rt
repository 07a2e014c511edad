// Days of the Gregorian calendar (document 02, request 8), of the years 1900 to 2199. A day is the number that its eight digits are: year, month, day,
// as 20250304; so a day is before another exactly where its number is less. specs/Calendar.antt has the calendar's rules and specs/Days.antt what is
// computed; proofs/Rules.antt shows that a day exists exactly where the rules have it, and proofs/Next.antt that the next day is the one after it.
#![tactic(auto)]

ghost use Rattle.std.specs.Prelude.{◌≡◌, ◌≤◌};
ghost use Rattle.days.specs.Days.{year_of, month_of, date_of, is_leap, month_length, is_day, next_day};

// The first and the last year.
const FIRST_YEAR: u32 = 1900;

const LAST_YEAR: u32 = 2199;

// A day's year, its month, and its date in the month.
#[derive(Clone, Copy)]
struct Date {
    year: u32,
    month: u32,
    date: u32,
}

impl Date {
    // The parts of a day's digits.
    fn of(day: u32) -> Date
        ensures year { result.year ≡ year_of day }
        ensures month { result.month ≡ month_of day }
        ensures date { result.date ≡ date_of day }
    {
        Date {
            year: day / 10000,
            month: day / 100 % 100,
            date: day % 100,
        }
    }

    // How many days its month has.
    fn month_length(self) -> u32
        ensures { result ≡ month_length (is_leap self.year) self.month }
    {
        month_length(leap(self.year), self.month)
    }
}

// Whether a year is a leap year.
#[tactic(auto, unfolding(crate::specs::Days::is_leap))]
pub fn leap(year: u32) -> bool
    ensures { result ≡ is_leap year }
{
    year % 4 == 0 && (year % 100 != 0 || year % 400 == 0)
}

// How many days a month has, in a leap year or another; 0 where there is no such month.
// The flag is a fact of the year and switches no step: a window asks it of leap years, without a year.
#[tactic(auto, unfolding(crate::specs::Days::month_length))]
pub fn month_length(long: bool, month: u32) -> u32
    ensures { result ≡ month_length long month }
{
    match month {
        2 if long => 29,
        2 => 28,
        4 | 6 | 9 | 11 => 30,
        // not `1..=12`: of a range beside them the compiler makes a table of jumps, and a search over days takes about a tenth longer
        _ if 1 <= month && month <= 12 => 31,
        _ => 0,
    }
}

// Whether a day exists, in the years 1900 to 2199.
#[tactic(auto, unfolding(crate::specs::Days::is_day))]
pub fn exists(day: u32) -> bool
    ensures { result ≡ is_day day }
{
    let d = Date::of(day);
    (FIRST_YEAR..=LAST_YEAR).contains(&d.year) && (1..=d.month_length()).contains(&d.date)
}

// The day after a day: the next of its month, else the first of the next month, else the first of the next year.
#[tactic(auto, unfolding(crate::specs::Days::next_day))]
pub fn next_day(day: u32) -> u32
    requires { day ≤ 99999999 }
    ensures { result ≡ next_day day }
{
    let d = Date::of(day);
    if d.date < d.month_length() {
        day + 1
    } else if d.month < 12 {
        day / 100 * 100 + 101
    } else {
        d.year * 10000 + 10101
    }
}
