// Issue lines added to a pool of unused rings in their season, and the first permitted day of one (document 02, request 8). The numbers in their order:
// 13 is of the crate `issue_line`, 16 and 17 of `seasons`, 14 and 15 of `pool`. specs/Lines.antt says what one line leads to, specs/History.antt what
// every list of lines does, specs/FirstDay.antt what the first permitted day is; proofs/ has it.
#![tactic(auto)]

ghost use Rattle.std.specs.Prelude.{◌≡◌};
ghost use Rattle.pool.specs.Pool.{added_of};
ghost use Rattle.seasons.specs.FirstDay.{first_of};
ghost use Rattle.season_lines.specs.Lines.{add_in_season};
ghost use Rattle.season_lines.specs.FirstDay.{LineFirst};

use issue_line::read_line;
use pool::{Pool, add};
use pool_lines::run_of;
use refusals::Refusal;
use seasons::{Windows, check_day, first_day};

// Adds the run of an issue line to a pool. Refusals: 13 (the bytes are not exactly one line), 16 (its day does not exist, or no leap year has a date of
// its size's window), 17 (its day is outside that window), 14 and 15 as without windows.
#[tactic(auto, unfolding(crate::specs::Lines::add_in_season, crate::specs::Lines::add_read_in_season))]
pub fn add_in_season(p: Pool, windows: Windows, bytes: &[u8]) -> Result<Pool, Refusal>
    ensures { added_of p result ≡ add_in_season windows p bytes.now }
{
    let l = read_line(bytes).ok_or(Refusal::BadLine)?;
    check_day(windows, l.size, l.day)?;
    add(p, run_of(l))
}

// The first day from a line's own on, on which the window of its size is open. Refusals: 13, 16.
pub fn first_day_of_line(windows: Windows, bytes: &[u8]) -> Result<Option<u32>, Refusal>
    ensures { LineFirst windows bytes.now (first_of result) }
{
    let l = read_line(bytes).ok_or(Refusal::BadLine)?;
    first_day(windows, l.size, l.day)
}
