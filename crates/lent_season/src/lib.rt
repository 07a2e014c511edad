// Issue seasons over records that are lent (document 02, request 8): a pool stays in the caller's memory, to be altered, and so do windows, to be read.
// Each function is the one by value, on the whole records.
#![tactic(auto)]

ghost use Rattle.std.specs.Prelude.{◌≡◌};
ghost use Rattle.refusals.specs.Numbers.{number_given};
ghost use Rattle.lent_pool.specs.Lent.{added_result};
ghost use Rattle.seasons.specs.FirstDay.{first_of};
ghost use Rattle.season_lines.specs.Lines.{add_in_season};
ghost use Rattle.season_lines.specs.FirstDay.{LineFirst};

use pool::Pool;
use refusals::Refusal;
use seasons::Windows;

// Adds an issue line to a pool in its season. Refusals: 13, 16, 17, 14 and 15, in this order of checks, and then every byte of the pool is as it was.
pub fn add_line(p: &mut Pool, w: &Windows, line: &[u8]) -> Result<(), Refusal>
    ensures { added_result (number_given result) p.new ≡ add_in_season w.now p.old line.now }
{
    *p = season_lines::add_in_season(*p, *w, line)?;
    Ok(())
}

// Finds the first permitted day of an issue line, from its own day on. Refusals: 13 and 16.
pub fn first_day(w: &Windows, line: &[u8]) -> Result<Option<u32>, Refusal>
    ensures { LineFirst w.now line.now (first_of result) }
{
    season_lines::first_day_of_line(*w, line)
}
