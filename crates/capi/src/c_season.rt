// Issue seasons, by windows that are lent to be read: for each size, A to H, the month and day on which it opens and on which it closes.
ghost use Rattle.std.specs.Prelude.{◌≡◌};
ghost use Rattle.lent_pool.specs.Lent.{added_result};
ghost use Rattle.season_lines.specs.Lines.{add_in_season};
ghost use Rattle.season_lines.specs.FirstDay.{LineFirst};

use pool::Pool;
use refusals::number_given;
use seasons::{First, Windows};

// Adds an issue line to a pool, its line feed included, in the season of its size. The pool stays as it was where the call is refused. Checks 13, 16,
// 17, 14 and 15, in this order.
#[unsafe(no_mangle)]
pub extern "C" fn pevghazo_pool_add_in_season(
    pool: &mut Pool,
    windows: &Windows,
    line: &[u8],
) -> u32
    ensures { added_result result pool.new ≡ add_in_season windows.now pool.old line.now }
{
    number_given(lent_season::add_line(pool, windows, line))
}

// The first permitted day of an issue line, from its own day on, or none up to the end of 2199. Checks 13 and 16.
#[unsafe(no_mangle)]
pub extern "C" fn pevghazo_first_day(windows: &Windows, line: &[u8]) -> First
    ensures { LineFirst windows.now line.now result }
{
    First::from(lent_season::first_day(windows, line))
}
