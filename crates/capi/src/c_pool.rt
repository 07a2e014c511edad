// A pool of unused rings, which is lent: the runs of ring numbers that groups sent back as issue lines. Zeroed memory is the empty pool.
ghost use Rattle.std.specs.Prelude.{◌≡◌};
ghost use Rattle.runs.specs.Runs.{a_run, any_meets, rings_of};
ghost use Rattle.pool.specs.Pool.{runs_of};
ghost use Rattle.pool_lines.specs.Lines.{add_line};
ghost use Rattle.lent_pool.specs.Lent.{added_result};

use pool::Pool;
use refusals::number_given;

// Adds an issue line, its line feed included. The pool stays as it was where the call is refused. Checks 13, 14 and 15.
#[unsafe(no_mangle)]
pub extern "C" fn pevghazo_pool_add(pool: &mut Pool, line: &[u8]) -> u32
    ensures { added_result result pool.new ≡ add_line pool.old line.now }
{
    number_given(lent_pool::add_line(pool, line))
}

// Whether a number of a size is in the pool.
#[unsafe(no_mangle)]
pub extern "C" fn pevghazo_pool_holds(pool: &Pool, size: u32, number: u32) -> bool
    ensures { result ≡ any_meets (a_run size number number) (runs_of pool.now) }
{
    lent_pool::holds(pool, size, number)
}

// How many rings are in the pool.
#[unsafe(no_mangle)]
pub extern "C" fn pevghazo_pool_rings(pool: &Pool) -> u64
    ensures { result ≡ rings_of (runs_of pool.now) }
{
    lent_pool::rings(pool)
}
