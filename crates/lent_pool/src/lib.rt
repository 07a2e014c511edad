// A pool of unused rings that is lent (document 02, request 6): it stays in the caller's memory, to be altered or to be read. Each function is the
// one by value, on the whole record.
#![tactic(auto)]

ghost use Rattle.std.specs.Prelude.{◌≡◌};
ghost use Rattle.refusals.specs.Numbers.{number_given};
ghost use Rattle.runs.specs.Runs.{a_run, any_meets, rings_of};
ghost use Rattle.pool.specs.Pool.{runs_of};
ghost use Rattle.pool_lines.specs.Lines.{add_line};
ghost use Rattle.lent_pool.specs.Lent.{added_result};

use pool::Pool;
use refusals::Refusal;

// Adds an issue line to a pool. Refusals: `BadLine`, `Pooled` or `PoolFull`, and then every byte of the pool is as it was.
pub fn add_line(p: &mut Pool, line: &[u8]) -> Result<(), Refusal>
    ensures { added_result (number_given result) p.new ≡ add_line p.old line.now }
{
    *p = pool_lines::add_line(*p, line)?;
    Ok(())
}

// Whether a number of a size is in a pool.
pub fn holds(p: &Pool, size: u32, number: u32) -> bool
    ensures { result ≡ any_meets (a_run size number number) (runs_of p.now) }
{
    pool::holds(*p, size, number)
}

// How many rings are in a pool.
pub fn rings(p: &Pool) -> u64
    ensures { result ≡ rings_of (runs_of p.now) }
{
    pool::rings(*p)
}
