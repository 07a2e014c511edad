// A pool of unused rings (document 02, request 6): runs of ring numbers, by value. Runs of one size that touch are joined into one.
// specs/Pool.antt says what each function gives for any pool, specs/Good.antt which pools keep their runs apart and which number a run gets, and
// proofs/Adding.antt shows both of every addition.
#![tactic(auto)]

ghost use Rattle.std.specs.Prelude.{◌≡◌, ◌≤◌, length};
ghost use Rattle.runs.specs.Runs.{a_run, any_meets, rings_of};
ghost use Rattle.pool.specs.Pool.{max_runs, runs_of, empty_pool, join_pool, add_run, added_of};

use refusals::Refusal;
use runs::Run;

// The most runs that a pool has.
const MAX_RUNS: usize = 256;

// A pool: the runs that stand first, as many as are used. What stands behind them has no meaning. C lends its memory: any count may stand here.
#[repr(C)]
#[derive(Clone, Copy)]
pub struct Pool {
    pub used: usize,
    pub runs: [Run; MAX_RUNS],
}

impl Pool {
    // The runs of a pool.
    fn in_use(&self) -> &[Run]
        ensures runs { result.now ≡ runs_of self.now }
        ensures few { length result.now ≤ max_runs }
    {
        &self.runs[..self.used.min(MAX_RUNS)]
    }
}

// A pool without runs.
#[tactic(auto, unfolding(crate::specs::Pool::empty_pool, crate::specs::Pool::pool_of))]
pub fn empty() -> Pool
    ensures { result ≡ empty_pool }
{
    let none = Run {
        size: 0,
        first: 0,
        last: 0,
    };
    Pool {
        used: 0,
        runs: [none; MAX_RUNS],
    }
}

// Whether a number of the run is in the pool.
fn overlaps(p: &Pool, r: Run) -> bool
    ensures { result ≡ any_meets r (runs_of p.now) }
{
    p.in_use().iter().any(|q| q.meets(r))
}

// The pool with a run that meets none of it: the runs that do not touch it, and then the run that the others and it make. Refusal: `PoolFull`.
fn join_pool(p: &Pool, mut run: Run) -> Result<Pool, Refusal>
    ensures { added_of p.now result ≡ join_pool p.now run }
{
    let mut next = empty();
    // not counted in `next.used`, for which each run would wait for the one before it: a full pool takes 1.4 of the time so
    let mut used = 0;
    for q in p.in_use() {
        if q.touches(run) {
            run = q.joined(run);
        } else {
            next.runs[used] = *q;
            used += 1;
        }
    }
    if used == MAX_RUNS {
        return Err(Refusal::PoolFull);
    }
    next.runs[used] = run;
    next.used = used + 1;
    Ok(next)
}

// Adds a run that has a number to a pool, any pool. Refusals: `Pooled` (a number of it is pooled in its size), then `PoolFull` (more runs than a pool
// has would be needed, after joining).
pub fn add(p: Pool, r: Run) -> Result<Pool, Refusal>
    requires { r.first ≤ r.last }
    ensures { added_of p result ≡ add_run p r }
{
    if overlaps(&p, r) {
        return Err(Refusal::Pooled);
    }
    join_pool(&p, r)
}

// Whether a number of a size is in the pool.
pub fn holds(p: Pool, size: u32, number: u32) -> bool
    ensures { result ≡ any_meets (a_run size number number) (runs_of p) }
{
    overlaps(
        &p,
        Run {
            size,
            first: number,
            last: number,
        },
    )
}

// How many rings are in the pool.
pub fn rings(p: Pool) -> u64
    ensures { result ≡ rings_of (runs_of p) }
{
    p.in_use().iter().map(|q| q.rings()).sum()
}
