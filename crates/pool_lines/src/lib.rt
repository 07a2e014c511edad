// Issue lines added to a pool of unused rings (document 02, request 6): reading a line is the crate `issue_line`, adding a run the crate `pool`,
// and here they are put together. specs/Lines.antt says what one line leads to and specs/History.antt what every list of lines does; proofs/ has it.
#![tactic(auto)]

ghost use Rattle.std.specs.Prelude.{◌≡◌};
ghost use Rattle.runs.specs.Runs.{a_run};
ghost use Rattle.pool.specs.Pool.{added_of};
ghost use Rattle.sizes.specs.Sizes.{letter_of};
ghost use Rattle.pool_lines.specs.Lines.{add_line};

use issue_line::{Line, read_line};
use pool::{Pool, add};
use refusals::Refusal;
use runs::Run;

// The rings of a line.
pub fn run_of(line: Line) -> Run
    ensures { result ≡ a_run (letter_of line.size) line.first line.last }
{
    Run {
        size: u32::from(line.size.letter()),
        first: line.first,
        last: line.last,
    }
}

// Adds the run of an issue line to a pool. Refusals: `BadLine` (the bytes are not exactly one line), `Pooled` (a number of it is pooled in its size),
// `PoolFull` (more runs than a pool has would be needed, after joining).
#[tactic(auto, unfolding(crate::specs::Lines::add_line, crate::specs::Lines::add_read))]
pub fn add_line(p: Pool, bytes: &[u8]) -> Result<Pool, Refusal>
    ensures { added_of p result ≡ add_line p bytes.now }
{
    let line = read_line(bytes).ok_or(Refusal::BadLine)?;
    add(p, run_of(line))
}
