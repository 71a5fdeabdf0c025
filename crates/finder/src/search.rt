// The search: the runs once, in rising order, each with the first bytes that are lower than the lowest found before.
ghost use Rattle.std.specs.Prelude.{◌≡◌, ◌+◌, ◌≤◌};
ghost use Rattle.finder.specs.Runs.{Held, run_bytes};
ghost use Rattle.finder.specs.Search.{Lowest, BestOf};

use crate::first::lowest;
use crate::rows::run_values;
use crate::run::GIVEN;
use problem::good::Problem;
use values::rows::{POSITIONS, ROWS};

// The lowest first byte that made a run a witness, and the first run that it did.
#[derive(Clone, Copy)]
pub(crate) struct Best {
    pub(crate) first: u32,
    pub(crate) run: u32,
}

// The lowest first byte below a limit that makes run m a witness; no first byte is tried where the run breaks a constraint.
fn tried(
    p: &Problem,
    m: u32,
    limit: u32,
    run: &mut [[bool; GIVEN]; POSITIONS],
    table: &mut [bool; ROWS],
) -> Option<u32>
    requires { (limit ≤ p.now.bound + 2) × Held run.old }
    ensures { Lowest p.now (run_bytes p.now m) limit result × Held run.new }
{
    if !run_values(p, m, run, table) {
        return None;
    }
    lowest(p, run, table, limit)
}

// The best of so many runs; with 0, a prefix, nothing is lower.
#[tactic(auto, unfolding(answers::specs::Limits::bound_limit))]
pub(crate) fn search(p: &Problem, runs: u32) -> Option<Best>
    ensures { BestOf p.now runs result }
{
    let mut run = [[false; GIVEN]; POSITIONS];
    let mut table = [false; ROWS];
    let mut limit = p.bound() + 2;
    let mut best = None;
    for m in 0..runs {
        if let Some(first) = tried(p, m, limit, &mut run, &mut table) {
            limit = first;
            best = Some(Best { first, run: m });
            if first == 0 {
                return best;
            }
        }
    }
    best
}
