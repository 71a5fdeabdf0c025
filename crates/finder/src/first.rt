// The first bytes that make a run a witness.
ghost use Rattle.std.specs.Prelude.{◌∷◌, ◌≡◌, ℕ, ◌+◌, ◌≤◌};
ghost use Rattle.finder.specs.Runs.{Shown, run_bytes};
ghost use Rattle.finder.specs.Search.{judged, Lowest};

use crate::rows::row_of;
use crate::run::GIVEN;
use problem::good::Problem;
use values::latches::first_open;
use values::nodes::formula_value;
use values::rows::{POSITIONS, ROWS};

// Whether the judge accepts the run with this first byte, "0 for a prefix or l + 1"; a loop that does not close costs no node.
#[tactic(auto, unfolding(answers::specs::Limits::bound_limit))]
fn is_witness(
    p: &Problem,
    run: &[[bool; GIVEN]; POSITIONS],
    table: &[bool; ROWS],
    first: u32,
) -> bool
    requires { first ≤ p.now.bound + 1 }
    ensures { result ≡ judged p.now run.now table.now first }
{
    let first = first as usize;
    if 0 < first {
        let last = row_of(table, p.bound() as usize);
        if first_open(p.shown(), last, &run[first - 1], p.inputs() as usize).is_some() {
            return false;
        }
    }
    formula_value(p.shown(), first, table)
}

// The lowest first byte below a limit that makes the run a witness.
pub(crate) fn lowest(
    p: &Problem,
    run: &[[bool; GIVEN]; POSITIONS],
    table: &[bool; ROWS],
    limit: u32,
) -> Option<u32>
    requires { limit ≤ p.now.bound + 2 }
    ensures { (m : ℕ) → Shown p.now m (p.now.bound + 1) run.now table.now → Lowest p.now (run_bytes p.now m) limit result }
{
    (0..limit).find(|first| is_witness(p, run, table, *first))
}
