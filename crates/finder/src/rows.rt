// The values of a candidate run: each position's row from the run's table, its gates, constraints and next values by the judge's code.
ghost use Rattle.std.specs.Prelude.{true, false, ◌∷◌, ◌++◌, ◌≡◌, ◌+◌, ◌*◌, ◌<◌, ◌≤◌, length, take};
ghost use Rattle.meaning.specs.Problem.{W};
ghost use Rattle.meaning.specs.Runs.{with_gates};
ghost use Rattle.values.specs.Tables.{row_width, row_in};
ghost use Rattle.finder.specs.Runs.{Held, Shown, Broken};

use crate::run::{GIVEN, fill};
use problem::good::Problem;
use values::latches::next_latches;
use values::rows::{INPUTS_AT, POSITIONS, ROW_WIDTH, ROWS, copy, gates, meets_constraints};

// The row of a position.
#[tactic(auto, unfolding(values::specs::Tables::row_width, answers::specs::Limits::inputs_limit, answers::specs::Limits::latches_limit, answers::specs::Limits::gates_limit))]
pub(crate) fn row_of(table: &[bool; ROWS], t: usize) -> &[bool]
    requires { t < POSITIONS }
    ensures { result.now ≡ row_in table.now t }
{
    let from = t * ROW_WIDTH;
    &table[from..from + ROW_WIDTH]
}

// The values at a position: variable 0, the bits of the run there, and the gates.
#[tactic(auto, unfolding(answers::specs::Limits::bound_limit, answers::specs::Limits::inputs_limit, answers::specs::Limits::latches_limit))]
fn row_values(p: &Problem, t: usize, row: &[bool], table: &mut [bool; ROWS])
    requires { (t < POSITIONS) × (length row.now ≡ GIVEN) }
    ensures { take (t * row_width + (W p.now + 1)) table.new ≡ take (t * row_width) table.old ++ with_gates p.now.gates (false ∷ take (p.now.inputs + length p.now.latches) row.now) }
{
    let from = t * ROW_WIDTH;
    table[from] = false;
    copy(row, p.inputs() + p.latches(), table, from + INPUTS_AT);
    gates(p.shown(), &mut table[from..from + ROW_WIDTH]);
}

// Run m: its bits, and the values at each of its positions. Answers whether all meet the constraints; the first that does not ends it.
#[tactic(auto, unfolding(answers::specs::Limits::bound_limit))]
pub(crate) fn run_values(
    p: &Problem,
    m: u32,
    run: &mut [[bool; GIVEN]; POSITIONS],
    table: &mut [bool; ROWS],
) -> bool
    requires { Held run.old }
    ensures { Held run.new × (result ≡ true → Shown p.now m (p.now.bound + 1) run.new table.new) × (result ≡ false → Broken p.now m) }
{
    fill(p, m, run);
    let last = p.bound() as usize;
    for t in 0..=last {
        row_values(p, t, &run[t], table);
        let row = row_of(table, t);
        if !meets_constraints(p.shown(), row) {
            return false;
        }
        if t < last {
            next_latches(p.shown(), row, &mut run[t + 1], p.inputs() as usize);
        }
    }
    true
}
