// The run that a witness shows: the values of its variables at each position, in one table of rows.
ghost use Rattle.std.specs.Prelude.{◌≡◌, false, ◌∷◌, ◌++◌, ◌+◌, ◌*◌, ◌≤◌, length, take};
ghost use Rattle.meaning.specs.Problem.{W};
ghost use Rattle.meaning.specs.Witnesses.{bits, witness_length, inputs_at, position, rows};
ghost use Rattle.witness.specs.ShownRun.{RowReady, RowsBefore};
ghost use Rattle.values.specs.Tables.{RowsRight, rows_room, given_width};

use problem::good::Problem;
use values::bytes::LATCHES_AT;
use values::latches::next_latches;
use values::rows::{INPUTS_AT, ROW_WIDTH, gates};

// "bytes are 0 or 1"
pub(crate) const TRUE: u8 = 1;

// Bytes as values: a byte is true exactly if it is 1. By a place, since of `zip` it is not proved what the values are afterwards.
fn copy_bits(bytes: &[u8], values: &mut [bool])
    requires { length values.old ≡ length bytes.now }
    ensures { values.new ≡ bits bytes.now }
{
    for (i, byte) in bytes.iter().enumerate() {
        values[i] = *byte == TRUE;
    }
}

// Variable 0 and the inputs of a position.
#[tactic(auto, unfolding(values::specs::Tables::row_width, answers::specs::Limits::inputs_limit, answers::specs::Limits::latches_limit, answers::specs::Limits::gates_limit, answers::specs::Limits::bound_limit))]
fn inputs(p: &Problem, witness: &[u8], t: usize, row: &mut [bool])
    requires { RowReady p.now witness.now t row.old }
    ensures { take (1 + p.now.inputs) row.new ≡ false ∷ inputs_at p.now witness.now t }
{
    let inputs = p.inputs() as usize;
    let from = LATCHES_AT + (p.latches() as usize) + inputs * t;
    row[0] = false;
    copy_bits(
        &witness[from..from + inputs],
        &mut row[INPUTS_AT..INPUTS_AT + inputs],
    );
}

// The latches of a position: those of the witness, or the next values of the position before.
#[tactic(auto, unfolding(values::specs::Tables::row_width, answers::specs::Limits::inputs_limit, answers::specs::Limits::latches_limit, answers::specs::Limits::gates_limit, answers::specs::Limits::bound_limit))]
fn latches(p: &Problem, witness: &[u8], t: usize, before: &[bool], row: &mut [bool])
    requires ready { RowReady p.now witness.now t row.old }
    requires before { RowsBefore p.now witness.now t before.now }
    ensures { take (given_width p.now) row.new ≡ take (1 + p.now.inputs) row.old ++ (position p.now witness.now t).latches }
{
    let at = INPUTS_AT + (p.inputs() as usize);
    let latches = p.latches() as usize;
    match t.checked_sub(1) {
        Some(last) => next_latches(p.shown(), &before[last * ROW_WIDTH..], row, at),
        None => copy_bits(
            &witness[LATCHES_AT..LATCHES_AT + latches],
            &mut row[at..at + latches],
        ),
    }
}

// The row of a position, after those before it.
fn row(p: &Problem, witness: &[u8], t: usize, before: &[bool], row: &mut [bool])
    requires ready { RowReady p.now witness.now t row.old }
    requires before { RowsBefore p.now witness.now t before.now }
    ensures { take (W p.now + 1) row.new ≡ rows p.now witness.now t }
{
    inputs(p, witness, t, row);
    latches(p, witness, t, before, row);
    gates(p.shown(), row);
}

// The run that a witness shows.
#[tactic(auto, unfolding(values::specs::Tables::row_width, answers::specs::Limits::inputs_limit, answers::specs::Limits::latches_limit, answers::specs::Limits::gates_limit, answers::specs::Limits::bound_limit))]
pub(crate) fn run(p: &Problem, witness: &[u8], table: &mut [bool])
    requires { (length witness.now ≡ witness_length p.now) × (length table.old ≡ rows_room) }
    ensures { RowsRight p.now witness.now (p.now.bound + 1) table.new }
{
    for t in 0..=p.bound() as usize {
        let (before, rest) = table.split_at_mut(t * ROW_WIDTH);
        row(p, witness, t, before, &mut rest[..ROW_WIDTH]);
    }
}
