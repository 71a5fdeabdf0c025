// The lines of a circuit's text: the header's, then those of its inputs, latches, outputs and gates.
ghost use Rattle.std.specs.Prelude.{◌≡◌, ◌+◌, ◌*◌, ◌≤◌, ◌<◌, length, [], ◌∷◌, Ok};
ghost use Rattle.text.specs.Readings.{and_then, in_turn, space, newline, at_most, exactly};
ghost use Rattle.aiger.specs.Texts.{opening, below, reset_due, lines_due};
ghost use Rattle.aiger.specs.Reads.{count_of, due_of, lines_of, reached, Passes, Keeps};

use crate::due::{NEWLINE, Reached, SPACE, at_most, exactly, mark, name, reset};
use crate::sizes::{Kind, Sizes};
use answers::limits::{GATES_LIMIT, INPUTS_LIMIT, LARGEST_NUMBER, LATCHES_LIMIT, OUTPUTS_LIMIT};

// A space, and a number that is kept.
fn spaced(text: &[u8], before: Reached, most: u32, table: &mut [u32]) -> Result<Reached, usize>
    requires { before.filled < length table.old }
    ensures { Keeps 1 (in_turn (space ∷ at_most most ∷ [])) text.now before table.old result table.new }
{
    at_most(text, mark(text, before, SPACE)?, most, table)
}

// `aag M I L O A`, without the end of the line.
pub(crate) fn opening(text: &[u8], table: &mut [u32]) -> Result<Reached, usize>
    requires { 5 ≤ length table.old }
    ensures { reached text.now result table.new ≡ in_turn opening 0 text.now }
{
    let m = spaced(text, name(text)?, LARGEST_NUMBER as u32, table)?;
    let inputs = spaced(text, m, INPUTS_LIMIT, table)?;
    let latches = spaced(text, inputs, LATCHES_LIMIT, table)?;
    let outputs = spaced(text, latches, OUTPUTS_LIMIT, table)?;
    spaced(text, outputs, GATES_LIMIT, table)
}

fn input(text: &[u8], before: Reached, own: u32) -> Result<Reached, usize>
    ensures { Passes (in_turn (exactly own ∷ newline ∷ [])) text.now before result }
{
    mark(text, exactly(text, before, own)?, NEWLINE)
}

fn latch(
    text: &[u8],
    before: Reached,
    own: u32,
    most: u32,
    table: &mut [u32],
) -> Result<Reached, usize>
    requires { before.filled + 2 ≤ length table.old }
    ensures { Keeps 2 (in_turn (exactly own ∷ space ∷ at_most most ∷ reset_due own ∷ [])) text.now before table.old result table.new }
{
    let next = spaced(text, exactly(text, before, own)?, most, table)?;
    reset(text, next, own, table)
}

fn output(text: &[u8], before: Reached, most: u32, table: &mut [u32]) -> Result<Reached, usize>
    requires { before.filled + 1 ≤ length table.old }
    ensures { Keeps 1 (in_turn (at_most most ∷ newline ∷ [])) text.now before table.old result table.new }
{
    mark(text, at_most(text, before, most, table)?, NEWLINE)
}

fn gate(text: &[u8], before: Reached, own: u32, table: &mut [u32]) -> Result<Reached, usize>
    requires { (0 < own) × (before.filled + 2 ≤ length table.old) }
    ensures { Keeps 2 (in_turn (exactly own ∷ space ∷ below own ∷ space ∷ below own ∷ newline ∷ [])) text.now before table.old result table.new }
{
    let left = spaced(text, exactly(text, before, own)?, own - 1, table)?;
    let right = spaced(text, left, own - 1, table)?;
    mark(text, right, NEWLINE)
}

// One line of a kind.
fn line(
    text: &[u8],
    before: Reached,
    s: Sizes,
    kind: Kind,
    i: u32,
    table: &mut [u32],
) -> Result<Reached, usize>
    requires { (i < count_of kind s) × (before.filled + 2 ≤ length table.old) }
    ensures { Keeps 2 (due_of kind s i) text.now before table.old result table.new }
{
    match kind {
        Kind::Input => input(text, before, s.input_literal(i)),
        Kind::Latch => latch(text, before, s.latch_literal(i), s.largest_literal(), table),
        Kind::Output => output(text, before, s.largest_literal(), table),
        Kind::Gate => gate(text, before, s.gate_literal(i), table),
    }
}

// All lines of a kind.
fn lines(
    text: &[u8],
    before: Reached,
    s: Sizes,
    kind: Kind,
    table: &mut [u32],
) -> Result<Reached, usize>
    requires { before.filled + 2 * count_of kind s ≤ length table.old }
    ensures { Keeps (2 * count_of kind s) (in_turn (lines_of kind s)) text.now before table.old result table.new }
{
    let mut now = before;
    for i in 0..s.count(kind) {
        now = line(text, now, s, kind, i, table)?;
    }
    Ok(now)
}

// All that is due after A.
pub(crate) fn all_lines(
    text: &[u8],
    before: Reached,
    s: Sizes,
    table: &mut [u32],
) -> Result<Reached, usize>
    requires { before.filled + 2 * (s.inputs + s.latches + s.outputs + s.gates) ≤ length table.old }
    ensures { reached text.now result table.new ≡ and_then (reached text.now (Ok before) table.old) (in_turn (lines_due s)) }
{
    let opened = mark(text, before, NEWLINE)?;
    let inputs = lines(text, opened, s, Kind::Input, table)?;
    let latches = lines(text, inputs, s, Kind::Latch, table)?;
    let outputs = lines(text, latches, s, Kind::Output, table)?;
    lines(text, outputs, s, Kind::Gate, table)
}
