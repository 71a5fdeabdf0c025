// The values of the variables at each position of a run, in one table of rows.
ghost use Rattle.std.specs.Prelude.{◌≡◌, ◌+◌, ◌<◌, length, take, slice_set};
ghost use Rattle.std.proofs.lemmas.List.Edits.{sets};
ghost use Rattle.answers.specs.Lists.{all_of};
ghost use Rattle.meaning.specs.Problem.{gate};
ghost use Rattle.meaning.specs.Runs.{literal_value, gate_value};
ghost use Rattle.problem.specs.Promise.{problem_in};
ghost use Rattle.values.specs.Tables.{given_width};
ghost use Rattle.values.specs.Values.{gates_put};

use answers::limits::{BOUND_LIMIT, GATES_LIMIT, INPUTS_LIMIT, LATCHES_LIMIT};
use problem::Outline;
use problem::read::{gate_place, word_at};
use problem::shown::Shown;

// A row has a value for each of the variables 0..W, whatever W is, and a table a row for each position. It is one list, since
// `formula_value` promises an answer for a table of any length.
pub const ROW_WIDTH: usize = 1 + (INPUTS_LIMIT + LATCHES_LIMIT + GATES_LIMIT) as usize;

pub const POSITIONS: usize = BOUND_LIMIT as usize + 1;

pub const ROWS: usize = POSITIONS * ROW_WIDTH;

// Variable 0 comes before the inputs.
pub const INPUTS_AT: usize = 1;

// How many gates are valued in one turn of the loop over them.
const TOGETHER: usize = 8;

// The value of a literal in a row; a variable that the row does not have is false. No branch on a value: nothing foretells it, and a wrong
// guess costs more than the value.
pub fn literal(row: &[bool], x: u32) -> bool
    ensures { result ≡ literal_value row.now x }
{
    let v = (x / 2) as usize;
    let odd = x % 2 == 1;
    if v < row.len() { row[v] != odd } else { odd }
}

// Whether every constraint is true in a row.
pub fn meets_constraints(p: &Shown, row: &[bool]) -> bool
    ensures { result ≡ all_of (literal_value row.now) p.now.constraints }
{
    (0..p.constraints()).all(|c| literal(row, p.constraint(c)))
}

// "A gate is the AND of two literals". Whether the words reach past the gates is the same for every gate, so the test leaves the loop over
// them; past it the proof stands for every test of a word's place. Each literal tests its variable's.
#[tactic(auto, using(problem::proofs::Outlines::readers))]
fn gate(words: &[u32], s: Outline, row: &[bool], j: u32) -> bool
    requires { j < s.gates }
    ensures { result ≡ gate_value row.now (gate (problem_in s words.now) j) }
{
    let at = gate_place(s, j);
    if gate_place(s, s.gates) <= words.len() {
        return literal(row, words[at]) & literal(row, words[at + 1]);
    }
    literal(row, word_at(words, at)) & literal(row, word_at(words, at + 1))
}

// Where the gates of a row begin: after variable 0, the inputs and the latches.
fn gates_at(p: &Shown) -> usize
    ensures { result ≡ given_width p.now }
{
    INPUTS_AT + (p.inputs() as usize) + (p.latches() as usize)
}

// The first bits of a list, put into another from a place on; those that it has no room for are left out.
pub fn copy(bits: &[bool], count: u32, table: &mut [bool], at: usize)
    ensures { table.new ≡ sets table.old at (take count bits.now) }
{
    if let Some(room) = table.len().checked_sub(at) {
        let n = room.min(bits.len()).min(count as usize);
        table[at..at + n].copy_from_slice(&bits[..n]);
    }
}

// The gates of a row, each over the variables before it; those that the row has no room for are left out. Most are valued so many in a turn:
// that loop has a fixed number of turns, which compiling lays out one after another, so that what a turn costs is paid once for all of them.
pub fn gates(p: &Shown, row: &mut [bool])
    ensures { row.new ≡ gates_put p.now.gates (given_width p.now) row.old }
{
    let (words, s) = p.parts();
    let at = gates_at(p);
    let count = row.len().saturating_sub(at).min(p.gates() as usize);
    let turns = count / TOGETHER;
    for turn in 0..turns {
        let from = turn * TOGETHER;
        for j in from..from + TOGETHER {
            row[at + j] = gate(words, s, row, j as u32);
        }
    }
    for k in turns * TOGETHER..count {
        row[at + k] = gate(words, s, row, k as u32);
    }
}
