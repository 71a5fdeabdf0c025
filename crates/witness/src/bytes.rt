// The checks of a witness's bytes, of its first latches, of its loop and of its positions, in the documents' order.
ghost use Rattle.std.specs.Prelude.{List, ◌≡◌, ℕ, length};
ghost use Rattle.answers.specs.Lists.{numbered};
ghost use Rattle.meaning.specs.Runs.{meets_reset};
ghost use Rattle.meaning.specs.Witnesses.{witness_length, byte_limit, byte_checks, reset_checks, loop_checks, position_checks, shape};
ghost use Rattle.witness.specs.ShownRun.{RunShown};
ghost use Rattle.values.specs.Tables.{rows_room};
ghost use Rattle.witness.specs.Promise.{AnsweredBy, byte_check};

use crate::NotWitness;
use crate::run::TRUE;
use problem::good::Problem;
use values::bytes::{LATCHES_AT, witness_length};
use values::latches::first_open;
use values::rows::{INPUTS_AT, ROW_WIDTH, meets_constraints};

// "Apart from the first, bytes are 0 or 1."
#[tactic(auto, unfolding(answers::specs::Limits::bound_limit))]
fn byte_limit(p: &Problem, i: usize) -> u32
    ensures { result ≡ byte_limit p.now i }
{
    if i == 0 {
        p.bound() + 1
    } else {
        u32::from(TRUE)
    }
}

fn each_byte(p: &Problem, witness: &[u8]) -> Result<(), NotWitness>
    ensures { AnsweredBy (numbered 0 witness.now (byte_check p.now)) result }
{
    for (i, byte) in witness.iter().enumerate() {
        if byte_limit(p, i) < u32::from(*byte) {
            return Err(NotWitness::BadWitness(i));
        }
    }
    Ok(())
}

// 7: "the length comes first, then the bytes in order".
pub(crate) fn bytes_right(p: &Problem, witness: &[u8]) -> Result<(), NotWitness>
    ensures { AnsweredBy (byte_checks p.now witness.now) result }
{
    if witness.len() != witness_length(p.shown()) {
        return Err(NotWitness::BadWitness(witness.len()));
    }
    each_byte(p, witness)
}

// "Reset is 0, 1, or 2 for free."
fn meets_reset(reset: u32, value: bool) -> bool
    ensures { result ≡ meets_reset reset value }
{
    match reset {
        0 => !value,
        1 => value,
        _ => true,
    }
}

// 8: the first latch byte against its reset.
pub(crate) fn resets(p: &Problem, witness: &[u8]) -> Result<(), NotWitness>
    requires { length witness.now ≡ witness_length p.now }
    ensures { AnsweredBy (reset_checks p.now witness.now) result }
{
    for i in 0..p.latches() {
        let at = LATCHES_AT + (i as usize);
        if !meets_reset(p.shown().latch_reset(i), witness[at] == TRUE) {
            return Err(NotWitness::AgainstReset(at));
        }
    }
    Ok(())
}

// 9: the first latch whose next value at k is not its value at l.
pub(crate) fn closes(p: &Problem, witness: &[u8], table: &[bool]) -> Result<(), NotWitness>
    requires { RunShown p.now witness.now table.now }
    ensures { AnsweredBy (loop_checks p.now witness.now (shape witness.now)) result }
{
    let Some(start) = usize::from(witness[0]).checked_sub(1) else {
        return Ok(());
    };
    let last = (p.bound() as usize) * ROW_WIDTH;
    let from = start * ROW_WIDTH + INPUTS_AT + (p.inputs() as usize);
    match first_open(p.shown(), &table[last..last + ROW_WIDTH], table, from) {
        Some(i) => Err(NotWitness::OpenLoop(i as usize)),
        None => Ok(()),
    }
}

// 20: the first position at which a constraint is false, of whatever witness shows the table.
pub(crate) fn constraints(p: &Problem, table: &[bool]) -> Result<(), NotWitness>
    requires { length table.now ≡ rows_room }
    ensures { (bs : List ℕ) → RunShown p.now bs table.now → AnsweredBy (position_checks p.now bs) result }
{
    for t in 0..=p.bound() as usize {
        let from = t * ROW_WIDTH;
        if !meets_constraints(p.shown(), &table[from..from + ROW_WIDTH]) {
            return Err(NotWitness::ConstraintBroken(t));
        }
    }
    Ok(())
}
