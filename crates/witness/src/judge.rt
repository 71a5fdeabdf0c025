// The judge of a witness: the problem's checks, then 7 to 10, with 20 after 9 and before 10.
ghost use Rattle.std.specs.Prelude.{◌++◌, ◌≡◌};
ghost use Rattle.meaning.specs.Witnesses.{shape, loop_checks, position_checks, formula_checks};
ghost use Rattle.meaning.specs.Calls.{judge_bytes, judge_witness};
ghost use Rattle.witness.specs.ShownRun.{RunShown};
ghost use Rattle.witness.specs.Promise.{AnsweredBy, answer_of};

use crate::NotWitness;
use crate::bytes::{bytes_right, closes, constraints, resets};
use crate::run::run;
use problem::good::Problem;
use values::nodes::formula_value;
use values::rows::ROWS;

// 9, 20 and 10, off the table of the run.
fn shown(p: &Problem, witness: &[u8], table: &[bool]) -> Result<(), NotWitness>
    requires { RunShown p.now witness.now table.now }
    ensures { AnsweredBy (loop_checks p.now witness.now (shape witness.now) ++ (position_checks p.now witness.now ++ formula_checks p.now witness.now)) result }
{
    closes(p, witness, table)?;
    constraints(p, table)?;
    if !formula_value(p.shown(), usize::from(witness[0]), table) {
        return Err(NotWitness::FormulaFalse);
    }
    Ok(())
}

// 7, 8, 9, 20, 10, of a good problem.
fn judge_good(p: &Problem, witness: &[u8]) -> Result<(), NotWitness>
    ensures { answer_of result ≡ judge_bytes p.now witness.now }
{
    bytes_right(p, witness)?;
    resets(p, witness)?;
    let mut table = [false; ROWS];
    run(p, witness, &mut table);
    shown(p, witness, &table)
}

// 15, 1 to 5, 7 to 10 and 20, or yes.
pub fn judge(version: u32, words: &[u32], witness: &[u8]) -> Result<(), NotWitness>
    ensures { answer_of result ≡ judge_witness version words.now witness.now }
{
    let p = Problem::new(version, words)?;
    judge_good(&p, witness)
}
