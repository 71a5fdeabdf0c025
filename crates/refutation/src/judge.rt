// The judge of a refutation of a bare CNF.
ghost use Rattle.std.specs.Prelude.{◌≡◌, suc, ◌+◌, length, replicate};
ghost use Rattle.clauses.specs.CnfWords.{clauses_of};
ghost use Rattle.clauses.specs.Refutations.{steps_of, judge_steps};
ghost use Rattle.refutation.specs.Promise.{answer_of, Judged};

use crate::NotRefuted;
use crate::places::{Counted, place_cnf};
use crate::steps::judge_steps;
use crate::words::{count_clauses, count_steps};

// Judges the steps in areas of exactly the words that are needed. What they held is no matter, and all are 0 afterwards.
fn judge_counted(words: &Counted, values: &mut [u64], places: &mut [u64]) -> Result<(), NotRefuted>
    requires numbers { length values.old ≡ suc words.now.variables }
    requires clauses { length places.old ≡ words.now.clauses + words.now.steps }
    ensures answer { answer_of result ≡ judge_steps (clauses_of words.now.cnf.now) (steps_of words.now.refutation.now) }
    ensures values { values.new ≡ replicate (length values.old) 0 }
    ensures places { places.new ≡ replicate (length places.old) 0 }
{
    values.fill(0);
    places.fill(0);
    place_cnf(words.cnf, &mut places[..words.clauses]);
    let answer = judge_steps(words, values, places);
    values.fill(0);
    places.fill(0);
    answer
}

// 16, then 11, then 12 by numbers and by clauses, then 13 and 14.
pub fn judge(
    variables: u32,
    cnf: &[i32],
    refutation: &[i32],
    by_numbers: &mut [u64],
    by_clauses: &mut [u64],
) -> Result<(), NotRefuted>
    ensures { Judged variables cnf.now refutation.now by_numbers.old by_clauses.old result by_numbers.new by_clauses.new }
{
    let clauses = count_clauses(variables, cnf).map_err(NotRefuted::BadCnf)?;
    let steps = count_steps(variables, clauses, refutation).map_err(NotRefuted::BadRefutation)?;
    let numbers = variables as usize + 1;
    if by_numbers.len() < numbers {
        return Err(NotRefuted::AreaTooSmall(numbers));
    }
    let needed = clauses + steps;
    if by_clauses.len() < needed {
        return Err(NotRefuted::AreaTooSmall(needed));
    }
    let words = Counted {
        variables: variables as usize,
        cnf,
        clauses,
        refutation,
        steps,
    };
    judge_counted(
        &words,
        &mut by_numbers[..numbers],
        &mut by_clauses[..needed],
    )
}
