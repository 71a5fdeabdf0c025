// Steps: whether one is accepted, and all steps one after the other.
ghost use Rattle.std.specs.Prelude.{◌≡◌, map, suc, ◌+◌, ◌<◌, length};
ghost use Rattle.clauses.specs.Clauses.{variable_of};
ghost use Rattle.clauses.specs.CnfWords.{clauses_of};
ghost use Rattle.clauses.specs.Refutations.{clause_numbered, step, steps_of, step_accepted, judge_steps};
ghost use Rattle.refutation.specs.Promise.{answer_of};
ghost use Rattle.refutation.specs.Work.{LiteralsWithin, Older, Marked, Standing};
ghost use Rattle.refutation.specs.Named.{named};

use crate::NotRefuted;
use crate::places::{Counted, Known, clause_at};
use crate::values::{Found, Stamp};
use clauses::literals::variable;

// Whether a step is accepted: one whose clause is trivially true exactly if it has no hints, any other by its hints.
fn accepted(so_far: &Known, clause: &[i32], hints: &[i32], values: &mut [u64]) -> bool
    requires older { Older so_far.now.words.variables (suc so_far.now.done) values.old }
    requires right { LiteralsWithin so_far.now.words.variables clause.now × LiteralsWithin (so_far.now.words.clauses + so_far.now.done) hints.now }
    ensures answer { result ≡ step_accepted (clause_numbered (named so_far.now)) (step clause.now (map variable_of hints.now)) }
    ensures marked { Marked so_far.now.words.variables (suc so_far.now.done) values.old values.new }
{
    let stamp = Stamp::after(so_far.words.variables, so_far.done);
    if !stamp.set_false(clause, values) {
        return hints.is_empty();
    }
    for (i, h) in hints.iter().enumerate() {
        match stamp.find(so_far.clause(variable(*h)), values) {
            Found::Conflict => return i + 1 == hints.len(),
            Found::Unit(w) => stamp.set_true(w, values),
            Found::Neither => return false,
        }
    }
    false
}

// 13 and 14: the steps one after the other. Each accepted step's clause has its place written down.
pub(crate) fn judge_steps(
    words: &Counted,
    values: &mut [u64],
    places: &mut [u64],
) -> Result<(), NotRefuted>
    requires standing { Standing words.now.variables words.now.cnf.now words.now.refutation.now words.now.clauses 0 places.old }
    requires older { Older words.now.variables 1 values.old }
    requires room { length places.old ≡ words.now.clauses + words.now.steps }
    ensures { answer_of result ≡ judge_steps (clauses_of words.now.cnf.now) (steps_of words.now.refutation.now) }
{
    let mut closed = false;
    let mut at = 0;
    for done in 0..words.steps {
        let clause = clause_at(words.refutation, at);
        let from = at + clause.len() + 1;
        let hints = clause_at(words.refutation, from);
        let so_far = Known {
            words: *words,
            done,
            places,
        };
        if !accepted(&so_far, clause, hints, values) {
            return Err(NotRefuted::StepRefused(done));
        }
        places[words.clauses + done] = at as u64;
        closed = clause.is_empty();
        at = from + hints.len() + 1;
    }
    if closed {
        Ok(())
    } else {
        Err(NotRefuted::NotClosed(words.steps))
    }
}
