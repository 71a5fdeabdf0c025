// The documents' row of each answer to a witness but the yes.
ghost use Rattle.std.specs.Prelude.{◌≡◌};
ghost use Rattle.answers.specs.Table.{row_of};
ghost use Rattle.witness.specs.Promise.{answer_of, not_witness_answer};

use crate::NotWitness;
use answers::answer::Answer;

impl From<NotWitness> for Answer {
    ghost from_gives = { λ f a. row_of a ≡ not_witness_answer f };

    fn from(f: NotWitness) -> Answer {
        match f {
            NotWitness::Problem(f) => Answer::from(f),
            NotWitness::BadWitness(i) => Answer::new(7, i),
            NotWitness::AgainstReset(i) => Answer::new(8, i),
            NotWitness::OpenLoop(i) => Answer::new(9, i),
            NotWitness::ConstraintBroken(t) => Answer::new(20, t),
            NotWitness::FormulaFalse => Answer::new(10, 0),
        }
    }
}

// The row of what judging answers.
pub fn answer(r: Result<(), NotWitness>) -> Answer
    ensures { row_of result ≡ answer_of r }
{
    match r {
        Ok(()) => Answer::new(0, 0),
        Err(f) => Answer::from(f),
    }
}
