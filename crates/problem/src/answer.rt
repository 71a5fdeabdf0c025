// Document 01's row of each refusal of a problem.
ghost use Rattle.std.specs.Prelude.{◌≡◌};
ghost use Rattle.answers.specs.Table.{row_of};
ghost use Rattle.problem.specs.Promise.{answer_of, refusal_answer};

use crate::{ProblemRecord, Refusal};
use answers::answer::Answer;

impl From<Refusal> for Answer {
    ghost from_gives = { λ f a. row_of a ≡ refusal_answer f };

    fn from(f: Refusal) -> Answer {
        match f {
            Refusal::BadVersion => Answer::new(15, 0),
            Refusal::BadLength(n) => Answer::new(1, n),
            Refusal::OutsideLimits(i) => Answer::new(2, i),
            Refusal::BadReset(i) => Answer::new(3, i),
            Refusal::BadLiteral(i) => Answer::new(4, i),
            Refusal::BadNode(i) => Answer::new(5, i),
        }
    }
}

// The row of what the check answers.
pub fn answer(r: Result<ProblemRecord, Refusal>) -> Answer
    ensures { row_of result ≡ answer_of r }
{
    match r {
        Ok(_) => Answer::new(0, 0),
        Err(f) => Answer::from(f),
    }
}
