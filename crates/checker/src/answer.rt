// Document 01's row of each refusal of a refutation of a problem's CNF.
ghost use Rattle.std.specs.Prelude.{◌≡◌};
ghost use Rattle.answers.specs.Table.{row_of};
ghost use Rattle.checker.specs.Refutation.{refuted_answer, unrefuted_answer};

use crate::Unrefuted;
use answers::answer::Answer;

impl From<Unrefuted> for Answer {
    ghost from_gives = { λ f a. row_of a ≡ unrefuted_answer f };

    fn from(f: Unrefuted) -> Answer {
        match f {
            Unrefuted::Cnf(f) => Answer::from(f),
            Unrefuted::Refutation(f) => Answer::from(f),
        }
    }
}

// The row of what judging answers.
pub fn answer(r: Result<(), Unrefuted>) -> Answer
    ensures { row_of result ≡ refuted_answer r }
{
    match r {
        Ok(()) => Answer::new(0, 0),
        Err(f) => Answer::from(f),
    }
}
