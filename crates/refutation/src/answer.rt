// Document 01's number and place of each answer.
ghost use Rattle.std.specs.Prelude.{◌≡◌};
ghost use Rattle.answers.specs.Table.{row_of};
ghost use Rattle.refutation.specs.Promise.{answer_of, refusal_answer};

use crate::NotRefuted;
use answers::answer::Answer;

// The place of a refusal is a word, a length, the words needed, a step or the steps.
impl From<NotRefuted> for Answer {
    ghost from_gives = { λ f a. row_of a ≡ refusal_answer f };

    fn from(f: NotRefuted) -> Answer {
        match f {
            NotRefuted::BadRefutation(i) => Answer::new(11, i),
            NotRefuted::AreaTooSmall(n) => Answer::new(12, n),
            NotRefuted::StepRefused(i) => Answer::new(13, i),
            NotRefuted::NotClosed(n) => Answer::new(14, n),
            NotRefuted::BadCnf(i) => Answer::new(16, i),
        }
    }
}

// The row of what judging answers.
pub fn answer(r: Result<(), NotRefuted>) -> Answer
    ensures { row_of result ≡ answer_of r }
{
    match r {
        Ok(()) => Answer::new(0, 0),
        Err(f) => Answer::from(f),
    }
}
