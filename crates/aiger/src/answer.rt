// The number and place of each refusal.
ghost use Rattle.answers.specs.Table.{row_of};
ghost use Rattle.std.specs.Prelude.{◌≡◌};
ghost use Rattle.aiger.specs.Promise.{answer_of, not_done_answer};

use crate::NotDone;
use answers::answer::Answer;

impl From<NotDone> for Answer {
    ghost from_gives = { λ f a. row_of a ≡ not_done_answer f };

    fn from(f: NotDone) -> Answer {
        match f {
            NotDone::BadText(p) => Answer::new(19, p),
            NotDone::Circuit(r) => Answer::from(r),
            NotDone::RoomTooSmall(n) => Answer::new(27, n),
        }
    }
}

// The row of what reading or writing answers.
pub fn answer(r: Result<usize, NotDone>) -> Answer
    ensures { row_of result ≡ answer_of r }
{
    match r {
        Ok(n) => Answer::new(0, n),
        Err(f) => Answer::from(f),
    }
}
