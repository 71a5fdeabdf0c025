// Document 02's number and place of each answer to a search.
ghost use Rattle.std.specs.Prelude.{◌≡◌};
ghost use Rattle.answers.specs.Table.{row_of};
ghost use Rattle.finder.specs.Promise.{answer_of, not_found_answer};

use crate::NotFound;
use answers::answer::Answer;

impl From<NotFound> for Answer {
    ghost from_gives = { λ f a. row_of a ≡ not_found_answer f };

    fn from(f: NotFound) -> Answer {
        match f {
            NotFound::Problem(f) => Answer::from(f),
            NotFound::TooMuchOpen(n) => Answer::new(17, n),
            NotFound::RoomTooSmall(n) => Answer::new(18, n),
            NotFound::NoneExists => Answer::new(29, 0),
        }
    }
}

// The row of what finding answers.
pub fn answer(r: Result<usize, NotFound>) -> Answer
    ensures { row_of result ≡ answer_of r }
{
    match r {
        Ok(n) => Answer::new(0, n),
        Err(f) => Answer::from(f),
    }
}
