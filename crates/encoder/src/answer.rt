// Document 01's row of each refusal to write.
ghost use Rattle.std.specs.Prelude.{◌≡◌};
ghost use Rattle.answers.specs.Table.{row_of};
ghost use Rattle.encoder.specs.Promise.{answer_of, not_written_answer};

use crate::NotWritten;
use answers::answer::Answer;
use counts::Counts;

impl From<NotWritten> for Answer {
    ghost from_gives = { λ e a. row_of a ≡ not_written_answer e };

    fn from(e: NotWritten) -> Answer {
        match e {
            NotWritten::Problem(f) => Answer::from(f),
            NotWritten::RoomTooSmall(n) => Answer::new(6, n),
        }
    }
}

// The row of what writing answers.
pub fn answer(r: Result<Counts, NotWritten>) -> Answer
    ensures { row_of result ≡ answer_of r }
{
    match r {
        Ok(n) => Answer::new(0, n.words),
        Err(f) => Answer::from(f),
    }
}
