// Writes the CNF of a problem.
#![tactic(auto)]

ghost use Rattle.std.specs.Prelude.{◌≡◌};
ghost use Rattle.encoder.specs.declared.NotWritten.TheVariants.{Problem};

pub mod answer;
mod circuit;
mod constraints;
mod each;
pub mod encode;
mod forms;
mod literals;
mod nodes;
mod selectors;
mod write;

use problem::Refusal;

// Why nothing is written: the problem's refusal, or the words needed; `answer` gives the row of each.
#[derive(Clone, Copy, Debug, PartialEq, Eq)]
pub enum NotWritten {
    Problem(Refusal),
    RoomTooSmall(usize),
}

impl From<Refusal> for NotWritten {
    ghost from_gives = { λ f e. e ≡ Problem f };

    fn from(f: Refusal) -> NotWritten {
        NotWritten::Problem(f)
    }
}
