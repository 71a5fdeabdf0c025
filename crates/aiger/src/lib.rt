// Circuits in AIGER's ASCII text: a reader and a writer.
#![tactic(auto)]

pub mod answer;
mod check;
mod due;
mod lines;
pub mod read;
mod sizes;
pub mod write;

use problem::Refusal;

// Why nothing was read or written; `answer` gives the number and the place of each.
#[derive(Clone, Copy, Debug, PartialEq, Eq)]
pub enum NotDone {
    BadText(usize),
    Circuit(Refusal),
    RoomTooSmall(usize),
}

impl From<Refusal> for NotDone {
    ghost use Rattle.std.specs.Prelude.{◌≡◌};
    ghost use Rattle.aiger.specs.declared.NotDone.TheVariants as not_done;

    ghost from_gives = { λ f r. r ≡ not_done.Circuit f };

    fn from(f: Refusal) -> NotDone {
        NotDone::Circuit(f)
    }
}
