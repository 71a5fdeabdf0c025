// Finds the first witness of a problem in byte order, or that none exists.
#![tactic(auto)]

use problem::Refusal;

pub mod answer;
mod bits;
pub mod find;
mod first;
mod room;
mod rows;
mod run;
mod search;

// Why no witness was found; `answer` gives the number and the place of each.
#[derive(Clone, Copy, Debug, PartialEq, Eq)]
pub enum NotFound {
    Problem(Refusal),
    TooMuchOpen(usize),
    RoomTooSmall(usize),
    NoneExists,
}

impl From<Refusal> for NotFound {
    ghost use Rattle.std.specs.Prelude.{◌≡◌};
    ghost use Rattle.finder.specs.declared.NotFound.TheVariants.{Problem};

    ghost from_gives = { λ f e. e ≡ Problem f };

    fn from(f: Refusal) -> NotFound {
        NotFound::Problem(f)
    }
}
