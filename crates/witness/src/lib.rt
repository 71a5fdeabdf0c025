// Judges a witness of a problem.
#![tactic(auto)]

ghost use Rattle.std.specs.Prelude.{◌≡◌};
ghost use Rattle.witness.specs.declared.NotWitness.TheVariants as variants;

use problem::Refusal;

pub mod answer;
mod bytes;
pub mod judge;
mod run;

// Why bytes are no witness: the documents' answers to one but the yes; `answer` gives the number and the place of each.
#[derive(Clone, Copy, Debug, PartialEq, Eq)]
pub enum NotWitness {
    Problem(Refusal),
    BadWitness(usize),
    AgainstReset(usize),
    OpenLoop(usize),
    ConstraintBroken(usize),
    FormulaFalse,
}

impl From<Refusal> for NotWitness {
    ghost from_gives = { λ f e. e ≡ variants.Problem f };

    fn from(f: Refusal) -> NotWitness {
        NotWitness::Problem(f)
    }
}
