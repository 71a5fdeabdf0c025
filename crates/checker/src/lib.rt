// Judges a refutation of a problem's CNF.
#![tactic(auto)]

ghost use Rattle.std.specs.Prelude.{◌≡◌};
ghost use Rattle.checker.specs.declared.Unrefuted.TheVariants.{Cnf, Refutation};

pub mod answer;
pub mod judge;
mod prepare;

use encoder::NotWritten;
use refutation::NotRefuted;

// Why a refutation of a problem's CNF is not accepted: the CNF is not written, or it is not refuted; `answer` gives the row of each.
#[derive(Clone, Copy, Debug, PartialEq, Eq)]
pub enum Unrefuted {
    Cnf(NotWritten),
    Refutation(NotRefuted),
}

impl From<NotWritten> for Unrefuted {
    ghost from_gives = { λ f u. u ≡ Cnf f };

    fn from(f: NotWritten) -> Unrefuted {
        Unrefuted::Cnf(f)
    }
}

impl From<NotRefuted> for Unrefuted {
    ghost from_gives = { λ f u. u ≡ Refutation f };

    fn from(f: NotRefuted) -> Unrefuted {
        Unrefuted::Refutation(f)
    }
}
