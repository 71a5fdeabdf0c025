// A good problem: what its outline shows in words that passed the check, and the numbers of its CNF. A contract sees it as the problem.
ghost use Rattle.std.specs.Prelude.{◌≡◌, length, MatchResult};
ghost use Rattle.counts.specs.Promise.{counts_of};
ghost use Rattle.meaning.specs.Calls.{WellFormed, check_problem};
ghost use Rattle.meaning.specs.Problem.{W, problem};
ghost use Rattle.meaning.specs.Proper.{Proper};
ghost use Rattle.problem.specs.Promise.{refusal_answer};

use crate::Refusal;
use crate::check::check;
use crate::shown::Shown;
use counts::Counts;
use std::marker::Model;

#[derive(Drop)]
pub struct Problem<'a> {
    shown: Shown<'a>,
    width: u32,
    numbers: Counts,
}

impl<'a> Model for Problem<'a> {
    ghost use Rattle.meaning.specs.Problem as problems;
    ghost use Rattle.problem.specs.Good.{Good};

    ghost Value = { problems.Problem };

    ghost view = { λ a. a.shown };

    ghost invariant = { λ a. Good a.shown a.width a.numbers };
}

impl<'a> Problem<'a> {
    // The check, and of good words the problem.
    #[tactic(auto, using(crate::proofs::GoodWords::good_if_checked))]
    pub fn new(version: u32, words: &'a [u32]) -> Result<Problem<'a>, Refusal>
        ensures { MatchResult result (λ p. WellFormed version words.now × (p ≡ problem version words.now)) (λ f. refusal_answer f ≡ check_problem version words.now) }
    {
        let found = check(version, words)?;
        Ok(Problem {
            shown: Shown::new(words, found.outline),
            width: found.outline.width,
            numbers: found.counts,
        })
    }

    // The same, for what reads any problem.
    pub fn shown(&self) -> &Shown<'a>
        ensures is { result.now ≡ self.now }
        ensures proper { Proper self.now }
    {
        &self.shown
    }

    // The same by value, for loops that write: what is behind a reference they read anew after each store.
    pub fn held(&self) -> Problem<'a>
        ensures is { result ≡ self.now }
        ensures proper { Proper self.now }
    {
        Problem {
            shown: self.shown.held(),
            width: self.width,
            numbers: self.numbers,
        }
    }

    // I, L, A, D, N and k. Each also tells that the problem is proper, which `Shown` does not know.
    pub fn inputs(&self) -> u32
        ensures is { result ≡ self.now.inputs }
        ensures proper { Proper self.now }
    {
        self.shown.inputs()
    }

    pub fn latches(&self) -> u32
        ensures is { result ≡ length self.now.latches }
        ensures proper { Proper self.now }
    {
        self.shown.latches()
    }

    pub fn gates(&self) -> u32
        ensures is { result ≡ length self.now.gates }
        ensures proper { Proper self.now }
    {
        self.shown.gates()
    }

    pub fn constraints(&self) -> u32
        ensures is { result ≡ length self.now.constraints }
        ensures proper { Proper self.now }
    {
        self.shown.constraints()
    }

    pub fn nodes(&self) -> u32
        ensures is { result ≡ length self.now.nodes }
        ensures proper { Proper self.now }
    {
        self.shown.nodes()
    }

    pub fn bound(&self) -> u32
        ensures is { result ≡ self.now.bound }
        ensures proper { Proper self.now }
    {
        self.shown.bound()
    }

    // W.
    pub fn width(&self) -> u32
        ensures is { result ≡ W self.now }
        ensures proper { Proper self.now }
    {
        self.width
    }

    // The numbers of its CNF.
    pub fn counts(&self) -> Counts
        ensures is { result ≡ counts_of self.now }
        ensures proper { Proper self.now }
    {
        self.numbers
    }
}
