// Judges a refutation of any CNF. Knows nothing of circuits.
#![tactic(auto)]

pub mod answer;
pub mod judge;
mod places;
mod steps;
mod values;
pub mod words;

// Document 01's refusals of a refutation of a bare CNF; `answer` gives the number and the place of each.
#[derive(Clone, Copy, Debug, PartialEq, Eq)]
pub enum NotRefuted {
    BadCnf(usize),
    BadRefutation(usize),
    AreaTooSmall(usize),
    StepRefused(usize),
    NotClosed(usize),
}
