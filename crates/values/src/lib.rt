// The values of a circuit's variables and of a formula's nodes over a run.
#![tactic(auto)]

pub mod bytes;
pub mod latches;
pub mod nodes;
pub mod rows;
mod run;
