// What every crate shares: lists, answers by number and place, orders of checks, and every limit under its one name.
#![tactic(auto)]

pub mod answer;
pub mod limits;
