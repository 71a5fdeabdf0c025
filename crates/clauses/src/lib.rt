// Clauses, and refutations of them, as definitions and theorems. Of code only what a literal's word says of its variable.
#![tactic(auto)]

pub mod literals;
