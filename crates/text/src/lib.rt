// Texts: words and numbers read from bytes, and put into them.
#![tactic(auto)]

pub mod put;
pub mod scan;
