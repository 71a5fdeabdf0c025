// The numbers of a problem's CNF, from what is counted in the problem: no clause is made.
#![tactic(auto)]

pub mod total;

// The numbers of a CNF.
#[derive(Clone, Copy)]
pub struct Counts {
    pub variables: usize,
    pub clauses: usize,
    pub words: usize,
}

// What is counted in a problem: positions are k + 1, a fixed reset is 0 or 1, and nodes are told by their form: x=a, "and" and "or", Until and Release.
#[derive(Clone, Copy)]
pub struct Tally {
    pub positions: usize,
    pub width: usize,
    pub latches: usize,
    pub fixed: usize,
    pub gates: usize,
    pub constraints: usize,
    pub equals: usize,
    pub ors: usize,
    pub untils: usize,
}
