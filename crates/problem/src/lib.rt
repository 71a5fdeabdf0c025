// Checks a problem, counts what its CNF has, and reads its parts.
#![tactic(auto)]

pub mod answer;
pub mod check;
mod count;
pub mod good;
pub mod header;
pub mod parts;
pub mod read;
pub mod shown;

use counts::Counts;

// The sizes of a problem, its W, and where each of its parts begins in its words. The nodes of the words and those of the formula are two numbers.
#[derive(Clone, Copy)]
pub struct Outline {
    pub inputs: u32,
    pub latches: u32,
    pub gates: u32,
    pub constraints: u32,
    pub written_nodes: u32,
    pub formula_nodes: u32,
    pub bound: u32,
    pub width: u32,
    pub latches_from: u32,
    pub gates_from: u32,
    pub constraints_from: u32,
    pub nodes_from: u32,
}

// Document 01's refusals of a problem; `answer` gives the number and the place of each.
#[derive(Clone, Copy, Debug, PartialEq, Eq)]
pub enum Refusal {
    BadVersion,
    BadLength(usize),
    OutsideLimits(usize),
    BadReset(usize),
    BadLiteral(usize),
    BadNode(usize),
}

// What the check finds of a good problem: its outline, and the numbers of its CNF.
#[derive(Clone, Copy)]
pub struct ProblemRecord {
    pub outline: Outline,
    pub counts: Counts,
}

// The two literals of a gate.
#[derive(Clone, Copy, Debug, PartialEq, Eq)]
pub struct Gate {
    pub left: u32,
    pub right: u32,
}

// What stands on the left of U and R: a node, or a constant where the op is F or G.
#[derive(Clone, Copy, Debug, PartialEq, Eq)]
pub enum Left {
    Constant(bool),
    Child(u32),
}

// A node by its shape. F is U and G is R with a constant on the left.
#[derive(Clone, Copy, Debug, PartialEq, Eq)]
pub enum Node {
    Atom(u32),
    Both(u32, u32),
    Either(u32, u32),
    Next(u32),
    Until(Left, u32),
    Release(Left, u32),
}
