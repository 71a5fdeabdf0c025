// The problem that an outline shows in words, whatever they are. A contract sees it as that problem.
ghost use Rattle.std.specs.Prelude.{◌≡◌, ℕ, length};
ghost use Rattle.meaning.specs.Problem.{latch, gate, constraint, node, node_of};
ghost use Rattle.problem.specs.Promise.{problem_in, gate_read, node_read};

use crate::read::{FREE, constraint_place, gate_place, latch_place, node_place, word_at};
use crate::{Gate, Left, Node, Outline};
use std::marker::Model;

// The literal true, which a constraint that is not there asks.
const TRUE: u32 = 1;

#[derive(Drop)]
pub struct Shown<'a> {
    words: &'a [u32],
    outline: Outline,
}

impl<'a> Model for Shown<'a> {
    ghost use Rattle.meaning.specs.Problem.{Problem};
    ghost use Rattle.problem.specs.Promise.{problem_in};

    ghost Value = { Problem };

    ghost view = { λ a. problem_in a.outline a.words.now };
}

#[tactic(auto, using(crate::proofs::Outlines::readers))]
impl<'a> Shown<'a> {
    pub fn new(words: &'a [u32], outline: Outline) -> Shown<'a>
        ensures { result ≡ problem_in outline words.now }
    {
        Shown { words, outline }
    }

    // The words and the outline that show it, for a loop that writes: it need not read them anew after each store.
    pub fn parts(&self) -> (&'a [u32], Outline)
        ensures { problem_in result.1 result.0.now ≡ self.now }
    {
        (self.words, self.outline)
    }

    // The same, by value.
    pub(crate) fn held(&self) -> Shown<'a>
        ensures { result ≡ self.now }
    {
        Shown {
            words: self.words,
            outline: self.outline,
        }
    }

    // I.
    pub fn inputs(&self) -> u32
        ensures { result ≡ self.now.inputs }
    {
        self.outline.inputs
    }

    // L.
    pub fn latches(&self) -> u32
        ensures { result ≡ length self.now.latches }
    {
        self.outline.latches
    }

    // A.
    pub fn gates(&self) -> u32
        ensures { result ≡ length self.now.gates }
    {
        self.outline.gates
    }

    // D.
    pub fn constraints(&self) -> u32
        ensures { result ≡ length self.now.constraints }
    {
        self.outline.constraints
    }

    // N, the formula's nodes.
    pub fn nodes(&self) -> u32
        ensures { result ≡ length self.now.nodes }
    {
        self.outline.formula_nodes
    }

    // k.
    pub fn bound(&self) -> u32
        ensures { result ≡ self.now.bound }
    {
        self.outline.bound
    }

    // The parts by their numbers; past the end each is what the definitions have there. No two are one function: list, place and default differ.
    pub fn latch_next(&self, i: u32) -> u32
        ensures { result ≡ (latch self.now i).next }
    {
        if i < self.outline.latches {
            word_at(self.words, latch_place(self.outline, i))
        } else {
            0
        }
    }

    pub fn latch_reset(&self, i: u32) -> u32
        ensures { result ≡ (latch self.now i).reset }
    {
        if i < self.outline.latches {
            word_at(self.words, latch_place(self.outline, i) + 1)
        } else {
            FREE
        }
    }

    pub fn gate(&self, j: u32) -> Gate
        ensures { gate_read result ≡ gate self.now j }
    {
        if self.outline.gates <= j {
            return Gate { left: 0, right: 0 };
        }
        let at = gate_place(self.outline, j);
        Gate {
            left: word_at(self.words, at),
            right: word_at(self.words, at + 1),
        }
    }

    pub fn constraint(&self, c: u32) -> u32
        ensures { result ≡ constraint self.now c }
    {
        if c < self.outline.constraints {
            word_at(self.words, constraint_place(self.outline, c))
        } else {
            TRUE
        }
    }

    // The op of a node.
    pub(crate) fn op(&self, n: u32) -> u32
        ensures { (a : ℕ) × (b : ℕ) × (node_of result a b ≡ node self.now n) }
    {
        if n < self.outline.formula_nodes {
            word_at(self.words, node_place(self.outline, n))
        } else {
            0
        }
    }

    pub fn node(&self, n: u32) -> Node
        ensures { node_read result ≡ node self.now n }
    {
        if self.outline.formula_nodes <= n {
            return Node::Atom(0);
        }
        let at = node_place(self.outline, n);
        shape(
            word_at(self.words, at),
            word_at(self.words, at + 1),
            word_at(self.words, at + 2),
        )
    }
}

// The node of an op and its words a and b; an op that is not known is the atom false.
fn shape(op: u32, a: u32, b: u32) -> Node
    ensures { node_read result ≡ node_of op a b }
{
    match op {
        0 => Node::Atom(a),
        1 => Node::Both(a, b),
        2 => Node::Either(a, b),
        3 => Node::Next(a),
        4 => Node::Until(Left::Constant(true), a),
        5 => Node::Release(Left::Constant(false), a),
        6 => Node::Until(Left::Child(a), b),
        7 => Node::Release(Left::Child(a), b),
        _ => Node::Atom(0),
    }
}
