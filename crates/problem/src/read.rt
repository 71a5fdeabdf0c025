// A word of a problem, and the places that an outline tells of.
ghost use Rattle.std.specs.Prelude.{◌≡◌};
ghost use Rattle.meaning.specs.Problem.{word, latch_place, gate_place, constraint_place, node_place};
ghost use Rattle.problem.specs.Promise.{outline_of};

use crate::Outline;

// Pairs for the latches, pairs for the gates, triples for the nodes; a constraint is one word.
const LATCH_WORDS: usize = 2;

const GATE_WORDS: usize = 2;

const NODE_WORDS: usize = 3;

// "2 for free"; so is a latch that is not there.
pub const FREE: u32 = 2;

// The word at a place, or 0 past the end. With `get` and `unwrap_or` the check of a problem takes a third longer.
pub fn word_at(words: &[u32], at: usize) -> u32
    ensures { result ≡ word words.now at }
{
    if at < words.len() { words[at] } else { 0 }
}

// Where the words of a latch, a gate, a constraint or a node begin. A place is a `usize`, for which a `u32` has no `From`: so `as`.
pub fn latch_place(s: Outline, i: u32) -> usize
    ensures { result ≡ latch_place (outline_of s) i }
{
    let from = s.latches_from as usize;
    from + LATCH_WORDS * (i as usize)
}

pub fn gate_place(s: Outline, j: u32) -> usize
    ensures { result ≡ gate_place (outline_of s) j }
{
    let from = s.gates_from as usize;
    from + GATE_WORDS * (j as usize)
}

pub(crate) fn constraint_place(s: Outline, c: u32) -> usize
    ensures { result ≡ constraint_place (outline_of s) c }
{
    let from = s.constraints_from as usize;
    from + (c as usize)
}

pub(crate) fn node_place(s: Outline, n: u32) -> usize
    ensures { result ≡ node_place (outline_of s) n }
{
    let from = s.nodes_from as usize;
    from + NODE_WORDS * (n as usize)
}
