// The outline of a problem: its sizes, and where each of its parts begins in its words.
ghost use Rattle.std.specs.Prelude.{◌≡◌, ◌<◌, ltb, SomeIff};
ghost use Rattle.meaning.specs.Problem.{header_words, header_word, outline};
ghost use Rattle.meaning.specs.Proper.{InLimits};
ghost use Rattle.problem.specs.Promise.{outline_of};

use crate::Outline;
use crate::read::word_at;

// "A lent slice of 32-bit words: I, L, A, N, k", and in version 2 D: the place of each.
pub(crate) const INPUTS: usize = 0;

pub(crate) const LATCHES: usize = 1;

pub(crate) const GATES: usize = 2;

pub(crate) const NODES: usize = 3;

pub(crate) const BOUND: usize = 4;

pub(crate) const CONSTRAINTS: usize = 5;

// Pairs for the latches and for the gates; constraints are single words, nodes triples.
const PAIR: u32 = 2;

// The words of a version's header; a version not known has no header.
#[tactic(auto, unfolding(meaning::specs::Problem::header_words))]
pub(crate) fn header_words(version: u32) -> Option<u32>
    ensures { SomeIff result (0 < header_words version) (header_words version) }
{
    match version {
        1 => Some(5),
        2 => Some(6),
        _ => None,
    }
}

// Whether there is such a version.
pub fn known_version(version: u32) -> bool
    ensures { result ≡ ltb 0 (header_words version) }
{
    header_words(version).is_some()
}

// A later version's word of the header; one that the header does not have is 0, as the definition has it, and no None.
pub(crate) fn header_word(version: u32, words: &[u32], at: usize) -> u32
    ensures { result ≡ header_word version words.now at }
{
    match header_words(version) {
        Some(size) if at < size as usize => word_at(words, at),
        _ => 0,
    }
}

// The outline of words whose header is within the limits.
#[tactic(auto, using(crate::proofs::Outlines::header_few), unfolding(answers::specs::Limits::inputs_limit, answers::specs::Limits::latches_limit, answers::specs::Limits::gates_limit, answers::specs::Limits::constraints_limit))]
pub(crate) fn outline(version: u32, words: &[u32]) -> Outline
    requires { InLimits (outline version words.now) }
    ensures { outline_of result ≡ outline version words.now }
{
    let inputs = word_at(words, INPUTS);
    let latches = word_at(words, LATCHES);
    let gates = word_at(words, GATES);
    let width = inputs + latches + gates;
    let latches_from = header_words(version).unwrap_or(0);
    let gates_from = latches_from + PAIR * latches;
    let constraints_from = gates_from + PAIR * gates;
    let constraints = header_word(version, words, CONSTRAINTS);
    let nodes_from = constraints_from + constraints;
    let nodes = word_at(words, NODES);
    Outline {
        inputs,
        latches,
        gates,
        constraints,
        written_nodes: nodes,
        formula_nodes: nodes,
        bound: word_at(words, BOUND),
        width,
        latches_from,
        gates_from,
        constraints_from,
        nodes_from,
    }
}
