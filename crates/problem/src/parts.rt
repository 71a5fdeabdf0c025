// The parts of a check, one after another, each of which passes or refuses: what is asked of a size, a literal, a latch, a gate, a constraint, a node.
// They hold for every outline and every number, so that words of any kind are checked by them. What they promise names the words, which `Shown`
// hides behind the problem: so each takes the words and the outline.
ghost use Rattle.std.specs.Prelude.{◌≡◌, [], ◌∷◌};
ghost use Rattle.meaning.specs.Check.{largest_literal, gate_limit, first_right, second_right, limit_check, literal_check, reset_check, latch_checks, gate_checks, constraint_checks, node_checks};
ghost use Rattle.problem.specs.Promise.{outline_of};
ghost use Rattle.problem.specs.CheckParts.{Answers, Joined};

use crate::read::{constraint_place, gate_place, latch_place, node_place, word_at};
use crate::{Outline, Refusal};

// "reset over 2" is refused.
const LARGEST_RESET: u32 = 2;

// "How many children each op has stands in one fixed table."
const OPS: usize = 8;

pub(crate) const CHILDREN: [u32; OPS] = [0, 2, 2, 1, 1, 1, 2, 2];

// Two parts one after the other: the first that refuses gives the answer. Where the second is not to be judged after a refusal, a `?` joins them.
pub fn then(first: Result<(), Refusal>, second: Result<(), Refusal>) -> Result<(), Refusal>
    ensures { Joined first second result }
{
    first.and(second)
}

// The header's word at a place is within its limits.
pub fn limit(words: &[u32], at: usize, least: u32, most: u32) -> Result<(), Refusal>
    ensures { Answers ((limit_check words.now at least most ∷ []) ∷ []) result }
{
    if !(least..=most).contains(&word_at(words, at)) {
        return Err(Refusal::OutsideLimits(at));
    }
    Ok(())
}

// A literal's word is at most so large.
pub fn literal(words: &[u32], at: usize, most: u64) -> Result<(), Refusal>
    ensures { Answers ((literal_check words.now at most ∷ []) ∷ []) result }
{
    if most < u64::from(word_at(words, at)) {
        return Err(Refusal::BadLiteral(at));
    }
    Ok(())
}

// A reset's word.
fn reset(words: &[u32], at: usize) -> Result<(), Refusal>
    ensures { Answers ((reset_check words.now at ∷ []) ∷ []) result }
{
    if LARGEST_RESET < word_at(words, at) {
        return Err(Refusal::BadReset(at));
    }
    Ok(())
}

// The literals of W variables are at most 2W + 1.
pub fn largest_literal(s: Outline) -> u64
    ensures { result ≡ largest_literal (outline_of s) }
{
    2 * u64::from(s.width) + 1
}

// Twice a gate's own variable.
fn gate_limit(s: Outline, j: u32) -> u64
    ensures { result ≡ gate_limit (outline_of s) j }
{
    2 * (u64::from(s.inputs) + u64::from(s.latches) + u64::from(j) + 1)
}

pub fn latch(words: &[u32], s: Outline, i: u32) -> Result<(), Refusal>
    ensures { Answers (latch_checks (outline_of s) words.now i ∷ []) result }
{
    let at = latch_place(s, i);
    literal(words, at, largest_literal(s))?;
    reset(words, at + 1)
}

// "each below twice its own variable"
pub fn gate(words: &[u32], s: Outline, j: u32) -> Result<(), Refusal>
    ensures { Answers (gate_checks (outline_of s) words.now j ∷ []) result }
{
    let at = gate_place(s, j);
    let most = gate_limit(s, j) - 1;
    literal(words, at, most)?;
    literal(words, at + 1, most)
}

pub fn constraint(words: &[u32], s: Outline, c: u32) -> Result<(), Refusal>
    ensures { Answers (constraint_checks (outline_of s) words.now c ∷ []) result }
{
    literal(words, constraint_place(s, c), largest_literal(s))
}

// The word a of a node: an atom's literal, or an earlier node.
fn first_word(s: Outline, n: u32, children: u32, a: u32) -> bool
    ensures { result ≡ first_right (outline_of s) n children a }
{
    if children == 0 {
        u64::from(a) <= largest_literal(s)
    } else {
        a < n
    }
}

// The word b: an earlier node where there is a second child, else 0.
fn second_word(n: u32, children: u32, b: u32) -> bool
    ensures { result ≡ second_right n children b }
{
    if children < 2 { b == 0 } else { b < n }
}

// By the table of how many children each op has.
pub fn node(words: &[u32], s: Outline, n: u32, children: &[u32]) -> Result<(), Refusal>
    ensures { Answers (node_checks children.now (outline_of s) words.now n ∷ []) result }
{
    let at = node_place(s, n);
    let Some(&number) = children.get(word_at(words, at) as usize) else {
        return Err(Refusal::BadNode(at));
    };
    if !first_word(s, n, number, word_at(words, at + 1)) {
        return Err(Refusal::BadNode(at + 1));
    }
    if !second_word(n, number, word_at(words, at + 2)) {
        return Err(Refusal::BadNode(at + 2));
    }
    Ok(())
}
