// The check of a problem, in the documents' fixed order: parts one after another, each of which passes or refuses.
ghost use Rattle.std.specs.Prelude.{◌≡◌, [], ◌∷◌};
ghost use Rattle.meaning.specs.Check.{header_checks, constraints_check, limit_checks, length_checks};
ghost use Rattle.meaning.specs.Calls.{outline_parts_with};
ghost use Rattle.problem.specs.Promise.{CheckedAs, outline_of};
ghost use Rattle.problem.specs.CheckParts.{Answers, AnswersEach};

use crate::count::numbers;
use crate::header::{
    BOUND, CONSTRAINTS, GATES, INPUTS, LATCHES, NODES, header_word, header_words, outline,
};
use crate::parts::{CHILDREN, constraint, gate, latch, limit, node, then};
use crate::read::node_place;
use crate::shown::Shown;
use crate::{Outline, ProblemRecord, Refusal};
use answers::limits::{
    BOUND_LIMIT, CONSTRAINTS_LIMIT, GATES_LIMIT, INPUTS_LIMIT, LATCHES_LIMIT, NODES_LIMIT,
};

// The version is known, and the words of its header are there.
fn header(version: u32, words: &[u32]) -> Result<(), Refusal>
    ensures { Answers (header_checks version words.now ∷ []) result }
{
    let size = header_words(version).ok_or(Refusal::BadVersion)?;
    if words.len() < size as usize {
        return Err(Refusal::BadLength(words.len()));
    }
    Ok(())
}

// D is within its limit.
#[tactic(auto, using(crate::proofs::Answered::one_by_one), unfolding(answers::specs::Limits::constraints_limit))]
fn constraints_limit(version: u32, words: &[u32]) -> Result<(), Refusal>
    ensures { Answers ((constraints_check version words.now ∷ []) ∷ []) result }
{
    if CONSTRAINTS_LIMIT < header_word(version, words, CONSTRAINTS) {
        return Err(Refusal::OutsideLimits(CONSTRAINTS));
    }
    Ok(())
}

#[tactic(auto, using(crate::proofs::Answered::one_by_one), unfolding(answers::specs::Limits::inputs_limit, answers::specs::Limits::latches_limit, answers::specs::Limits::gates_limit, answers::specs::Limits::nodes_limit, answers::specs::Limits::bound_limit))]
fn limits(version: u32, words: &[u32]) -> Result<(), Refusal>
    ensures { Answers (limit_checks version words.now ∷ []) result }
{
    limit(words, INPUTS, 0, INPUTS_LIMIT)?;
    limit(words, LATCHES, 0, LATCHES_LIMIT)?;
    limit(words, GATES, 0, GATES_LIMIT)?;
    limit(words, NODES, 1, NODES_LIMIT)?;
    then(
        limit(words, BOUND, 0, BOUND_LIMIT),
        constraints_limit(version, words),
    )
}

fn length(words: &[u32], s: Outline) -> Result<(), Refusal>
    ensures { Answers (length_checks (outline_of s) words.now ∷ []) result }
{
    if words.len() != node_place(s, s.written_nodes) {
        return Err(Refusal::BadLength(words.len()));
    }
    Ok(())
}

// A part for each number from 0 on, in their order.
fn all<F: Fn(u32) -> Result<(), Refusal>>(n: u32, part: F) -> Result<(), Refusal>
    requires { F.IsAlwaysCallable part }
    ensures { AnswersEach (F.post part) n result }
{
    for i in 0..n {
        part(i)?;
    }
    Ok(())
}

// The parts that the outline tells of.
fn parts(words: &[u32], s: Outline, children: &[u32]) -> Result<(), Refusal>
    ensures { Answers (outline_parts_with children.now (outline_of s) words.now) result }
{
    length(words, s)?;
    all(s.latches, |i| latch(words, s, i))?;
    all(s.gates, |j| gate(words, s, j))?;
    all(s.constraints, |c| constraint(words, s, c))?;
    all(s.written_nodes, |n| node(words, s, n, children))
}

// The whole check: 15, then 1 to 5, or the record of a good problem.
#[tactic(auto, using(crate::proofs::Formed::whole))]
pub fn check(version: u32, words: &[u32]) -> Result<ProblemRecord, Refusal>
    ensures { CheckedAs version words.now result }
{
    header(version, words)?;
    limits(version, words)?;
    let outline = outline(version, words);
    parts(words, outline, &CHILDREN)?;
    let counts = numbers(&Shown::new(words, outline), outline.width);
    Ok(ProblemRecord { outline, counts })
}
