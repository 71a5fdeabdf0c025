// The latches' next values by a row: put into another row, or compared with one.
ghost use Rattle.std.specs.Prelude.{◌≡◌, ◌<◌, ◌≤◌, length, take, MatchOption};
ghost use Rattle.problem.specs.Promise.{problem_in};
ghost use Rattle.std.proofs.lemmas.List.Edits.{sets};
ghost use Rattle.meaning.specs.Problem.{latch};
ghost use Rattle.meaning.specs.Runs.{literal_value};
ghost use Rattle.values.specs.Tables.{next_in};
ghost use Rattle.values.specs.Values.{first_open};

use crate::rows::literal;
use problem::Outline;
use problem::read::{latch_place, word_at};
use problem::shown::Shown;

// A latch's next literal. Whether the words reach past the latches is the same for every latch, so the test leaves a loop over them; past it
// the proof stands for every test of a word's place.
#[tactic(auto, using(problem::proofs::Outlines::readers))]
fn next_literal(words: &[u32], s: Outline, i: u32) -> u32
    requires { i < s.latches }
    ensures { result ≡ (latch (problem_in s words.now) i).next }
{
    let at = latch_place(s, i);
    if latch_place(s, s.latches) <= words.len() {
        return words[at];
    }
    word_at(words, at)
}

// The first latches' next values by a row, as many as there is room for.
fn put_next(words: &[u32], s: Outline, row: &[bool], room: &mut [bool])
    requires { length room.old ≤ s.latches }
    ensures { room.new ≡ take (length room.old) (next_in (problem_in s words.now) row.now) }
{
    for (i, value) in room.iter_mut().enumerate() {
        *value = literal(row, next_literal(words, s, i as u32));
    }
}

// The latches' next values by a row, put into another from a place on; those that it has no room for are left out.
pub fn next_latches(p: &Shown, row: &[bool], next: &mut [bool], at: usize)
    ensures { next.new ≡ sets next.old at (next_in p.now row.now) }
{
    if let Some(room) = next.len().checked_sub(at) {
        let (words, s) = p.parts();
        let n = room.min(s.latches as usize);
        put_next(words, s, row, &mut next[at..at + n]);
    }
}

// A latch's next value is that of its next literal.
fn next_value(p: &Shown, row: &[bool], i: u32) -> bool
    ensures { result ≡ literal_value row.now (latch p.now i).next }
{
    literal(row, p.latch_next(i))
}

// The first latch whose next value by a row is not what another has for it, from a place on.
pub fn first_open(p: &Shown, row: &[bool], there: &[bool], at: usize) -> Option<u32>
    ensures { MatchOption result (first_open p.now row.now there.now at ≡ length p.now.latches) (λ i. (i ≡ first_open p.now row.now there.now at) × (i < length p.now.latches)) }
{
    let (words, s) = p.parts();
    let there = &there[at.min(there.len())..];
    let n = there.len().min(s.latches as usize);
    for (i, value) in there[..n].iter().enumerate() {
        if literal(row, next_literal(words, s, i as u32)) != *value {
            return Some(i as u32);
        }
    }
    (n as u32..p.latches()).find(|i| next_value(p, row, *i))
}
