// Item 6 of the CNF: at most one selector is true.
ghost use Rattle.std.specs.Prelude.{◌+◌, ◌<◌, ◌≤◌};
ghost use Rattle.clauses.specs.CnfWords.{words_of};
ghost use Rattle.meaning.specs.Cnf.{selectors_item};
ghost use Rattle.meaning.specs.Proper.{Proper};
ghost use Rattle.encoder.specs.Writing.{Room, Wrote};
ghost use Rattle.encoder.specs.ItemParts.{pair_after, selectors_after};

use crate::each::{each, positions};
use crate::forms::excluded_pair;
use crate::literals::selector;
use problem::good::Problem;

// The pair of l and the selector i places after the next one.
#[tactic(auto, unfolding(answers::specs::Limits::bound_limit))]
fn pair(p: &Problem, room: &mut [i32], at: usize, l: u32, i: u32) -> usize
    requires { Proper p.now × (l + 1 + i ≤ p.now.bound) × Room at (pair_after p.now l i) room.old }
    ensures { Wrote at (words_of (pair_after p.now l i)) room.old room.new result }
{
    let first = selector(p, l);
    let second = selector(p, l + 1 + i);
    excluded_pair(room, at, first, second)
}

// The pairs of l: the selectors after it are l + 1 and so on, k - l of them.
fn pairs_of(p: &Problem, room: &mut [i32], at: usize, l: u32) -> usize
    requires { (l ≤ p.now.bound) × Room at (selectors_after p.now l) room.old }
    ensures { Wrote at (words_of (selectors_after p.now l)) room.old room.new result }
{
    let n = p.bound() - l;
    each(n, room, at, |room, at, i| pair(p, room, at, l, i))
}

// "6. l < m, by l then m: (-s(l) -s(m))."
pub(crate) fn selectors(p: &Problem, room: &mut [i32], at: usize) -> usize
    requires { Room at (selectors_item p.now) room.old }
    ensures { Wrote at (words_of (selectors_item p.now)) room.old room.new result }
{
    let n = positions(p);
    each(n, room, at, |room, at, l| pairs_of(p, room, at, l))
}
