// The constraints' item of the CNF, which stands after item 2.
ghost use Rattle.std.specs.Prelude.{◌<◌, ◌≤◌, length};
ghost use Rattle.clauses.specs.CnfWords.{words_of};
ghost use Rattle.meaning.specs.Cnf.{constraint_unit, constraints_item};
ghost use Rattle.encoder.specs.Writing.{Room, Wrote};
ghost use Rattle.encoder.specs.ItemParts.{constraints_at};

use crate::each::{each, positions};
use crate::literals::literal;
use crate::write::clause;
use problem::good::Problem;

// The unit of one constraint at t.
fn constraint(p: &Problem, room: &mut [i32], at: usize, t: u32, c: u32) -> usize
    requires { (t ≤ p.now.bound) × (c < length p.now.constraints) × Room at (constraint_unit p.now t c) room.old }
    ensures { Wrote at (words_of (constraint_unit p.now t c)) room.old room.new result }
{
    let x = literal(p, t, p.shown().constraint(c));
    clause(room, at, &[x])
}

fn constraints_at(p: &Problem, room: &mut [i32], at: usize, t: u32) -> usize
    requires { (t ≤ p.now.bound) × Room at (constraints_at p.now t) room.old }
    ensures { Wrote at (words_of (constraints_at p.now t)) room.old room.new result }
{
    let n = p.constraints();
    each(n, room, at, |room, at, c| constraint(p, room, at, t, c))
}

// "by position, then in order"
pub(crate) fn constraints(p: &Problem, room: &mut [i32], at: usize) -> usize
    requires { Room at (constraints_item p.now) room.old }
    ensures { Wrote at (words_of (constraints_item p.now)) room.old room.new result }
{
    let n = positions(p);
    each(n, room, at, |room, at, t| constraints_at(p, room, at, t))
}
