// Items 2 to 5 of the CNF: the gates, the resets, the steps and the closing of the loop.
// Each writer takes the problem, the room, and where to write; it answers where the next one writes.
#![tactic(auto, unfolding(answers::specs::Limits::inputs_limit, answers::specs::Limits::latches_limit, answers::specs::Limits::gates_limit, answers::specs::Limits::bound_limit))]

ghost use Rattle.std.specs.Prelude.{◌<◌, ◌≤◌, length};
ghost use Rattle.clauses.specs.CnfWords.{words_of};
ghost use Rattle.meaning.specs.Cnf.{gate_clauses, gates_item, resets_item, steps_item, closing_clauses, closing_item};
ghost use Rattle.encoder.specs.Writing.{Room, Wrote};
ghost use Rattle.encoder.specs.ItemParts.{gates_at, reset_clauses, step_clauses, steps_at, closings_at};

use crate::each::{each, positions};
use crate::forms::{and_form, equal_form, guarded_form};
use crate::literals::{circuit, literal, selector};
use crate::write::clause;
use problem::good::Problem;

// One gate at t: x=a and b.
fn gate(p: &Problem, room: &mut [i32], at: usize, t: u32, j: u32) -> usize
    requires { (t ≤ p.now.bound) × (j < length p.now.gates) × Room at (gate_clauses p.now t j) room.old }
    ensures { Wrote at (words_of (gate_clauses p.now t j)) room.old room.new result }
{
    let x = circuit(p, t, p.inputs() + p.latches() + j + 1);
    let g = p.shown().gate(j);
    let a = literal(p, t, g.left);
    let b = literal(p, t, g.right);
    and_form(room, at, x, a, b)
}

fn gates_at(p: &Problem, room: &mut [i32], at: usize, t: u32) -> usize
    requires { (t ≤ p.now.bound) × Room at (gates_at p.now t) room.old }
    ensures { Wrote at (words_of (gates_at p.now t)) room.old room.new result }
{
    each(p.gates(), room, at, |room, at, j| gate(p, room, at, t, j))
}

// "2. Each t, each gate."
pub(crate) fn gates(p: &Problem, room: &mut [i32], at: usize) -> usize
    requires { Room at (gates_item p.now) room.old }
    ensures { Wrote at (words_of (gates_item p.now)) room.old room.new result }
{
    let n = positions(p);
    each(n, room, at, |room, at, t| gates_at(p, room, at, t))
}

// The unit of a latch whose reset is 0 or 1.
fn reset(p: &Problem, room: &mut [i32], at: usize, i: u32) -> usize
    requires { (i < length p.now.latches) × Room at (reset_clauses p.now i) room.old }
    ensures { Wrote at (words_of (reset_clauses p.now i)) room.old room.new result }
{
    let x = circuit(p, 0, p.inputs() + i + 1);
    match p.shown().latch_reset(i) {
        0 => clause(room, at, &[-x]),
        1 => clause(room, at, &[x]),
        _ => at,
    }
}

// "3. Unit for each latch with reset 0 or 1."
pub(crate) fn resets(p: &Problem, room: &mut [i32], at: usize) -> usize
    requires { Room at (resets_item p.now) room.old }
    ensures { Wrote at (words_of (resets_item p.now)) room.old room.new result }
{
    each(p.latches(), room, at, |room, at, i| reset(p, room, at, i))
}

// One latch from t to t+1: x=a.
fn step(p: &Problem, room: &mut [i32], at: usize, t: u32, i: u32) -> usize
    requires { (t < p.now.bound) × (i < length p.now.latches) × Room at (step_clauses p.now t i) room.old }
    ensures { Wrote at (words_of (step_clauses p.now t i)) room.old room.new result }
{
    let a = literal(p, t, p.shown().latch_next(i));
    let x = circuit(p, t + 1, p.inputs() + i + 1);
    equal_form(room, at, x, a)
}

fn steps_at(p: &Problem, room: &mut [i32], at: usize, t: u32) -> usize
    requires { (t < p.now.bound) × Room at (steps_at p.now t) room.old }
    ensures { Wrote at (words_of (steps_at p.now t)) room.old room.new result }
{
    each(p.latches(), room, at, |room, at, i| step(p, room, at, t, i))
}

// "4. t = 0..k-1, each latch: latch at t+1 = next at t."
pub(crate) fn steps(p: &Problem, room: &mut [i32], at: usize) -> usize
    requires { Room at (steps_item p.now) room.old }
    ensures { Wrote at (words_of (steps_item p.now)) room.old room.new result }
{
    each(p.bound(), room, at, |room, at, t| steps_at(p, room, at, t))
}

// One latch at l, the start of the loop, where s(l) is true: x=a with its next a at k.
fn closing_latch(p: &Problem, room: &mut [i32], at: usize, l: u32, i: u32) -> usize
    requires { (l ≤ p.now.bound) × (i < length p.now.latches) × Room at (closing_clauses p.now l i) room.old }
    ensures { Wrote at (words_of (closing_clauses p.now l i)) room.old room.new result }
{
    let on = selector(p, l);
    let x = circuit(p, l, p.inputs() + i + 1);
    let a = literal(p, p.bound(), p.shown().latch_next(i));
    guarded_form(room, at, on, x, a)
}

fn closings_at(p: &Problem, room: &mut [i32], at: usize, l: u32) -> usize
    requires { (l ≤ p.now.bound) × Room at (closings_at p.now l) room.old }
    ensures { Wrote at (words_of (closings_at p.now l)) room.old room.new result }
{
    let n = p.latches();
    each(n, room, at, |room, at, i| closing_latch(p, room, at, l, i))
}

// "5. Each l, each latch x with next a at k: (-s -x a)(-s x -a)."
pub(crate) fn closing(p: &Problem, room: &mut [i32], at: usize) -> usize
    requires { Room at (closing_item p.now) room.old }
    ensures { Wrote at (words_of (closing_item p.now)) room.old room.new result }
{
    let n = positions(p);
    each(n, room, at, |room, at, l| closings_at(p, room, at, l))
}
