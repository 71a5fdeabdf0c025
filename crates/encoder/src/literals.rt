// The numbers of the CNF's variables, which the width W and the bound k of a problem give.
// An `as i32` is proved to lose nothing: `try_from` would answer an error that cannot come.
#![tactic(auto, unfolding(answers::specs::Limits::inputs_limit, answers::specs::Limits::latches_limit, answers::specs::Limits::gates_limit, answers::specs::Limits::nodes_limit, answers::specs::Limits::bound_limit))]

ghost use Rattle.std.specs.Prelude.{◌≡◌, ◌+◌, ◌*◌, ◌^◌, ◌<◌, ◌≤◌};
ghost use Rattle.answers.specs.Limits.{nodes_limit};
ghost use Rattle.meaning.specs.Problem.{W};
ghost use Rattle.meaning.specs.Proper.{LeftProper};
ghost use Rattle.meaning.specs.Cnf.{circuit_variable, literal_at, selector, node_variables, E, P, Q, left_at, q_end};
ghost use Rattle.problem.specs.Promise.{left_of, node_read};
ghost use Rattle.encoder.specs.Numbering.{Negatable, LiteralOf};

use problem::good::Problem;
use problem::{Left, Node};

// Circuit variable v at t; variable 0 is the constant false.
pub(crate) fn circuit(p: &Problem, t: u32, v: u32) -> i32
    requires { (t ≤ p.now.bound) × (v ≤ W p.now) }
    ensures { LiteralOf (circuit_variable p.now t v) result }
{
    if v == 0 {
        -1
    } else {
        (1 + t * p.width() + v) as i32
    }
}

// A circuit literal at t.
pub(crate) fn literal(p: &Problem, t: u32, x: u32) -> i32
    requires { (t ≤ p.now.bound) × (x ≤ 2 * W p.now + 1) }
    ensures { LiteralOf (literal_at p.now t x) result }
{
    let v = circuit(p, t, x / 2);
    if x % 2 == 1 { -v } else { v }
}

// Selector s(l).
pub(crate) fn selector(p: &Problem, l: u32) -> i32
    requires { l ≤ p.now.bound }
    ensures { LiteralOf (selector p.now l) result }
{
    ((p.bound() + 1) * p.width() + 2 + l) as i32
}

// Where node n's variables begin: P(n,0..k), then Q(n,0..k), then E(n), which is a word too.
fn node_variables(p: &Problem, n: u32) -> u32
    requires { n < nodes_limit }
    ensures is { result ≡ node_variables p.now n }
    ensures fits { result + 2 * (p.now.bound + 1) < 2 ^ 31 }
{
    let k = p.bound();
    (k + 1) * (p.width() + 1) + 2 + n * (2 * k + 3)
}

// E(n).
pub(crate) fn e_literal(p: &Problem, n: u32) -> i32
    requires { n < nodes_limit }
    ensures { LiteralOf (E p.now n) result }
{
    (node_variables(p, n) + 2 * (p.bound() + 1)) as i32
}

// P(n,i); past the bound it is E(n).
pub(crate) fn p_literal(p: &Problem, n: u32, i: u32) -> i32
    requires { n < nodes_limit }
    ensures { LiteralOf (P p.now n i) result }
{
    if i <= p.bound() {
        (node_variables(p, n) + i) as i32
    } else {
        e_literal(p, n)
    }
}

// Q(n,i); past the bound it is the end that is given.
pub(crate) fn q_literal(p: &Problem, n: u32, end: i32, i: u32) -> i32
    requires { (n < nodes_limit) × Negatable end }
    ensures { LiteralOf (Q p.now n end i) result }
{
    if i <= p.bound() {
        (node_variables(p, n) + (p.bound() + 1) + i) as i32
    } else {
        end
    }
}

// What stands on the left of U and R at i; the constant true is variable 1.
pub(crate) fn left_literal(p: &Problem, left: Left, i: u32) -> i32
    requires { LeftProper nodes_limit (left_of left) }
    ensures { LiteralOf (left_at p.now (left_of left) i) result }
{
    match left {
        Left::Constant(b) => if b { 1 } else { -1 },
        Left::Child(n) => p_literal(p, n, i),
    }
}

// Q past the bound: true for G and R, else false.
pub(crate) fn q_end(x: Node) -> i32
    ensures is { result ≡ q_end (node_read x) }
    ensures negatable { Negatable result }
{
    match x {
        Node::Release(_, _) => 1,
        _ => -1,
    }
}
