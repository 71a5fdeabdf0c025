// Items 7 and 8 of the CNF: the nodes and the formula. A node is read once; what its clauses are made of is the node, W and k.
// The node and its number stay two parameters: a struct of both would have to say in each contract of which problem the node is.
#![tactic(auto, unfolding(answers::specs::Limits::bound_limit))]

ghost use Rattle.std.specs.Prelude.{[], ◌∷◌, map, ◌+◌, ◌<◌, ◌≤◌, length};
ghost use Rattle.clauses.specs.CnfWords.{words_of};
ghost use Rattle.answers.specs.Limits.{nodes_limit, bound_limit};
ghost use Rattle.meaning.specs.Cnf.{positions, selector, P, q_at, q_clauses, e_clauses, e_closed, node_clauses, nodes_item, formula_item};
ghost use Rattle.meaning.specs.Proper.{Proper, NodeProper};
ghost use Rattle.problem.specs.Promise.{node_read};
ghost use Rattle.encoder.specs.Numbering.{LiteralOf};
ghost use Rattle.encoder.specs.Writing.{Room, Wrote};
ghost use Rattle.encoder.specs.ItemParts.{form_over, NegatableForm, FormOf, value_clauses, values_of, ends_of};

use crate::each::{each, positions};
use crate::forms::{OpForm, equal_form, form, guarded_form};
use crate::literals::{e_literal, left_literal, literal, p_literal, q_end, q_literal, selector};
use crate::write::{clause, word};
use problem::Node;
use problem::good::Problem;

// The op's form over the children at i; "Next takes P(child,i+1)".
fn form_at(p: &Problem, node: Node, n: u32, i: u32) -> OpForm
    requires { Proper p.now × NodeProper p.now n (node_read node) × (n < nodes_limit) × (i ≤ p.now.bound) }
    ensures { FormOf p.now (node_read node) i result }
{
    match node {
        Node::Atom(a) => OpForm::Equal(literal(p, i, a)),
        Node::Both(a, b) => OpForm::And(p_literal(p, a, i), p_literal(p, b, i)),
        Node::Either(a, b) => OpForm::Or(p_literal(p, a, i), p_literal(p, b, i)),
        Node::Next(a) => OpForm::Equal(p_literal(p, a, i + 1)),
        Node::Until(a, b) => OpForm::Until(left_literal(p, a, i), p_literal(p, b, i)),
        Node::Release(a, b) => OpForm::Release(left_literal(p, a, i), p_literal(p, b, i)),
    }
}

// "P(n,i) has the op's form over the children's P(i)"; U and R end with P(n,i+1).
fn p_clauses(p: &Problem, room: &mut [i32], at: usize, f: OpForm, n: u32, i: u32) -> usize
    requires { (n < nodes_limit) × (i ≤ bound_limit) × NegatableForm f × Room at (form_over f (P p.now n i) (P p.now n (i + 1))) room.old }
    ensures { Wrote at (words_of (form_over f (P p.now n i) (P p.now n (i + 1)))) room.old room.new result }
{
    let x = p_literal(p, n, i);
    let y = p_literal(p, n, i + 1);
    form(room, at, f, x, y)
}

// Q(n,i); past the bound it is the end of the node's op.
fn q_at(p: &Problem, node: Node, n: u32, i: u32) -> i32
    requires { n < nodes_limit }
    ensures { LiteralOf (q_at p.now n (node_read node) i) result }
{
    q_literal(p, n, q_end(node), i)
}

// "Q(n,i) = P(n,i) for ops 0 to 3; for the others it has the same form with y = Q(n,i+1)"
fn q_clauses(
    p: &Problem,
    room: &mut [i32],
    at: usize,
    node: Node,
    f: OpForm,
    n: u32,
    i: u32,
) -> usize
    requires { (n < nodes_limit) × (i ≤ bound_limit) × FormOf p.now (node_read node) i f × Room at (q_clauses p.now n (node_read node) i) room.old }
    ensures { Wrote at (words_of (q_clauses p.now n (node_read node) i)) room.old room.new result }
{
    let x = q_at(p, node, n, i);
    match node {
        Node::Until(_, _) | Node::Release(_, _) => {
            let y = q_at(p, node, n, i + 1);
            form(room, at, f, x, y)
        }
        _ => equal_form(room, at, x, p_literal(p, n, i)),
    }
}

// P and then Q at i.
fn value(p: &Problem, room: &mut [i32], at: usize, node: Node, n: u32, i: u32) -> usize
    requires { Proper p.now × NodeProper p.now n (node_read node) × (n < nodes_limit) × (i ≤ p.now.bound) × Room at (value_clauses p.now n (node_read node) i) room.old }
    ensures { Wrote at (words_of (value_clauses p.now n (node_read node) i)) room.old room.new result }
{
    let f = form_at(p, node, n, i);
    let next = p_clauses(p, room, at, f, n, i);
    q_clauses(p, room, next, node, f, n, i)
}

fn values(p: &Problem, room: &mut [i32], at: usize, node: Node, n: u32) -> usize
    requires { NodeProper p.now n (node_read node) × (n < nodes_limit) × Room at (values_of p.now n (node_read node)) room.old }
    ensures { Wrote at (words_of (values_of p.now n (node_read node))) room.old room.new result }
{
    let all = positions(p);
    each(all, room, at, |room, at, i| value(p, room, at, node, n, i))
}

// E(n) where s(l) is true: it is Q(n,l).
fn end_at(p: &Problem, room: &mut [i32], at: usize, node: Node, n: u32, l: u32) -> usize
    requires { (n < nodes_limit) × (l ≤ p.now.bound) × Room at (e_clauses p.now n (node_read node) l) room.old }
    ensures { Wrote at (words_of (e_clauses p.now n (node_read node) l)) room.old room.new result }
{
    let on = selector(p, l);
    let x = e_literal(p, n);
    let a = q_at(p, node, n, l);
    guarded_form(room, at, on, x, a)
}

fn ends(p: &Problem, room: &mut [i32], at: usize, node: Node, n: u32) -> usize
    requires { (n < nodes_limit) × Room at (ends_of p.now n (node_read node)) room.old }
    ensures { Wrote at (words_of (ends_of p.now n (node_read node))) room.old room.new result }
{
    let all = positions(p);
    each(all, room, at, |room, at, l| end_at(p, room, at, node, n, l))
}

// s(0)..s(k), which are words and no clauses.
fn selector_words(p: &Problem, room: &mut [i32], at: usize) -> usize
    requires { at + length (map (selector p.now) (positions p.now)) ≤ length room.old }
    ensures { Wrote at (map (selector p.now) (positions p.now)) room.old room.new result }
{
    let mut next = at;
    for l in 0..=p.bound() {
        next = word(room, next, selector(p, l));
    }
    next
}

// "then (-E s(0)..s(k))"
fn closed(p: &Problem, room: &mut [i32], at: usize, n: u32) -> usize
    requires { (n < nodes_limit) × Room at (e_closed p.now n ∷ []) room.old }
    ensures { Wrote at (words_of (e_closed p.now n ∷ [])) room.old room.new result }
{
    let e = e_literal(p, n);
    let first = word(room, at, -e);
    let next = selector_words(p, room, first);
    word(room, next, 0)
}

fn node_item(p: &Problem, room: &mut [i32], at: usize, n: u32) -> usize
    requires { (n < length p.now.nodes) × Room at (node_clauses p.now n) room.old }
    ensures { Wrote at (words_of (node_clauses p.now n)) room.old room.new result }
{
    let x = p.shown().node(n);
    let second = values(p, room, at, x, n);
    let third = ends(p, room, second, x, n);
    closed(p, room, third, n)
}

// "7. Each node: for i = 0..k, P then Q; then .."
pub(crate) fn nodes(p: &Problem, room: &mut [i32], at: usize) -> usize
    requires { Room at (nodes_item p.now) room.old }
    ensures { Wrote at (words_of (nodes_item p.now)) room.old room.new result }
{
    each(p.nodes(), room, at, |room, at, n| node_item(p, room, at, n))
}

// "8. (P(N-1,0))."
pub(crate) fn formula(p: &Problem, room: &mut [i32], at: usize) -> usize
    requires { Room at (formula_item p.now) room.old }
    ensures { Wrote at (words_of (formula_item p.now)) room.old room.new result }
{
    let x = p_literal(p, p.nodes() - 1, 0);
    clause(room, at, &[x])
}
