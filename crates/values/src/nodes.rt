// The formula's value over a table of rows, by the values of each node at each position: a row of P for each node. Q is wanted of U and R on a
// lasso alone; it stands in the node's own row until P does.
ghost use Rattle.std.specs.Prelude.{◌≡◌, ◌<◌, ◌≤◌, length};
ghost use Rattle.answers.specs.Lists.{numbers, all_of};
ghost use Rattle.meaning.specs.Problem.{node};
ghost use Rattle.meaning.specs.Proper.{LeftProper};
ghost use Rattle.meaning.specs.Formulas.{formula};
ghost use Rattle.meaning.specs.LassoValue.{bounded_value};
ghost use Rattle.pairing.specs.NodeLaws.{Earlier, left_value, q_end};
ghost use Rattle.problem.specs.Promise.{left_of, node_read};
ghost use Rattle.values.specs.Tables.{row_in, at_position, shape_at};
ghost use Rattle.values.specs.Nodes.{at_node, goes_on, op_in, ByOp, EndOf, Ready, NodeReady, RowOf};
ghost use Rattle.values.specs.Values.{left_earlier, earlier, nodes_fit, rows_fit, value_in};

use crate::rows::{POSITIONS, ROW_WIDTH, ROWS};
use crate::run::Run;
use answers::limits::{BOUND_LIMIT, NODES_LIMIT};
use problem::shown::Shown;
use problem::{Left, Node};

// As many nodes as document 01's limits allow.
const NODES: usize = NODES_LIMIT as usize;

// The value on the left of U and R.
fn left_value(below: &[[bool; POSITIONS]], a: Left, i: usize) -> bool
    requires { LeftProper (length below.now) (left_of a) × (i < POSITIONS) }
    ensures { result ≡ left_value (at_node below.now) (left_of a) i }
{
    match a {
        Left::Constant(b) => b,
        Left::Child(c) => below[c as usize][i],
    }
}

// The op's value at a position over the rows of earlier nodes, where y is the node's own next value.
fn op_value(node: Node, run: &Run, below: &[[bool; POSITIONS]], i: usize, y: bool) -> bool
    requires { Earlier (length below.now) (node_read node) × (i < POSITIONS) }
    ensures { result ≡ op_in run.now below.now (node_read node) i y }
{
    match node {
        Node::Atom(x) => run.atom(x, i),
        Node::Both(a, b) => below[a as usize][i] & below[b as usize][i],
        Node::Either(a, b) => below[a as usize][i] | below[b as usize][i],
        Node::Next(a) => run.next(&below[a as usize], i),
        Node::Until(a, b) => below[b as usize][i] | (left_value(below, a, i) & y),
        Node::Release(a, b) => below[b as usize][i] & (left_value(below, a, i) | y),
    }
}

// One pass over a node: its row holds the op's value at each position, from the last one down.
fn pass(node: Node, run: &Run, below: &[[bool; POSITIONS]], end: bool, own: &mut [bool; POSITIONS])
    requires { Earlier (length below.now) (node_read node) }
    ensures { ByOp run.now below.now (node_read node) end (at_position own.new) }
{
    let mut y = end;
    for i in (0..=run.last).rev() {
        y = op_value(node, run, below, i, y);
        own[i] = y;
    }
}

// Q of a node past the last position.
fn second_end(node: Node) -> bool
    ensures { result ≡ q_end (node_read node) }
{
    matches!(node, Node::Release(..))
}

// Whether a node's value goes by its own next value.
fn goes_on(node: Node) -> bool
    ensures { result ≡ goes_on (node_read node) }
{
    matches!(node, Node::Until(..) | Node::Release(..))
}

// E of a node that goes on: on a lasso a pass over its row gives Q first, and Q at the start is E. The others do not read it.
fn own_end(node: Node, run: &Run, below: &[[bool; POSITIONS]], own: &mut [bool; POSITIONS]) -> bool
    requires { Earlier (length below.now) (node_read node) }
    ensures { EndOf run.now below.now (node_read node) result }
{
    if run.start.is_some() & goes_on(node) {
        pass(node, run, below, second_end(node), own);
        return run.end(own);
    }
    false
}

// A node's row: P, which past the last position is E.
fn node_values(
    p: &Shown,
    run: &Run,
    n: u32,
    below: &[[bool; POSITIONS]],
    own: &mut [bool; POSITIONS],
)
    requires { NodeReady p.now run.now n below.now }
    ensures { RowOf p.now run.now n own.new }
{
    let node = p.node(n);
    let end = own_end(node, run, below, own);
    pass(node, run, below, end, own);
}

// The last node's value at position 0. "Children are earlier node numbers": the nodes in order.
#[tactic(auto, unfolding(answers::specs::Limits::nodes_limit))]
fn last_value(p: &Shown, run: &Run) -> bool
    requires { Ready p.now run.now }
    ensures { result ≡ bounded_value (shape_at run.now.start) p.now.bound (row_in run.now.table.now) (formula p.now) 0 }
{
    let mut t = [[false; POSITIONS]; NODES];
    for n in 0..p.nodes() {
        let (below, rest) = t.split_at_mut(n as usize);
        node_values(p, run, n, below, &mut rest[0]);
    }
    t[p.nodes() as usize - 1][0]
}

// Whether a node on the left of U or R is before n.
fn left_earlier(n: u32, a: Left) -> bool
    ensures { result ≡ left_earlier n (left_of a) }
{
    match a {
        Left::Constant(_) => true,
        Left::Child(c) => c < n,
    }
}

// Whether a node's children are before n.
fn earlier(n: u32, node: Node) -> bool
    ensures { result ≡ earlier n (node_read node) }
{
    match node {
        Node::Atom(_) => true,
        Node::Both(a, b) | Node::Either(a, b) => (a < n) & (b < n),
        Node::Next(a) => a < n,
        Node::Until(a, b) | Node::Release(a, b) => left_earlier(n, a) & (b < n),
    }
}

// "Children are earlier node numbers", of every node.
fn all_earlier(p: &Shown) -> bool
    ensures { result ≡ all_of (λ n. earlier n (node p.now n)) (numbers 0 (length p.now.nodes)) }
{
    (0..p.nodes()).all(|n| earlier(n, p.node(n)))
}

// What the passes ask of a problem.
fn nodes_fit(p: &Shown) -> bool
    ensures { result ≡ nodes_fit p.now }
{
    let nodes = p.nodes();
    (1 <= nodes) & (nodes <= NODES_LIMIT) & (p.bound() <= BOUND_LIMIT) && all_earlier(p)
}

// What they ask of the table; variable 0 is the first of a row.
fn rows_fit(p: &Shown, table: &[bool]) -> bool
    requires { p.now.bound < POSITIONS }
    ensures { result ≡ rows_fit p.now table.now }
{
    let positions = p.bound() as usize + 1;
    table.len() == ROWS && (0..positions).all(|t| !table[t * ROW_WIDTH])
}

// "The last node is the formula": its value at position 0 over a table of rows, for a first byte of a witness; false where words or table do not fit.
pub fn formula_value(p: &Shown, first: usize, table: &[bool]) -> bool
    ensures { result ≡ value_in p.now first table.now }
{
    let last = p.bound() as usize;
    if !nodes_fit(p) || last + 1 < first || !rows_fit(p, table) {
        return false;
    }
    let start = first.checked_sub(1);
    last_value(p, &Run { table, last, start })
}
