// The numbers of a problem's CNF, by what is counted in the problem.
ghost use Rattle.std.specs.Prelude.{◌≡◌, ℕ};
ghost use Rattle.counts.specs.Promise.{counts_of};
ghost use Rattle.meaning.proofs.ClosedForms.{fixed_resets, has_equal_form, has_or_form, has_until_form};
ghost use Rattle.meaning.specs.Problem.{W, node_of};
ghost use Rattle.meaning.specs.Proper.{Proper};
ghost use Rattle.problem.specs.Forms.{FormsOf};

use crate::shown::Shown;
use counts::total::counts;
use counts::{Counts, Tally};

// The resets that are 0 or 1. What is counted comes in any order: so a number is added, where `filter` would branch.
#[tactic(auto, using(crate::proofs::CountingOneMore::counting))]
fn fixed(p: &Shown) -> usize
    ensures { result ≡ fixed_resets p.now.latches }
{
    let mut count = 0;
    for i in 0..p.latches() {
        count += usize::from(p.latch_reset(i) < 2);
    }
    count
}

// The nodes by their form: x=a, "and" and "or", Until and Release.
#[derive(Clone, Copy)]
struct Forms {
    equals: usize,
    ors: usize,
    untils: usize,
}

// By the op alone: to read the whole node would branch on it.
fn is_or(op: u32) -> bool
    ensures { (a b : ℕ) → result ≡ has_or_form (node_of op a b) }
{
    (0 < op) & (op < 3)
}

fn is_until(op: u32) -> bool
    ensures { (a b : ℕ) → result ≡ has_until_form (node_of op a b) }
{
    (3 < op) & (op < 8)
}

fn is_equal(op: u32) -> bool
    ensures { (a b : ℕ) → result ≡ has_equal_form (node_of op a b) }
{
    !is_or(op) & !is_until(op)
}

#[tactic(auto, using(crate::proofs::CountingOneMore::counting))]
fn by_form(p: &Shown) -> Forms
    ensures { FormsOf p.now.nodes result }
{
    let mut forms = Forms {
        equals: 0,
        ors: 0,
        untils: 0,
    };
    for n in 0..p.nodes() {
        let op = p.op(n);
        forms.equals += usize::from(is_equal(op));
        forms.ors += usize::from(is_or(op));
        forms.untils += usize::from(is_until(op));
    }
    forms
}

// The numbers of the CNF of a proper problem, whose width is known.
pub(crate) fn numbers(p: &Shown, width: u32) -> Counts
    requires { Proper p.now × (width ≡ W p.now) }
    ensures { result ≡ counts_of p.now }
{
    let forms = by_form(p);
    counts(Tally {
        positions: p.bound() as usize + 1,
        width: width as usize,
        latches: p.latches() as usize,
        fixed: fixed(p),
        gates: p.gates() as usize,
        constraints: p.constraints() as usize,
        equals: forms.equals,
        ors: forms.ors,
        untils: forms.untils,
    })
}
