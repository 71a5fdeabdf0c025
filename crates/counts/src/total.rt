// Variables, clauses and words of a CNF in closed form.
ghost use Rattle.std.specs.Prelude.{◌≡◌, true, ℕ, ◌+◌, ◌*◌, ◌^◌, ◌≤◌, ◌<◌};
ghost use Rattle.answers.specs.Lists.{sum};
ghost use Rattle.meaning.proofs.ClosedForms.{variables_of, item_totals};
ghost use Rattle.counts.specs.Few.{Few};
ghost use Rattle.counts.specs.Promise.{tally_of, few, counts_by};

use crate::{Counts, Tally};

// No problem within the limits has as many of anything; below it no closed form leaves a word of 64 bits.
const TOO_MANY: usize = 65536;

// Few enough for the closed forms, and a position at least.
fn is_few(t: Tally) -> bool
    ensures { result ≡ few (tally_of t) }
{
    let sizes = (0 < t.positions)
        & (t.positions < TOO_MANY)
        & (t.width < TOO_MANY)
        & (t.latches < TOO_MANY)
        & (t.fixed < TOO_MANY)
        & (t.gates < TOO_MANY)
        & (t.constraints < TOO_MANY);
    sizes & (t.equals < TOO_MANY) & (t.ors < TOO_MANY) & (t.untils < TOO_MANY)
}

// What stands so often at each of some places, and has a weight. The bounds keep it, and any few such together, below 2^64.
fn at_each(places: usize, times: usize, weight: usize) -> usize
    requires { (places < 2 ^ 32) × (times < 2 ^ 18) × (weight ≤ 64) }
    ensures is { result ≡ places * (times * weight) }
    ensures bound { result ≤ 2 ^ 56 }
{
    places * (times * weight)
}

// V: 1, then W variables and a selector for each position, then 2k + 3 for each node.
fn variables_in(t: Tally) -> usize
    requires { Few (tally_of t) }
    ensures { result ≡ variables_of (tally_of t) }
{
    let Tally {
        positions,
        width,
        equals,
        ors,
        untils,
        ..
    } = t;
    let circuit = at_each(positions, width + 1, 1);
    let nodes = at_each(2 * positions + 1, equals + ors + untils, 1);
    1 + circuit + nodes
}

// Items 1 to 8 in order, the constraints after item 2; item 7 is P and Q at each position, and then E, with its clause -E s(0)..s(k).
// A clause of n literals weighs 1 + n * each: of clauses `each` is 0, of their words 1.
fn total_in(t: Tally, each: usize) -> usize
    requires { Few (tally_of t) × (each ≤ 1) }
    ensures { (weight : ℕ → ℕ) → ((n : ℕ) → weight n ≡ 1 + n * each) → result ≡ sum (item_totals weight (tally_of t)) }
{
    let Tally {
        positions,
        latches,
        fixed,
        gates,
        constraints,
        equals,
        ors,
        untils,
        ..
    } = t;
    let one = 1 + each;
    let two = 1 + 2 * each;
    let three = 1 + 3 * each;
    let equal = 2 * two;
    let or = 2 * two + three;
    let until = two + 3 * three;
    let selected = 2 * three;
    let gates_item = at_each(positions, gates, or);
    let constraints_item = at_each(positions, constraints, one);
    let resets_item = at_each(1, fixed, one);
    let steps_item = at_each(positions - 1, latches, equal);
    let closing_item = at_each(positions, latches, selected);
    let pairs = at_each(positions, positions - 1, 1) / 2;
    let selectors_item = at_each(pairs, 1, two);
    let equals_item = at_each(positions, equals, equal + equal);
    let ors_item = at_each(positions, ors, or + equal);
    let untils_item = at_each(positions, untils, until + until);
    let nodes = equals + ors + untils;
    let ends_item = at_each(positions, nodes, selected)
        + nodes
        + at_each(positions + 1, nodes, each);
    let circuit = one + gates_item + constraints_item + resets_item + steps_item;
    let nodes_item = equals_item + ors_item + untils_item + ends_item;
    circuit + closing_item + selectors_item + nodes_item + one
}

// The numbers of the CNF of every proper problem in which so much is counted; 0s where too much is, or no position. Numbers and no Option:
// `counts_by` promises them of any tally.
pub fn counts(t: Tally) -> Counts
    ensures { result ≡ counts_by (tally_of t) }
{
    if is_few(t) {
        Counts {
            variables: variables_in(t),
            clauses: total_in(t, 0),
            words: total_in(t, 1),
        }
    } else {
        Counts {
            variables: 0,
            clauses: 0,
            words: 0,
        }
    }
}
