// A candidate run by value: an array of arrays, a row of input and latch bits for each position. Its open bits are the digits of its number.
ghost use Rattle.std.specs.Prelude.{false, ◌≡◌, ℕ, ◌+◌, ◌-◌, ◌*◌, ◌/◌, ◌^◌, ◌<◌, ◌≤◌, eqb, length, get_or};
ghost use Rattle.meaning.specs.Witnesses.{byte};
ghost use Rattle.finder.specs.Runs.{Held, Filled, digit, resets, bytes_by, bit};

use answers::limits::{INPUTS_LIMIT, LATCHES_LIMIT};
use problem::good::Problem;
use problem::read::{FREE, latch_place, word_at};
use values::rows::POSITIONS;

// A bit for each input and each latch of a position, however many there are.
pub(crate) const GIVEN: usize = (INPUTS_LIMIT + LATCHES_LIMIT) as usize;

// The inputs of one position by the lowest digits of a number, the last input lowest; answers the digits that are left. By their numbers, which
// say the digit of each.
fn inputs_by(inputs: u32, digits: u32, row: &mut [bool]) -> u32
    requires { inputs ≤ length row.old }
    ensures { (result ≡ digits / 2 ^ inputs) × ((i : ℕ) → i < inputs → get_or row.new i false ≡ eqb (digit digits (inputs - 1 - i)) 1) × ((i : ℕ) → inputs ≤ i → get_or row.new i false ≡ get_or row.old i false) }
{
    let mut rest = digits;
    for i in (0..inputs).rev() {
        row[i as usize] = rest % 2 == 1;
        rest /= 2;
    }
    rest
}

// The inputs of all positions, the last position lowest; answers the digits that are left.
#[tactic(auto, unfolding(answers::specs::Limits::bound_limit))]
fn all_inputs_by(p: &Problem, m: u32, run: &mut [[bool; GIVEN]; POSITIONS]) -> u32
    requires { Held run.old }
    ensures { (result ≡ m / 2 ^ (p.now.inputs * (p.now.bound + 1))) × Held run.new × ((t i : ℕ) → t ≤ p.now.bound → i < p.now.inputs → bit run.new t i ≡ eqb (digit m (p.now.inputs * (p.now.bound + 1) - 1 - (p.now.inputs * t + i))) 1) }
{
    let mut rest = m;
    for t in (0..=p.bound()).rev() {
        rest = inputs_by(p.inputs(), rest, &mut run[t as usize]);
    }
    rest
}

// The first latches: a fixed one by its reset, a free one by the next digit.
#[tactic(auto, unfolding(answers::specs::Limits::inputs_limit, answers::specs::Limits::latches_limit))]
fn latches_by(p: &Problem, digits: u32, row: &mut [bool])
    requires { length row.old ≡ GIVEN }
    ensures { ((i : ℕ) → i < length p.now.latches → get_or row.new (p.now.inputs + i) false ≡ eqb (byte (bytes_by (resets p.now) digits) i) 1) × ((i : ℕ) → i < p.now.inputs → get_or row.new i false ≡ get_or row.old i false) }
{
    let (words, s) = p.shown().parts();
    let mut rest = digits;
    for i in (0..p.latches()).rev() {
        let at = (p.inputs() + i) as usize;
        let reset = word_at(words, latch_place(s, i) + 1);
        if reset == FREE {
            row[at] = rest % 2 == 1;
            rest /= 2;
        } else {
            row[at] = reset == 1;
        }
    }
}

// The inputs, and the latches at the first position, of run m.
#[tactic(auto, unfolding(answers::specs::Limits::inputs_limit, answers::specs::Limits::latches_limit))]
pub(crate) fn fill(p: &Problem, m: u32, run: &mut [[bool; GIVEN]; POSITIONS])
    requires { Held run.old }
    ensures { Filled p.now m run.new }
{
    let digits = all_inputs_by(p, m, run);
    latches_by(p, digits, &mut run[0]);
}
