// The forms of document 01: each writes the words of its clauses.
ghost use Rattle.std.specs.Prelude.{◌+◌, ◌≤◌, length};
ghost use Rattle.clauses.specs.CnfWords.{words_of};
ghost use Rattle.meaning.specs.Cnf.{equal_form, or_form, and_form, until_form, release_form, guarded_form};
ghost use Rattle.encoder.specs.Numbering.{Negatable};
ghost use Rattle.encoder.specs.Writing.{Room, Wrote};
ghost use Rattle.encoder.specs.ItemParts.{form_over, NegatableForm, excluded_pair};

use crate::write::clause;

// An op's form over its children, which are literals by now; Until and Release end with one more.
#[derive(Clone, Copy)]
pub(crate) enum OpForm {
    Equal(i32),
    And(i32, i32),
    Or(i32, i32),
    Until(i32, i32),
    Release(i32, i32),
}

// x=a: (-x a)(x -a)
pub(crate) fn equal_form(room: &mut [i32], at: usize, x: i32, a: i32) -> usize
    requires { (at + 6 ≤ length room.old) × Negatable x × Negatable a }
    ensures { Wrote at (words_of (equal_form x a)) room.old room.new result }
{
    let next = clause(room, at, &[-x, a]);
    clause(room, next, &[x, -a])
}

// x=a or b: (x -a)(x -b)(-x a b)
pub(crate) fn or_form(room: &mut [i32], at: usize, x: i32, a: i32, b: i32) -> usize
    requires { (at + 10 ≤ length room.old) × Negatable x × Negatable a × Negatable b }
    ensures { Wrote at (words_of (or_form x a b)) room.old room.new result }
{
    let second = clause(room, at, &[x, -a]);
    let third = clause(room, second, &[x, -b]);
    clause(room, third, &[-x, a, b])
}

// x=a and b is -x=-a or -b.
pub(crate) fn and_form(room: &mut [i32], at: usize, x: i32, a: i32, b: i32) -> usize
    requires { (at + 10 ≤ length room.old) × Negatable x × Negatable a × Negatable b }
    ensures { Wrote at (words_of (and_form x a b)) room.old room.new result }
{
    or_form(room, at, -x, -a, -b)
}

// Until(x,a,b,y): (x -b)(x -a -y)(-x b a)(-x b y)
pub(crate) fn until_form(room: &mut [i32], at: usize, x: i32, a: i32, b: i32, y: i32) -> usize
    requires { (at + 15 ≤ length room.old) × Negatable x × Negatable a × Negatable b × Negatable y }
    ensures { Wrote at (words_of (until_form x a b y)) room.old room.new result }
{
    let second = clause(room, at, &[x, -b]);
    let third = clause(room, second, &[x, -a, -y]);
    let fourth = clause(room, third, &[-x, b, a]);
    clause(room, fourth, &[-x, b, y])
}

// Release(x,a,b,y) is Until(-x,-a,-b,-y).
pub(crate) fn release_form(room: &mut [i32], at: usize, x: i32, a: i32, b: i32, y: i32) -> usize
    requires { (at + 15 ≤ length room.old) × Negatable x × Negatable a × Negatable b × Negatable y }
    ensures { Wrote at (words_of (release_form x a b y)) room.old room.new result }
{
    until_form(room, at, -x, -a, -b, -y)
}

// x has the form; Until and Release end with y.
pub(crate) fn form(room: &mut [i32], at: usize, f: OpForm, x: i32, y: i32) -> usize
    requires { NegatableForm f × Negatable x × Negatable y × Room at (form_over f x y) room.old }
    ensures { Wrote at (words_of (form_over f x y)) room.old room.new result }
{
    match f {
        OpForm::Equal(a) => equal_form(room, at, x, a),
        OpForm::And(a, b) => and_form(room, at, x, a, b),
        OpForm::Or(a, b) => or_form(room, at, x, a, b),
        OpForm::Until(a, b) => until_form(room, at, x, a, b, y),
        OpForm::Release(a, b) => release_form(room, at, x, a, b, y),
    }
}

// Where s is true, x=a: (-s -x a)(-s x -a)
pub(crate) fn guarded_form(room: &mut [i32], at: usize, s: i32, x: i32, a: i32) -> usize
    requires { (at + 8 ≤ length room.old) × Negatable s × Negatable x × Negatable a }
    ensures { Wrote at (words_of (guarded_form s x a)) room.old room.new result }
{
    let next = clause(room, at, &[-s, -x, a]);
    clause(room, next, &[-s, x, -a])
}

// At most one of two selectors: (-s -m)
pub(crate) fn excluded_pair(room: &mut [i32], at: usize, s: i32, m: i32) -> usize
    requires { (at + 3 ≤ length room.old) × Negatable s × Negatable m }
    ensures { Wrote at (words_of (excluded_pair s m)) room.old room.new result }
{
    clause(room, at, &[-s, -m])
}
