// Clauses for each number below some n, one after the other.
ghost use Rattle.std.specs.Prelude.{◌≡◌, List, ℕ, ◌+◌};
ghost use Rattle.answers.specs.Lists.{numbers, each};
ghost use Rattle.clauses.specs.Clauses.{Clause};
ghost use Rattle.clauses.specs.CnfWords.{words_of};
ghost use Rattle.meaning.specs.Proper.{Proper};
ghost use Rattle.encoder.specs.Writing.{Room, Wrote};
ghost use Rattle.encoder.specs.Each.{WritesEach};

use problem::good::Problem;

// Of each number below n the clauses that f writes.
pub(crate) fn each<F: Fn(&mut [i32], usize, u32) -> usize>(
    n: u32,
    room: &mut [i32],
    at: usize,
    f: F,
) -> usize
    requires { (g : ℕ → List Clause) × WritesEach F.Fn f n g × Room at (each (numbers 0 n) g) room.old }
    ensures { (g : ℕ → List Clause) → WritesEach F.Fn f n g → Room at (each (numbers 0 n) g) room.old → Wrote at (words_of (each (numbers 0 n) g)) room.old room.new result }
{
    let mut next = at;
    for i in 0..n {
        next = f(room, next, i);
    }
    next
}

// How many positions there are: 0..k.
#[tactic(auto, unfolding(answers::specs::Limits::bound_limit))]
pub(crate) fn positions(p: &Problem) -> u32
    ensures is { result ≡ p.now.bound + 1 }
    ensures proper { Proper p.now }
{
    p.bound() + 1
}
