// Judges a refutation of a problem's CNF, which is written into a lent room.
ghost use Rattle.meaning.specs.Problem.{Problem};
ghost use Rattle.checker.specs.Refutation.{CnfHeld, CnfIn, JudgedFor, JudgedAs};

use crate::Unrefuted;
use crate::prepare::prepare;
use counts::Counts;
use refutation::judge::judge;

// The refutation against the CNF that the room holds, whose numbers are known. A problem's CNF is never answered with 16.
fn judge_written(
    n: Counts,
    refutation: &[i32],
    room: &[i32],
    by_numbers: &mut [u64],
    by_clauses: &mut [u64],
) -> Result<(), Unrefuted>
    requires { CnfIn n room.now }
    ensures { (p : Problem) → CnfHeld p n room.now → JudgedFor p refutation.now by_numbers.old by_clauses.old result by_numbers.new by_clauses.new }
{
    let cnf = &room[..n.words];
    let judged = judge(n.variables as u32, cnf, refutation, by_numbers, by_clauses);
    judged.map_err(Unrefuted::Refutation)
}

// 15, 1 to 6, 11 to 14 or yes, for any words and whatever the buffers hold.
pub fn judge_refutation(
    version: u32,
    words: &[u32],
    refutation: &[i32],
    room: &mut [i32],
    by_numbers: &mut [u64],
    by_clauses: &mut [u64],
) -> Result<(), Unrefuted>
    ensures { JudgedAs version words.now refutation.now room.old by_numbers.old by_clauses.old result room.new by_numbers.new by_clauses.new }
{
    let (numbers, clauses) = (by_numbers.len(), by_clauses.len());
    let n = prepare(version, words, refutation, room, numbers, clauses)?;
    judge_written(n, refutation, room, by_numbers, by_clauses)
}
