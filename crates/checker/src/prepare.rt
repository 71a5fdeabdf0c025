// The CNF of a problem for a refutation: it is written only where all that is checked before the steps is right.
ghost use Rattle.checker.specs.Preparing.{PreparedAs, PreparedFor};

use crate::Unrefuted;
use counts::Counts;
use encoder::NotWritten;
use encoder::encode::write_problem;
use problem::good::Problem;
use refutation::NotRefuted;
use refutation::words::count_steps;

// 6, 11 and 12, by the numbers of the CNF, and then the CNF.
fn prepare_good(
    p: &Problem,
    refutation: &[i32],
    room: &mut [i32],
    numbers: usize,
    places: usize,
) -> Result<Counts, Unrefuted>
    ensures { PreparedFor p.now refutation.now numbers places room.old result room.new }
{
    let n = p.counts();
    if room.len() < n.words {
        return Err(Unrefuted::Cnf(NotWritten::RoomTooSmall(n.words)));
    }
    let steps = count_steps(n.variables as u32, n.clauses, refutation).map_err(
        NotRefuted::BadRefutation,
    )?;
    let numbers_needed = n.variables + 1;
    if numbers < numbers_needed {
        return Err(Unrefuted::Refutation(NotRefuted::AreaTooSmall(numbers_needed)));
    }
    let places_needed = n.clauses + steps;
    if places < places_needed {
        return Err(Unrefuted::Refutation(NotRefuted::AreaTooSmall(places_needed)));
    }
    Ok(write_problem(p, room)?)
}

// 15, 1 to 6, 11 and 12, or the CNF written; the last two numbers are the lengths of the work areas. At a refusal the room stays as it was.
pub(crate) fn prepare(
    version: u32,
    words: &[u32],
    refutation: &[i32],
    room: &mut [i32],
    numbers: usize,
    places: usize,
) -> Result<Counts, Unrefuted>
    ensures { PreparedAs version words.now refutation.now numbers places room.old result room.new }
{
    match Problem::new(version, words) {
        Ok(p) => prepare_good(&p, refutation, room, numbers, places),
        Err(f) => Err(Unrefuted::Cnf(NotWritten::Problem(f))),
    }
}
