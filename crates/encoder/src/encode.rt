// The CNF of a problem, for words that nobody has checked yet.
ghost use Rattle.clauses.specs.CnfWords.{words_of};
ghost use Rattle.meaning.specs.Cnf.{cnf};
ghost use Rattle.encoder.specs.Promise.{EncodedAs};
ghost use Rattle.encoder.specs.Writing.{Room, Wrote, RoomAnswered};

use crate::NotWritten;
use crate::circuit::{closing, gates, resets, steps};
use crate::constraints::constraints;
use crate::nodes::{formula, nodes};
use crate::selectors::selectors;
use crate::write::clause;
use counts::Counts;
use problem::good::Problem;

// Items 1 to 8, the constraints after item 2, each where the one before it ends; "1. (1)."
#[tactic(auto, using(crate::proofs::ItemsWritten::cnf_length))]
fn all_items(p: &Problem, room: &mut [i32]) -> usize
    requires { Room 0 (cnf p.now) room.old }
    ensures { Wrote 0 (words_of (cnf p.now)) room.old room.new result }
{
    let mut next = clause(room, 0, &[1]);
    next = gates(p, room, next);
    next = constraints(p, room, next);
    next = resets(p, room, next);
    next = steps(p, room, next);
    next = closing(p, room, next);
    next = selectors(p, room, next);
    next = nodes(p, room, next);
    formula(p, room, next)
}

// The CNF of a good problem: the words needed are known before the first is written.
pub fn write_problem(p: &Problem, room: &mut [i32]) -> Result<Counts, NotWritten>
    ensures { RoomAnswered p.now room.old result room.new }
{
    let numbers = p.counts();
    if room.len() < numbers.words {
        return Err(NotWritten::RoomTooSmall(numbers.words));
    }
    all_items(&p.held(), room);
    Ok(numbers)
}

// The CNF from the room's start on; at a refusal the room stays as it was.
pub fn write_cnf(version: u32, words: &[u32], room: &mut [i32]) -> Result<Counts, NotWritten>
    ensures { EncodedAs version words.now room.old result room.new }
{
    let p = Problem::new(version, words)?;
    write_problem(&p, room)
}
