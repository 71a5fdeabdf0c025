// Reads a circuit's text: its words, or the place of the fault.
ghost use Rattle.std.specs.Prelude.{◌≡◌, ◌+◌, ◌*◌, ◌≤◌, length, take, MatchResult};
ghost use Rattle.answers.specs.Lists.{written};
ghost use Rattle.text.specs.Promise.{placed};
ghost use Rattle.answers.specs.Limits.{inputs_limit, latches_limit, outputs_limit, gates_limit};
ghost use Rattle.aiger.specs.Circuits.{words_in_all};
ghost use Rattle.text.specs.Readings.{fault};
ghost use Rattle.aiger.specs.Texts.{in_order, circuit_read};
ghost use Rattle.aiger.specs.Promise.{ReadAs};
ghost use Rattle.aiger.specs.Reads.{FoundWords, numbers_kept};

use crate::NotDone;
use crate::due::Reached;
use crate::lines::{all_lines, opening};
use crate::sizes::Sizes;
use answers::limits::{GATES_LIMIT, INPUTS_LIMIT, LATCHES_LIMIT, LONGEST_TEXT, OUTPUTS_LIMIT};

// Two numbers for each line, the most that any keeps; the header's five fit too.
const TABLE: usize = 2
    * (INPUTS_LIMIT as usize
        + LATCHES_LIMIT as usize
        + OUTPUTS_LIMIT as usize
        + GATES_LIMIT as usize);

// The place of M's word.
const VARIABLE_PLACE: usize = 4;

// 19 of the lines, or their sizes. At the end the table has the numbers that they keep.
fn judge(text: &[u8], table: &mut [u32]) -> Result<Sizes, usize>
    requires { 2 * (inputs_limit + latches_limit + outputs_limit + gates_limit) ≤ length table.old }
    ensures { MatchResult result (λ s. (numbers_kept s ≤ length table.new) × FoundWords (circuit_read text.now) (in_order s (take (numbers_kept s) table.new))) (λ p. circuit_read text.now ≡ fault p) }
{
    // The header's five numbers stand in their order: M, I, L, O, A.
    let opened = opening(text, table)?;
    let s = Sizes {
        inputs: table[1],
        latches: table[2],
        gates: table[4],
        outputs: table[3],
    };
    if table[0] != s.width() {
        return Err(VARIABLE_PLACE);
    }
    let from = Reached {
        place: opened.place,
        filled: 0,
    };
    all_lines(text, from, s, table)?;
    Ok(s)
}

// Some words from a place on, and the place after them.
fn copy(words: &[u32], at: usize, room: &mut [u32]) -> usize
    requires { at + length words.now ≤ length room.old }
    ensures { (result ≡ at + length words.now) × (room.new ≡ placed words.now at room.old) }
{
    let next = at + words.len();
    room[at..next].copy_from_slice(words);
    next
}

// I, L, A, O, the latches, the gates, the outputs; the table has the outputs before the gates.
fn deliver(s: Sizes, table: &[u32], room: &mut [u32])
    requires { (numbers_kept s ≤ length table.now) × (words_in_all s ≤ length room.old) }
    ensures { room.new ≡ written (in_order s (take (numbers_kept s) table.now)) room.old }
{
    let header = [s.inputs, s.latches, s.gates, s.outputs];
    let outputs = 2 * (s.latches as usize);
    let gates = outputs + (s.outputs as usize);
    let end = gates + 2 * (s.gates as usize);
    let header_end = copy(&header, 0, room);
    let latches_end = copy(&table[0..outputs], header_end, room);
    let gates_end = copy(&table[gates..end], latches_end, room);
    copy(&table[outputs..gates], gates_end, room);
}

// 19, 27 or the words.
pub fn read(text: &[u8], room: &mut [u32]) -> Result<usize, NotDone>
    ensures { ReadAs text.now room.old result room.new }
{
    let mut table = [0u32; TABLE];
    let s = judge(text, &mut table).map_err(NotDone::BadText)?;
    if LONGEST_TEXT < text.len() {
        return Err(NotDone::BadText(LONGEST_TEXT));
    }
    let needed = s.words_in_all();
    if room.len() < needed {
        return Err(NotDone::RoomTooSmall(needed));
    }
    deliver(s, &table, room);
    Ok(needed)
}
