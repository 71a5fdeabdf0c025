// Writes a circuit's text.
ghost use Rattle.std.specs.Prelude.{◌<◌};
ghost use Rattle.answers.specs.Lists.{numbers, each};
ghost use Rattle.aiger.specs.Texts.{header_line, next_text, latch_line, gate_line, sized_text};
ghost use Rattle.aiger.specs.Promise.{WrittenAs};
ghost use Rattle.aiger.specs.Reads.{count_of};
ghost use Rattle.aiger.specs.Writes.{line_of, Lays};

use crate::NotDone;
use crate::check::check;
use crate::due::{NEWLINE, SPACE};
use crate::sizes::{Kind, Sizes};
use problem::read::word_at;
use text::put::{put_bytes, put_ended};

// `aag M I L O A`
fn header(s: Sizes, out: &mut [u8]) -> usize
    ensures { Lays (header_line s) 0 out.old result out.new }
{
    let named = put_bytes(b"aag ", 0, out);
    let m = put_ended(s.width() as usize, SPACE, named, out);
    let inputs = put_ended(s.inputs as usize, SPACE, m, out);
    let latches = put_ended(s.latches as usize, SPACE, inputs, out);
    let outputs = put_ended(s.outputs as usize, SPACE, latches, out);
    put_ended(s.gates as usize, NEWLINE, outputs, out)
}

// A latch's next literal and its reset: 0 is left out, 2 is the own literal.
fn next_and_reset(own: u32, next: u32, reset: u32, at: usize, out: &mut [u8]) -> usize
    ensures { Lays (next_text own next reset) at out.old result out.new }
{
    if reset == 0 {
        return put_ended(next as usize, NEWLINE, at, out);
    }
    let parted = put_ended(next as usize, SPACE, at, out);
    if reset == 1 {
        return put_ended(1, NEWLINE, parted, out);
    }
    put_ended(own as usize, NEWLINE, parted, out)
}

fn latch(words: &[u32], s: Sizes, i: u32, at: usize, out: &mut [u8]) -> usize
    requires { i < s.latches }
    ensures { Lays (latch_line s words.now i) at out.old result out.new }
{
    let own = s.latch_literal(i);
    let from = s.latch_place(i);
    let parted = put_ended(own as usize, SPACE, at, out);
    next_and_reset(
        own,
        word_at(words, from),
        word_at(words, from + 1),
        parted,
        out,
    )
}

fn gate(words: &[u32], s: Sizes, j: u32, at: usize, out: &mut [u8]) -> usize
    requires { j < s.gates }
    ensures { Lays (gate_line s words.now j) at out.old result out.new }
{
    let from = s.gate_place(j);
    let owned = put_ended(s.gate_literal(j) as usize, SPACE, at, out);
    let parted = put_ended(word_at(words, from) as usize, SPACE, owned, out);
    put_ended(word_at(words, from + 1) as usize, NEWLINE, parted, out)
}

// One line of a kind.
fn line(words: &[u32], s: Sizes, kind: Kind, i: u32, at: usize, out: &mut [u8]) -> usize
    requires { i < count_of kind s }
    ensures { Lays (line_of kind s words.now i) at out.old result out.new }
{
    match kind {
        Kind::Input => put_ended(s.input_literal(i) as usize, NEWLINE, at, out),
        Kind::Latch => latch(words, s, i, at, out),
        Kind::Output => { put_ended(word_at(words, s.output_place(i)) as usize, NEWLINE, at, out) },
        Kind::Gate => gate(words, s, i, at, out),
    }
}

// All lines of a kind.
fn lines(words: &[u32], s: Sizes, kind: Kind, at: usize, out: &mut [u8]) -> usize
    ensures { Lays (each (numbers 0 (count_of kind s)) (line_of kind s words.now)) at out.old result out.new }
{
    let mut next = at;
    for i in 0..s.count(kind) {
        next = line(words, s, kind, i, next, out);
    }
    next
}

// The whole text, or, where it does not fit, how long it is.
fn text(words: &[u32], s: Sizes, out: &mut [u8]) -> usize
    ensures { Lays (sized_text s words.now) 0 out.old result out.new }
{
    let opened = header(s, out);
    let inputs = lines(words, s, Kind::Input, opened, out);
    let latches = lines(words, s, Kind::Latch, inputs, out);
    let outputs = lines(words, s, Kind::Output, latches, out);
    lines(words, s, Kind::Gate, outputs, out)
}

// 1 to 4, 27 or the text. It is laid twice: first into a byte of its own, which tells how long it is, then into the room.
pub fn write(words: &[u32], out: &mut [u8]) -> Result<usize, NotDone>
    ensures { WrittenAs words.now out.old result out.new }
{
    let s = check(words)?;
    let mut none = [0u8; 1];
    let needed = text(words, s, &mut none);
    if out.len() < needed {
        return Err(NotDone::RoomTooSmall(needed));
    }
    text(words, s, out);
    Ok(needed)
}
