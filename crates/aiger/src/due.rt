// What is due in a text, each from where the one before it came to: it stands there, or its place is the fault's. Numbers that are kept are
// put into a table, which is lent. The text, how far it was read and the table stay three parameters: of a struct that holds a `&mut` the check
// gives no proof.
ghost use Rattle.std.specs.Prelude.{◌≡◌, ◌<◌, length, drop};
ghost use Rattle.text.specs.Numbers.{bytes_of};
ghost use Rattle.text.specs.Readings.{mark, told, at_most, exactly};
ghost use Rattle.aiger.specs.Texts.{begins_with, as_reset, reset_word, reset_due};
ghost use Rattle.aiger.specs.Reads.{at_start, KeptAs, NumberAt, Passes, Keeps};

use text::scan::{NO_BYTE, NO_NUMBER, is_parting, word_at};

pub(crate) const SPACE: u8 = b' ';

pub(crate) const NEWLINE: u8 = b'\n';

// "a latch's own literal means free"
const FREE: u32 = 2;

// How far a text was read without fault: the place after what was read. The table's first `filled` words are the numbers that were kept.
#[derive(Clone, Copy, Debug, PartialEq, Eq)]
pub(crate) struct Reached {
    pub place: usize,
    pub filled: usize,
}

impl Reached {
    // One number more is kept.
    fn keep(self, n: u32, end: usize, table: &mut [u32]) -> Reached
        requires { self.filled < length table.old }
        ensures { KeptAs self n end table.old result table.new }
    {
        table[self.filled] = n;
        Reached {
            place: end,
            filled: self.filled + 1,
        }
    }
}

// The word `aag`, at the start of the text.
pub(crate) fn name(text: &[u8]) -> Result<Reached, usize>
    ensures { Passes (told (bytes_of "aag")) text.now at_start result }
{
    let start = Reached {
        place: 0,
        filled: 0,
    };
    if !text.starts_with(b"aag") {
        return Err(start.place);
    }
    if 3 < text.len() && !is_parting(text[3]) {
        return Err(start.place);
    }
    Ok(Reached { place: 3, ..start })
}

// Whether a byte stands at a place.
fn stands(text: &[u8], at: usize, byte: u8) -> bool
    ensures { result ≡ begins_with byte (drop at text.now) }
{
    at < text.len() && text[at] == byte
}

// A space between two words, or the newline that ends a line.
pub(crate) fn mark(text: &[u8], before: Reached, byte: u8) -> Result<Reached, usize>
    ensures { Passes (mark byte) text.now before result }
{
    if !stands(text, before.place, byte) {
        return Err(before.place);
    }
    Ok(Reached {
        place: before.place + 1,
        ..before
    })
}

// The number that stands at a place, and where it ends; or the place, where none does.
fn number(text: &[u8], at: usize) -> Result<(u32, usize), usize>
    ensures { NumberAt text.now at result }
{
    let word = word_at(text, at);
    if word.state == NO_BYTE || NO_NUMBER <= word.state {
        return Err(at);
    }
    Ok(((word.state - 1) as u32, word.end))
}

// A number that is known beforehand.
pub(crate) fn exactly(text: &[u8], before: Reached, n: u32) -> Result<Reached, usize>
    ensures { Passes (exactly n) text.now before result }
{
    let (told, end) = number(text, before.place)?;
    if told != n {
        return Err(before.place);
    }
    Ok(Reached {
        place: end,
        ..before
    })
}

// A number that is kept.
pub(crate) fn at_most(
    text: &[u8],
    before: Reached,
    most: u32,
    table: &mut [u32],
) -> Result<Reached, usize>
    requires { before.filled < length table.old }
    ensures { Keeps 1 (at_most most) text.now before table.old result table.new }
{
    let (n, end) = number(text, before.place)?;
    if most < n {
        return Err(before.place);
    }
    Ok(before.keep(n, end, table))
}

// A reset as it is kept: the latch's own literal as FREE.
fn as_reset(own: u32, n: u32) -> u32
    ensures { result ≡ as_reset own n }
{
    if n == own { FREE } else { n }
}

// A reset: 0, 1 or the latch's own literal.
fn reset_word(text: &[u8], before: Reached, own: u32, table: &mut [u32]) -> Result<Reached, usize>
    requires { before.filled < length table.old }
    ensures { Keeps 1 (reset_word own) text.now before table.old result table.new }
{
    let (n, end) = number(text, before.place)?;
    if n != own && 1 < n {
        return Err(before.place);
    }
    Ok(before.keep(as_reset(own, n), end, table))
}

// The end of a latch's line: "a missing latch reset is 0".
pub(crate) fn reset(
    text: &[u8],
    before: Reached,
    own: u32,
    table: &mut [u32],
) -> Result<Reached, usize>
    requires { before.filled < length table.old }
    ensures { Keeps 1 (reset_due own) text.now before table.old result table.new }
{
    if stands(text, before.place, NEWLINE) {
        return Ok(before.keep(0, before.place + 1, table));
    }
    let spaced = mark(text, before, SPACE)?;
    let read = reset_word(text, spaced, own, table)?;
    mark(text, read, NEWLINE)
}
