// A word of a text, byte by byte: the whole of what was read of it so far is one number, so that a reader can stop and go on at any byte.
ghost use Rattle.std.specs.Prelude.{◌≡◌};
ghost use Rattle.text.specs.Readings.{parts};
ghost use Rattle.text.specs.Promise.{state_after, WordAt};

use answers::limits::LARGEST_NUMBER;

// The states of a word: no byte yet; one more than the number that it is; no number. Numbers and no enum: `state_after` promises the
// state after any of them, and one test tells for most bytes.
pub const NO_BYTE: u64 = 0;

pub const NO_NUMBER: u64 = LARGEST_NUMBER + 2;

// The state of `0`, after which no digit may come.
const ZERO: u64 = 1;

// Of a state below this one the number, with any digit more, is within the largest.
const FEW: u64 = LARGEST_NUMBER / 10;

// A word that was read: its state, and where it ends.
#[derive(Clone, Copy)]
pub struct Word {
    pub state: u64,
    pub end: usize,
}

// "one space parts two words, a newline ends each line"
pub fn is_parting(byte: u8) -> bool
    ensures { result ≡ parts byte }
{
    // Digits come first, since most bytes of a number are.
    if byte.is_ascii_digit() {
        return false;
    }
    (byte == b' ') | (byte == b'\n')
}

// The state after one more byte, with every test.
fn tested_after(state: u64, byte: u8) -> u64
    ensures { result ≡ state_after state byte }
{
    if !byte.is_ascii_digit() | (state == ZERO) | (NO_NUMBER <= state) {
        return NO_NUMBER;
    }
    let digit = u64::from(byte - b'0');
    if state == NO_BYTE {
        return digit + 1;
    }
    let n = 10 * (state - 1) + digit;
    if LARGEST_NUMBER < n {
        return NO_NUMBER;
    }
    n + 1
}

// The state of a word after one more byte. Most bytes are digits of a number that stays far below the largest: one test tells.
pub fn state_after(state: u64, byte: u8) -> u64
    ensures { result ≡ state_after state byte }
{
    if byte.is_ascii_digit() & (ZERO < state) & (state < FEW) {
        return 10 * (state - 1) + u64::from(byte - b'0') + 1;
    }
    tested_after(state, byte)
}

// The word that stands at a place.
pub fn word_at(text: &[u8], at: usize) -> Word
    ensures { WordAt text.now at result }
{
    let mut state = NO_BYTE;
    for end in at..text.len() {
        if is_parting(text[end]) {
            return Word { state, end };
        }
        state = state_after(state, text[end]);
    }
    Word {
        state,
        end: at.max(text.len()),
    }
}
