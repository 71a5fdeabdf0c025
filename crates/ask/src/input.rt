// The numbers and buffers of a request, read from standard input. All numbers are big-endian.
use reading::read_all;
use std::io;
use std::io::Read;

// The most items that a buffer of a request may have.
pub const PROBLEM_WORDS: usize = 4096;

pub const WITNESS_BYTES: usize = 8192;

pub const CNF_WORDS: usize = 65536;

pub const REFUTATION_WORDS: usize = 65536;

pub const AREA_WORDS: usize = 66000;

// The bytes of the longest buffer of words.
pub const LARGEST: usize = 4 * CNF_WORDS;

// Why a request is not answered.
#[derive(Clone, Copy, Debug, PartialEq, Eq)]
pub enum Fault {
    TooLong,
    CutShort,
    Unread,
}

impl From<io::Error> for Fault {
    fn from(_e: io::Error) -> Fault {
        Fault::Unread
    }
}

// A word of four bytes.
pub(crate) trait Word: Copy {
    fn of_bytes(four: [u8; 4]) -> Self;
}

impl Word for u32 {
    fn of_bytes(four: [u8; 4]) -> u32 {
        u32::from_be_bytes(four)
    }
}

impl Word for i32 {
    fn of_bytes(four: [u8; 4]) -> i32 {
        i32::from_be_bytes(four)
    }
}

// Fills a buffer whole.
fn fill(input: &mut impl Read, bytes: &mut [u8]) -> Result<(), Fault> {
    let count = read_all(input, bytes)?;
    if count < bytes.len() {
        return Err(Fault::CutShort);
    }
    Ok(())
}

// The byte that opens a request, if there is another.
pub(crate) fn next_call(input: &mut impl Read) -> Result<Option<u8>, Fault> {
    let mut byte = [0u8; 1];
    match fill(input, &mut byte) {
        Ok(()) => Ok(Some(byte[0])),
        Err(Fault::CutShort) => Ok(None),
        Err(fault) => Err(fault),
    }
}

pub(crate) fn next_number(input: &mut impl Read) -> Result<u32, Fault> {
    let mut bytes = [0u8; 4];
    fill(input, &mut bytes)?;
    Ok(u32::from_be_bytes(bytes))
}

// As much of a buffer as the request asks for.
pub(crate) fn next_room<'a, T>(
    input: &mut impl Read,
    room: &'a mut [T],
) -> Result<&'a mut [T], Fault> {
    let count = next_number(input)? as usize;
    room.get_mut(..count).ok_or(Fault::TooLong)
}

// A buffer of words: its count, and then the bytes of each.
pub(crate) fn next_words<'a, W: Word>(
    input: &mut impl Read,
    bytes: &mut [u8],
    words: &'a mut [W],
) -> Result<&'a [W], Fault> {
    let words = next_room(input, words)?;
    let size = words.len().saturating_mul(4);
    let bytes = bytes.get_mut(..size).ok_or(Fault::TooLong)?;
    fill(input, bytes)?;
    let (fours, _) = bytes.as_chunks_mut::<4>();
    for (word, four) in words.iter_mut().zip(fours) {
        *word = W::of_bytes(*four);
    }
    Ok(words)
}

// A buffer of bytes, read straight into it: a witness, or a text.
pub(crate) fn next_bytes<'a>(
    input: &mut impl Read,
    bytes: &'a mut [u8],
) -> Result<&'a [u8], Fault> {
    let bytes = next_room(input, bytes)?;
    fill(input, bytes)?;
    Ok(bytes)
}
