// Each call: its buffers read, the library asked, and the answer printed with the buffers that it may write.
// A request's parts stay four parameters: of a struct that holds a `&mut` the check gives no proof.
use crate::Buffers;
use crate::input::{Fault, next_bytes, next_room, next_words};
use crate::output::Lines;
use std::io::Read;

// What every item of a buffer that a call may write holds before the call.
const FILL: u8 = 7;

// Call 1.
pub(crate) fn check(
    input: &mut impl Read,
    version: u32,
    buffers: &mut Buffers,
    lines: &mut Lines<'_, impl Print>,
) -> Result<(), Fault> {
    let words = next_words(input, &mut buffers.bytes, &mut buffers.problem)?;
    let r = problem::check::check(version, words);
    lines.answer(problem::answer::answer(r));
    Ok(())
}

// Call 2.
pub(crate) fn write_cnf(
    input: &mut impl Read,
    version: u32,
    buffers: &mut Buffers,
    lines: &mut Lines<'_, impl Print>,
) -> Result<(), Fault> {
    let words = next_words(input, &mut buffers.bytes, &mut buffers.problem)?;
    let room = next_room(input, &mut buffers.cnf)?;
    room.fill(i32::from(FILL));
    let r = encoder::encode::write_cnf(version, words, room);
    lines.answer(encoder::answer::answer(r));
    lines.items(room);
    Ok(())
}

// Call 3.
pub(crate) fn judge_witness(
    input: &mut impl Read,
    version: u32,
    buffers: &mut Buffers,
    lines: &mut Lines<'_, impl Print>,
) -> Result<(), Fault> {
    let words = next_words(input, &mut buffers.bytes, &mut buffers.problem)?;
    let witness = next_bytes(input, &mut buffers.witness)?;
    let r = witness::judge::judge(version, words, witness);
    lines.answer(witness::answer::answer(r));
    Ok(())
}

// Call 4.
pub(crate) fn judge_bare(
    input: &mut impl Read,
    variables: u32,
    buffers: &mut Buffers,
    lines: &mut Lines<'_, impl Print>,
) -> Result<(), Fault> {
    let cnf = next_words(input, &mut buffers.bytes, &mut buffers.cnf)?;
    let refutation = next_words(input, &mut buffers.bytes, &mut buffers.refutation)?;
    let by_numbers = next_room(input, &mut buffers.by_numbers)?;
    let by_clauses = next_room(input, &mut buffers.by_clauses)?;
    by_numbers.fill(u64::from(FILL));
    by_clauses.fill(u64::from(FILL));
    let r = refutation::judge::judge(variables, cnf, refutation, by_numbers, by_clauses);
    lines.answer(refutation::answer::answer(r));
    lines.items(by_numbers);
    lines.items(by_clauses);
    Ok(())
}

// Call 5.
pub(crate) fn judge_refutation(
    input: &mut impl Read,
    version: u32,
    buffers: &mut Buffers,
    lines: &mut Lines<'_, impl Print>,
) -> Result<(), Fault> {
    let words = next_words(input, &mut buffers.bytes, &mut buffers.problem)?;
    let refutation = next_words(input, &mut buffers.bytes, &mut buffers.refutation)?;
    let room = next_room(input, &mut buffers.cnf)?;
    let by_numbers = next_room(input, &mut buffers.by_numbers)?;
    let by_clauses = next_room(input, &mut buffers.by_clauses)?;
    room.fill(i32::from(FILL));
    by_numbers.fill(u64::from(FILL));
    by_clauses.fill(u64::from(FILL));
    let r = checker::judge::judge_refutation(
        version, words, refutation, room, by_numbers, by_clauses,
    );
    lines.answer(checker::answer::answer(r));
    lines.items(room);
    lines.items(by_numbers);
    lines.items(by_clauses);
    Ok(())
}

// Call 6. The room is that of a witness that is read.
pub(crate) fn find(
    input: &mut impl Read,
    version: u32,
    buffers: &mut Buffers,
    lines: &mut Lines<'_, impl Print>,
) -> Result<(), Fault> {
    let words = next_words(input, &mut buffers.bytes, &mut buffers.problem)?;
    let room = next_room(input, &mut buffers.witness)?;
    room.fill(FILL);
    let r = finder::find::find(version, words, room);
    lines.answer(finder::answer::answer(r));
    lines.items(room);
    Ok(())
}

// Call 7. The room is that of a problem's words; the number of the request is not used.
pub(crate) fn read(
    input: &mut impl Read,
    buffers: &mut Buffers,
    lines: &mut Lines<'_, impl Print>,
) -> Result<(), Fault> {
    let text = next_bytes(input, &mut buffers.bytes)?;
    let room = next_room(input, &mut buffers.problem)?;
    room.fill(u32::from(FILL));
    let r = aiger::read::read(text, room);
    lines.answer(aiger::answer::answer(r));
    lines.items(room);
    Ok(())
}

// Call 8. The room is the buffer that the words' bytes were read to; the number of the request is not used.
pub(crate) fn write(
    input: &mut impl Read,
    buffers: &mut Buffers,
    lines: &mut Lines<'_, impl Print>,
) -> Result<(), Fault> {
    let words = next_words(input, &mut buffers.bytes, &mut buffers.problem)?;
    let room = next_room(input, &mut buffers.bytes)?;
    room.fill(FILL);
    let r = aiger::write::write(words, room);
    lines.answer(aiger::answer::answer(r));
    lines.items(room);
    Ok(())
}
