// Answers requests from standard input: library calls on words that need not be any good.
#![tactic(auto)]

mod calls;
mod input;
mod output;

use crate::input::{
    AREA_WORDS, CNF_WORDS, Fault, LARGEST, PROBLEM_WORDS, REFUTATION_WORDS, WITNESS_BYTES,
};
use crate::output::{Lines, print_fault};
use std::io::Read;

// What a request's buffers are read to, and what its call may write.
#[derive(Drop)]
struct Buffers {
    bytes: [u8; LARGEST],
    problem: [u32; PROBLEM_WORDS],
    witness: [u8; WITNESS_BYTES],
    cnf: [i32; CNF_WORDS],
    refutation: [i32; REFUTATION_WORDS],
    by_numbers: [u64; AREA_WORDS],
    by_clauses: [u64; AREA_WORDS],
}

// The one place that knows the calls by their numbers.
fn dispatch(
    rt: &impl Print,
    input: &mut impl Read,
    call: u8,
    number: u32,
    buffers: &mut Buffers,
) -> Result<(), Fault> {
    let mut lines = Lines::new(rt);
    match call {
        1 => calls::check(input, number, buffers, &mut lines)?,
        2 => calls::write_cnf(input, number, buffers, &mut lines)?,
        3 => calls::judge_witness(input, number, buffers, &mut lines)?,
        4 => calls::judge_bare(input, number, buffers, &mut lines)?,
        5 => calls::judge_refutation(input, number, buffers, &mut lines)?,
        6 => calls::find(input, number, buffers, &mut lines)?,
        7 => calls::read(input, buffers, &mut lines)?,
        8 => calls::write(input, buffers, &mut lines)?,
        _ => return Err(Fault::CutShort),
    }
    lines.finish();
    Ok(())
}

// Answers one request, if there is another, and says whether there was.
fn answer_one(
    rt: &impl Print,
    input: &mut impl Read,
    buffers: &mut Buffers,
) -> Result<bool, Fault> {
    let Some(call) = input::next_call(input)? else {
        return Ok(false);
    };
    let number = input::next_number(input)?;
    dispatch(rt, input, call, number, buffers)?;
    Ok(true)
}

// A proved loop has to end, and nothing says that the input does: no run uses up so many turns.
fn answer_all(rt: &(impl Print + Eprint), input: &mut impl Read, buffers: &mut Buffers) {
    for _ in 0..u64::MAX {
        match answer_one(rt, input, buffers) {
            Ok(true) => {}
            Ok(false) => return,
            Err(fault) => {
                print_fault(rt, fault);
                return;
            }
        }
    }
}

fn main(rt: HostRuntime) {
    let mut buffers = Buffers {
        bytes: [0u8; LARGEST],
        problem: [0u32; PROBLEM_WORDS],
        witness: [0u8; WITNESS_BYTES],
        cnf: [0i32; CNF_WORDS],
        refutation: [0i32; REFUTATION_WORDS],
        by_numbers: [0u64; AREA_WORDS],
        by_clauses: [0u64; AREA_WORDS],
    };
    answer_all(&rt, &mut rt.stdin(), &mut buffers);
}
