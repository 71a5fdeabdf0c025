// Reads a job file from standard input, and prints the text of its CNF or the line of its refusal.
// Where standard input cannot be read it prints nothing, and says so on standard error.
#![tactic(auto)]

ghost use Rattle.std.specs.Prelude.{◌≡◌, ◌≤◌, length, take};
ghost use Rattle.job_file.specs.JobFile.{printed};
ghost use Rattle.reading.specs.Filled.{Within};
ghost use Rattle.print_cnf.specs.Answered.{answered, AnsweredWhole};

use answers::limits::{JOB_LIMIT, PROGRAM_ROOM};
use job_file::print::print_job;
use reading::read_all;
use std::io::{Read, Write};
use std::{fmt, io};

// One byte more than a job file may have, so that one too many is seen.
const INPUT_BYTES: usize = JOB_LIMIT + 1;

// `text_limit`: no job's text is longer.
const OUTPUT_BYTES: usize = 12 * PROGRAM_ROOM + 28;

// Why nothing was printed, or not all.
#[derive(Clone, Copy, Debug, PartialEq, Eq)]
enum Unanswered {
    Unread,
    Unwritten,
}

impl fmt::Display for Unanswered {
    fn fmt<W: fmt::Write>(&self, f: &mut fmt::Formatter<W>) -> fmt::Result {
        match self {
            Unanswered::Unread => write!(f, "print_cnf: standard input could not be read"),
            Unanswered::Unwritten => write!(f, "print_cnf: standard output could not be written"),
        }
    }
}

// What is to be printed for a job, whatever its bytes: the first bytes of `out`. The room is never too short.
fn text_of(bytes: &[u8], out: &mut [u8; OUTPUT_BYTES]) -> usize
    ensures { (result ≤ length out.new) × (take result out.new ≡ printed bytes.now) }
{
    match print_job(bytes, out) {
        Ok(length) => length,
        Err(needed) => needed,
    }
}

// What is to be printed for what was read. Where a read failed, no bytes that came before it are taken for a job.
fn answer(got: &io::Result<usize>, input: &[u8], out: &mut [u8; OUTPUT_BYTES]) -> usize
    requires { Within (length input.now) got.now }
    ensures { (result ≤ length out.new) × (take result out.new ≡ answered got.now input.now) }
{
    match got {
        Ok(n) => text_of(&input[..*n], out),
        Err(_) => 0,
    }
}

// The whole program, over any input and output.
fn run<R: Read, W: Write>(input: &mut R, output: &mut W) -> Result<(), Unanswered>
    ensures { AnsweredWhole (R.remaining input.old) (W.contents output.old) (W.contents output.new) result }
{
    let mut bytes = [0u8; INPUT_BYTES];
    let got = read_all(input, &mut bytes);
    let mut out = [0u8; OUTPUT_BYTES];
    let length = answer(&got, &bytes, &mut out);
    if let Err(_) = got {
        return Err(Unanswered::Unread);
    }
    match output.write_all(&out[..length]) {
        Ok(()) => Ok(()),
        Err(_) => Err(Unanswered::Unwritten),
    }
}

// What cannot be read or written is said on standard error: the exit status is that of success all the same. Where this line cannot be
// written either, nothing is left to say it.
fn main(rt: HostRuntime) {
    if let Err(e) = run(&mut rt.stdin(), &mut rt.stdout()) {
        let _ = rt.eprintln(e);
    }
}
