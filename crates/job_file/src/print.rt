// What the program prints for a job file.
ghost use Rattle.std.specs.Prelude.{◌≡◌, ◌≤◌, length};
ghost use Rattle.job_file.specs.JobFile.{printed};
ghost use Rattle.encoder.specs.Promise.{answer_of};
ghost use Rattle.job_file.specs.Text.{encoded_text};
ghost use Rattle.job_file.specs.Promise.{Prints};

use crate::job::read_job;
use crate::texts::{cnf_text, refusal_text};
use answers::answer::Answer;
use answers::limits::PROGRAM_ROOM;
use counts::Counts;
use encoder::NotWritten;
use encoder::encode::write_cnf;

const BAD_JOB: u32 = 15;

// The text of the CNF that was written to the room, or the line of a refusal.
fn print_encoded(
    r: Result<Counts, NotWritten>,
    room: &[i32],
    out: &mut [u8],
) -> Result<usize, usize>
    requires { (answer_of r).number ≡ 0 → (answer_of r).place ≤ length room.now }
    ensures { Prints (encoded_text r room.now) out.old result out.new }
{
    match r {
        Ok(n) => cnf_text(n.variables, n.clauses, &room[..n.words], out),
        Err(e) => refusal_text(Answer::from(e), out),
    }
}

// The program: its standard input as bytes, and what it prints for them: the bytes that were written, or those that it needs.
pub fn print_job(bytes: &[u8], out: &mut [u8]) -> Result<usize, usize>
    ensures { Prints (printed bytes.now) out.old result out.new }
{
    match read_job(bytes) {
        Err(place) => refusal_text(Answer::new(BAD_JOB, place), out),
        Ok(job) => {
            let mut room = [0; PROGRAM_ROOM];
            let encoded = write_cnf(job.version, &job.words[..job.count], &mut room);
            print_encoded(encoded, &room, out)
        }
    }
}
