// A job file's bytes, checked and read as words.
ghost use Rattle.std.specs.Prelude.{◌≡◌, ◌+◌, ◌*◌, ◌≤◌, length, OnOk};
ghost use Rattle.answers.specs.Answers.{first_failing, granted};
ghost use Rattle.answers.specs.Limits.{job_limit};
ghost use Rattle.job_file.specs.JobFile.{job_header, job_checks, number_at};
ghost use Rattle.job_file.specs.Promise.{job_answered, words_from, JobRead};

use answers::limits::JOB_LIMIT;
use problem::header::known_version;

// The version byte and the four bytes of the length.
const JOB_HEADER: usize = 5;

// Room for the words of every job that is not refused.
const WORDS_ROOM: usize = JOB_LIMIT / 4;

// The first `count` words are the job's, and the others are 0. An array and a length: a job needs no memory but its own.
#[derive(Clone, Copy)]
pub struct Job {
    pub version: u32,
    pub count: usize,
    pub words: [u32; WORDS_ROOM],
}

// The big-endian number of four bytes.
fn number(bytes: &[u8], at: usize) -> u32
    requires { at + 4 ≤ length bytes.now }
    ensures { result ≡ number_at bytes.now at }
{
    u32::from_be_bytes([bytes[at], bytes[at + 1], bytes[at + 2], bytes[at + 3]])
}

// 15, by its place: the checks in document 01's order.
fn checked(bytes: &[u8]) -> Result<(), usize>
    ensures answered { job_answered result ≡ first_failing (job_checks bytes.now) (granted 0) }
    ensures good { OnOk result ((job_header ≤ length bytes.now) × (length bytes.now ≤ job_limit)) }
{
    if JOB_LIMIT < bytes.len() {
        return Err(JOB_LIMIT);
    }
    if bytes.len() < JOB_HEADER {
        return Err(bytes.len());
    }
    if !known_version(u32::from(bytes[0])) {
        return Err(0);
    }
    let rest = number(bytes, 1) as usize;
    if rest != bytes.len() - JOB_HEADER {
        return Err(1);
    }
    if rest % 4 != 0 {
        return Err(1);
    }
    Ok(())
}

// The words that stand after the header, as many as there is room for.
fn read_words(bytes: &[u8], out: &mut [u32])
    requires { job_header + 4 * length out.old ≤ length bytes.now }
    ensures { out.new ≡ words_from bytes.now (length out.old) }
{
    for (i, word) in out.iter_mut().enumerate() {
        *word = number(bytes, JOB_HEADER + 4 * i);
    }
}

// A job file read: its version and its words, or the place of 15.
pub(crate) fn read_job(bytes: &[u8]) -> Result<Job, usize>
    ensures { JobRead bytes.now result }
{
    checked(bytes)?;
    let count = (bytes.len() - JOB_HEADER) / 4;
    let mut words = [0; WORDS_ROOM];
    read_words(bytes, &mut words[..count]);
    Ok(Job {
        version: u32::from(bytes[0]),
        count,
        words,
    })
}
