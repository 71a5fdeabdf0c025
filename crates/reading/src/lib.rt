// Reads until a buffer is full or the input ends, and tells a read that fails from the end of the input.
//
// A read that fails after some bytes fails the whole reading, and a call that a signal interrupts counts as one that failed.
#![tactic(auto)]

ghost use Rattle.std.specs.Prelude.{◌≡◌, ◌-◌, ◌≤◌, min, length, MatchResult};
ghost use Rattle.reading.specs.Filled.{Within, Put, Filled};
ghost use Rattle.reading.specs.Known.{Given, AllGiven};

use std::io;
use std::io::Read;
use text::put::put_bytes;

// How many bytes one read is lent.
const CHUNK_BYTES: usize = 4096;

// What a read answers of so many bytes that it was lent: a good read stays one, and no more is taken for read; an error stays that error.
fn taken(got: io::Result<usize>, most: usize) -> io::Result<usize>
    ensures { MatchResult got (λ n. result ≡ Ok (min n most)) (λ e. result ≡ Err e) }
{
    match got {
        Ok(n) => Ok(n.min(most)),
        Err(e) => Err(e),
    }
}

// One read; the whole part is lent to it.
fn read_part<R: Read>(input: &mut R, part: &mut [u8]) -> io::Result<usize>
    ensures within { Within (length part.old) result }
    ensures given { Given (R.remaining input.old) (R.remaining input.new) result (length part.old) part.new }
{
    let got = input.read(part);
    taken(got, part.len())
}

// One read into the buffer, from `at` on. It goes by way of a chunk, so that no byte changes past those that were read.
fn read_at<R: Read>(input: &mut R, buf: &mut [u8], at: usize, chunk: &mut [u8]) -> io::Result<usize>
    requires { at ≤ length buf.old }
    ensures put { Put at buf.old chunk.new result buf.new }
    ensures given { Given (R.remaining input.old) (R.remaining input.new) result (min (length buf.old - at) (length chunk.old)) chunk.new }
{
    let most = chunk.len().min(buf.len() - at);
    let count = read_part(input, &mut chunk[0..most])?;
    let got: &[u8] = chunk;
    put_bytes(&got[0..count], at, buf);
    Ok(count)
}

pub fn read_all<R: Read>(input: &mut R, buf: &mut [u8]) -> io::Result<usize>
    ensures filled { Filled buf.old result buf.new }
    ensures given { AllGiven (R.remaining input.old) (R.remaining input.new) result buf.new }
{
    let mut chunk = [0u8; CHUNK_BYTES];
    let mut done = 0;
    // Each turn goes on by as much as was read: no `for` counts that.
    while done < buf.len() {
        let more = read_at(input, buf, done, &mut chunk)?;
        if more == 0 {
            break;
        }
        done += more;
    }
    Ok(done)
}
