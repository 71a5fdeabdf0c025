// A line that is put into a lent buffer.
ghost use Rattle.std.specs.Prelude.{◌≤◌, length};
ghost use Rattle.text.proofs.Buffers.{Put};
ghost use Rattle.job_file.specs.Text.{line_of};

use text::put::{put_bytes, put_ended, put_number};

// A line of two numbers, with what opens it and what stands between them.
pub(crate) fn put_line(
    opening: &[u8],
    first: usize,
    between: &[u8],
    second: usize,
    out: &mut [u8],
) -> usize
    requires { length (line_of opening.now first between.now second) ≤ length out.old }
    ensures { Put (line_of opening.now first between.now second) 0 out.old result out.new }
{
    let opened = put_bytes(opening, 0, out);
    let one = put_number(first, opened, out);
    let parted = put_bytes(between, one, out);
    put_ended(second, b'\n', parted, out)
}
