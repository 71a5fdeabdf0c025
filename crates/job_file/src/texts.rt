// The texts that the program prints.
ghost use Rattle.std.specs.Prelude.{◌≡◌, ◌+◌, ◌≤◌, length};
ghost use Rattle.answers.specs.Table.{row_of};
ghost use Rattle.text.proofs.Buffers.{Put};
ghost use Rattle.job_file.specs.JobFile.{header_line, refusal_line};
ghost use Rattle.job_file.specs.Text.{word_text, words_text, flat_text};
ghost use Rattle.job_file.specs.Promise.{size, Prints};

use crate::put::put_line;
use answers::answer::Answer;
use clauses::literals::variable;
use text::put::{digits, put_bytes, put_ended, sum};

fn word_size(w: i32) -> usize
    ensures { result ≡ length (word_text w) }
{
    if w == 0 {
        return 2;
    }
    if w < 0 {
        return digits(variable(w)) + 2;
    }
    digits(variable(w)) + 1
}

fn put_word(w: i32, at: usize, out: &mut [u8]) -> usize
    requires { at + length (word_text w) ≤ length out.old }
    ensures { Put (word_text w) at out.old result out.new }
{
    if w == 0 {
        return put_bytes(b"0\n", at, out);
    }
    if w < 0 {
        out[at] = b'-';
        return put_ended(variable(w), b' ', at + 1, out);
    }
    put_ended(variable(w), b' ', at, out)
}

fn words_size(cnf: &[i32]) -> usize
    ensures { result ≡ size (words_text cnf.now) }
{
    let mut bytes = 0;
    for w in cnf {
        bytes = sum(bytes, word_size(*w));
    }
    bytes
}

fn put_words(cnf: &[i32], at: usize, out: &mut [u8]) -> usize
    requires { at + length (words_text cnf.now) ≤ length out.old }
    ensures { Put (words_text cnf.now) at out.old result out.new }
{
    let mut next = at;
    for w in cnf {
        next = put_word(*w, next, out);
    }
    next
}

fn header_size(variables: usize, clauses: usize) -> usize
    ensures { result ≡ length (header_line variables clauses) }
{
    digits(variables) + digits(clauses) + 8
}

// The text of a CNF given as words, each clause ended by 0: the bytes that were written, or those that it needs.
pub(crate) fn cnf_text(
    variables: usize,
    clauses: usize,
    cnf: &[i32],
    out: &mut [u8],
) -> Result<usize, usize>
    ensures { Prints (flat_text variables clauses cnf.now) out.old result out.new }
{
    let needed = sum(header_size(variables, clauses), words_size(cnf));
    if out.len() < needed {
        return Err(needed);
    }
    let next = put_line(b"p cnf ", variables, b" ", clauses, out);
    Ok(put_words(cnf, next, out))
}

fn refusal_size(a: Answer) -> usize
    ensures { result ≡ length (refusal_line (row_of a)) }
{
    digits(a.number as usize) + digits(a.place) + 13
}

// The line of a refusal, as of a CNF.
pub(crate) fn refusal_text(a: Answer, out: &mut [u8]) -> Result<usize, usize>
    ensures { Prints (refusal_line (row_of a)) out.old result out.new }
{
    let needed = refusal_size(a);
    if out.len() < needed {
        return Err(needed);
    }
    Ok(put_line(b"refused ", a.number as usize, b" at ", a.place, out))
}
