// The words of a CNF and of a refutation, checked and counted.
ghost use Rattle.std.specs.Prelude.{cond, ◌||◌, ◌≡◌, suc, ◌+◌, leb};
ghost use Rattle.clauses.specs.Clauses.{size};
ghost use Rattle.clauses.specs.CnfWords.{is_0};
ghost use Rattle.clauses.specs.Refutations.{earlier};
ghost use Rattle.refutation.specs.Promise.{CnfCounted, StepsCounted};

use answers::limits::VARIABLES_LIMIT;
use clauses::literals::variable;

// 16: V, then the words in order, then cut short; else the number of clauses.
pub(crate) fn count_clauses(variables: u32, cnf: &[i32]) -> Result<usize, usize>
    ensures { CnfCounted variables cnf.now result }
{
    if VARIABLES_LIMIT < variables {
        return Err(0);
    }
    let limit = variables as usize;
    let mut clauses = 0;
    let mut open = false;
    for (i, w) in cnf.iter().enumerate() {
        if limit < variable(*w) {
            return Err(i);
        }
        open = *w != 0;
        clauses += usize::from(!open);
    }
    if open { Err(cnf.len()) } else { Ok(clauses) }
}

// A hint is an earlier clause: at least 1, and at most the clauses and the steps before its own.
fn names_earlier(clauses: usize, steps: usize, hint: i32) -> bool
    ensures { result ≡ earlier (suc (clauses + steps)) hint }
{
    0 < hint && (hint as usize).saturating_sub(clauses) <= steps
}

// A literal is at most V in size; a hint is an earlier clause.
fn word_right(limit: usize, clauses: usize, steps: usize, hinting: bool, w: i32) -> bool
    ensures { result ≡ cond hinting (is_0 w || earlier (suc (clauses + steps)) w) (leb (size w) limit) }
{
    if hinting {
        w == 0 || names_earlier(clauses, steps, w)
    } else {
        variable(w) <= limit
    }
}

// 11: the first bad word, then cut short; else the number of steps. No twin of `count_clauses`: what is asked of a word is not the same.
pub fn count_steps(variables: u32, clauses: usize, refutation: &[i32]) -> Result<usize, usize>
    ensures { StepsCounted variables clauses refutation.now result }
{
    let limit = variables as usize;
    let mut steps = 0;
    let mut hints = false;
    let mut open = false;
    for (i, w) in refutation.iter().enumerate() {
        if !word_right(limit, clauses, steps, hints, *w) {
            return Err(i);
        }
        if *w == 0 {
            steps += usize::from(hints);
            hints = !hints;
        }
        open = hints || *w != 0;
    }
    if open {
        Err(refutation.len())
    } else {
        Ok(steps)
    }
}
