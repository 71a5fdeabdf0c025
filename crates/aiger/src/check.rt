// The check of a circuit's words, 1 to 4, in document 02's order, by the parts of a problem's check.
ghost use Rattle.std.specs.Prelude.{◌≡◌, [], ◌∷◌, IfOk};
ghost use Rattle.problem.specs.CheckParts.{Answers, AnswersEach};
ghost use Rattle.aiger.specs.Circuits.{header_checks, limit_checks, length_checks, sizes, sized_parts, circuit_parts};

use crate::sizes::{HEADER_WORDS, Sizes};
use answers::limits::{GATES_LIMIT, INPUTS_LIMIT, LATCHES_LIMIT, OUTPUTS_LIMIT};
use problem::Refusal;
use problem::parts::{gate, latch, limit, literal};
use problem::read::word_at;

// The places of I, L, A and O.
const INPUTS: usize = 0;

const LATCHES: usize = 1;

const GATES: usize = 2;

const OUTPUTS: usize = 3;

fn header(words: &[u32]) -> Result<(), Refusal>
    ensures { Answers (header_checks words.now ∷ []) result }
{
    if words.len() < HEADER_WORDS {
        return Err(Refusal::BadLength(words.len()));
    }
    Ok(())
}

// The sizes that words tell, within their limits.
#[tactic(auto, using(problem::proofs::Answered::one_by_one), unfolding(answers::specs::Limits::inputs_limit, answers::specs::Limits::latches_limit, answers::specs::Limits::gates_limit, answers::specs::Limits::outputs_limit))]
fn sizes(words: &[u32]) -> Result<Sizes, Refusal>
    ensures answers { Answers (limit_checks words.now ∷ []) result }
    ensures sizes { IfOk result (λ s. s ≡ sizes words.now) }
{
    limit(words, INPUTS, 0, INPUTS_LIMIT)?;
    limit(words, LATCHES, 0, LATCHES_LIMIT)?;
    limit(words, GATES, 0, GATES_LIMIT)?;
    limit(words, OUTPUTS, 0, OUTPUTS_LIMIT)?;
    Ok(Sizes {
        inputs: word_at(words, INPUTS),
        latches: word_at(words, LATCHES),
        gates: word_at(words, GATES),
        outputs: word_at(words, OUTPUTS),
    })
}

fn length(words: &[u32], s: Sizes) -> Result<(), Refusal>
    ensures { Answers (length_checks s words.now ∷ []) result }
{
    if words.len() != s.words_in_all() {
        return Err(Refusal::BadLength(words.len()));
    }
    Ok(())
}

// A part for each number from 0 on, in their order. The crate problem has the same for itself: what calls a closure asks that it may be
// called, and no public function here has a `requires`.
fn all<F: Fn(u32) -> Result<(), Refusal>>(n: u32, part: F) -> Result<(), Refusal>
    requires { F.IsAlwaysCallable part }
    ensures { AnswersEach (F.post part) n result }
{
    for i in 0..n {
        part(i)?;
    }
    Ok(())
}

// The length, then the words in order.
fn sized(words: &[u32], s: Sizes) -> Result<(), Refusal>
    ensures { Answers (sized_parts s words.now) result }
{
    length(words, s)?;
    let o = s.circuit();
    all(s.latches, |i| latch(words, o, i))?;
    all(s.gates, |j| gate(words, o, j))?;
    all(
        s.outputs,
        |i| literal(words, s.output_place(i), u64::from(s.largest_literal())),
    )
}

// 1 to 4, or the sizes of good words.
pub(crate) fn check(words: &[u32]) -> Result<Sizes, Refusal>
    ensures answers { Answers (circuit_parts words.now) result }
    ensures sizes { IfOk result (λ s. s ≡ sizes words.now) }
{
    header(words)?;
    let s = sizes(words)?;
    sized(words, s)?;
    Ok(s)
}
