// Where each clause begins, by its number, and the lookup of a clause.
ghost use Rattle.std.specs.Prelude.{◌≡◌, true, [], ◌+◌, ◌-◌, ◌≤◌, length, get_or};
ghost use Rattle.std.specs.List.{position};
ghost use Rattle.clauses.specs.CnfWords.{clauses_of, ended, is_0};
ghost use Rattle.clauses.specs.Refutations.{steps_of};
ghost use Rattle.refutation.specs.Work.{clause_from, Places, CnfRight, StepsRight, Standing};

// The words that 16 and 11 pass, and how many clauses and steps they are.
#[derive(Clone, Copy)]
pub(crate) struct Counted<'a> {
    pub(crate) variables: usize,
    pub(crate) cnf: &'a [i32],
    pub(crate) clauses: usize,
    pub(crate) refutation: &'a [i32],
    pub(crate) steps: usize,
    ghost cnf_right: { CnfRight variables cnf.now × (clauses ≡ length (clauses_of cnf.now)) },
    ghost steps_right: { StepsRight variables clauses refutation.now × (steps ≡ length (steps_of refutation.now)) },
}

// The clauses that a step's hints can name: those of the CNF, and of the `done` steps before it, by the places where they begin.
#[derive(Clone, Copy)]
pub(crate) struct Known<'a> {
    pub(crate) words: Counted<'a>,
    pub(crate) done: usize,
    pub(crate) places: &'a [u64],
    ghost standing: { Standing words.variables words.cnf.now words.refutation.now words.clauses done places.now },
}

// Where the first 0 stands.
fn first_0(words: &[i32]) -> Option<usize>
    ensures { result ≡ position is_0 words.now }
{
    words.iter().position(|w| *w == 0)
}

// The clause that begins at `from`, as a part of the words.
pub(crate) fn clause_at(words: &[i32], from: usize) -> &[i32]
    requires { from ≤ length words.now }
    ensures { result.now ≡ clause_from words.now from }
{
    let rest = &words[from..];
    match first_0(rest) {
        Some(n) => &rest[..n],
        None => rest,
    }
}

impl<'a> Known<'a> {
    ghost use Rattle.refutation.specs.Named.{named};

    // The clause of a number: its part of the CNF, or of the refutation itself.
    pub(crate) fn clause(&self, number: usize) -> &'a [i32]
        requires { (1 ≤ number) × (number ≤ self.now.words.clauses + self.now.done) }
        ensures { result.now ≡ get_or (named self.now) (number - 1) [] }
    {
        let from = self.places[number - 1] as usize;
        if number <= self.words.clauses {
            clause_at(self.words.cnf, from)
        } else {
            clause_at(self.words.refutation, from)
        }
    }
}

// Writes down where each clause of the CNF begins.
pub(crate) fn place_cnf(cnf: &[i32], area: &mut [u64])
    requires { (ended cnf.now ≡ true) × (length area.old ≡ length (clauses_of cnf.now)) }
    ensures { Places cnf.now 0 (clauses_of cnf.now) area.new }
{
    let mut at = 0;
    for place in area {
        *place = at as u64;
        at += clause_at(cnf, at).len() + 1;
    }
}
