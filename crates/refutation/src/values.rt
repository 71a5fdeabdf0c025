// The values of variables while one step is judged. A value is a stamp of its step with a sign, so that nothing is cleared between steps.
ghost use Rattle.std.specs.Prelude.{◌≡◌, true, false, not, cond, List, [], ◌∷◌, map, ◌<◌, ◌≤◌, suc, length, replicate, eqb, ℤ};
ghost use Rattle.answers.specs.Lists.{written};
ghost use Rattle.clauses.specs.Clauses.{negated, variable_of, literal_within, among};
ghost use Rattle.clauses.specs.Refutations.{both_signs, outcome};
ghost use Rattle.refutation.specs.Work.{stamps_limit, mark_of, cell, LiteralsWithin, Older, Values, Marked, outcome_found};

use clauses::literals::variable;

// What a hint's clause gives under the values so far.
#[derive(Clone, Copy, Debug, PartialEq, Eq)]
pub(crate) enum Found {
    Conflict,
    Unit(i32),
    Neither,
}

// The step whose values stand in an area: its stamp, over so many variables.
#[derive(Clone, Copy)]
pub(crate) struct Stamp {
    variables: usize,
    stamp: u64,
    ghost small: { stamp < stamps_limit },
}

impl Stamp {
    // The stamp of the step that comes after so many: never 0, which is what a cleared word holds.
    pub(crate) fn after(variables: usize, done: usize) -> Stamp
        requires { suc done < stamps_limit }
        ensures { (result.variables ≡ variables) × (result.stamp ≡ suc done) }
    {
        Stamp {
            variables,
            stamp: done as u64 + 1,
        }
    }

    // What the word of the literal's variable holds where the literal has the value. The least i32 is never negated.
    fn mark(self, w: i32, value: bool) -> u64
        requires { literal_within self.variables w ≡ true }
        ensures { result ≡ mark_of self.stamp (cond value w (negated w)) }
    {
        2 * self.stamp + u64::from((0 < w) == value)
    }

    // Whether the literal has the value.
    fn says(self, w: i32, value: bool, area: &[u64]) -> bool
        requires { (literal_within self.variables w ≡ true) × (self.variables < length area.now) }
        ensures { result ≡ eqb (cell area.now w) (mark_of self.stamp (cond value w (negated w))) }
    {
        area[variable(w)] == self.mark(w, value)
    }

    // Sets the literals of a step's clause false; no where a variable has both signs.
    pub(crate) fn set_false(self, clause: &[i32], area: &mut [u64]) -> bool
        requires { LiteralsWithin self.variables clause.now × Older self.variables self.stamp area.old }
        ensures answer { result ≡ not (both_signs clause.now) }
        ensures marked { Marked self.variables self.stamp area.old area.new }
        ensures values { result ≡ true → Values self.variables self.stamp (map negated clause.now) area.new }
    {
        for w in clause {
            if self.says(*w, true, area) {
                return false;
            }
            area[variable(*w)] = self.mark(*w, false);
        }
        true
    }

    // What a clause gives under the values.
    pub(crate) fn find(self, clause: &[i32], area: &[u64]) -> Found
        requires { LiteralsWithin self.variables clause.now × (self.variables < length area.now) }
        ensures { (trues : List ℤ) → Values self.variables self.stamp trues area.now → outcome_found result ≡ outcome trues clause.now }
    {
        let mut unit = None;
        for w in clause {
            if self.says(*w, false, area) {
                continue;
            }
            if self.says(*w, true, area) || unit.unwrap_or(*w) != *w {
                return Found::Neither;
            }
            unit = Some(*w);
        }
        match unit {
            None => Found::Conflict,
            Some(w) => Found::Unit(w),
        }
    }

    // Sets a literal true that has no value yet.
    pub(crate) fn set_true(self, w: i32, area: &mut [u64])
        requires { LiteralsWithin self.variables (w ∷ []) × Older self.variables (suc self.stamp) area.old }
        ensures marked { Marked self.variables self.stamp area.old area.new }
        ensures values { (trues : List ℤ) → Values self.variables self.stamp trues area.old → among w trues ≡ false → among (negated w) trues ≡ false → Values self.variables self.stamp (w ∷ trues) area.new }
    {
        area[variable(w)] = self.mark(w, true);
    }
}
