// A literal's variable, by its sign.
ghost use Rattle.std.specs.Prelude.{◌≡◌};
ghost use Rattle.clauses.specs.Clauses.{variable_of};

// The number of a literal's variable.
pub fn variable(w: i32) -> usize
    ensures { result ≡ variable_of w }
{
    w.unsigned_abs() as usize
}
