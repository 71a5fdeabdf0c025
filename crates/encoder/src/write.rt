// Words and clauses, one after the other. Only these functions store a word.
// The room is lent and the place in it stands beside it: of a struct that holds a `&mut` the check gives no proof.
ghost use Rattle.std.specs.Prelude.{[], ◌∷◌, ◌+◌, ◌<◌, ◌≤◌, length};
ghost use Rattle.clauses.specs.CnfWords.{ended_by_0};
ghost use Rattle.encoder.specs.Writing.{Wrote};

pub(crate) fn word(room: &mut [i32], at: usize, w: i32) -> usize
    requires { at < length room.old }
    ensures { Wrote at (w ∷ []) room.old room.new result }
{
    room[at] = w;
    at + 1
}

// Word by word: a copy of the whole slice would be compiled to wide loads of words just stored one by one, three times slower in all.
pub(crate) fn clause(room: &mut [i32], at: usize, literals: &[i32]) -> usize
    requires { at + length literals.now < length room.old }
    ensures { Wrote at (ended_by_0 literals.now) room.old room.new result }
{
    let mut next = at;
    for x in literals {
        next = word(room, next, *x);
    }
    word(room, next, 0)
}
