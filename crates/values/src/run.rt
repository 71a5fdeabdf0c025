// A run by its table: the rows of the positions 0..last, and where its loop starts if it has one.
ghost use Rattle.std.specs.Prelude.{◌≡◌, ◌<◌, ◌≤◌, length};
ghost use Rattle.std.specs.Option.{ForSome};
ghost use Rattle.meaning.specs.Runs.{literal_value};
ghost use Rattle.pairing.specs.NodeLaws.{at_next, e_value};
ghost use Rattle.values.specs.declared.rows.TheConstants.{POSITIONS, ROWS};
ghost use Rattle.values.specs.Tables.{row_in, at_position, shape_at};

use crate::rows::{POSITIONS, ROW_WIDTH, ROWS, literal};

#[derive(Clone, Copy)]
pub(crate) struct Run<'a> {
    pub(crate) table: &'a [bool],
    pub(crate) last: usize,
    pub(crate) start: Option<usize>,
    ghost room: { length table.now ≡ ROWS },
    ghost last_within: { last < POSITIONS },
    ghost start_within: { ForSome start (λ l. l ≤ last) },
}

impl<'a> Run<'a> {
    // The value of an atom's literal at a position.
    pub(crate) fn atom(&self, x: u32, i: usize) -> bool
        requires { i < POSITIONS }
        ensures { result ≡ literal_value (row_in self.now.table.now i) x }
    {
        let from = i * ROW_WIDTH;
        literal(&self.table[from..from + ROW_WIDTH], x)
    }

    // E by a node's row: its value at the loop's start; without a loop it is false.
    pub(crate) fn end(&self, row: &[bool; POSITIONS]) -> bool
        ensures { result ≡ e_value (shape_at self.now.start) (at_position row.now) }
    {
        self.start.is_some_and(|l| row[l])
    }

    // P of a node at the next position, past the last E.
    pub(crate) fn next(&self, row: &[bool; POSITIONS], i: usize) -> bool
        ensures { result ≡ at_next self.now.last (at_position row.now) (e_value (shape_at self.now.start) (at_position row.now)) i }
    {
        if i < self.last {
            row[i + 1]
        } else {
            self.end(row)
        }
    }
}
