// "A number and a place": a row of the documents' table of answers.
ghost use Rattle.std.specs.Prelude.{◌≡◌};
ghost use Rattle.answers.specs.Table.{row_of};
ghost use Rattle.answers.specs.Answers.{answer};

// Each refusal becomes its row; of a yes the number is 0.
#[derive(Clone, Copy, Debug, PartialEq, Eq)]
pub struct Answer {
    pub number: u32,
    pub place: usize,
}

impl Answer {
    pub fn new(number: u32, place: usize) -> Answer
        ensures { row_of result ≡ answer number place }
    {
        Answer { number, place }
    }
}
