// The sizes of a circuit, within their limits, the kinds of its lines, and its literals. A contract sees the sizes as those that words tell.
ghost use Rattle.std.specs.Prelude.{◌≡◌, ◌+◌, ◌*◌, ◌<◌};
ghost use Rattle.meaning.specs.Check.{largest_literal};
ghost use Rattle.meaning.specs.Problem.{latch_place, gate_place};
ghost use Rattle.problem.specs.Promise.{outline_of};
ghost use Rattle.aiger.specs.Circuits.{circuit, output_place, words_in_all};
ghost use Rattle.aiger.specs.Texts.{input_literal, latch_literal, gate_literal, largest_variable};
ghost use Rattle.aiger.specs.Reads.{count_of};

use problem::Outline;
use std::marker::Model;

// The words of the header: I, L, A, O.
pub(crate) const HEADER_WORDS: usize = 4;

#[derive(Clone, Copy)]
pub(crate) struct Sizes {
    pub inputs: u32,
    pub latches: u32,
    pub gates: u32,
    pub outputs: u32,
}

impl Model for Sizes {
    ghost use Rattle.aiger.specs.Circuits as circuits;
    ghost use Rattle.aiger.specs.Reads.{Fitting};

    ghost Value = { circuits.Sizes };

    ghost view = { λ a. record { inputs = a.inputs; latches = a.latches; gates = a.gates; outputs = a.outputs } };

    ghost invariant = { λ a. Fitting (record { inputs = a.inputs; latches = a.latches; gates = a.gates; outputs = a.outputs }) };

    ghost inverse = { λ s. record { inputs = s.inputs; latches = s.latches; gates = s.gates; outputs = s.outputs } };
}

// What has a line of its own in a text. A kind is plainer than a closure for each line, which may be called only while the table has room; what is
// written goes by the same kinds.
#[derive(Clone, Copy, Debug, PartialEq, Eq)]
pub(crate) enum Kind {
    Input,
    Latch,
    Output,
    Gate,
}

#[tactic(auto, unfolding(answers::specs::Limits::inputs_limit, answers::specs::Limits::latches_limit, answers::specs::Limits::gates_limit, answers::specs::Limits::outputs_limit))]
impl Sizes {
    pub(crate) fn count(self, kind: Kind) -> u32
        ensures { result ≡ count_of kind self }
    {
        match kind {
            Kind::Input => self.inputs,
            Kind::Latch => self.latches,
            Kind::Output => self.outputs,
            Kind::Gate => self.gates,
        }
    }

    pub(crate) fn width(self) -> u32
        ensures { result ≡ largest_variable self }
    {
        self.inputs + self.latches + self.gates
    }

    // The outline by which a circuit's latches and gates are checked as those of a problem.
    pub(crate) fn circuit(self) -> Outline
        ensures { outline_of result ≡ circuit self }
    {
        let latches_from = HEADER_WORDS as u32;
        let gates_from = latches_from + 2 * self.latches;
        let outputs_from = gates_from + 2 * self.gates;
        Outline {
            inputs: self.inputs,
            latches: self.latches,
            gates: self.gates,
            constraints: 0,
            written_nodes: 0,
            formula_nodes: 0,
            bound: 0,
            width: self.width(),
            latches_from,
            gates_from,
            constraints_from: outputs_from,
            nodes_from: outputs_from,
        }
    }

    // "outputs at most 2W + 1", and so is a next literal.
    pub(crate) fn largest_literal(self) -> u32
        ensures { result ≡ largest_literal (circuit self) }
    {
        2 * (self.inputs + self.latches + self.gates) + 1
    }

    // The own literals of an input, a latch and a gate.
    pub(crate) fn input_literal(self, i: u32) -> u32
        requires { i < self.inputs }
        ensures { result ≡ input_literal i }
    {
        // Opened, the sizes tell that I is within its limit.
        let _ = self.inputs;
        2 * (i + 1)
    }

    pub(crate) fn latch_literal(self, i: u32) -> u32
        requires { i < self.latches }
        ensures { result ≡ latch_literal self i }
    {
        2 * (self.inputs + i + 1)
    }

    pub(crate) fn gate_literal(self, j: u32) -> u32
        requires { j < self.gates }
        ensures { result ≡ gate_literal self j }
    {
        2 * (self.inputs + self.latches + j + 1)
    }

    // Where an output's word stands. A place is a `usize`, for which a `u32` has no `From`: so `as`.
    pub(crate) fn output_place(self, o: u32) -> usize
        ensures { result ≡ output_place self o }
    {
        HEADER_WORDS + 2 * (self.latches as usize) + 2 * (self.gates as usize) + o as usize
    }

    // Where the words of a latch and of a gate begin.
    pub(crate) fn latch_place(self, i: u32) -> usize
        ensures { result ≡ latch_place (circuit self) i }
    {
        HEADER_WORDS + 2 * (i as usize)
    }

    pub(crate) fn gate_place(self, j: u32) -> usize
        ensures { result ≡ gate_place (circuit self) j }
    {
        HEADER_WORDS + 2 * (self.latches as usize) + 2 * (j as usize)
    }

    // "total 4+2L+2A+O"
    pub(crate) fn words_in_all(self) -> usize
        ensures { result ≡ words_in_all self }
    {
        let outputs = self.outputs;
        self.output_place(outputs)
    }
}
