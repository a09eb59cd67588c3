//! Engines: the values of the inputs in each cycle.

ghost use Rattle.std.specs.Prelude.{◌≡◌, ◌-◌, ◌++◌, ◌∷◌, [], All, IsTrue, ◌↔◌, IfOk, OnOk, OnErr};
ghost use Rattle.typed_core.specs.Valid.{IsWidth};
ghost use Rattle.one_rule.specs.KeptLines.{IsKeptLine};
ghost use Rattle.typed_core.specs.Widths.{HaveWidths};
ghost use Rattle.one_rule.specs.Stimulus.{AlwaysFits, AreSame, inputs_by, inputs_of, IsLine};

mod line;

use crate::rows::Inputs;
use kw_bits::{Bits, NoMemory, Sequence};
use std::alloc::Global;
use std::marker::Model;

/// The values of the inputs in each cycle: lines of assignments, the first for cycle 1. An input that isn't given is 0.
#[derive(Debug, Drop)]
pub struct Stimulus {
    widths: Vec<u32>,
    lines: Vec<Sequence<(u32, Bits)>>,
}

impl Model for Stimulus {
    ghost use Rattle.one_rule.specs.KeptLines.{KeepsLines, vectors_of};
    ghost use Rattle.one_rule.specs.Stimulus.{InputVectors};

    ghost Value = { InputVectors };

    ghost view = { λ s. vectors_of s.widths.items s.lines.items };

    ghost invariant = { λ s. KeepsLines s.widths.items s.lines.items };
}

impl Stimulus {
    /// No line yet, for inputs of these widths. It takes no memory.
    pub fn new(alloc: Global, widths: Vec<u32>) -> Stimulus
        requires { All IsWidth widths.items }
        ensures { result ≡ record { widths = widths.items; cycles = [] } }
    {
        Stimulus {
            widths,
            lines: Vec::new(alloc),
        }
    }

    /// Adds a line, of inputs' numbers and their values in any order. An `Err` leaves the stimulus as it was.
    pub fn push_line(&mut self, mut line: Vec<(u32, Bits)>) -> Result<(), NoMemory>
        requires { IsLine self.old.widths line.items }
        ensures ok { OnOk result
            (self.new ≡ record self.old { cycles = self.old.cycles ++ inputs_by self.old.widths line.items ∷ [] }) }
        ensures err { OnErr result (self.new ≡ self.old) }
    {
        line.sort_unstable_by_key(|assignment| assignment.0);
        self.lines.push(Sequence::from_vec(line))?;
        Ok(())
    }

    /// What each stimulus has by its type: values of its widths in every cycle. It does nothing, and is called for its
    /// contract.
    pub fn recall(&self)
        ensures { AlwaysFits self.now }
    {
        let _ = &self.widths;
    }

    /// The values of the inputs in a cycle: those that its line gives, and 0 for the others.
    pub fn inputs(&self, cycle: u32) -> Result<Inputs, NoMemory>
        ensures inputs { IfOk result (λ inputs. inputs ≡ inputs_of self.now cycle) }
        ensures fits { IfOk result (λ inputs. HaveWidths self.now.widths inputs) }
        ensures always { AlwaysFits self.now }
    {
        let alloc = *self.widths.allocator();
        line::inputs_by(alloc, &self.widths, self.line(cycle as usize))
    }

    /// Whether these are the values of the inputs in a cycle.
    pub fn agrees(&self, cycle: u32, inputs: &Inputs) -> bool
        ensures agrees { IsTrue result ↔ (inputs.now ≡ inputs_of self.now cycle) }
        ensures always { AlwaysFits self.now }
    {
        line::are_inputs_by(inputs.as_slice(), &self.widths, self.line(cycle as usize))
    }

    /// Whether both have inputs of the same widths, and give them the same values in every cycle.
    pub fn same(&self, other: &Stimulus) -> bool
        ensures { IsTrue result ↔ AreSame self.now other.now }
    {
        if self.widths != other.widths {
            return false;
        }
        for before in 0..self.lines.len().max(other.lines.len()) {
            if !self.gives_same(other, before + 1) {
                return false;
            }
        }
        true
    }

    // The line of a cycle, in order of the inputs. It is empty where the cycle has none.
    fn line(&self, cycle: usize) -> &[(u32, Bits)]
        ensures inputs { inputs_by self.now.widths result.now ≡ inputs_of self.now cycle }
        ensures kept { IsKeptLine self.now.widths result.now }
    {
        if cycle == 0 || cycle > self.lines.len() {
            return &[];
        }
        self.lines[cycle - 1].as_slice()
    }

    // Whether both give the inputs the same values in a cycle.
    fn gives_same(&self, other: &Stimulus, cycle: usize) -> bool
        requires { self.now.widths ≡ other.now.widths }
        ensures { IsTrue result ↔ (inputs_of self.now cycle ≡ inputs_of other.now cycle) }
    {
        let (line, others) = (self.line(cycle), other.line(cycle));
        line::agrees_with(line, others) && line::agrees_with(others, line)
    }
}
