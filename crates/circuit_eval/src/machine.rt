//! Circuits: machines that run step by step.

ghost use Rattle.std.specs.Prelude.{◌≡◌, IfOk, length};
ghost use Rattle.circuit_eval.specs.Circuits.{AreBits};

use crate::sim::Sim;
use crate::word_sim::WordSim;
use kw_bits::NoMemory;
use one_rule::{Inputs, Regs};
use std::alloc::{AllocError, Global};

/// What runs step by step, by the inputs of each cycle, and has a row at each moment.
pub trait Machine {
    ghost use Rattle.std.specs.Prelude.{ℕ, List};
    ghost use Rattle.kw_bits.specs.BitVector.{BitVector};
    ghost use Rattle.one_rule.specs.declared.rows.Row.{Row};

    /// The widths of its inputs.
    ghost input_widths: { Self → List ℕ };

    /// It after one step more with these inputs.
    ghost after_step: { Self → List BitVector → Self };

    /// The row of the moment: the states now and the flags of the last step.
    ghost row_at: { Self → Row };

    /// How many flags its rows have.
    ghost flag_count: { Self → ℕ };

    /// One step with a value of its width for each input.
    fn step(&mut self, inputs: &Inputs)
        requires { AreBits inputs.now (input_widths self.old) }
        ensures { self.new ≡ after_step self.old inputs.now };

    /// The states now, as bit vectors.
    fn regs(&self, alloc: Global) -> Result<Regs, NoMemory>
        ensures { IfOk result (λ regs. regs ≡ (row_at self.now).regs) };

    /// The flags of the last step.
    fn flags(&self, alloc: Global) -> Result<Vec<bool>, AllocError>
        ensures flags { IfOk result (λ fired. fired.items ≡ (row_at self.now).fired) }
        ensures count { IfOk result (λ fired. length fired.items ≡ flag_count self.now) };

    /// Writes the flags of the last step into a room for them. It takes no memory.
    fn put_flags(&self, room: &mut [bool])
        requires { length room.old ≡ flag_count self.now }
        ensures { room.new ≡ (row_at self.now).fired };

    /// No step changes the widths.
    ghost keeps_widths: { (m : Self) (inputs : List BitVector) → input_widths (after_step m inputs) ≡ input_widths m };

    /// No step changes the number of flags.
    ghost keeps_flag_count: { (m : Self) (inputs : List BitVector) → flag_count (after_step m inputs) ≡ flag_count m };
}

impl<'c> Machine for WordSim<'c> {
    ghost use Rattle.std.specs.Prelude.{refl};
    ghost use Rattle.circuit_eval.specs.Circuits.{input_widths};
    ghost use Rattle.circuit_eval.specs.Simulations.{after_step, flag_count, row_at};

    ghost input_widths = { λ s. input_widths s.circuit.inputs };

    ghost after_step = { after_step };

    ghost row_at = { row_at };

    ghost flag_count = { flag_count };

    fn step(&mut self, inputs: &Inputs) {
        self.step(inputs)
    }

    fn regs(&self, alloc: Global) -> Result<Regs, NoMemory> {
        self.regs(alloc)
    }

    fn flags(&self, alloc: Global) -> Result<Vec<bool>, AllocError> {
        self.flags(alloc)
    }

    fn put_flags(&self, room: &mut [bool]) {
        self.put_flags(room)
    }

    ghost keeps_widths = { λ m inputs. refl };

    ghost keeps_flag_count = { λ m inputs. refl };
}

impl<'c> Machine for Sim<'c> {
    ghost use Rattle.std.specs.Prelude.{refl};
    ghost use Rattle.circuit_eval.specs.Circuits.{input_widths};
    ghost use Rattle.circuit_eval.specs.Simulations.{after_step, flag_count, row_at};

    ghost input_widths = { λ s. input_widths s.circuit.inputs };

    ghost after_step = { after_step };

    ghost row_at = { row_at };

    ghost flag_count = { flag_count };

    fn step(&mut self, inputs: &Inputs) {
        self.step(inputs)
    }

    fn regs(&self, alloc: Global) -> Result<Regs, NoMemory> {
        self.words().regs(alloc)
    }

    fn flags(&self, alloc: Global) -> Result<Vec<bool>, AllocError> {
        self.words().flags(alloc)
    }

    fn put_flags(&self, room: &mut [bool]) {
        self.words().put_flags(room)
    }

    ghost keeps_widths = { λ m inputs. refl };

    ghost keeps_flag_count = { λ m inputs. refl };
}
