//! The simulator of a graph as a machine, whose flags are the outputs.

ghost use Rattle.std.specs.Prelude.{◌≡◌, length, map};
ghost use Rattle.circuit_eval.specs.Run.{is_one};

use crate::sim::AigSim;
use circuit_eval::Machine;
use kw_bits::{Bits, NoMemory};
use one_rule::{Inputs, Regs};
use std::alloc::{AllocError, Global};

impl<'a> Machine for AigSim<'a> {
    ghost use Rattle.std.specs.Prelude.{length, refl};
    ghost use Rattle.aig_blast.specs.Aigs.{input_word_widths};
    ghost use Rattle.aig_blast.specs.AigSims.{after_step, row_at};

    ghost input_widths = { λ s. input_word_widths s.aig.inputs };

    ghost after_step = { after_step };

    ghost row_at = { row_at };

    ghost flag_count = { λ s. length s.aig.outputs };

    ghost keeps_widths = { λ m inputs. refl };

    ghost keeps_flag_count = { λ m inputs. refl };

    fn step(&mut self, inputs: &Inputs) {
        self.step(inputs)
    }

    fn regs(&self, alloc: Global) -> Result<Regs, NoMemory> {
        Regs::from_slice(alloc, self.states().as_slice())
    }

    fn flags(&self, alloc: Global) -> Result<Vec<bool>, AllocError> {
        self.outputs()
            .iter()
            .map(|output| output.number() == 1)
            .collect(alloc)
    }

    fn put_flags(&self, room: &mut [bool]) {
        put_flags(self.outputs(), room)
    }
}

// Writes whether each output is 1.
fn put_flags(outputs: &[Bits], room: &mut [bool])
    requires { length room.old ≡ length outputs.now }
    ensures { room.new ≡ map is_one outputs.now }
{
    for (flag, output) in outputs.iter().enumerate() {
        room[flag] = output.number() == 1;
    }
}
