//! Engines: the engine of a machine that runs step by step, such as a circuit or a graph of gates.

ghost use Rattle.std.specs.Prelude.{◌≡◌, ◌≤◌, ◌-◌, ℕ, OnOk};
ghost use Rattle.circuit_eval.specs.Machines.{after_steps, rows_after};
ghost use Rattle.one_rule.specs.Stimulus.{inputs_of};
ghost use Rattle.stim_report.specs.Shapes.{RowFits};
ghost use Rattle.koika_top.specs.inner.Engines.{StandsAfter, rows_of};
ghost use Rattle.koika_top.specs.inner.Telling.{GoesOnFrom, closed, counted_all};

use crate::ends::Ends;
use crate::engine::Engine;
use crate::teller::Teller;
use aig_blast::AigSim;
use circuit_eval::{Machine, WordSim, run_machine};
use kw_bits::NoMemory;
use one_rule::{Rows, Stimulus};
use std::alloc::Global;
use stim_report::Shape;

/// A machine whose run has a beginning that no step changes.
pub(crate) trait Begun: Machine {
    ghost use Rattle.std.specs.Prelude.{◌≡◌, List};
    ghost use Rattle.kw_bits.specs.BitVector.{BitVector};

    /// It before all steps.
    ghost beginning: { Self → Self };

    /// No step changes that.
    ghost keeps_beginning: { (m : Self) (inputs : List BitVector) → beginning (Self.after_step m inputs) ≡ beginning m };
}

impl<'c> Begun for WordSim<'c> {
    ghost use Rattle.std.specs.Prelude.{refl};
    ghost use Rattle.circuit_eval.specs.Simulations.{beginning};

    ghost beginning = { λ s. beginning s.circuit };

    ghost keeps_beginning = { λ m inputs. refl };
}

impl<'a> Begun for AigSim<'a> {
    ghost use Rattle.std.specs.Prelude.{refl};
    ghost use Rattle.aig_blast.specs.AigSims.{beginning};

    ghost beginning = { λ s. beginning s.aig };

    ghost keeps_beginning = { λ m inputs. refl };
}

/// A machine that runs on a stimulus.
#[derive(Drop)]
pub(crate) struct MachineEngine<'s, M> {
    machine: M,
    stimulus: &'s Stimulus,
    at: u32,
}

impl<'s, M: Begun> MachineEngine<'s, M> {
    /// Before all cycles.
    pub(crate) fn begin(machine: M, stimulus: &'s Stimulus) -> MachineEngine<'s, M>
        requires first { machine ≡ M.beginning machine }
        requires widths { stimulus.now.widths ≡ M.input_widths machine }
        ensures machine { result.machine ≡ machine }
        ensures stimulus { result.stimulus.now ≡ stimulus.now }
        ensures at { result.at ≡ 0 }
        ensures stands { StandsAfter M.after_step M.input_widths (M.beginning result.machine) result.machine result.stimulus.now result.at }
    {
        MachineEngine {
            machine,
            stimulus,
            at: 0,
        }
    }
}

impl<'s, M: Begun> Engine for MachineEngine<'s, M> {
    ghost rows_to = { λ e n. rows_of M.after_step M.row_at (inputs_of e.stimulus.now) (M.beginning e.machine) n };

    ghost at = { λ e. e.at };

    ghost stands = { λ e. StandsAfter M.after_step M.input_widths (M.beginning e.machine) e.machine e.stimulus.now e.at };

    fn batch(&mut self, alloc: Global, to: u32) -> Result<Rows, NoMemory> {
        let rows = run_machine(alloc, &mut self.machine, self.stimulus, self.at, to)?;
        self.at = to;
        Ok(rows)
    }

    fn count(
        &mut self,
        alloc: Global,
        ends: Ends,
        shape: &Shape,
        teller: &mut Teller,
    ) -> Result<(), NoMemory> {
        let stimulus: &Stimulus = self.stimulus;
        count_cycles(alloc, &mut self.machine, stimulus, ends, shape, teller)?;
        self.at = ends.to;
        Ok(())
    }
}

// Makes the steps of the cycles after one of them, up to another. A teller counts each by its flags, and then takes the
// registers after the last. No row is made.
fn count_cycles<M: Machine>(
    alloc: Global,
    machine: &mut M,
    stimulus: &Stimulus,
    ends: Ends,
    shape: &Shape,
    teller: &mut Teller,
) -> Result<(), NoMemory>
    requires widths { stimulus.now.widths ≡ M.input_widths machine.old }
    requires order { ends.from ≤ ends.to }
    requires few { ends.to ≤ 16777216 }
    requires goes_on { GoesOnFrom teller.old shape.now ends.from }
    requires fit { (k : ℕ) → RowFits shape.now.registers shape.now.rules
        (M.row_at (after_steps M.after_step (inputs_of stimulus.now) k ends.from machine.old)) }
    ensures machine { OnOk result (machine.new
        ≡ after_steps M.after_step (inputs_of stimulus.now) (ends.to - ends.from) ends.from machine.old) }
    ensures teller { OnOk result (teller.new ≡ closed
        (counted_all teller.old
        (rows_after M.after_step M.row_at (inputs_of stimulus.now) (ends.to - ends.from) ends.from machine.old))
        (M.row_at machine.new).regs) }
{
    let mut fired = machine.flags(alloc)?;
    for last in ends.from..ends.to {
        machine.step(&stimulus.inputs(last + 1)?);
        machine.put_flags(&mut fired);
        teller.count(&fired);
    }
    teller.close(machine.regs(alloc)?.as_slice());
    Ok(())
}
