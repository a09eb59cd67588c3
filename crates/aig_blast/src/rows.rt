//! Runs of a graph: one row a cycle.

ghost use Rattle.std.specs.Prelude.{◌≡◌, ◌≤◌, ◌-◌, IfOk, OnErr, OnOk};
ghost use Rattle.one_rule.specs.Stimulus.{inputs_of};
ghost use Rattle.aig_blast.specs.Aigs.{input_word_widths};
ghost use Rattle.aig_blast.specs.AigRun.{run_of};
ghost use Rattle.aig_blast.specs.AigSims.{MadeSome, after_steps, rows_from};

use crate::aig::Aig;
use crate::sim::AigSim;
use circuit_eval::run_machine;
use kw_bits::NoMemory;
use one_rule::{Rows, Stimulus};
use std::alloc::Global;

/// The rows of a bit-level circuit's run of n cycles, whose flags are the outputs. The stimulus is for its words of inputs.
pub fn run_aig(alloc: Global, aig: &Aig, stimulus: &Stimulus, n: u32) -> Result<Rows, NoMemory>
    requires { stimulus.now.widths ≡ input_word_widths aig.now.inputs }
    ensures { IfOk result (λ rows. rows ≡ run_of aig.now (inputs_of stimulus.now) n) }
{
    let mut sim = AigSim::begin(alloc, aig)?;
    let rows = run_on(alloc, &mut sim, stimulus, 0, n)?;
    Ok(rows)
}

/// The row after cycle `from` of a run, and those of the cycles from there to `to`. The simulator is then after the last of
/// them, so a run can be made in parts. On an error it has made some of the steps, from the first on. The stimulus is for
/// the circuit's words of inputs.
pub fn run_on(
    alloc: Global,
    sim: &mut AigSim,
    stimulus: &Stimulus,
    from: u32,
    to: u32,
) -> Result<Rows, NoMemory>
    requires order { from ≤ to }
    requires widths { stimulus.now.widths ≡ input_word_widths sim.old.aig.inputs }
    ensures rows { IfOk result (λ rows. rows ≡ rows_from sim.old (inputs_of stimulus.now) from to) }
    ensures sim { OnOk result (sim.new ≡ after_steps (inputs_of stimulus.now) (to - from) from sim.old) }
    ensures short { OnErr result (MadeSome (inputs_of stimulus.now) (to - from) from sim.old sim.new) }
{
    run_machine(alloc, sim, stimulus, from, to)
}
