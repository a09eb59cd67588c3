//! Circuits: the rows of a circuit's run, and of any machine's.

ghost use Rattle.std.specs.Prelude.{◌≡◌, ◌≤◌, ◌-◌, ◌∷◌, IfOk, OnErr, OnOk};
ghost use Rattle.one_rule.specs.Stimulus.{inputs_of};
ghost use Rattle.circuit_eval.specs.Circuits.{input_widths};
ghost use Rattle.circuit_eval.specs.Machines as machines;
ghost use Rattle.circuit_eval.specs.Run.{run_of};
ghost use Rattle.circuit_eval.specs.Simulations.{MadeSome, after_steps, rows_from};

use crate::circuit::Circuit;
use crate::machine::Machine;
use crate::sim::Sim;
use kw_bits::NoMemory;
use one_rule::{FiredSet, Row, Rows, Stimulus};
use std::alloc::Global;

/// The rows of a circuit's run of n cycles, whose flags are the outputs of one bit. The stimulus is for its inputs.
pub fn run_circuit(
    alloc: Global,
    circuit: &Circuit,
    stimulus: &Stimulus,
    n: u32,
) -> Result<Rows, NoMemory>
    requires { stimulus.now.widths ≡ input_widths circuit.now.inputs }
    ensures { IfOk result (λ rows. rows ≡ run_of circuit.now (inputs_of stimulus.now) n) }
{
    let mut sim = Sim::begin(alloc, circuit)?;
    run_on(alloc, &mut sim, stimulus, 0, n)
}

/// The row of a moment after cycle `from` of a run, and those of the cycles from there to `to`. The simulator is then after
/// the last of them, so a run can be made in parts. On an error it has made some of the steps, from the first on. The stimulus
/// is for the circuit's inputs.
pub fn run_on(
    alloc: Global,
    sim: &mut Sim,
    stimulus: &Stimulus,
    from: u32,
    to: u32,
) -> Result<Rows, NoMemory>
    requires order { from ≤ to }
    requires widths { stimulus.now.widths ≡ input_widths sim.old.circuit.inputs }
    ensures rows { IfOk result (λ rows. rows ≡ rows_from sim.old (inputs_of stimulus.now) from to) }
    ensures sim { OnOk result (sim.new ≡ after_steps (inputs_of stimulus.now) (to - from) from sim.old) }
    ensures short { OnErr result (MadeSome (inputs_of stimulus.now) (to - from) from sim.old sim.new) }
{
    run_machine(alloc, sim, stimulus, from, to)
}

/// The row of a machine's moment after cycle `from` of a run, and those of the cycles from there to `to`, after the last of
/// which the machine then is. On an error it has made some of the steps, from the first on. The stimulus is for its inputs.
pub fn run_machine<M: Machine>(
    alloc: Global,
    machine: &mut M,
    stimulus: &Stimulus,
    from: u32,
    to: u32,
) -> Result<Rows, NoMemory>
    requires order { from ≤ to }
    requires widths { stimulus.now.widths ≡ M.input_widths machine.old }
    ensures rows { IfOk result (λ rows. rows ≡ M.row_at machine.old ∷ machines.rows_after M.after_step M.row_at (inputs_of stimulus.now) (to - from) from machine.old) }
    ensures machine { OnOk result (machine.new ≡ machines.after_steps M.after_step (inputs_of stimulus.now) (to - from) from machine.old) }
    ensures short { OnErr result (machines.MadeSome M.after_step (inputs_of stimulus.now) (to - from) from machine.old machine.new) }
{
    let mut rows = Rows::new(alloc);
    rows.push(row_of(alloc, machine)?)?;
    for last in from..to {
        machine.step(&stimulus.inputs(last + 1)?);
        rows.push(row_of(alloc, machine)?)?;
    }
    Ok(rows)
}

// The row of a machine's moment.
fn row_of<M: Machine>(alloc: Global, machine: &M) -> Result<Row, NoMemory>
    ensures { IfOk result (λ row. row ≡ M.row_at machine.now) }
{
    Ok(Row {
        regs: machine.regs(alloc)?,
        fired: FiredSet::from_vec(machine.flags(alloc)?),
    })
}
