//! Verilog: the module of a circuit.

ghost use Rattle.std.specs.Prelude.{◌≡◌, IfOk, None, Some, if◌then◌else◌, map, codes};
ghost use Rattle.verilog_text.specs.Names as names;
ghost use Rattle.verilog_text.specs.Translations.{names_of};
ghost use Rattle.verilog_text.specs.inner.Making as making;

use crate::draft::Draft;
use crate::module::{Module, Operand, Output, Port, Register};
use crate::names::{own_name, written};
use crate::nodes::operand_at;
use crate::verilog::Options;
use circuit_eval::{Circuit, InputWire, OutputWire, StateWire};
use kw_bits::{NoMemory, Sequence, Text};
use std::alloc::Global;

/// The module of a circuit whose nodes have these wires and operands.
#[tactic(auto, unfolding(crate::specs::inner::Making::module_with))]
pub(crate) fn module_with(
    alloc: Global,
    circuit: &Circuit,
    draft: Draft,
    options: Options,
) -> Result<Module, NoMemory>
    ensures { IfOk result (λ m. m ≡ making.module_with circuit.now draft options) }
{
    let operands = draft.operands.as_slice();
    Ok(Module {
        name: own_name(alloc, circuit, b"koika")?,
        clock: own_name(alloc, circuit, b"clk")?,
        reset: reset_name(alloc, circuit, options.reset)?,
        inputs: inputs_of(alloc, circuit.inputs.as_slice())?,
        outputs: outputs_of(alloc, operands, circuit.outputs.as_slice())?,
        registers: registers_of(
            alloc,
            operands,
            options.registers,
            circuit.states.as_slice(),
        )?,
        wires: draft.wires,
    })
}

// The name of the reset, where there is one.
fn reset_name(alloc: Global, circuit: &Circuit, has_reset: bool) -> Result<Option<Text>, NoMemory>
    ensures { IfOk result (λ reset.
        reset ≡ (if has_reset then Some (names.own_name (names_of circuit.now) (codes "rst")) else None)) }
{
    if !has_reset {
        return Ok(None);
    }
    let name = own_name(alloc, circuit, b"rst")?;
    Ok(Some(name))
}

// An input for each of the circuit's.
fn inputs_of(alloc: Global, wires: &[InputWire]) -> Result<Sequence<Port>, NoMemory>
    ensures { IfOk result (λ inputs. inputs ≡ map making.input_of wires.now) }
{
    let mut inputs = Sequence::new(alloc);
    for wire in wires {
        inputs.push(Port {
            name: written(alloc, wire.name.as_slice())?,
            width: wire.width,
        })?;
    }
    Ok(inputs)
}

// An output for each of the circuit's.
fn outputs_of(
    alloc: Global,
    operands: &[Operand],
    wires: &[OutputWire],
) -> Result<Sequence<Output>, NoMemory>
    ensures { IfOk result (λ outputs. outputs ≡ map (making.output_of operands.now) wires.now) }
{
    let mut outputs = Sequence::new(alloc);
    for wire in wires {
        outputs.push(Output {
            name: written(alloc, wire.name.as_slice())?,
            value: operand_at(operands, wire.id),
        })?;
    }
    Ok(outputs)
}

// A register for each state of the circuit.
fn registers_of(
    alloc: Global,
    operands: &[Operand],
    are_ports: bool,
    wires: &[StateWire],
) -> Result<Sequence<Register>, NoMemory>
    ensures { IfOk result (λ registers. registers ≡ map (making.register_of are_ports operands.now) wires.now) }
{
    let mut registers = Sequence::new(alloc);
    for wire in wires {
        registers.push(Register {
            name: written(alloc, wire.name.as_slice())?,
            is_port: are_ports,
            first: wire.first,
            next: operand_at(operands, wire.next),
        })?;
    }
    Ok(registers)
}
