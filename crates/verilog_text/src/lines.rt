//! Verilog: the lines of a module.

ghost use Rattle.std.specs.Prelude.{◌≡◌, ◌++◌, IfOk, OnOk};
ghost use Rattle.verilog_text.specs.Texts as texts;

use crate::module::{Module, Output, Port, Register, Wire};
use crate::text::{push_constant, push_form, push_number, push_operand, push_wire_name};
use kw_bits::{NoMemory, Text};
use std::alloc::Global;

/// The text of a module.
#[tactic(auto, unfolding(crate::specs::Texts::text_of))]
pub(crate) fn text_of(alloc: Global, of: &Module) -> Result<Text, NoMemory>
    ensures { IfOk result (λ text. text ≡ texts.text_of of.now) }
{
    let mut text = Text::new(alloc);
    push_head(&mut text, of)?;
    push_declarations(&mut text, of)?;
    push_block(&mut text, of)?;
    text.extend_from_slice(b"endmodule\n")?;
    Ok(text)
}

// The line with the ports.
#[tactic(auto, unfolding(crate::specs::Texts::head_text))]
fn push_head(text: &mut Text, of: &Module) -> Result<(), NoMemory>
    ensures { OnOk result (text.new ≡ text.old ++ texts.head_text of.now) }
{
    text.extend_from_slice(b"module ")?;
    text.extend_from_slice(of.name.as_slice())?;
    text.extend_from_slice(b"(")?;
    text.extend_from_slice(of.clock.as_slice())?;
    push_ports(text, of)?;
    text.extend_from_slice(b");\n")
}

// The ports after the clock.
#[tactic(auto, unfolding(crate::specs::Texts::ports_text))]
fn push_ports(text: &mut Text, of: &Module) -> Result<(), NoMemory>
    ensures { OnOk result (text.new ≡ text.old ++ texts.ports_text of.now) }
{
    if let Some(reset) = &of.reset {
        push_port(text, reset.as_slice())?;
    }
    push_input_ports(text, of.inputs.as_slice())?;
    push_output_ports(text, of.outputs.as_slice())?;
    push_register_ports(text, of.registers.as_slice())
}

fn push_input_ports(text: &mut Text, inputs: &[Port]) -> Result<(), NoMemory>
    ensures { OnOk result (text.new ≡ text.old ++ texts.each texts.input_port inputs.now) }
{
    for input in inputs {
        push_port(text, input.name.as_slice())?;
    }
    Ok(())
}

fn push_output_ports(text: &mut Text, outputs: &[Output]) -> Result<(), NoMemory>
    ensures { OnOk result (text.new ≡ text.old ++ texts.each texts.output_port outputs.now) }
{
    for output in outputs {
        push_port(text, output.name.as_slice())?;
    }
    Ok(())
}

fn push_register_ports(text: &mut Text, registers: &[Register]) -> Result<(), NoMemory>
    ensures { OnOk result (text.new ≡ text.old ++ texts.each texts.register_port registers.now) }
{
    for register in registers {
        push_register_port(text, register)?;
    }
    Ok(())
}

// A register that is an output.
fn push_register_port(text: &mut Text, register: &Register) -> Result<(), NoMemory>
    ensures { OnOk result (text.new ≡ text.old ++ texts.register_port register.now) }
{
    if !register.is_port {
        return Ok(());
    }
    push_port(text, register.name.as_slice())
}

fn push_port(text: &mut Text, name: &[u8]) -> Result<(), NoMemory>
    ensures { OnOk result (text.new ≡ text.old ++ texts.port_text name.now) }
{
    text.extend_from_slice(b", ")?;
    text.extend_from_slice(name)
}

// The declarations, wires and outputs.
#[tactic(auto, unfolding(crate::specs::Texts::declarations_text))]
fn push_declarations(text: &mut Text, of: &Module) -> Result<(), NoMemory>
    ensures { OnOk result (text.new ≡ text.old ++ texts.declarations_text of.now) }
{
    push_input(text, 1, of.clock.as_slice())?;
    push_reset(text, of)?;
    push_inputs(text, of.inputs.as_slice())?;
    push_outputs(text, of.outputs.as_slice())?;
    push_registers(text, of.registers.as_slice())?;
    push_wires(text, of, of.wires.as_slice())?;
    push_assigns(text, of, of.outputs.as_slice())
}

// The declaration of the reset, if there is one.
fn push_reset(text: &mut Text, of: &Module) -> Result<(), NoMemory>
    ensures { OnOk result (text.new ≡ text.old ++ texts.reset_line of.now.reset) }
{
    match &of.reset {
        None => Ok(()),
        Some(reset) => push_input(text, 1, reset.as_slice()),
    }
}

// The declaration of an input of this width.
fn push_input(text: &mut Text, width: u32, name: &[u8]) -> Result<(), NoMemory>
    ensures { OnOk result (text.new ≡ text.old ++ texts.input_line width name.now) }
{
    text.extend_from_slice(b"  input ")?;
    push_range(text, width)?;
    text.extend_from_slice(name)?;
    text.extend_from_slice(b";\n")
}

// The range of a signal of this width, where it has more than one bit.
fn push_range(text: &mut Text, width: u32) -> Result<(), NoMemory>
    ensures { OnOk result (text.new ≡ text.old ++ texts.range_text width) }
{
    if width == 1 {
        return Ok(());
    }
    text.extend_from_slice(b"[")?;
    push_number(text, u64::from(width.saturating_sub(1)))?;
    text.extend_from_slice(b":0] ")
}

fn push_inputs(text: &mut Text, inputs: &[Port]) -> Result<(), NoMemory>
    ensures { OnOk result (text.new ≡ text.old ++ texts.each texts.port_line inputs.now) }
{
    for input in inputs {
        push_input(text, input.width, input.name.as_slice())?;
    }
    Ok(())
}

fn push_outputs(text: &mut Text, outputs: &[Output]) -> Result<(), NoMemory>
    ensures { OnOk result (text.new ≡ text.old ++ texts.each texts.output_line outputs.now) }
{
    for output in outputs {
        text.extend_from_slice(b"  output ")?;
        text.extend_from_slice(output.name.as_slice())?;
        text.extend_from_slice(b";\n")?;
    }
    Ok(())
}

fn push_registers(text: &mut Text, registers: &[Register]) -> Result<(), NoMemory>
    ensures { OnOk result (text.new ≡ text.old ++ texts.each texts.register_line registers.now) }
{
    for register in registers {
        push_register(text, register)?;
    }
    Ok(())
}

// The declaration of a register with its first value.
fn push_register(text: &mut Text, register: &Register) -> Result<(), NoMemory>
    ensures { OnOk result (text.new ≡ text.old ++ texts.register_line register.now) }
{
    text.extend_from_slice(register_kind(register.is_port))?;
    push_range(text, register.first.width())?;
    text.extend_from_slice(register.name.as_slice())?;
    text.extend_from_slice(b" = ")?;
    push_constant(text, register.first)?;
    text.extend_from_slice(b";\n")
}

fn register_kind(is_port: bool) -> &'static [u8]
    ensures { result.now ≡ texts.kind_text is_port }
{
    if is_port { b"  output reg " } else { b"  reg " }
}

fn push_wires(text: &mut Text, of: &Module, wires: &[Wire]) -> Result<(), NoMemory>
    ensures { OnOk result (text.new ≡ text.old ++ texts.wire_lines of.now 0 wires.now) }
{
    for (number, wire) in wires.iter().enumerate() {
        push_wire(text, of, number as u64, wire)?;
    }
    Ok(())
}

// The declaration of the wire of this number with its expression.
fn push_wire(text: &mut Text, of: &Module, number: u64, wire: &Wire) -> Result<(), NoMemory>
    ensures { OnOk result (text.new ≡ text.old ++ texts.wire_line of.now number wire.now) }
{
    text.extend_from_slice(b"  wire ")?;
    push_range(text, wire.width)?;
    push_wire_name(text, number)?;
    text.extend_from_slice(b" = ")?;
    push_form(text, of, &wire.form)?;
    text.extend_from_slice(b";\n")
}

fn push_assigns(text: &mut Text, of: &Module, outputs: &[Output]) -> Result<(), NoMemory>
    ensures { OnOk result (text.new ≡ text.old ++ texts.each (texts.assign_line of.now) outputs.now) }
{
    for output in outputs {
        push_assign(text, of, output)?;
    }
    Ok(())
}

// The value of an output.
fn push_assign(text: &mut Text, of: &Module, output: &Output) -> Result<(), NoMemory>
    ensures { OnOk result (text.new ≡ text.old ++ texts.assign_line of.now output.now) }
{
    text.extend_from_slice(b"  assign ")?;
    text.extend_from_slice(output.name.as_slice())?;
    text.extend_from_slice(b" = ")?;
    push_operand(text, of, &output.value)?;
    text.extend_from_slice(b";\n")
}

// What is done at a rising edge.
#[tactic(auto, unfolding(crate::specs::Texts::block_text))]
fn push_block(text: &mut Text, of: &Module) -> Result<(), NoMemory>
    ensures { OnOk result (text.new ≡ text.old ++ texts.block_text of.now) }
{
    text.extend_from_slice(b"  always @(posedge ")?;
    text.extend_from_slice(of.clock.as_slice())?;
    text.extend_from_slice(b") begin\n")?;
    push_edge(text, of)?;
    text.extend_from_slice(b"  end\n")?;
    Ok(())
}

// What is done there, with a reset or without one.
fn push_edge(text: &mut Text, of: &Module) -> Result<(), NoMemory>
    ensures { OnOk result (text.new ≡ text.old ++ texts.block of.now of.now.reset) }
{
    match &of.reset {
        None => push_nexts(text, of, b"    ", of.registers.as_slice()),
        Some(reset) => push_either(text, of, reset.as_slice()),
    }
}

// The first values where a reset of this name is 1, else the next ones.
fn push_either(text: &mut Text, of: &Module, reset: &[u8]) -> Result<(), NoMemory>
    ensures { OnOk result (text.new ≡ text.old ++ texts.either of.now reset.now) }
{
    push_first_branch(text, of, reset)?;
    push_next_branch(text, of)
}

fn push_first_branch(text: &mut Text, of: &Module, reset: &[u8]) -> Result<(), NoMemory>
    ensures { OnOk result (text.new ≡ text.old ++ texts.first_branch of.now reset.now) }
{
    text.extend_from_slice(b"    if (")?;
    text.extend_from_slice(reset)?;
    text.extend_from_slice(b") begin\n")?;
    push_firsts(text, of.registers.as_slice())
}

fn push_next_branch(text: &mut Text, of: &Module) -> Result<(), NoMemory>
    ensures { OnOk result (text.new ≡ text.old ++ texts.next_branch of.now) }
{
    text.extend_from_slice(b"    end else begin\n")?;
    push_nexts(text, of, b"      ", of.registers.as_slice())?;
    text.extend_from_slice(b"    end\n")?;
    Ok(())
}

fn push_nexts(
    text: &mut Text,
    of: &Module,
    blanks: &[u8],
    registers: &[Register],
) -> Result<(), NoMemory>
    ensures { OnOk result (text.new ≡ text.old ++ texts.each (texts.next_line of.now blanks.now) registers.now) }
{
    for register in registers {
        push_next(text, of, blanks, register)?;
    }
    Ok(())
}

// A register takes its next value.
fn push_next(
    text: &mut Text,
    of: &Module,
    blanks: &[u8],
    register: &Register,
) -> Result<(), NoMemory>
    ensures { OnOk result (text.new ≡ text.old ++ texts.next_line of.now blanks.now register.now) }
{
    push_target(text, blanks, register)?;
    push_operand(text, of, &register.next)?;
    text.extend_from_slice(b";\n")
}

fn push_firsts(text: &mut Text, registers: &[Register]) -> Result<(), NoMemory>
    ensures { OnOk result (text.new ≡ text.old ++ texts.each texts.first_line registers.now) }
{
    for register in registers {
        push_first(text, register)?;
    }
    Ok(())
}

// A register takes its first value.
fn push_first(text: &mut Text, register: &Register) -> Result<(), NoMemory>
    ensures { OnOk result (text.new ≡ text.old ++ texts.first_line register.now) }
{
    push_target(text, b"      ", register)?;
    push_constant(text, register.first)?;
    text.extend_from_slice(b";\n")
}

// What a register's new value is written after.
fn push_target(text: &mut Text, blanks: &[u8], register: &Register) -> Result<(), NoMemory>
    ensures { OnOk result (text.new ≡ text.old ++ texts.target blanks.now register.now) }
{
    text.extend_from_slice(blanks)?;
    text.extend_from_slice(register.name.as_slice())?;
    text.extend_from_slice(b" <= ")
}
