//! Verilog: the text of operands and expressions.

ghost use Rattle.std.specs.Prelude.{◌≡◌, ◌++◌, OnOk, decimal, slice_get};
ghost use Rattle.verilog_text.specs.Texts as texts;

use crate::module::{Form, Infix, Module, Operand};
use crate::signs::{closing, middle, opening, sign};
use itoa::Buffer;
use kw_bits::{Bits, NoMemory, Text};

/// The digits of a number.
pub(crate) fn push_number(text: &mut Text, number: u64) -> Result<(), NoMemory>
    ensures { OnOk result (text.new ≡ text.old ++ decimal number) }
{
    text.extend_from_slice(Buffer::new().format(number).as_bytes())
}

/// A constant.
pub(crate) fn push_constant(text: &mut Text, value: Bits) -> Result<(), NoMemory>
    ensures { OnOk result (text.new ≡ text.old ++ texts.constant_text value) }
{
    push_number(text, u64::from(value.width()))?;
    text.extend_from_slice(b"'d")?;
    text.extend_from_slice(Buffer::new().format(value.number()).as_bytes())
}

/// The name of a wire by its number.
pub(crate) fn push_wire_name(text: &mut Text, number: u64) -> Result<(), NoMemory>
    ensures { OnOk result (text.new ≡ text.old ++ texts.wire_name number) }
{
    text.extend_from_slice(b"w$")?;
    push_number(text, number)
}

/// An operand.
#[tactic(auto, unfolding(crate::specs::Texts::operand_text))]
pub(crate) fn push_operand(text: &mut Text, of: &Module, operand: &Operand) -> Result<(), NoMemory>
    ensures { OnOk result (text.new ≡ text.old ++ texts.operand_text of.now operand.now) }
{
    match *operand {
        Operand::Constant(value) => push_constant(text, value),
        Operand::Input(number) => text.extend_from_slice(input_name(of, number)),
        Operand::Register(number) => text.extend_from_slice(register_name(of, number)),
        Operand::Wire(number) => push_wire_name(text, number),
    }
}

fn input_name(of: &Module, number: u32) -> &[u8]
    ensures { result.now ≡ texts.input_name (slice_get of.now.inputs number) }
{
    match of.inputs.as_slice().get(number as usize) {
        Some(port) => port.name.as_slice(),
        None => b"",
    }
}

fn register_name(of: &Module, number: u32) -> &[u8]
    ensures { result.now ≡ texts.register_name (slice_get of.now.registers number) }
{
    match of.registers.as_slice().get(number as usize) {
        Some(register) => register.name.as_slice(),
        None => b"",
    }
}

/// The expression of a wire.
#[tactic(auto, unfolding(crate::specs::Texts::form_text))]
pub(crate) fn push_form(text: &mut Text, of: &Module, form: &Form) -> Result<(), NoMemory>
    ensures { OnOk result (text.new ≡ text.old ++ texts.form_text of.now form.now) }
{
    match form {
        Form::One(operator, a) => {
            text.extend_from_slice(sign(*operator))?;
            push_operand(text, of, a)
        }
        Form::Two(operator, a, b) => push_two(text, of, *operator, a, b),
        Form::Choice(condition, a, b) => push_choice(text, of, condition, a, b),
        Form::Slice(a, upper, lower) => {
            push_operand(text, of, a)?;
            push_bits(text, *upper, *lower)
        }
        Form::Extension(a, top, count) => push_extension(text, of, a, *top, *count),
    }
}

#[tactic(auto, unfolding(crate::specs::Texts::two_text))]
fn push_two(
    text: &mut Text,
    of: &Module,
    operator: Infix,
    a: &Operand,
    b: &Operand,
) -> Result<(), NoMemory>
    ensures { OnOk result (text.new ≡ text.old ++ texts.two_text of.now operator a.now b.now) }
{
    text.extend_from_slice(opening(operator))?;
    push_operand(text, of, a)?;
    text.extend_from_slice(middle(operator))?;
    push_operand(text, of, b)?;
    text.extend_from_slice(closing(operator))
}

#[tactic(auto, unfolding(crate::specs::Texts::choice_text))]
fn push_choice(
    text: &mut Text,
    of: &Module,
    condition: &Operand,
    a: &Operand,
    b: &Operand,
) -> Result<(), NoMemory>
    ensures { OnOk result (text.new ≡ text.old ++ texts.choice_text of.now condition.now a.now b.now) }
{
    push_operand(text, of, condition)?;
    text.extend_from_slice(b" ? ")?;
    push_operand(text, of, a)?;
    text.extend_from_slice(b" : ")?;
    push_operand(text, of, b)
}

fn push_bits(text: &mut Text, upper: u32, lower: u32) -> Result<(), NoMemory>
    ensures { OnOk result (text.new ≡ text.old ++ texts.bits_text upper lower) }
{
    if upper == lower {
        return push_bit(text, upper);
    }
    text.extend_from_slice(b"[")?;
    push_number(text, u64::from(upper))?;
    text.extend_from_slice(b":")?;
    push_number(text, u64::from(lower))?;
    text.extend_from_slice(b"]")
}

fn push_bit(text: &mut Text, index: u32) -> Result<(), NoMemory>
    ensures { OnOk result (text.new ≡ text.old ++ texts.bit_text index) }
{
    text.extend_from_slice(b"[")?;
    push_number(text, u64::from(index))?;
    text.extend_from_slice(b"]")
}

#[tactic(auto, unfolding(crate::specs::Texts::extension_text))]
fn push_extension(
    text: &mut Text,
    of: &Module,
    a: &Operand,
    top: u32,
    count: u32,
) -> Result<(), NoMemory>
    ensures { OnOk result (text.new ≡ text.old ++ texts.extension_text of.now a.now top count) }
{
    push_repeated(text, of, a, top, count)?;
    push_operand(text, of, a)?;
    text.extend_from_slice(b"}")
}

// The highest bit, repeated.
#[tactic(auto, unfolding(crate::specs::Texts::repeated_text))]
fn push_repeated(
    text: &mut Text,
    of: &Module,
    a: &Operand,
    top: u32,
    count: u32,
) -> Result<(), NoMemory>
    ensures { OnOk result (text.new ≡ text.old ++ texts.repeated_text of.now a.now top count) }
{
    text.extend_from_slice(b"{{")?;
    push_number(text, u64::from(count))?;
    text.extend_from_slice(b"{")?;
    push_operand(text, of, a)?;
    push_top(text, top)?;
    text.extend_from_slice(b"}}, ")
}

fn push_top(text: &mut Text, top: u32) -> Result<(), NoMemory>
    ensures { OnOk result (text.new ≡ text.old ++ texts.top_text top) }
{
    if top == 0 {
        return Ok(());
    }
    push_bit(text, top)
}
