//! Waves: the lines that give variables new values.

ghost use Rattle.std.specs.Prelude.{◌≡◌, ◌++◌, ◌∷◌, [], ◌<◌, ◌≤◌, ◌+◌, ◌/◌, ◌%◌, ◌^◌, length, OnOk};
ghost use Rattle.wave_text.specs.Waves as texts;

use crate::declarations::push_code;
use crate::level::Level;
use crate::variable::Variable;
use kw_bits::{NoMemory, Text};

/// A line for each variable whose value differs from the one before.
pub(crate) fn push_changes(
    text: &mut Text,
    variables: &[Variable],
    before: &[Level],
    now: &[Level],
) -> Result<(), NoMemory>
    requires before { length before.now ≡ length variables.now }
    requires now { length now.now ≡ length variables.now }
    ensures { OnOk result (text.new ≡ text.old ++ texts.changes variables.now before.now now.now) }
{
    for (index, variable) in variables.iter().enumerate() {
        push_if_changed(text, *variable, before[index], now[index])?;
    }
    Ok(())
}

// The line that gives a variable a value that differs from the one before.
fn push_if_changed(
    text: &mut Text,
    variable: Variable,
    before: Level,
    now: Level,
) -> Result<(), NoMemory>
    ensures { OnOk result (text.new ≡ text.old ++ texts.change_if variable before now) }
{
    if now.is_same(before) {
        return Ok(());
    }
    push_change(text, variable, now)
}

// The line that gives a variable a value.
fn push_change(text: &mut Text, variable: Variable, level: Level) -> Result<(), NoMemory>
    ensures { OnOk result (text.new ≡ text.old ++ texts.change variable level) }
{
    if variable.width == 1 {
        text.push(bit_text(level))?;
    } else {
        push_vector(text, level)?;
    }
    push_code(text, variable)?;
    text.push(b'\n')
}

fn bit_text(level: Level) -> u8
    ensures { result ≡ texts.bit_text level }
{
    match level {
        Level::Unknown => b'x',
        Level::Known(number) => b'0' + (number % 2) as u8,
    }
}

// The value of a vector: a `b`, its digits and a space.
fn push_vector(text: &mut Text, level: Level) -> Result<(), NoMemory>
    ensures { OnOk result (text.new ≡ text.old ++ 98 ∷ texts.vector_text level ++ 32 ∷ []) }
{
    text.push(b'b')?;
    match level {
        Level::Unknown => text.push(b'x')?,
        Level::Known(number) => push_binary(text, number)?,
    }
    text.push(b' ')
}

// The binary digits of a number, without leading zeros.
fn push_binary(text: &mut Text, number: u128) -> Result<(), NoMemory>
    ensures { OnOk result (text.new ≡ text.old ++ texts.binary number) }
{
    for place in (0..digit_count(number)).rev() {
        text.push(binary_digit(number, place))?;
    }
    Ok(())
}

// How many binary digits a number has without leading zeros. 0 has one.
fn digit_count(number: u128) -> u32
    ensures most { result ≤ 128 }
    ensures digits { texts.binary number ≡ texts.binary_digits result number }
{
    (128 - number.leading_zeros()).max(1)
}

fn binary_digit(number: u128, place: u32) -> u8
    requires { place < 128 }
    ensures { result ≡ 48 + number / 2 ^ place % 2 }
{
    b'0' + ((number >> place) % 2) as u8
}
