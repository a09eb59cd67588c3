//! Reports: the registers of a row, as text.

// The values of registers.
ghost use Rattle.std.specs.Prelude.{◌≡◌, ◌<◌, ◌≤◌, ◌/◌, ◌%◌, ◌^◌, ◌∷◌};
ghost use Rattle.kw_bits.specs.Laws.{HasWidth};
ghost use Rattle.stim_report.specs.inner.Pages.{Gains, HasRoom};
ghost use Rattle.stim_report.specs.Report.{hex, hex_digit, hex_digits, registers_text, value_text};
ghost use Rattle.stim_report.specs.Shapes.{widths_of};
ghost use Rattle.typed_core.specs.Widths.{HaveWidths};

use crate::NameWidth;
use crate::page::{push, push_all};
use kw_bits::{Bits, Reserved};

const DIGITS: &[u8; 16] = b"0123456789abcdef";

const WORD: u128 = 1 << 64;

// A space, the name, `=` and the value of each register.
pub(crate) fn push_registers(page: &mut Reserved<u8>, registers: &[NameWidth], values: &[Bits])
    requires values { HaveWidths (widths_of registers.now) values.now }
    requires room { HasRoom page.old (registers_text registers.now values.now) }
    ensures { Gains page.old page.new (registers_text registers.now values.now) }
{
    for (number, register) in registers.iter().enumerate() {
        push(page, b' ');
        push_value(page, register, values[number]);
    }
}

// The name, `=` and the value of a register.
fn push_value(page: &mut Reserved<u8>, register: &NameWidth, value: Bits)
    requires width { HasWidth value register.now.width }
    requires room { HasRoom page.old (value_text register.now value) }
    ensures { Gains page.old page.new (value_text register.now value) }
{
    push_all(page, register.name.as_slice());
    push(page, b'=');
    push_hex(page, value);
}

// A digit for each four bits, and for what is left of them. Numbers of 64 bits are faster than those of 128.
pub(crate) fn push_hex(page: &mut Reserved<u8>, value: Bits)
    requires { HasRoom page.old (hex value.width value.number) }
    ensures { Gains page.old page.new (hex value.width value.number) }
{
    let number = value.number();
    let low = (number % WORD) as u64;
    let digits = value.width().div_ceil(4);
    if digits <= 16 {
        push_digits(page, low, digits);
        return;
    }
    push_digits(page, (number / WORD) as u64, digits - 16);
    push_digits(page, low, 16);
}

// The lowest digits of a number, as many as count.
fn push_digits(page: &mut Reserved<u8>, number: u64, count: u32)
    requires few { count ≤ 16 }
    requires room { HasRoom page.old (hex_digits count number) }
    ensures { Gains page.old page.new (hex_digits count number) }
{
    for place in (0..count).rev() {
        push(page, hex_digit(number, place));
    }
}

// The digit at a place, the lowest at place 0.
#[tactic(auto, using(crate::proofs::Hex::shifted_by_places))]
fn hex_digit(number: u64, place: u32) -> u8
    requires { place < 16 }
    ensures { result ≡ hex_digit (number / 16 ^ place % 16) }
{
    DIGITS[((number >> (4 * place)) % 16) as usize]
}
