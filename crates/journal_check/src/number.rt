//! Journals: numbers and values by their digits.
//!
//! Any byte counts as a digit, and a number keeps its lowest bits. What was read is printed again and compared.

ghost use Rattle.std.specs.Prelude.{◌≡◌};
ghost use Rattle.journal_check.specs.Numbers as texts;

/// The number that decimal digits write, below 2^32.
pub(crate) fn number_read(token: &[u8]) -> u32
    ensures { result ≡ texts.number_read token.now }
{
    let mut number: u32 = 0;
    for byte in token {
        number = with_decimal(number, *byte);
    }
    number
}

fn with_decimal(number: u32, byte: u8) -> u32
    ensures { result ≡ texts.with_decimal number byte }
{
    number.wrapping_mul(10).wrapping_add(u32::from(byte % 16))
}

/// The number that hexadecimal digits write, below 2^128.
pub(crate) fn value_read(digits: &[u8]) -> u128
    ensures { result ≡ texts.value_read digits.now }
{
    let mut number: u128 = 0;
    for byte in digits {
        number = with_hex(number, *byte);
    }
    number
}

fn with_hex(number: u128, byte: u8) -> u128
    ensures { result ≡ texts.with_hex number byte }
{
    number
        .wrapping_mul(16)
        .wrapping_add(u128::from(hex_read(byte)))
}

fn hex_read(byte: u8) -> u8
    ensures { result ≡ texts.hex_read byte }
{
    if byte < 64 { byte % 16 } else { byte % 16 + 9 }
}
