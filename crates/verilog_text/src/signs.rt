//! Verilog: the signs of operators.

ghost use Rattle.std.specs.Prelude.{◌≡◌};
ghost use Rattle.verilog_text.specs.Texts as texts;

use crate::module::{Infix, Prefix};

/// The sign of an operator on one operand.
pub(crate) fn sign(operator: Prefix) -> &'static [u8]
    ensures { result.now ≡ texts.sign operator }
{
    match operator {
        Prefix::Not => b"~",
        Prefix::Neg => b"-",
        Prefix::RedAnd => b"&",
        Prefix::RedOr => b"|",
        Prefix::RedXor => b"^",
    }
}

/// What is written before the first of two operands.
pub(crate) fn opening(operator: Infix) -> &'static [u8]
    ensures { result.now ≡ texts.opening operator }
{
    match operator {
        Infix::Nand | Infix::Nor | Infix::Xnor => b"~(",
        Infix::ShiftSigned | Infix::SignedBelow | Infix::SignedAtMost => b"$signed(",
        Infix::Join => b"{",
        _ => b"",
    }
}

/// What is written between two operands.
pub(crate) fn middle(operator: Infix) -> &'static [u8]
    ensures { result.now ≡ texts.middle operator }
{
    match operator {
        Infix::And | Infix::Nand => b" & ",
        Infix::Or | Infix::Nor => b" | ",
        Infix::Xor | Infix::Xnor => b" ^ ",
        Infix::Add => b" + ",
        Infix::Sub => b" - ",
        Infix::Mul => b" * ",
        Infix::ShiftLeft => b" << ",
        Infix::ShiftRight => b" >> ",
        Infix::ShiftSigned => b") >>> ",
        Infix::Equal => b" == ",
        Infix::Unequal => b" != ",
        Infix::Below => b" < ",
        Infix::AtMost => b" <= ",
        Infix::SignedBelow => b") < $signed(",
        Infix::SignedAtMost => b") <= $signed(",
        Infix::Join => b", ",
    }
}

/// What is written after the second of two operands.
pub(crate) fn closing(operator: Infix) -> &'static [u8]
    ensures { result.now ≡ texts.closing operator }
{
    match operator {
        Infix::Nand | Infix::Nor | Infix::Xnor => b")",
        Infix::SignedBelow | Infix::SignedAtMost => b")",
        Infix::Join => b"}",
        _ => b"",
    }
}
