//! Operators on values, each at the width that its place asks for (5.4).

use crate::value::{Value, left, ones, right};

/// An operator before its operand, in a place of this width.
pub(crate) fn prefix_value(operator: u8, a: Value, context: u32) -> Option<Value> {
    let wide = a.at(a.width.max(context));
    match operator {
        b'~' => Some(Value::new(wide.width, !wide.number).signed(a.is_signed)),
        b'-' => Some(Value::new(wide.width, wide.number.wrapping_neg()).signed(a.is_signed)),
        b'&' => Some(Value::flag(a.number == ones(a.width))),
        b'|' => Some(Value::flag(a.number != 0)),
        b'^' => Some(Value::flag(a.number.count_ones() % 2 == 1)),
        _ => None,
    }
}

/// An operator between its operands, in a place of this width.
pub(crate) fn infix_value(operator: &str, a: Value, b: Value, context: u32) -> Option<Value> {
    match shifted(operator, a.at(a.width.max(context)), b.number) {
        Some(value) => Some(value),
        None => match compared(operator, a, b) {
            Some(holds) => Some(Value::flag(holds)),
            None => computed(operator, a, b, context),
        },
    }
}

/// Both values at the greatest of their widths and this one. They are signed where both were (5.5.1).
pub(crate) fn joined(a: Value, b: Value, context: u32) -> (Value, Value) {
    let width = a.width.max(b.width).max(context);
    let is_signed = a.is_signed && b.is_signed;
    (a.signed(is_signed).at(width), b.signed(is_signed).at(width))
}

// Shifts (5.1.12): the amount is unsigned, and `>>>` fills with the sign of a signed value.
fn shifted(operator: &str, a: Value, amount: u128) -> Option<Value> {
    let amount = amount.min(128) as u32;
    let number = if operator == "<<" {
        left(a.number, amount)
    } else if operator == ">>" {
        right(a.number, amount)
    } else if operator == ">>>" {
        if a.is_signed && a.has_sign() {
            right(a.number, amount) | !right(ones(a.width), amount)
        } else {
            right(a.number, amount)
        }
    } else {
        return None;
    };
    Some(Value::new(a.width, number).signed(a.is_signed))
}

// Comparisons (5.1.7, 5.1.8).
fn compared(operator: &str, a: Value, b: Value) -> Option<bool> {
    let (a, b) = joined(a, b, 0);
    if operator == "==" {
        Some(a.number == b.number)
    } else if operator == "!=" {
        Some(a.number != b.number)
    } else if operator == "<" {
        Some(is_less(a, b))
    } else if operator == "<=" {
        Some(!is_less(b, a))
    } else {
        None
    }
}

fn is_less(a: Value, b: Value) -> bool {
    let is_below = a.is_signed && a.has_sign();
    let other_is_below = b.is_signed && b.has_sign();
    if is_below == other_is_below {
        a.number < b.number
    } else {
        is_below
    }
}

// Arithmetic and bitwise operators (5.1.5, 5.1.10).
fn computed(operator: &str, a: Value, b: Value, context: u32) -> Option<Value> {
    let (a, b) = joined(a, b, context);
    let number = if operator == "&" {
        a.number & b.number
    } else if operator == "|" {
        a.number | b.number
    } else if operator == "^" {
        a.number ^ b.number
    } else if operator == "+" {
        a.number.wrapping_add(b.number)
    } else if operator == "-" {
        a.number.wrapping_sub(b.number)
    } else if operator == "*" {
        a.number.wrapping_mul(b.number)
    } else {
        return None;
    };
    Some(Value::new(a.width, number).signed(a.is_signed))
}
