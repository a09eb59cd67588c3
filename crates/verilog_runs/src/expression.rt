//! The value of an expression, by the values of signals. None where a signal in it has no value, or where it isn't an
//! expression.

use crate::operators::{infix_value, joined, prefix_value};
use crate::signals::{Signal, value_of};
use crate::value::Value;

/// The value of an expression in a place of this width, as of the signal that it is assigned to.
pub(crate) fn expression(signals: &[Signal], text: &str, context: u32) -> Option<Value> {
    if text.starts_with("{") {
        return concatenation(signals, text);
    }
    if let Some((condition, both)) = text.split_once(" ? ") {
        return choice(signals, condition, both, context);
    }
    let first = text.as_bytes().first().copied().unwrap_or(0);
    if b"~-&|^".contains(&first) {
        let (_, rest) = text.split_at_checked(1)?;
        return prefix_value(first, group(signals, rest, context)?, context);
    }
    match text.split_once(' ') {
        Some((a, rest)) => {
            let (operator, b) = rest.split_once(' ')?;
            infix_value(
                operator,
                group(signals, a, 0)?,
                group(signals, b, 0)?,
                context,
            )
        }
        None => group(signals, text, context),
    }
}

// The conditional operator (5.1.13).
fn choice(signals: &[Signal], condition: &str, both: &str, context: u32) -> Option<Value> {
    let (a, b) = both.split_once(" : ")?;
    let (a, b) = joined(group(signals, a, 0)?, group(signals, b, 0)?, context);
    let condition = group(signals, condition, 0)?;
    Some(if condition.number != 0 { a } else { b })
}

// An operand, or two of them and an operator in parentheses.
fn group(signals: &[Signal], text: &str, context: u32) -> Option<Value> {
    let Some(inner) = text.strip_prefix("(") else {
        return term(signals, text);
    };
    let inner = inner.strip_suffix(")")?;
    match inner.split_once(' ') {
        Some((a, rest)) => {
            let (operator, b) = rest.split_once(' ')?;
            infix_value(operator, term(signals, a)?, term(signals, b)?, context)
        }
        None => term(signals, inner),
    }
}

// An operand that may be made signed (5.5).
fn term(signals: &[Signal], text: &str) -> Option<Value> {
    match text.strip_prefix("$signed(") {
        Some(inner) => Some(operand(signals, inner.strip_suffix(")")?)?.signed(true)),
        None => operand(signals, text),
    }
}

// A constant (2.5.1), a signal, or some of its bits (5.2.1).
fn operand(signals: &[Signal], text: &str) -> Option<Value> {
    if let Some((width, digits)) = text.split_once("'d") {
        return Some(Value::new(number_of(width)?, digits.parse().ok()?));
    }
    let Some((name, bounds)) = text.split_once('[') else {
        return value_of(signals, text);
    };
    let bounds = bounds.strip_suffix("]")?;
    let (upper, lower) = bounds.split_once(':').unwrap_or((bounds, bounds));
    value_of(signals, name)?.selected(number_of(upper)?, number_of(lower)?)
}

// Parts in braces, the highest first (5.1.14). A part with braces is an operand that is repeated.
fn concatenation(signals: &[Signal], text: &str) -> Option<Value> {
    let inner = text.strip_prefix("{")?.strip_suffix("}")?;
    let mut whole = Value::new(0, 0);
    for part in inner.split(", ") {
        whole = match part.strip_prefix("{") {
            Some(repeated) => whole.above(repetition(signals, repeated)?)?,
            None => whole.above(operand(signals, part)?)?,
        };
    }
    Some(whole)
}

// How often, and what in braces.
fn repetition(signals: &[Signal], text: &str) -> Option<Value> {
    let (count, inner) = text.split_once('{')?;
    let part = operand(signals, inner.strip_suffix("}}")?)?;
    let mut whole = Value::new(0, 0);
    for _ in 0..number_of(count)? {
        whole = whole.above(part)?;
    }
    Some(whole)
}

/// A number in decimal digits.
pub(crate) fn number_of(text: &str) -> Option<u32> {
    text.parse().ok()
}
