//! The signals of a module and their values.

use crate::value::Value;

/// How a signal is declared.
#[derive(Clone, Copy, PartialEq, Eq)]
pub(crate) enum Kind {
    Input,
    Output,
    Register,
    Wire,
}

/// A signal and its value, if it has one.
#[derive(Drop)]
pub(crate) struct Signal {
    pub(crate) kind: Kind,
    pub(crate) name: String,
    pub(crate) width: u32,
    pub(crate) number: Option<u128>,
}

/// The signal of a name.
pub(crate) fn signal_of<'a>(signals: &'a [Signal], name: &str) -> Option<&'a Signal> {
    for signal in signals {
        if signal.name.as_str() == name {
            return Some(signal);
        }
    }
    None
}

/// The value of the signal of a name.
pub(crate) fn value_of(signals: &[Signal], name: &str) -> Option<Value> {
    let signal = signal_of(signals, name)?;
    let number = signal.number?;
    Some(Value::new(signal.width, number))
}

/// The signal of a name takes a value, of which it keeps as many bits as it has.
pub(crate) fn set(signals: &mut [Signal], name: &str, value: Option<Value>) {
    for signal in signals {
        if signal.name.as_str() == name {
            take(signal, value);
        }
    }
}

fn take(signal: &mut Signal, value: Option<Value>) {
    signal.number = match value {
        Some(value) => Some(value.at(signal.width).number),
        None => None,
    };
}
