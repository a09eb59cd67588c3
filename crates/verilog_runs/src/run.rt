//! The run of a module: values settle, and registers change at each rising edge.

use crate::expression::expression;
use crate::module::{Assignment, Module, When};
use crate::signals::{Kind, Signal, set, signal_of, value_of};
use crate::value::Value;
use std::alloc::Global;
use std::io;

/// Writes the rows of a module on the cycles of a stimulus, the first values first.
pub(crate) fn run_module(rt: &HostRuntime, module: Module, stimulus: &str) -> io::Result<()> {
    let Module {
        mut signals,
        driven,
        edge,
        condition,
        ..
    } = module;
    let mut number: u64 = 0;
    let first = row_of(rt.alloc(), "-", signals.as_slice())?;
    println!(rt; "@0 {first}")?;
    for line in stimulus.lines() {
        number = number.saturating_add(1);
        take_inputs(signals.as_mut_slice(), line);
        settle(signals.as_mut_slice(), driven.as_slice());
        let fired = fired_in(rt.alloc(), signals.as_slice())?;
        let is_set = is_one(signals.as_slice(), condition.as_str());
        take_edge(rt.alloc(), signals.as_mut_slice(), edge.as_slice(), is_set)?;
        let row = row_of(rt.alloc(), fired.as_str(), signals.as_slice())?;
        println!(rt; "@{number} {row}")?;
    }
    Ok(())
}

// The values of inputs in a cycle, 0 where the line names none. What is assigned continuously has no value yet.
fn take_inputs(signals: &mut [Signal], line: &str) {
    clear(signals);
    for word in line.split(' ') {
        if let Some((name, digits)) = word.split_once('=') {
            let value = match digits.parse() {
                Ok(number) => Some(Value::new(128, number)),
                Err(_) => None,
            };
            set(signals, name, value);
        }
    }
}

fn clear(signals: &mut [Signal]) {
    for signal in signals {
        signal.number = match signal.kind {
            Kind::Input => Some(0),
            Kind::Output | Kind::Wire => None,
            Kind::Register => signal.number,
        };
    }
}

// Continuous assignments in any order (6.1): over and over, as often as there are some, each that has no value yet.
fn settle(signals: &mut [Signal], driven: &[Assignment]) {
    for _ in 0..driven.len() {
        settle_once(signals, driven);
    }
}

fn settle_once(signals: &mut [Signal], driven: &[Assignment]) {
    for assignment in driven {
        let target = assignment.target.as_str();
        if value_of(signals, target).is_none() {
            let value = value_assigned(signals, assignment);
            set(signals, target, value);
        }
    }
}

// The value of an assignment, in the place of its target (5.4).
fn value_assigned(signals: &[Signal], assignment: &Assignment) -> Option<Value> {
    let target = signal_of(signals, assignment.target.as_str())?;
    expression(signals, assignment.text.as_str(), target.width)
}

// The assignments at an edge: blocking ones at once (9.2.1), the others after all values were found (9.2.2).
fn take_edge(
    alloc: Global,
    signals: &mut [Signal],
    edge: &[Assignment],
    is_set: bool,
) -> io::Result<()> {
    let mut values = Vec::new(alloc);
    for assignment in edge {
        let value = value_assigned(signals, assignment);
        if assignment.is_blocking && is_made(assignment.when, is_set) {
            set(signals, assignment.target.as_str(), value);
        }
        values.push(value)?;
    }
    for (assignment, value) in edge.iter().zip(values.as_slice()) {
        if !assignment.is_blocking && is_made(assignment.when, is_set) {
            set(signals, assignment.target.as_str(), *value);
        }
    }
    Ok(())
}

// Whether the signal of a name is 1.
fn is_one(signals: &[Signal], name: &str) -> bool {
    match value_of(signals, name) {
        Some(value) => value.number == 1,
        None => false,
    }
}

// Whether an assignment is made where the condition is so.
fn is_made(when: When, is_set: bool) -> bool {
    match when {
        When::Always => true,
        When::IfSet => is_set,
        When::IfClear => !is_set,
    }
}

// The outputs that are 1, with commas between them.
fn fired_in(alloc: Global, signals: &[Signal]) -> io::Result<String> {
    let mut fired = String::new(alloc);
    for signal in signals {
        if signal.kind == Kind::Output && signal.number == Some(1) {
            if !fired.is_empty() {
                fired.push_str(",")?;
            }
            fired.push_str(known(signal.name.as_str()))?;
        }
    }
    if fired.is_empty() {
        fired.push_str("-")?;
    }
    Ok(fired)
}

// A row without its number: what fired, and the registers.
fn row_of(alloc: Global, fired: &str, signals: &[Signal]) -> io::Result<String> {
    let mut row = String::from_str(alloc, fired)?;
    for signal in signals {
        if signal.kind == Kind::Register {
            row.push_str(" ")?;
            row.push_str(known(signal.name.as_str()))?;
            row.push_str("=")?;
            push_digits(alloc, &mut row, signal)?;
        }
    }
    Ok(row)
}

// A name without the `$` that a reserved word has after it.
fn known(name: &str) -> &str {
    name.strip_suffix("$").unwrap_or(name)
}

// All hexadecimal digits of a signal, each `x` where it has no value.
fn push_digits(alloc: Global, row: &mut String, signal: &Signal) -> io::Result<()> {
    let (filling, digits) = match signal.number {
        Some(number) => ("0", format!(in alloc; "{number:x}")?),
        None => ("x", String::new(alloc)),
    };
    for _ in digits.len()..signal.width.div_ceil(4) as usize {
        row.push_str(filling)?;
    }
    row.push_str(digits.as_str())?;
    Ok(())
}
