//! Modules, as they are read from their lines.

use crate::expression::{expression, number_of};
use crate::signals::{Kind, Signal};
use std::alloc::Global;
use std::io;

/// When an assignment is made at a rising edge of the clock.
#[derive(Clone, Copy)]
pub(crate) enum When {
    Always,
    IfSet,
    IfClear,
}

/// An assignment.
#[derive(Drop)]
pub(crate) struct Assignment {
    pub(crate) target: String,
    pub(crate) text: String,
    /// Whether it is done before the next one begins (9.2.1).
    pub(crate) is_blocking: bool,
    pub(crate) when: When,
}

/// A module: its signals, the continuous assignments, and what is done at a rising edge, in order of the lines.
#[derive(Drop)]
pub(crate) struct Module {
    pub(crate) signals: Vec<Signal>,
    pub(crate) driven: Vec<Assignment>,
    pub(crate) edge: Vec<Assignment>,
    /// What is looked at by the assignments that aren't always made.
    pub(crate) condition: String,
    when: When,
}

impl Module {
    /// Reads a module, a statement on each line. None where a line is of no form.
    pub(crate) fn read(alloc: Global, text: &str) -> io::Result<Option<Module>> {
        let mut module = Module {
            signals: Vec::new(alloc),
            driven: Vec::new(alloc),
            edge: Vec::new(alloc),
            condition: String::new(alloc),
            when: When::Always,
        };
        for line in text.lines() {
            if !module.read_line(alloc, line.trim())? {
                return Ok(None);
            }
        }
        Ok(Some(module))
    }

    // Whether the line is of a form.
    fn read_line(&mut self, alloc: Global, line: &str) -> io::Result<bool> {
        if is_frame(line) {
            return Ok(true);
        }
        if self.turns_to(alloc, line)? {
            return Ok(true);
        }
        let Some(statement) = line.strip_suffix(";") else {
            return Ok(false);
        };
        if let Some((kind, rest)) = kind_of(statement) {
            return self.declare(alloc, kind, rest);
        }
        match statement.strip_prefix("assign ") {
            Some(rest) => self.drive(alloc, rest),
            None => self.add_step(alloc, statement),
        }
    }

    // Whether the line begins or ends a branch.
    fn turns_to(&mut self, alloc: Global, line: &str) -> io::Result<bool> {
        if let Some(rest) = line.strip_prefix("if (") {
            let (condition, _) = rest.split_once(')').unwrap_or((rest, ""));
            self.condition = String::from_str(alloc, condition)?;
            self.when = When::IfSet;
            return Ok(true);
        }
        if line == "end else begin" {
            self.when = When::IfClear;
            return Ok(true);
        }
        if line == "end" {
            self.when = When::Always;
            return Ok(true);
        }
        Ok(false)
    }

    // A declaration: a range of bits, if there is one, a name, and a value, if there is one. That of a register is its
    // first one, and that of a wire is assigned to it (6.1.1, 6.2.1).
    fn declare(&mut self, alloc: Global, kind: Kind, text: &str) -> io::Result<bool> {
        let Some((width, rest)) = range_of(text) else {
            return Ok(false);
        };
        let (name, value) = rest.split_once(" = ").unwrap_or((rest, ""));
        let number = match kind {
            Kind::Register => expression(&[], value, width).map(|value| value.number),
            _ => None,
        };
        self.signals.push(Signal {
            kind,
            name: String::from_str(alloc, name)?,
            width,
            number,
        })?;
        if kind == Kind::Wire && !value.is_empty() {
            return self.drive(alloc, rest);
        }
        Ok(true)
    }

    // A continuous assignment.
    fn drive(&mut self, alloc: Global, text: &str) -> io::Result<bool> {
        let Some((target, text)) = text.split_once(" = ") else {
            return Ok(false);
        };
        self.driven.push(Assignment {
            target: String::from_str(alloc, target)?,
            text: String::from_str(alloc, text)?,
            is_blocking: false,
            when: When::Always,
        })?;
        Ok(true)
    }

    // An assignment at the edge.
    fn add_step(&mut self, alloc: Global, statement: &str) -> io::Result<bool> {
        let Some((target, rest)) = statement.split_once(' ') else {
            return Ok(false);
        };
        let Some((sign, text)) = rest.split_once(' ') else {
            return Ok(false);
        };
        if sign != "<=" && sign != "=" {
            return Ok(false);
        }
        self.edge.push(Assignment {
            target: String::from_str(alloc, target)?,
            text: String::from_str(alloc, text)?,
            is_blocking: sign == "=",
            when: self.when,
        })?;
        Ok(true)
    }
}

// Whether a line is the first or the last one of a module or of its block, a remark or blank.
fn is_frame(line: &str) -> bool {
    line.is_empty()
        || line.starts_with("//")
        || line.starts_with("module ")
        || line.starts_with("always @(posedge ")
        || line == "endmodule"
}

// How a signal is declared, and what comes after it.
fn kind_of(statement: &str) -> Option<(Kind, &str)> {
    if let Some(rest) = statement.strip_prefix("input ") {
        Some((Kind::Input, rest))
    } else if let Some(rest) = statement.strip_prefix("output reg ") {
        Some((Kind::Register, rest))
    } else if let Some(rest) = statement.strip_prefix("output ") {
        Some((Kind::Output, rest))
    } else if let Some(rest) = statement.strip_prefix("reg ") {
        Some((Kind::Register, rest))
    } else {
        Some((Kind::Wire, statement.strip_prefix("wire ")?))
    }
}

// The width of a declared signal, and what comes after its range.
fn range_of(text: &str) -> Option<(u32, &str)> {
    let Some(range) = text.strip_prefix("[") else {
        return Some((1, text));
    };
    let (upper, rest) = range.split_once(":0] ")?;
    Some((number_of(upper)?.checked_add(1)?, rest))
}
