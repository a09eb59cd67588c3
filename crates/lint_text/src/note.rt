//! Lint's text: notes.

use kw_bits::Sequence;
use typed_core::Access;

/// What a rule's body may do with a declaration.
#[derive(Clone, Copy, Debug, PartialEq, Eq)]
pub enum Use {
    /// Read a register.
    Read,
    /// Write a register.
    Write,
    /// Take the value of an input.
    Input,
    /// Call a table.
    Table,
    /// Call a host function.
    Host,
}

/// What is noted of a design before its first run. Rules, registers and other declarations go by their numbers.
#[derive(Debug, Drop)]
pub enum Note {
    /// The weight and the depth of a rule's body.
    Size {
        rule: usize,
        weight: u32,
        depth: u32,
    },
    /// No node of the scheduler tries the rule.
    Unscheduled(usize),
    /// The rule fires in no cycle of any run.
    Never(usize),
    /// The writes of a register that a rule's own accesses may refuse.
    Own {
        rule: usize,
        register: usize,
        writes: Sequence<Access>,
    },
    /// The accesses of a register by a rule that may clash with those of an earlier rule, and the other way round.
    May {
        rule: usize,
        earlier: usize,
        register: usize,
        accesses: Sequence<Access>,
        others: Sequence<Access>,
    },
    /// The rule of an assertion may be refused.
    MayBeRefused(u32),
    /// A cycle may pass by the rule of an assertion.
    MayBeUntried(u32),
    /// No scheduled rule uses a declaration so.
    Unused {
        of: Use,
        number: usize,
    },
}
