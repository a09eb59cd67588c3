//! Engines: what boards return, and the entries of a history.

ghost use Rattle.std.specs.Prelude.{◌≡◌};
ghost use Rattle.attempt_log.specs.Entries.{taken_of};

use crate::cause::{Cause, StaleRead};
use crate::traced::Attempt;
use one_rule::Inputs;
use typed_core::{Events, Outcome};

/// What a board answers to an attempt. All but `Stored` hand it back.
#[derive(Drop)]
pub enum Submitted {
    Stored,
    /// Its cycle is closed, or its rule is settled in it.
    Late(Attempt),
    /// Its cycle is past the window, or past the last one.
    Ahead(Attempt),
    /// Another attempt stands for its cycle and rule.
    Twice(Attempt),
}

impl Submitted {
    /// The answer without the attempt that it hands back.
    pub fn taken(&self) -> Taken
        ensures { result ≡ taken_of self.now }
    {
        match self {
            Submitted::Stored => Taken::Stored,
            Submitted::Late(_) => Taken::Late,
            Submitted::Ahead(_) => Taken::Ahead,
            Submitted::Twice(_) => Taken::Twice,
        }
    }
}

/// What a board answers when its head is to be settled.
#[derive(Clone, Copy, Debug, PartialEq, Eq)]
pub enum Settled {
    Committed {
        cycle: u32,
        rule: u32,
    },
    Skipped {
        cycle: u32,
        rule: u32,
        cause: Cause,
    },
    Stale {
        cycle: u32,
        rule: u32,
        read: StaleRead,
    },
    CycleClosed {
        cycle: u32,
    },
    /// No attempt stands for the head.
    Waiting {
        cycle: u32,
        rule: u32,
    },
    Finished,
}

/// What was answered to an attempt, without the attempt.
#[derive(Clone, Copy, Debug, PartialEq, Eq)]
pub enum Taken {
    Stored,
    Late,
    Ahead,
    Twice,
}

/// A call of a board with its answer, as a history has it.
#[derive(Debug, Drop)]
pub enum Entry {
    Submit {
        worker: u32,
        cycle: u32,
        rule: u32,
        inputs: Inputs,
        events: Events,
        outcome: Outcome,
        answer: Taken,
    },
    Settle {
        worker: u32,
        answer: Settled,
    },
}
