//! What a seat knows of the lock, as contracts see it. No value of these types is made.
use attempt_log::Entry;
use board_core::Core;
use std::collections::LinkedList;
use std::marker::Model;

/// Where a seat is.
pub enum Stage {
    Outside,
    /// With its ticket.
    Waiting(u64),
    /// With its ticket, and the history of the board that it has.
    Holding(u64, LinkedList<Entry>),
}

/// A seat that was joined: its number, what it had seen at its start and last, and its own entries.
pub struct Done {
    pub worker: u32,
    pub base: LinkedList<Entry>,
    pub seen: LinkedList<Entry>,
    pub own: LinkedList<Entry>,
}

/// What a seat is among the others: a worker's, the board's own, or spent, which is neither.
pub struct Part {
    pub works: bool,
    pub owns: bool,
    /// A worker's number, what it had seen at its start, and its own entries since then.
    pub worker: u32,
    pub base: LinkedList<Entry>,
    pub own: LinkedList<Entry>,
    /// Of the board's own seat: the numbers below `out` are out. Those below `top` were given out since none was, when
    /// `was` had been seen.
    pub out: u64,
    pub top: u64,
    pub was: LinkedList<Entry>,
    pub dones: LinkedList<Done>,
}

/// What a board began with, as contracts see it: its opening.
pub struct Opened {
    pub(crate) core: Core,
}

impl Model for Opened {
    ghost use Rattle.std.specs.Coded.{codes};
    ghost use Rattle.typed_core.specs.contracts.action.Action as action;
    ghost use Rattle.board_core.specs.Board.{Opening};

    ghost Value = { Opening };

    ghost coded = { Prim.hlevel (codes, action.the_row.coded) };

    ghost view = { λ o. o.core.opening };
}

/// What a seat knows: what the board began with, the history that it has seen, and where it is.
pub struct View {
    pub opened: Opened,
    pub seen: LinkedList<Entry>,
    pub stage: Stage,
    pub part: Part,
}
