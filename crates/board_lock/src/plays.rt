//! The rule of the lock's words, and the steps that keep it.

use crate::lock::Slot;
use crate::view::View;
use atomic_table::{Join, Play, Split, TableRule};
use board_core::Core;
use std::marker::{Brand, PhantomData};
use std::snapshot::Snapshot;

/// What a call is entered as.
pub trait Entered {
    ghost use Rattle.attempt_log.specs.declared.entry.Entry.{Entry};

    ghost entry: { Entry };
}

impl Entered for Brand {
    ghost use Rattle.attempt_log.specs.declared.entry.Entry.TheVariants as entry;
    ghost use Rattle.attempt_log.specs.declared.entry.Settled.TheVariants as settled;

    ghost entry = { entry.Settle 0 settled.Finished };
}

/// What holds of the words, the slot and all views between any two steps.
pub struct Law;

impl TableRule<Slot, View, Snapshot<Core>> for Law {
    ghost use Rattle.board_lock.specs.inner.Rule.{Rule};
    ghost use Rattle.board_lock.specs.Plays.{owning};

    ghost holds = { λ key. Rule key.value.opening };

    ghost first = { λ key. owning key.value.opening };
}

/// A seat takes a ticket, and notes it.
pub struct Draw;

impl Play<Slot, View> for Draw {
    ghost use Rattle.board_lock.specs.Plays.{drew};

    ghost then = { drew };
}

/// A load of the number that is served: on its turn a seat has the slot and knows the history.
pub struct Look;

impl Play<Slot, View> for Look {
    ghost use Rattle.board_lock.specs.Plays.{looked};

    ghost then = { looked };
}

/// An entry is counted: it is one more of what a seat has seen and of its own.
pub struct Add<E> {
    of: PhantomData<E>,
}

impl<E: Entered> Play<Slot, View> for Add<E> {
    ghost use Rattle.board_lock.specs.Plays.{added};

    ghost then = { added E.entry };
}

/// A seat ends its turn: it drops its ticket and the slot.
pub struct Give;

impl Play<Slot, View> for Give {
    ghost use Rattle.board_lock.specs.Plays.{gave};

    ghost then = { gave };
}

/// As `Give`, and the history that was held is noted as seen.
pub struct GiveSeen;

impl Play<Slot, View> for GiveSeen {
    ghost use Rattle.board_lock.specs.Plays.{gave_seen};

    ghost then = { gave_seen };
}

/// A load by the board's own seat, which learns what the joined seats made.
pub struct Learn;

impl Play<Slot, View> for Learn {
    ghost use Rattle.board_lock.specs.Plays.{learned};

    ghost then = { learned };
}

/// A worker's seat, which has seen as much as the board's own.
pub struct Part;

impl Split<View> for Part {
    ghost use Rattle.board_lock.specs.Plays.{left, newcomer};

    ghost left = { left };

    ghost right = { newcomer };
}

/// What a board began with, for the view of a seat that is taken back.
pub trait Begun {
    ghost use Rattle.board_core.specs.Board.{Opening};

    ghost begun: { Opening };
}

impl Begun for Brand {
    ghost use Rattle.board_lock.specs.Plays.{nothing};

    ghost begun = { nothing };
}

/// A worker's seat is taken back.
pub struct Back<E> {
    of: PhantomData<E>,
}

impl<E: Begun> Join<View> for Back<E> {
    ghost use Rattle.board_lock.specs.Plays.{joined, spent};

    ghost both = { joined };

    ghost spent = { spent E.begun };
}
