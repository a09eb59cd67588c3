//! The lock: tickets, the ticket that is served, a count of events, and the slot that holds the board.

ghost use Rattle.std.specs.Prelude.{true, ◌≡◌, [], ◌∷◌, ◌++◌, length, ◌%◌, ◌^◌, IfOk};
ghost use Rattle.board_core.specs.Board.{opened};
ghost use Rattle.board_core.specs.History.{IsLegal};
ghost use Rattle.board_core.specs.Kept.{StandsFor};
ghost use Rattle.board_lock.specs.Histories.{Leaves};
ghost use Rattle.attempt_log.specs.Entries.{settle_entry, submit_entry};
ghost use Rattle.board_lock.specs.Plays.{Adds, CanAdd, CanGive, CanJoin, CanSplit, HoldsBoard, IsOutside, IsOwner, KnowsAll, Served, Waits, at_stage, having_seen, joined, left, newcomer, owning};
ghost use Rattle.board_lock.specs.declared.view.Stage.TheVariants.{Outside};

use crate::home::Home;
use crate::plays::{Add, Back, Begun, Draw, Entered, Give, GiveSeen, Law, Learn, Look, Part};
use crate::view::View;
use atomic_table::{Refused, Seat, Table};
use attempt_log::{Attempt, Settled, Submitted};
use board_core::Core;
use kw_bits::NoMemory;
use std::alloc::Global;
use std::hint;
use std::snapshot::Snapshot;
use std::sync::Wait;
use std::time::Duration;

pub(crate) type Slot = Option<Home>;

pub(crate) type Place = Seat<Slot, View>;

// How often a seat with a ticket looks before it sleeps: these looks take about as long as a sleep and a wake. Between
// them it keeps its processor: where other programs run, one that is yielded often comes back only long after the turn
// has come.
const LOOKS: u32 = 1_000;

// How often a seat that finds the lock taken sleeps before it draws a ticket all the same, and how long each time.
const NAPS: u32 = 50;

const NAP_MICROS: u64 = 100;

/// A board behind a lock of three words: the ticket, the number that is served, and the count.
#[derive(Drop)]
pub struct Lock {
    pub(crate) table: Table<Slot, View, Snapshot<Core>, Law, Global>,
    ghost sized: { (table.shared.table_id.words ≡ 3) × (table.shared.table_id.slots ≡ 1) },
}

impl Lock {
    // Stands back while the lock is taken, for a bounded number of naps, so that who has a processor may go on: a turn is
    // shorter than it takes to hand the board to another processor. No seat that stands back has a ticket, so nobody
    // waits for it. It naps on the count, on which nobody is woken.
    fn stand_back<R: Wait>(&self, rt: &R) {
        let nap = Duration::from_micros(NAP_MICROS);
        for _ in 0..NAPS {
            if self.is_free() {
                return;
            }
            let count = self.table.shared.peek(2);
            self.table
                .shared
                .park_timeout(rt, 2, (count & 0xffff_ffff) as u32, nap);
        }
    }

    // Whether the ticket that is served isn't drawn yet. Another seat may draw it at any time.
    fn is_free(&self) -> bool {
        self.table.shared.peek(0) == self.table.shared.peek(1)
    }

    fn draw(&self, place: &mut Place) -> u64
        requires table { place.old.table_id ≡ self.now.table.shared.table_id }
        requires outside { IsOutside place.old.me }
        requires working { place.old.me.0.part.works ≡ true }
        ensures same { (place.new.table_id ≡ place.old.table_id) × (place.new.id ≡ place.old.id) }
        ensures waits { Waits place.old.me result place.new.me }
    {
        self.table.shared.fetch_add::<Draw>(place, 0, 1)
    }

    // Waits until the ticket is served. The slot with the board is out with the seat then.
    //
    // A seat that sleeps is woken on its turn. Who gives it the turn first adds to the number that is served, and then
    // looks whether the ticket is drawn. If not, the seat's own loads come after its draw, and so after the addition:
    // it doesn't sleep. If so, all are woken who sleep by then, and no one falls asleep any more who has found an older
    // number: the low 32 bits of the two differ, since there are fewer than 2^32 seats.
    fn wait_turn<R: Wait>(&self, rt: &R, place: &mut Place, ticket: u64)
        requires table { place.old.table_id ≡ self.now.table.shared.table_id }
        requires waits { Waits place.old.me ticket place.old.me }
        ensures same { (place.new.table_id ≡ place.old.table_id) × (place.new.id ≡ place.old.id) }
        ensures served { Served place.old.me place.new.me }
    {
        let mut looks = LOOKS;
        for _ in rt.forever() {
            let serving = self.table.shared.load::<Look>(place, 1);
            if serving == ticket {
                return;
            }
            if looks == 0 {
                self.table
                    .shared
                    .park(rt, 1, (serving & 0xffff_ffff) as u32);
            } else {
                looks -= 1;
                hint::spin_loop();
            }
        }
        unreachable!()
    }

    // Wakes those that wait, where the ticket that is now served is drawn.
    fn wake(&self) {
        if !self.is_free() {
            self.table.shared.wake_all(1);
        }
    }

    // Waits until it is this seat's turn, and takes the board.
    pub(crate) fn enter<R: Wait>(&self, rt: &R, place: &mut Place) -> Box<Core>
        requires table { place.old.table_id ≡ self.now.table.shared.table_id }
        requires outside { IsOutside place.old.me }
        requires working { place.old.me.0.part.works ≡ true }
        ensures same { (place.new.table_id ≡ place.old.table_id) × (place.new.id ≡ place.old.id) }
        ensures holds { HoldsBoard place.old.me result.value place.new.me }
    {
        self.stand_back(rt);
        let ticket = self.draw(place);
        self.wait_turn(rt, place, ticket);
        self.table
            .shared
            .exchange(place, 0, None)
            .unwrap()
            .into_core()
    }

    // Adds the submit that E names, and returns its place.
    pub(crate) fn add<E: Entered>(
        &self,
        place: &mut Place,
        _attempt: &Snapshot<Attempt>,
        _answer: &Submitted,
    ) -> u64
        requires table { place.old.table_id ≡ self.now.table.shared.table_id }
        requires entry { E.entry ≡ submit_entry place.old.me.0.part.worker _attempt.now.value _answer.now }
        requires can { CanAdd place.old.me E.entry }
        ensures same { (place.new.table_id ≡ place.old.table_id) × (place.new.id ≡ place.old.id) }
        ensures added { Adds E.entry place.old.me result place.new.me }
    {
        self.table.shared.fetch_add::<Add<E>>(place, 2, 1)
    }

    // Adds the settle that E names, and returns its place.
    pub(crate) fn add_settle<E: Entered>(&self, place: &mut Place, _answer: &Settled) -> u64
        requires table { place.old.table_id ≡ self.now.table.shared.table_id }
        requires entry { E.entry ≡ settle_entry place.old.me.0.part.worker _answer.now }
        requires can { CanAdd place.old.me E.entry }
        ensures same { (place.new.table_id ≡ place.old.table_id) × (place.new.id ≡ place.old.id) }
        ensures added { Adds E.entry place.old.me result place.new.me }
    {
        self.table.shared.fetch_add::<Add<E>>(place, 2, 1)
    }

    // Puts the board back.
    pub(crate) fn leave(&self, place: &mut Place, board: Box<Core>)
        requires table { place.old.table_id ≡ self.now.table.shared.table_id }
        requires can { CanGive place.old.me board.value }
        ensures same { (place.new.table_id ≡ place.old.table_id) × (place.new.id ≡ place.old.id) }
        ensures gave { place.new.me ≡ (at_stage place.old.me.0 Outside, []) }
    {
        let empty = self.table.shared.exchange(place, 0, Some(Home::new(board)));
        drop(empty);
        self.table.shared.fetch_add::<Give>(place, 1, 1);
        self.wake();
    }

    // Puts the board back, and notes its history as seen.
    pub(crate) fn leave_seen(&self, place: &mut Place, board: Box<Core>)
        requires table { place.old.table_id ≡ self.now.table.shared.table_id }
        requires can { CanGive place.old.me board.value }
        ensures same { (place.new.table_id ≡ place.old.table_id) × (place.new.id ≡ place.old.id) }
        ensures gave { place.new.me ≡ (having_seen place.old.me.0, []) }
    {
        drop(self.table.shared.exchange(place, 0, Some(Home::new(board))));
        self.table.shared.fetch_add::<GiveSeen>(place, 1, 1);
        self.wake();
    }

    // A lock with the board at home, and the board's own seat.
    pub(crate) fn new(alloc: Global, board: Core) -> Result<(Lock, Place), NoMemory>
        requires { StandsFor board (opened board.opening) }
        ensures { IfOk result (λ made. (made.1.table_id ≡ made.0.table.shared.table_id) × (made.1.me ≡ (owning board.opening, []))) }
    {
        let mut slots = Vec::with_capacity(alloc, 1)?;
        let begun = Snapshot::of(&board);
        let home = Home::boxed(alloc, board)?;
        slots.push_reserved(Some(home));
        match Table::new(alloc, &[0, 0, 0], slots, &begun) {
            Ok((table, place)) => Ok((Lock { table }, place)),
            Err(Refused { slots: _ }) => Err(NoMemory),
        }
    }

    // A worker's seat, with the next number.
    pub(crate) fn split(&self, place: &mut Place) -> Place
        requires table { place.old.table_id ≡ self.now.table.shared.table_id }
        requires can { CanSplit place.old.me.0.part }
        ensures same { place.new.table_id ≡ place.old.table_id }
        ensures left { place.new.me ≡ (left place.old.me.0, place.old.me.1) }
        ensures part { (result.table_id ≡ place.old.table_id) × (result.me ≡ (newcomer place.old.me.0, [])) }
    {
        self.table.shared.split_seat::<Part>(place)
    }

    // Takes a worker's seat back.
    pub(crate) fn join<E: Begun>(&self, place: &mut Place, other: Place)
        requires table { place.old.table_id ≡ self.now.table.shared.table_id }
        requires others { other.table_id ≡ self.now.table.shared.table_id }
        requires none { other.me.1 ≡ [] }
        requires can { CanJoin place.old.me.0.part other.me.0 }
        requires begun { E.begun ≡ place.old.me.0.opened }
        ensures same { place.new.table_id ≡ place.old.table_id }
        ensures joined { place.new.me ≡ (joined place.old.me.0 other.me.0, place.old.me.1) }
    {
        self.table.shared.join_seat::<Back<E>>(place, other)
    }

    // What the board's own seat knows once no number is out.
    pub(crate) fn learn(&self, place: &mut Place)
        requires table { place.old.table_id ≡ self.now.table.shared.table_id }
        ensures same { place.new.table_id ≡ place.old.table_id }
        ensures kept { place.new.me ≡ place.old.me }
        ensures settled { IsOwner place.old.me.0.part → place.old.me.0.part.out ≡ 0 → KnowsAll place.old.me.0 }
    {
        self.table.shared.load::<Learn>(place, 1);
    }

    // The board of the history that the board's own seat has seen, where no number is out.
    pub(crate) fn into_board(self, place: Place) -> Core
        requires table { place.table_id ≡ self.table.shared.table_id }
        requires outside { IsOutside place.me }
        requires own { IsOwner place.me.0.part }
        requires none { place.me.0.part.out ≡ 0 }
        ensures board { Leaves place.me.0.opened place.me.0.seen result }
        ensures legal { IsLegal place.me.0.opened place.me.0.seen }
    {
        let Lock { table } = self;
        let mut closed = table.close_with(place);
        let board = closed.take(0).unwrap();
        closed.free();
        Box::into_inner(board.into_core())
    }
}
