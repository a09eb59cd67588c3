//! The entries that workers noted, each with its place, and all of them in one order.
ghost use Rattle.std.specs.Prelude.{◌≡◌, ◌-◌, ◌^◌, ◌<◌, ℕ, List, [], ◌∷◌, false, true, length, slice_index_or, IfOk, MatchOption};
ghost use Rattle.attempt_log.specs.declared.entry.Entry.{Entry};
ghost use Rattle.board_lock.specs.inner.Notes.{AreNotes, heads, IsNext};

use attempt_log::Entry;
use kw_bits::{NoMemory, Sequence};
use std::alloc::Global;
use std::collections::VecDeque;
use std::marker::Model;

/// An entry, with its place in the history.
#[derive(Debug, Drop)]
pub struct Note {
    pub place: u64,
    pub entry: Entry,
}

/// What a worker noted, in order.
#[derive(Drop)]
pub(crate) struct Notes {
    list: VecDeque<Note>,
}

impl Model for Notes {
    ghost use Rattle.std.specs.Prelude.{List};
    ghost use Rattle.board_lock.specs.declared.notes.Note.{Note};

    ghost Value = { List Note };

    ghost view = { λ n. n.list.items };
}

impl Notes {
    // The notes of a list.
    pub(crate) fn from_vec(list: Vec<Note>) -> Notes
        ensures { result ≡ list.items }
    {
        Notes {
            list: VecDeque::from(list),
        }
    }

    fn head_at(&self, place: u64) -> bool
        ensures { result ≡ heads place self.now }
    {
        match self.list.front() {
            Some(note) => note.place == place,
            None => false,
        }
    }

    fn pop(&mut self) -> Note
        requires { 0 < length self.old }
        ensures { self.old ≡ result ∷ self.new }
    {
        self.list.pop_front().unwrap()
    }
}

// The first list that begins with a note of this place.
fn find(lists: &[Notes], place: u64) -> Option<usize>
    ensures { MatchOption result ((i : ℕ) → i < length lists.now → heads place (slice_index_or lists.now i []) ≡ false) (λ i. (i < length lists.now) × (heads place (slice_index_or lists.now i []) ≡ true)) }
{
    for number in 0..lists.len() {
        if lists[number].head_at(place) {
            return Some(number);
        }
    }
    None
}

// Takes the entry of this place.
fn next(lists: &mut Vec<Notes>, place: u64) -> Option<Entry>
    ensures { (h : List Entry) → AreNotes place h lists.old.items → IsNext place h result lists.new.items }
{
    match find(lists.as_slice(), place) {
        Some(number) => Some(lists[number].pop().entry),
        None => None,
    }
}

// All entries, in order of their places.
pub(crate) fn merged(alloc: Global, mut lists: Vec<Notes>) -> Result<Sequence<Entry>, NoMemory>
    ensures { (h : List Entry) → length h < 2 ^ 64 - 1 → AreNotes 0 h lists.items → IfOk result (λ entries. entries ≡ h) }
{
    let mut entries = Vec::new(alloc);
    for place in 0..u64::MAX {
        match next(&mut lists, place) {
            Some(entry) => {
                if entries.push(entry).is_err() {
                    return Err(NoMemory);
                }
            }
            None => break,
        }
    }
    Ok(Sequence::from_vec(entries))
}
