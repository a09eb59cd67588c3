//! Values: a list whose memory is allocated when it is made.

ghost use Rattle.std.specs.Prelude.{◌≡◌, ◌+◌, ◌<◌, ◌≤◌, ◌^◌, [], ◌∷◌, ◌++◌, length, slice_index_or, slice_set, vec_capacity, IfOk, IsTrue, ◌↔◌};
ghost use Rattle.std.specs.Iterator.Adapters.{IterYieldsInOrder};
ghost use Rattle.std.specs.Iterator.Runs.{EveryRun, ItemsMapTo};
ghost use Rattle.std.specs.Slice.Iter.{iter_rest, iter_steps};

use crate::memory::NoMemory;
use crate::sequence::Sequence;
use std::alloc::Global;
use std::marker::Model;
use std::ops::Index;
use std::slice;

/// A list that has its memory beforehand: it takes no more while it is filled, and holds as many items as it has room for.
#[derive(Debug, Drop)]
pub struct Reserved<T> {
    items: Vec<T>,
}

impl<T> Model for Reserved<T> {
    ghost use Rattle.std.specs.Prelude.{vec_capacity};
    ghost use Rattle.kw_bits.specs.Reserved.{ReservedList, reserved_code};

    ghost Value = { ReservedList T };

    ghost coded = { reserved_code T.code };

    ghost view = { λ r. record { items = r.items.items; capacity = vec_capacity r.items } };
}

impl<T> Reserved<T> {
    /// The empty list with room for this many items.
    pub fn with_capacity(alloc: Global, capacity: usize) -> Result<Reserved<T>, NoMemory>
        ensures { IfOk result (λ r. r ≡ record { items = []; capacity = capacity }) }
    {
        Ok(Reserved {
            items: Vec::with_capacity(alloc, capacity)?,
        })
    }

    /// How many items there are.
    pub fn len(&self) -> usize
        ensures len { result ≡ length self.now.items }
        ensures within { result ≤ self.now.capacity }
    {
        self.items.len()
    }

    /// How many items there is room for in all.
    pub fn capacity(&self) -> usize
        ensures { result ≡ self.now.capacity }
    {
        self.items.capacity()
    }

    /// Whether there is no item.
    pub fn is_empty(&self) -> bool
        ensures { IsTrue result ↔ (self.now.items ≡ []) }
    {
        self.items.is_empty()
    }

    /// The items as a slice.
    pub fn as_slice(&self) -> &[T]
        ensures { result.now ≡ self.now.items }
    {
        self.items.as_slice()
    }

    /// An iterator over the items, in order.
    pub fn iter(&self) -> slice::Iter<'_, T>
        ensures rest { iter_rest result ≡ self.now.items }
        ensures bound { length (iter_rest result) < 2 ^ 64 }
        ensures runs { IterYieldsInOrder T }
    {
        self.items.as_slice().iter()
    }

    /// Adds an item at the end, where there is room.
    pub fn push(&mut self, item: T)
    where
        T: Drop,
        requires { length self.old.items < self.old.capacity }
        ensures { self.new ≡ record self.old { items = self.old.items ++ item ∷ [] } }
    {
        self.items.push_reserved(item);
    }

    /// Puts an item in the place of another.
    pub fn set(&mut self, index: usize, item: T)
    where
        T: Drop,
        requires { index < length self.old.items }
        ensures { self.new ≡ record self.old { items = slice_set self.old.items index item } }
    {
        self.items[index] = item;
    }

    /// The list of the items.
    pub fn into_sequence(self) -> Sequence<T>
        ensures { result ≡ self.items }
    {
        Sequence::from_vec(self.items)
    }

    /// Takes all items away. The room stays.
    pub fn clear(&mut self)
    where
        T: Drop,
        ensures { self.new ≡ record self.old { items = [] } }
    {
        self.items.clear();
    }
}

impl<T: Copy> Reserved<T> {
    /// Adds the items of a slice at the end, in order, where there is room for all.
    pub fn extend_from_slice(&mut self, items: &[T])
        requires { length self.old.items + length items.now ≤ self.old.capacity }
        ensures { self.new ≡ record self.old { items = self.old.items ++ items.now } }
    {
        for item in items {
            self.push(*item);
        }
    }
}

impl<T> Index<usize> for Reserved<T> {
    type Output = T;

    ghost can_index = { λ r i. i < length r.items };

    ghost index_gives = { λ r i x. x ≡ slice_index_or r.items i x };

    fn index(&self, index: usize) -> &T
        requires { index < length self.now.items }
        ensures { result.now ≡ slice_index_or self.now.items index result.now }
    {
        &self.items[index]
    }
}

impl<'a, T> IntoIterator for &'a Reserved<T> {
    type Item = &'a T;

    type IntoIter = slice::Iter<'a, T>;

    ghost into_iter_gives = { λ r it. (iter_rest it ≡ r.now.items) × (length (iter_rest it) < 2 ^ 64)
        × EveryRun (iter_steps {A = T}) (λ p. ItemsMapTo p (λ x. x.now) (iter_rest p.from)) };

    fn into_iter(self) -> slice::Iter<'a, T> {
        self.items.as_slice().iter()
    }
}
