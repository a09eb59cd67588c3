//! Circuits: a table by ids, low ones in a list and the others in a map.

ghost use Rattle.std.specs.Prelude.{◌≡◌, IfOk, OnErr, OnOk, None, Some, nat_eq};
ghost use Rattle.std.specs.BTreeMap as map;
ghost use Rattle.std.specs.Map.{update};
ghost use Rattle.std.specs.Ordering.{nat_cmp};
ghost use Rattle.btor2_model.specs.Table.{value_in};

use kw_bits::NoMemory;
use std::alloc::Global;
use std::collections::BTreeMap;

/// What ids stand for. Most texts number their lines from 1 on, so low ids have their places in a list; the others are
/// in a map.
#[derive(Drop)]
pub struct Table<V> {
    low: Vec<Option<V>>,
    high: BTreeMap<u64, V>,
}

impl<V: Copy> Table<V> {
    /// No ids yet, with places for this many low ones.
    pub fn new(alloc: Global, places: usize) -> Result<Table<V>, NoMemory>
        ensures { IfOk result (λ table. value_in table ≡ (λ _. None)) }
    {
        Ok(Table {
            low: vec![in alloc; None; places]?,
            high: BTreeMap::new(alloc),
        })
    }

    /// What an id stands for.
    pub fn get(&self, id: u64) -> Option<V>
        ensures { result ≡ value_in self.now id }
    {
        match self.low.get(id as usize) {
            Some(value) => *value,
            None => self.high.get(&id).copied(),
        }
    }

    /// Takes what an id stands for. On an error the table is unchanged.
    pub fn insert(&mut self, id: u64, value: V) -> Result<(), NoMemory>
        ensures ok { OnOk result (value_in self.new ≡ update nat_eq (value_in self.old) id (Some value)) }
        ensures err { OnErr result (value_in self.new ≡ value_in self.old) }
    {
        let place = id as usize;
        if place < self.low.len() {
            self.low[place] = Some(value);
            Ok(())
        } else {
            put(&mut self.high, id, value)
        }
    }
}

// Takes what an id stands for into a map.
fn put<V: Copy>(values: &mut BTreeMap<u64, V>, id: u64, value: V) -> Result<(), NoMemory>
    ensures ok { OnOk result (map.get nat_cmp values.new ≡ update nat_eq (map.get nat_cmp values.old) id (Some value)) }
    ensures err { OnErr result (map.get nat_cmp values.new ≡ map.get nat_cmp values.old) }
{
    values.insert(id, value)?;
    Ok(())
}
