//! The log: the key of each row, the rows, and places in order.

ghost use Rattle.std.specs.Prelude.{◌≡◌, ℕ, ◌<◌, ◌≤◌, ◌^◌, ◌++◌, ◌∷◌, [], false, not, length, Some, IfOk, OnOk, OnErr, option_map, slice_get};
ghost use Rattle.std.specs.List.{list_any, IsDistinct};
ghost use Rattle.indexmap.specs.IndexSet.{insert_key};
ghost use Rattle.entry_log.specs.Entries.{has_entry, same_entry, Inserts};
ghost use Rattle.entry_log.specs.Rows.{entries_at, is_at, place, Agree, Holds, Puts};

use crate::bits;
use indexmap::IndexSet;
use least_set::Key;
use std::alloc::{AllocError, Global};
use std::marker::Model;

/// Where an entry stands: its row, and the block that is its bit there.
#[derive(Clone, Copy)]
struct Place {
    row: u32,
    block: u32,
}

/// The number of a row. There are at most 2^32.
fn row_number(row: usize) -> Result<u32, AllocError>
    ensures number { IfOk result (λ number. number ≡ row) }
    ensures too_many { OnErr result (2 ^ 32 ≤ row) }
{
    match u32::try_from(row) {
        Ok(number) => Ok(number),
        Err(_) => Err(AllocError),
    }
}

/// The place at an index.
fn place_at(order: &[Place], index: usize) -> Option<Place>
    ensures { result ≡ slice_get order.now index }
{
    order.get(index).copied()
}

/// The row of the entry at an index.
fn row_at(order: &[Place], index: usize) -> usize
    requires { index < length order.now }
    ensures { (place : Place) × (slice_get order.now index ≡ Some place) × (result ≡ place.row) }
{
    match place_at(order, index) {
        Some(place) => place.row as usize,
        None => unreachable!(),
    }
}

/// The key of a row.
fn key_of<K: Key>(keys: &IndexSet<K>, row: u32) -> &K
    requires { row < length keys.now.keys }
    ensures { slice_get keys.now.keys row ≡ Some result.now }
{
    &keys.as_slice()[row as usize]
}

/// Puts a place last, and sets its bit.
fn put_last(
    rows: &mut Vec<Vec<u64>>,
    order: &mut Vec<Place>,
    row: usize,
    block: u32,
) -> Result<(), AllocError>
    requires { Agree rows.old.items order.old.items }
    ensures agree { Agree rows.new.items order.new.items }
    ensures last { OnOk result (order.new.items ≡ order.old.items ++ place row block ∷ []) }
    ensures err { OnErr result (order.new.items ≡ order.old.items) }
{
    let number = row_number(row)?;
    bits::widen(rows, row, block)?;
    order.push(Place { row: number, block })?;
    bits::set(rows, row, block);
    Ok(())
}

/// Puts a place last, unless it is there, as its bit says.
fn put(
    rows: &mut Vec<Vec<u64>>,
    order: &mut Vec<Place>,
    row: usize,
    block: u32,
) -> Result<bool, AllocError>
    requires { Agree rows.old.items order.old.items }
    ensures agree { Agree rows.new.items order.new.items }
    ensures puts { IfOk result (Puts order.old.items order.new.items row block) }
    ensures err { OnErr result ((order.new.items ≡ order.old.items) × (list_any (is_at row block) order.old.items ≡ false)) }
{
    if bits::has(rows, row, block) {
        return Ok(false);
    }
    put_last(rows, order, row, block)?;
    Ok(true)
}

/// Inserts an entry, and a row if its key has none.
fn insert_entry<K: Key>(
    keys: &mut IndexSet<K>,
    rows: &mut Vec<Vec<u64>>,
    order: &mut Vec<Place>,
    key: K,
    block: u32,
) -> Result<bool, AllocError>
    requires { Holds K.eq keys.old.keys rows.old.items order.old.items }
    ensures holds { Holds K.eq keys.new.keys rows.new.items order.new.items }
    ensures inserts { IfOk result (Inserts K.eq (entries_at keys.old.keys order.old.items) (entries_at keys.new.keys order.new.items) (key, block)) }
    ensures refused { OnErr result ((entries_at keys.new.keys order.new.items ≡ entries_at keys.old.keys order.old.items) × (has_entry K.eq (entries_at keys.old.keys order.old.items) (key, block) ≡ false)) }
{
    let (row, _) = keys.insert_full(key)?;
    put(rows, order, row, block)
}

/// Inserts the entry of a block and of the key that the entry at an index has.
fn insert_beside<K: Key>(
    keys: &IndexSet<K>,
    rows: &mut Vec<Vec<u64>>,
    order: &mut Vec<Place>,
    index: usize,
    block: u32,
) -> Result<bool, AllocError>
    requires held { Holds K.eq keys.now.keys rows.old.items order.old.items }
    requires inside { index < length order.old.items }
    ensures holds { Holds K.eq keys.now.keys rows.new.items order.new.items }
    ensures inserts { IfOk result (λ added. (key : K) (near : ℕ) → slice_get (entries_at keys.now.keys order.old.items) index ≡ Some (key, near) → Inserts K.eq (entries_at keys.now.keys order.old.items) (entries_at keys.now.keys order.new.items) (key, block) added) }
    ensures refused { OnErr result ((entries_at keys.now.keys order.new.items ≡ entries_at keys.now.keys order.old.items) × ((key : K) (near : ℕ) → slice_get (entries_at keys.now.keys order.old.items) index ≡ Some (key, near) → has_entry K.eq (entries_at keys.now.keys order.old.items) (key, block) ≡ false)) }
{
    let row = row_at(order, index);
    put(rows, order, row, block)
}

/// A set of entries, each a key with the number of a block, which keeps the order in which they came. As of an `IndexSet` a
/// contract sees their list, `keys`.
///
/// Keys are kept once, so a set of many blocks a key is small: a key and its row take some hundred bytes, an entry eight
/// bytes and its bit. There are at most 2^32 keys. One more is refused as if memory had run out.
#[derive(Drop)]
pub struct EntryLog<K: Key> {
    // the key of each row
    keys: IndexSet<K>,
    // the last ones may be missing, and have no bits then
    rows: Vec<Vec<u64>>,
    order: Vec<Place>,
}

impl<K: Key> Model for EntryLog<K> {
    ghost use Rattle.entry_log.specs.Entries.{Entries, entries_code};

    ghost Value = { Entries K };

    ghost coded = { entries_code K.code };

    ghost use Rattle.entry_log.specs.Rows.{entries_at, Holds};

    ghost view = { λ log. record { keys = entries_at log.keys.keys log.order.items } };

    ghost invariant = { λ log. Holds K.eq log.keys.keys log.rows.items log.order.items };
}

impl<K: Key> EntryLog<K> {
    /// No entries. It allocates nothing until the first insert.
    pub fn new(alloc: Global) -> Self
        ensures { result.keys ≡ [] }
    {
        EntryLog {
            keys: IndexSet::new(alloc),
            rows: Vec::new(alloc),
            order: Vec::new(alloc),
        }
    }

    /// The number of entries.
    pub fn len(&self) -> usize
        ensures len { result ≡ length self.now.keys }
        ensures unique { IsDistinct (same_entry K.eq) self.now.keys }
    {
        self.order.len()
    }

    /// The entry at an index.
    pub fn get(&self, index: usize) -> Option<(&K, u32)>
        ensures { option_map (λ e. (e.0.now, e.1)) result ≡ slice_get self.now.keys index }
    {
        match place_at(&self.order, index) {
            Some(place) => Some((key_of(&self.keys, place.row), place.block)),
            None => None,
        }
    }

    /// Whether an entry is there.
    pub fn contains(&self, key: &K, block: u32) -> bool
        ensures { result ≡ has_entry K.eq self.now.keys (key.now, block) }
    {
        match self.keys.get_index_of(key) {
            Some(row) => bits::has(&self.rows, row, block),
            None => false,
        }
    }

    /// Inserts an entry last and returns `true`, or `false` if it is there. Only a new one can be refused, and then the
    /// entries stay.
    pub fn insert(&mut self, key: K, block: u32) -> Result<bool, AllocError>
        ensures added { IfOk result (λ added. added ≡ not (has_entry K.eq self.old.keys (key, block))) }
        ensures keys { OnOk result (self.new.keys ≡ insert_key (same_entry K.eq) self.old.keys (key, block)) }
        ensures err { OnErr result (self.new.keys ≡ self.old.keys) }
        ensures absent { OnErr result (has_entry K.eq self.old.keys (key, block) ≡ false) }
    {
        insert_entry(&mut self.keys, &mut self.rows, &mut self.order, key, block)
    }

    /// Inserts the entry of a block and of the key that the entry at an index has, as `insert` does, without looking for the
    /// key.
    pub fn insert_near(&mut self, index: usize, block: u32) -> Result<bool, AllocError>
        requires { index < length self.old.keys }
        ensures added { IfOk result (λ added. (key : K) (near : ℕ) → slice_get self.old.keys index ≡ Some (key, near) → added ≡ not (has_entry K.eq self.old.keys (key, block))) }
        ensures keys { OnOk result ((key : K) (near : ℕ) → slice_get self.old.keys index ≡ Some (key, near) → self.new.keys ≡ insert_key (same_entry K.eq) self.old.keys (key, block)) }
        ensures err { OnErr result (self.new.keys ≡ self.old.keys) }
        ensures absent { OnErr result ((key : K) (near : ℕ) → slice_get self.old.keys index ≡ Some (key, near) → has_entry K.eq self.old.keys (key, block) ≡ false) }
    {
        insert_beside(&self.keys, &mut self.rows, &mut self.order, index, block)
    }
}
