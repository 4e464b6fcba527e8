//! A set of entries in no order.

ghost use Rattle.std.specs.Prelude.{◌≡◌, ℕ, ◌≤◌, ◌&&◌, ◌||◌, false, not, nat_eq, length, IfOk, OnOk, OnErr};
ghost use Rattle.entry_log.specs.Bits.{has_bit, is_set_in, NoneBehind};
ghost use Rattle.entry_log.specs.Entries.{same_entry};

use crate::bits;
use indexmap::IndexSet;
use least_set::Key;
use std::alloc::{AllocError, Global};

/// Sets a bit of a row, unless it is set.
fn mark(rows: &mut Vec<Vec<u64>>, row: usize, block: u32) -> Result<bool, AllocError>
    ensures added { IfOk result (λ added. added ≡ not (is_set_in rows.old.items row block)) }
    ensures bits { OnOk result ((r b : ℕ) → is_set_in rows.new.items r b ≡ (nat_eq r row && nat_eq b block) || is_set_in rows.old.items r b) }
    ensures err { OnErr result ((r b : ℕ) → is_set_in rows.new.items r b ≡ is_set_in rows.old.items r b) }
    ensures absent { OnErr result (is_set_in rows.old.items row block ≡ false) }
{
    if bits::has(rows, row, block) {
        return Ok(false);
    }
    bits::widen(rows, row, block)?;
    bits::set(rows, row, block);
    Ok(true)
}

/// Sets the bit of a block in the row of a key, which gets one if it has none.
fn mark_for<K: Key>(
    keys: &mut IndexSet<K>,
    rows: &mut Vec<Vec<u64>>,
    key: K,
    block: u32,
) -> Result<bool, AllocError>
    requires { NoneBehind (length keys.old.keys) rows.old.items }
    ensures behind { NoneBehind (length keys.new.keys) rows.new.items }
    ensures added { IfOk result (λ added. added ≡ not (has_bit K.eq keys.old.keys rows.old.items key block)) }
    ensures all { OnOk result ((k : K) (b : ℕ) → has_bit K.eq keys.new.keys rows.new.items k b ≡ same_entry K.eq (key, block) (k, b) || has_bit K.eq keys.old.keys rows.old.items k b) }
    ensures err { OnErr result ((k : K) (b : ℕ) → has_bit K.eq keys.new.keys rows.new.items k b ≡ has_bit K.eq keys.old.keys rows.old.items k b) }
    ensures absent { OnErr result (has_bit K.eq keys.old.keys rows.old.items key block ≡ false) }
{
    let (row, _) = keys.insert_full(key)?;
    mark(rows, row, block)
}

/// A set of entries, each a key with the number of a block, in no order. An entry costs its bit alone: a key and its row take
/// some hundred bytes.
#[derive(Drop)]
pub struct EntrySet<K: Key> {
    // the key of each row
    keys: IndexSet<K>,
    // the last ones may be missing, and have no bits then
    rows: Vec<Vec<u64>>,
    ghost behind: { NoneBehind (length keys.keys) rows.items },
}

impl<K: Key> EntrySet<K> {
    ghost use Rattle.std.specs.Prelude.{◌≡◌, ℕ, ◌||◌, false, not, IfOk, OnOk, OnErr};
    ghost use Rattle.entry_log.specs.Entries.{same_entry};
    ghost use Rattle.entry_log.specs.Sets.{is_in};

    /// No entries. It allocates nothing until the first insert.
    pub fn new(alloc: Global) -> Self
        ensures { (k : K) (b : ℕ) → is_in K.eq result k b ≡ false }
    {
        EntrySet {
            keys: IndexSet::new(alloc),
            rows: Vec::new(alloc),
        }
    }

    /// Whether an entry is there.
    pub fn contains(&self, key: &K, block: u32) -> bool
        ensures { result ≡ is_in K.eq self.now key.now block }
    {
        let _count = self.keys.len();
        match self.keys.get_index_of(key) {
            Some(row) => bits::has(&self.rows, row, block),
            None => false,
        }
    }

    /// Inserts an entry and returns `true`, or `false` if it is there. Only a new one can be refused, and then the entries
    /// stay.
    pub fn insert(&mut self, key: K, block: u32) -> Result<bool, AllocError>
        ensures added { IfOk result (λ added. added ≡ not (is_in K.eq self.old key block)) }
        ensures all { OnOk result ((k : K) (b : ℕ) → is_in K.eq self.new k b ≡ same_entry K.eq (key, block) (k, b) || is_in K.eq self.old k b) }
        ensures err { OnErr result ((k : K) (b : ℕ) → is_in K.eq self.new k b ≡ is_in K.eq self.old k b) }
        ensures absent { OnErr result (is_in K.eq self.old key block ≡ false) }
    {
        mark_for(&mut self.keys, &mut self.rows, key, block)
    }
}
