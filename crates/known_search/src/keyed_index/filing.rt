//! Changes, filed by their keys.

ghost use Rattle.std.specs.Prelude.{◌≡◌, IfOk, Contains};
ghost use Rattle.known_search.specs.KeyedIndex.Filed.{AreFiled};
ghost use Rattle.least_set.specs.Indexes.{at};
ghost use Rattle.least_set.specs.Logs.{IsExactly};

use crate::keyed_index::lists::push_at;
use indexmap::IndexMap;
use least_set::Key;
use std::alloc::{AllocError, Global};

/// How changes are filed, and what each gives a thing that it concerns.
pub trait Filing {
    type Change;

    type Thing;

    type Gift: Drop;

    type Key: Key;

    // the key under which a change stands
    ghost key_of: { Self → Self.Change → Self.Key };

    // what a change gives a thing
    ghost gives: { Self → Self.Change → Self.Thing → Self.Gift → Type 0 };

    /// The key under which a change stands.
    fn key(&self, change: &Self::Change) -> Self::Key
        ensures { result ≡ key_of self.now change.now };

    /// The keys under which all changes stand that give a thing anything. There may be others among them.
    fn keys(&self, alloc: Global, thing: &Self::Thing) -> Result<Vec<Self::Key>, AllocError>
        ensures { IfOk result (λ keys. (c : Self.Change) (t : Self.Gift) → gives self.now c thing.now t → Contains keys.items (key_of self.now c)) };

    /// What a change gives a thing.
    fn gifts(
        &self,
        alloc: Global,
        change: &Self::Change,
        thing: &Self::Thing,
    ) -> Result<Vec<Self::Gift>, AllocError>
        ensures { IfOk result (λ list. IsExactly list.items (gives self.now change.now thing.now)) };
}

/// Changes with the positions of those that stand under each key.
#[derive(Drop)]
pub struct Filed<'f, F: Filing> {
    pub filing: &'f F,
    pub changes: &'f [F::Change],
    pub lists: IndexMap<F::Key, Vec<usize>>,
    ghost right: { AreFiled F.Key.PartialEq.eq (F.key_of filing.now) changes.now (at F.Key.PartialEq.eq lists) },
}

/// Files changes by their keys, in time linear in their number.
pub fn file<'f, F: Filing>(
    alloc: Global,
    filing: &'f F,
    changes: &'f [F::Change],
) -> Result<Filed<'f, F>, AllocError>
    ensures same { IfOk result (λ filed. filed.filing ≡ filing.entry) }
    ensures changes { IfOk result (λ filed. filed.changes ≡ changes.entry) }
{
    let mut lists = IndexMap::new(alloc);
    for position in 0..changes.len() {
        let key = filing.key(&changes[position]);
        push_at(alloc, &mut lists, key, position)?;
    }
    Ok(Filed {
        filing,
        changes,
        lists,
    })
}
