//! Lists by key: who waits for a context, and which members are its ends.

ghost use Rattle.std.specs.Prelude.{◌≡◌, IfOk};
ghost use Rattle.least_set.specs.Indexes.{at, Extends};

use crate::keys::Key;
use indexmap::IndexMap;
use std::alloc::{AllocError, Global};

/// Puts a value last in the list of a key.
pub(crate) fn push_at<K: Key, T: Drop>(
    alloc: Global,
    lists: &mut IndexMap<K, Vec<T>>,
    key: K,
    value: T,
) -> Result<(), AllocError>
    ensures { IfOk result (λ _. Extends (λ k x. (key ≡ k) × (value ≡ x)) (at K.eq lists.old) (at K.eq lists.new)) }
{
    if let Some(list) = lists.get_mut(&key) {
        list.push(value)?;
        return Ok(());
    }
    let mut list = Vec::new(alloc);
    list.push(value)?;
    lists.insert(key, list)?;
    Ok(())
}

/// The list of a key.
pub(crate) fn list_at<'a, K: Key, T>(lists: &'a IndexMap<K, Vec<T>>, key: &K) -> &'a [T]
    ensures { result.now ≡ at K.eq lists.now key.now }
{
    match lists.get(key) {
        Some(list) => list.as_slice(),
        None => &[],
    }
}
