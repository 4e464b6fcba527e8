//! Numbers of objects that are asked for again and again.

ghost use Rattle.std.specs.Prelude.{◌≡◌, ℕ, nat_eq, Contains, IfOk};
ghost use Rattle.std.specs.List.{list_any};
ghost use Rattle.row_flows.specs.ConcernedObjects.{numbers_in};

use indexmap::IndexSet;
use std::alloc::{AllocError, Global};

/// Numbers of objects. Most blocks have a few, which are looked through; many have an index.
#[derive(Drop)]
pub(crate) enum ConcernedObjects {
    Few(Vec<u32>),
    Many(IndexSet<u32>),
}

// Each of these numbers once.
fn distinct(alloc: Global, numbers: &[u32]) -> Result<IndexSet<u32>, AllocError>
    ensures { IfOk result (λ set. (n : ℕ) → Contains numbers.now n → Contains set.keys n) }
{
    let mut set = IndexSet::new(alloc);
    for number in numbers {
        set.insert(*number)?;
    }
    Ok(set)
}

/// Keeps these numbers.
pub(crate) fn kept(alloc: Global, numbers: Vec<u32>) -> Result<ConcernedObjects, AllocError>
    ensures { IfOk result (λ k. (n : ℕ) → Contains numbers.items n → Contains (numbers_in k) n) }
{
    if numbers.len() <= 8 {
        return Ok(ConcernedObjects::Few(numbers));
    }
    let set = distinct(alloc, numbers.as_slice())?;
    Ok(ConcernedObjects::Many(set))
}

/// Whether a number is among them.
pub(crate) fn is_among(concerned: &ConcernedObjects, number: u32) -> bool
    ensures { result ≡ list_any (nat_eq number) (numbers_in concerned.now) }
{
    match concerned {
        ConcernedObjects::Few(numbers) => numbers.as_slice().iter().any(|other| number == *other),
        ConcernedObjects::Many(set) => set.contains(&number),
    }
}
