//! What filed changes give.

ghost use Rattle.std.specs.Prelude.{◌≡◌, ◌<◌, ℕ, IfOk, Contains, length};
ghost use Rattle.known_search.specs.KeyedIndex.Filed.{GivesAt};
ghost use Rattle.least_set.specs.Indexes.{at};
ghost use Rattle.least_set.specs.Logs.{Adds, IsExactly, SomeGives};

use crate::keyed_index::filing::{Filed, Filing};
use crate::keyed_index::lists::list_at;
use std::alloc::{AllocError, Global};

// Puts last what a change gives.
fn add_of<F: Filing>(
    alloc: Global,
    found: &mut Vec<F::Gift>,
    filing: &F,
    change: &F::Change,
    thing: &F::Thing,
) -> Result<(), AllocError>
    ensures { IfOk result (λ _. Adds (F.gives filing.now change.now thing.now) found.old.items found.new.items) }
{
    let mut more = filing.gifts(alloc, change, thing)?;
    found.append(&mut more)?;
    Ok(())
}

// Puts last what the changes at these positions give.
fn add_at<F: Filing>(
    alloc: Global,
    found: &mut Vec<F::Gift>,
    filing: &F,
    changes: &[F::Change],
    positions: &[usize],
    thing: &F::Thing,
) -> Result<(), AllocError>
    requires { (j : ℕ) → Contains positions.now j → j < length changes.now }
    ensures { IfOk result (λ _. Adds (SomeGives (GivesAt (F.gives filing.now) changes.now thing.now) positions.now) found.old.items found.new.items) }
{
    for position in positions {
        add_of(alloc, found, filing, &changes[*position], thing)?;
    }
    Ok(())
}

// Puts last what the changes under these keys give.
fn add_under<F: Filing>(
    alloc: Global,
    found: &mut Vec<F::Gift>,
    filed: &Filed<F>,
    keys: &[F::Key],
    thing: &F::Thing,
) -> Result<(), AllocError>
    ensures { IfOk result (λ _. Adds (SomeGives (λ k. SomeGives (GivesAt (F.gives filed.now.filing.now) filed.now.changes.now thing.now) (at F.Key.PartialEq.eq filed.now.lists k)) keys.now) found.old.items found.new.items) }
{
    for key in keys {
        let positions = list_at(&filed.lists, key);
        add_at(alloc, found, filed.filing, filed.changes, positions, thing)?;
    }
    Ok(())
}

/// All that some of the changes gives a thing: of these only those are asked that stand under a key of the thing.
pub fn given<F: Filing>(
    alloc: Global,
    filed: &Filed<F>,
    thing: &F::Thing,
) -> Result<Vec<F::Gift>, AllocError>
    ensures { IfOk result (λ list. IsExactly list.items (SomeGives (λ c. F.gives filed.now.filing.now c thing.now) filed.now.changes.now)) }
{
    let keys = filed.filing.keys(alloc, thing)?;
    let mut found = Vec::new(alloc);
    add_under(alloc, &mut found, filed, keys.as_slice(), thing)?;
    Ok(found)
}
