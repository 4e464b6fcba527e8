//! Sets of values in the order in which they were found.

ghost use Rattle.std.specs.Prelude.{◌≡◌, IfOk, Contains};
ghost use Rattle.least_set.specs.Logs.{Adds, IsOnce};

use indexmap::IndexSet;
use least_set::Key;
use std::alloc::AllocError;

/// Puts last those that aren't there yet.
pub(crate) fn add_all<T: Key>(set: &mut IndexSet<T>, found: Vec<T>) -> Result<(), AllocError>
    ensures { IfOk result (λ _. Adds (Contains found.items) set.old.keys set.new.keys) }
{
    for value in found {
        set.insert(value)?;
    }
    Ok(())
}

/// The values of a set, each once.
pub(crate) fn items<T: Key>(set: &IndexSet<T>) -> &[T]
    ensures keys { result.now ≡ set.now.keys }
    ensures once { IsOnce result.now }
{
    set.as_slice()
}
