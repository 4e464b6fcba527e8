//! What was found, by function.

ghost use Rattle.std.specs.Prelude.{◌≡◌, [], length, map, replicate, IfOk};
ghost use Rattle.known_objects.specs.ByFunction.{with_known, AreSets, AreOnce};

use indexmap::IndexSet;
use known_search::Known;
use objects::{Object, copy};
use std::alloc::{AllocError, Global};

/// So many sets without an object. The only fault is want of memory.
pub fn empty_sets(alloc: Global, count: u32) -> Result<Vec<IndexSet<Object>>, AllocError>
    ensures { IfOk result (λ sets. map (λ s. s.keys) sets.items ≡ replicate count []) }
{
    let mut sets = Vec::new(alloc);
    for _ in 0..count {
        sets.push(IndexSet::new(alloc))?;
    }
    Ok(sets)
}

// Gives back the room that a set of one object doesn't need: most sets are such.
fn tighten(set: &mut IndexSet<Object>)
    ensures { set.new.keys ≡ set.old.keys }
{
    if set.len() == 1 {
        set.shrink_to_fit();
    }
}

// Puts an object into the set of its function, if there is one.
fn add_known(sets: &mut Vec<IndexSet<Object>>, member: &Known<Object>) -> Result<(), AllocError>
    ensures { IfOk result (λ _. map (λ s. s.keys) sets.new.items ≡ with_known member.now.function member.now.object (map (λ s. s.keys) sets.old.items)) }
{
    if let Some(set) = sets.get_mut(member.function as usize) {
        set.insert(copy(&member.object))?;
        tighten(set);
    }
    Ok(())
}

/// A set for each of so many functions, by its number, with what was found of the function, from whatever is known at its entry.
pub(crate) fn sets_of(
    alloc: Global,
    count: u32,
    found: &[Known<Object>],
) -> Result<Vec<IndexSet<Object>>, AllocError>
    ensures count { IfOk result (λ sets. length sets.items ≡ count) }
    ensures sets { IfOk result (λ sets. AreSets found.now (map (λ s. s.keys) sets.items)) }
    ensures once { IfOk result (λ sets. AreOnce (map (λ s. s.keys) sets.items)) }
{
    let mut sets = empty_sets(alloc, count)?;
    for member in found {
        add_known(&mut sets, member)?;
    }
    Ok(sets)
}
