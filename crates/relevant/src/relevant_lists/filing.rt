//! Objects of functions, filed by the function's number.

ghost use Rattle.std.specs.Prelude.{◌≡◌, [], length, map, replicate, IfOk};
ghost use Rattle.relevant.specs.RelevantLists.Filed.{with_member, AreFiled};

use objects::{Object, copy};
use std::alloc::{AllocError, Global};

// So many lists without an object.
fn empty_lists(alloc: Global, count: u32) -> Result<Vec<Vec<Object>>, AllocError>
    ensures { IfOk result (λ lists. map (λ os. os.items) lists.items ≡ replicate count []) }
{
    let mut lists = Vec::new(alloc);
    for _ in 0..count {
        lists.push(Vec::new(alloc))?;
    }
    Ok(lists)
}

// Puts an object last in the list of its function, if there is one.
fn file_member(lists: &mut Vec<Vec<Object>>, member: &(u32, Object)) -> Result<(), AllocError>
    ensures { IfOk result (λ _. map (λ os. os.items) lists.new.items ≡ with_member member.now.0 member.now.1 (map (λ os. os.items) lists.old.items)) }
{
    if let Some(list) = lists.get_mut(member.0 as usize) {
        list.push(copy(&member.1))?;
    }
    Ok(())
}

/// A list for each of so many functions, by its number, with those of these objects that are of the function, in their order. What is of
/// other functions is in no list.
pub(crate) fn filed(
    alloc: Global,
    count: u32,
    members: &[(u32, Object)],
) -> Result<Vec<Vec<Object>>, AllocError>
    ensures count { IfOk result (λ lists. length lists.items ≡ count) }
    ensures filed { IfOk result (λ lists. AreFiled members.now (map (λ os. os.items) lists.items)) }
{
    let mut lists = empty_lists(alloc, count)?;
    for member in members {
        file_member(&mut lists, member)?;
    }
    Ok(lists)
}
