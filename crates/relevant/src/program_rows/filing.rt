//! Lists of positions by number.

ghost use Rattle.std.specs.Prelude.{◌≡◌, ◌<◌, ℕ, ◌++◌, [], length, IfOk, OnOk};
ghost use Rattle.relevant.specs.ProgramRows.Filing.{at, one_if, IsFiled};

use crate::relevant_objects::FollowedCall;
use std::alloc::{AllocError, Global};

// An empty list for each number below this one.
fn no_positions(alloc: Global, count: u32) -> Result<Vec<Vec<usize>>, AllocError>
    ensures count { IfOk result (λ lists. length lists.items ≡ count) }
    ensures empty { IfOk result (λ lists. (n : ℕ) → at lists.items n ≡ []) }
{
    let mut lists = Vec::new(alloc);
    for _number in 0..count {
        lists.push(Vec::new(alloc))?;
    }
    Ok(lists)
}

// Puts a position last in the list of a number; nowhere where there is no such list.
fn file(lists: &mut Vec<Vec<usize>>, number: u32, position: usize) -> Result<(), AllocError>
    ensures count { OnOk result (length lists.new.items ≡ length lists.old.items) }
    ensures filed { OnOk result ((n : ℕ) → n < length lists.old.items → at lists.new.items n ≡ at lists.old.items n ++ one_if number n position) }
{
    if let Some(list) = lists.get_mut(number as usize) {
        list.push(position)?;
    }
    Ok(())
}

// Files a call, which stands at this position, under its caller and under its callee.
fn file_call(
    lists: &mut Vec<Vec<usize>>,
    call: &FollowedCall,
    position: usize,
) -> Result<(), AllocError>
    ensures count { OnOk result (length lists.new.items ≡ length lists.old.items) }
    ensures filed { OnOk result ((n : ℕ) → n < length lists.old.items → at lists.new.items n ≡ (at lists.old.items n ++ one_if call.now.caller n position) ++ one_if call.now.callee n position) }
{
    file(lists, call.caller, position)?;
    file(lists, call.callee, position)
}

/// The positions of the calls from each function and into it, by the function's number. There are this many functions.
pub(crate) fn filed(
    alloc: Global,
    calls: &[FollowedCall],
    count: u32,
) -> Result<Vec<Vec<usize>>, AllocError>
    ensures { IfOk result (λ lists. IsFiled calls.now count lists.items) }
{
    let mut lists = no_positions(alloc, count)?;
    for position in 0..calls.len() {
        file_call(&mut lists, &calls[position], position)?;
    }
    Ok(lists)
}

/// The list of a number; an empty one where there is none.
pub(crate) fn positions_at(lists: &[Vec<usize>], number: u32) -> &[usize]
    ensures { result.now ≡ at lists.now number }
{
    match lists.get(number as usize) {
        Some(list) => list.as_slice(),
        None => &[],
    }
}
