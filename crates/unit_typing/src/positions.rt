//! Lists of positions by number.

ghost use Rattle.std.specs.Prelude.{◌≡◌, ℕ, ◌++◌, [], ◌∷◌, nat_eq, cond, MatchResult};
ghost use Rattle.indexmap.specs.IndexMap.{get};
ghost use Rattle.unit_typing.specs.Positions.{list_at};

use indexmap::IndexMap;
use std::alloc::{AllocError, Global};

/// Puts a position last in the list of a number.
pub(crate) fn push_at(
    alloc: Global,
    lists: &mut IndexMap<u32, Vec<usize>>,
    number: u32,
    position: usize,
) -> Result<(), AllocError>
    ensures { MatchResult result (λ _. (n : ℕ) → list_at lists.new n ≡ list_at lists.old n ++ cond (nat_eq number n) (position ∷ []) []) (λ _. (n : ℕ) → list_at lists.new n ≡ list_at lists.old n) }
{
    if let Some(list) = lists.get_mut(&number) {
        list.push(position)?;
        return Ok(());
    }
    let mut list = Vec::new(alloc);
    list.push(position)?;
    lists.insert(number, list)?;
    Ok(())
}

/// The list of a number.
pub(crate) fn list_at<'a>(lists: &'a IndexMap<u32, Vec<usize>>, number: u32) -> &'a [usize]
    ensures { result.now ≡ list_at lists.now number }
{
    match lists.get(&number) {
        Some(list) => list.as_slice(),
        None => &[],
    }
}
