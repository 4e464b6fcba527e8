//! Lists of followed calls.

ghost use Rattle.std.specs.Prelude.{◌≡◌, ◌++◌, flat_map, slice_get, IfOk, OnOk};
ghost use Rattle.std.specs.Option.{option_to_list};

use crate::relevant_objects::FollowedCall;
use std::alloc::{AllocError, Global};

/// Puts a call last, if there is one.
pub(crate) fn add_call<'u, 'a>(
    calls: &mut Vec<FollowedCall<'u, 'a>>,
    call: Option<FollowedCall<'u, 'a>>,
) -> Result<(), AllocError>
    ensures { OnOk result (calls.new.items ≡ calls.old.items ++ option_to_list call.entry) }
{
    match call {
        None => Ok(()),
        Some(call) => {
            calls.push(call)?;
            Ok(())
        }
    }
}

// The call at a position, if there is one.
fn call_at<'u, 'a>(calls: &[FollowedCall<'u, 'a>], position: usize) -> Option<FollowedCall<'u, 'a>>
    ensures { result ≡ slice_get calls.now position }
{
    calls.get(position).copied()
}

/// The calls at these positions, in their order.
pub(crate) fn calls_at<'u, 'a>(
    alloc: Global,
    calls: &[FollowedCall<'u, 'a>],
    positions: &[usize],
) -> Result<Vec<FollowedCall<'u, 'a>>, AllocError>
    ensures { IfOk result (λ list. list.items ≡ flat_map (λ i. option_to_list (slice_get calls.now i)) positions.now) }
{
    let mut list = Vec::new(alloc);
    for position in positions {
        add_call(&mut list, call_at(calls, *position))?;
    }
    Ok(list)
}
