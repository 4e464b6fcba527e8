//! A followed call as a whole.

ghost use Rattle.std.specs.Prelude.{◌≤◌, IfOk};
ghost use Rattle.numbered_program.specs.NumberedCalls.FollowedCall.{IsFollowedCall};
ghost use Rattle.numbered_program.specs.NumberedCalls.Stands.{StandsForSites};
ghost use Rattle.refine_restore.specs.Sites.{site_of};

use crate::numbered_calls::entries::entered_rows;
use crate::numbered_calls::returns::{handed_rows, saved_flags};
use crate::numbered_tuples::Numbering;
use numbered_engine::Call;
use refine_restore::Site;
use std::alloc::{AllocError, Global};

/// A call at a site that is followed into the function with the number `function`, and goes on in the block `behind`, where these are the
/// objects that are followed in the caller and in the callee.
pub fn call_rows(
    alloc: Global,
    site: &Site,
    depth: u8,
    caller: &Numbering,
    callee: &Numbering,
    function: u32,
    behind: u32,
) -> Result<Call, AllocError>
    requires { depth ≤ 8 }
    ensures made { IfOk result (IsFollowedCall depth (site_of depth site.now) caller.now.objects.now.keys callee.now.objects.now.keys function behind) }
    ensures stands { IfOk result (StandsForSites depth site.now caller.now.objects.now.keys callee.now.objects.now.keys) }
{
    let entered = entered_rows(alloc, site, depth, caller, callee)?;
    let handed = handed_rows(alloc, site, depth, caller, callee)?;
    let saved = saved_flags(alloc, site, depth, caller, callee)?;
    Ok(Call {
        callee: function,
        behind,
        entered,
        handed,
        saved,
    })
}
