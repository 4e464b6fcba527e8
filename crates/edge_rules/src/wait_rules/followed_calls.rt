//! Calls that are followed into their callees.

ghost use Rattle.std.specs.Prelude.{◌≡◌, None, IfSome};
ghost use Rattle.function_tables.specs.EngineTables.Known.{AreKnown, checker_in, texts_in, graphs_in};
ghost use Rattle.edge_rules.specs.WaitRules.FollowedCalls.{HasNoCall};
ghost use Rattle.edge_rules.specs.WaitRules.FoundCalls.{IsFound};

use crate::wait_rules::call_ends::call_end;
use function_tables::{Tables, callee_at};
use indexmap::IndexSet;
use objects::Object;
use refine_restore::Site;

/// A followed call at the end of a block.
#[derive(Drop)]
pub(crate) struct FollowedCall<'s, 'a> {
    pub(crate) site: Site<'s, 'a>,
    /// The callee's number.
    pub(crate) callee: u32,
    /// The objects that are followed in the caller.
    pub(crate) caller_objects: &'s IndexSet<Object>,
    /// The objects that are followed in the callee.
    pub(crate) callee_objects: &'s IndexSet<Object>,
    /// The block behind the call.
    pub(crate) behind: u32,
}

/// The followed call at the end of a block of a function, if it ends in one. Any numbers may be asked for.
pub(crate) fn followed_call<'s, 'a>(
    tables: &'s Tables<'_, '_, 'a>,
    function: u32,
    block: u32,
) -> Option<FollowedCall<'s, 'a>>
    ensures there { IfSome result (λ k. AreKnown tables.now → IsFound tables.now function block k) }
    ensures missing { result ≡ None → AreKnown tables.now → HasNoCall (checker_in tables.now) (texts_in tables.now) (graphs_in tables.now) function block }
{
    let frame = tables.frame(function)?;
    let end = call_end(frame.table.graph, block)?;
    let callee = callee_at(frame.table, block)?;
    let entered = tables.frame(callee)?;
    let site = tables.site(function, end.call)?;
    Some(FollowedCall {
        site,
        callee,
        caller_objects: frame.objects,
        callee_objects: entered.objects,
        behind: end.behind,
    })
}
