//! The calls at which waiters stand, as far as they hand states back, and the objects that are followed in their callees.

ghost use Rattle.std.specs.Prelude.{◌≡◌, ℕ, [], None, Some, IfSome};
ghost use Rattle.c_tree.specs.Node.{Node};
ghost use Rattle.flow_graph.specs.CPaths.Graphs.{Calls};
ghost use Rattle.flow_graph.specs.Seen.{graph_in};
ghost use Rattle.type_rules.specs.Options.{◌>?◌};
ghost use Rattle.path_model.specs.CheckerGraphs.Graphs.{function_at};
ghost use Rattle.function_tables.specs.EngineTables.Known.{AreKnown, IsFrame, texts_in, graphs_in};
ghost use Rattle.path_edges.specs.Edges.{site_at};
ghost use Rattle.refine_restore.specs.Sites.{site_of};
ghost use Rattle.edge_rules.specs.WaitRules.CallEnds.{if_call, ending_at};
ghost use Rattle.edge_rules.specs.WaitRules.CalledObjects.{AreOfCallee};
ghost use Rattle.edge_rules.specs.WaitRules.Handing.{HandBackAlike};

use crate::callees::callee_of;
use crate::wait_rules::call_ends::call_end;
use call_graph::FnId;
use function_tables::{Frame, Tables};
use indexmap::IndexSet;
use objects::Object;
use refine_restore::Site;

// A place of a function at which nothing is passed; none where there is no such function.
fn passing_nothing<'s, 'a>(tables: &'s Tables<'_, '_, 'a>, function: u32) -> Option<Site<'s, 'a>>
    ensures there { IfSome result (λ s. s.formals.now ≡ []) }
    ensures missing { result ≡ None → function_at (texts_in tables.now) function ≡ None }
{
    if function >= tables.program.count() {
        return None;
    }
    let defined = tables.program.function(FnId { number: function });
    Some(Site {
        call: defined.body,
        unit: tables.program.unit(defined.file),
        formals: &[],
    })
}

/// The call in which a block of a function ends, which is this one. Where the block ends in none, nothing is passed; none where there is no such
/// function.
pub(crate) fn waiting_site<'s, 'a>(
    tables: &'s Tables<'_, '_, 'a>,
    frame: &Frame<'_, '_, 'a>,
    function: u32,
    block: u32,
) -> Option<Site<'s, 'a>>
    ensures there { IfSome result (λ s. AreKnown tables.now → IsFrame tables.now function frame.now → HandBackAlike tables.now.depth (site_of tables.now.depth s) (site_at tables.now.depth (texts_in tables.now) (graphs_in tables.now) function block)) }
    ensures missing { result ≡ None → function_at (texts_in tables.now) function ≡ None }
{
    match call_end(frame.table.graph, block) {
        Some(end) => tables.site(function, end.call),
        None => passing_nothing(tables, function),
    }
}

// The objects that are followed in the function into which the call in which a block ends is followed; where it isn't followed, those of the
// function in which it stands.
fn objects_of_callee<'t, 'u, 'a>(
    tables: &Tables<'t, 'u, 'a>,
    frame: &Frame<'t, 'u, 'a>,
    block: u32,
) -> &'t IndexSet<Object>
    ensures { AreKnown tables.now → (function : ℕ) → IsFrame tables.now function frame.now → (call : Node) (next : ℕ) → Some (Calls call next) ≡ (ending_at (graph_in frame.now.table.now.graph.now).blocks block >? if_call) → AreOfCallee tables.now function block result.now.keys }
{
    match callee_of(tables, frame.table, block) {
        Some(callee) => callee.frame.objects,
        None => frame.objects,
    }
}

/// The objects that are followed in the function into which the call at the end of a block is followed, where the block is in this function;
/// those of the function itself, where it ends in no such call.
pub(crate) fn called_objects<'t, 'u, 'a>(
    tables: &Tables<'t, 'u, 'a>,
    frame: &Frame<'t, 'u, 'a>,
    block: u32,
) -> &'t IndexSet<Object>
    ensures { AreKnown tables.now → (function : ℕ) → IsFrame tables.now function frame.now → AreOfCallee tables.now function block result.now.keys }
{
    match call_end(frame.table.graph, block) {
        Some(_end) => objects_of_callee(tables, frame, block),
        None => frame.objects,
    }
}
