//! Blocks that end in calls.

ghost use Rattle.std.specs.Prelude.{◌≡◌};
ghost use Rattle.std.specs.Option.{option_map};
ghost use Rattle.flow_graph.specs.CPaths.Graphs.{Calls};
ghost use Rattle.c_tree.specs.Views.{node_of};
ghost use Rattle.type_rules.specs.Options.{◌>?◌};
ghost use Rattle.flow_graph.specs.Seen.{graph_in};
ghost use Rattle.flow_graph.specs.Values.{ending_of};
ghost use Rattle.edge_rules.specs.WaitRules.CallEnds.{if_call, ending_at};

use c_tree::Tree;
use flow_graph::{End, Graph};
use function_tables::end_at;

/// The call in which a block ends, and the block behind it.
#[derive(Drop)]
pub(crate) struct CallEnd<'a> {
    pub(crate) call: &'a Tree<'a>,
    pub(crate) behind: u32,
}

// The call, where the block ends in one.
fn as_call<'a>(end: &End<'a>) -> Option<CallEnd<'a>>
    ensures { option_map (λ k. Calls (node_of k.call.now) k.behind) result ≡ if_call (ending_of end.now) }
{
    match end {
        End::Call { site, next } => Some(CallEnd {
            call: *site,
            behind: *next,
        }),
        End::Goto(_) => None,
        End::Exit => None,
    }
}

/// The call in which a block ends, if it is there and does in one.
pub(crate) fn call_end<'a>(graph: &Graph<'a>, block: u32) -> Option<CallEnd<'a>>
    ensures { option_map (λ k. Calls (node_of k.call.now) k.behind) result ≡ (ending_at (graph_in graph.now).blocks block >? if_call) }
{
    match end_at(graph, block) {
        Some(end) => as_call(end),
        None => None,
    }
}
