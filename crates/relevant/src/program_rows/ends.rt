//! The followed call at the end of a block.

ghost use Rattle.std.specs.Prelude.{◌≡◌, IfSome};
ghost use Rattle.std.specs.Option.{option_map};
ghost use Rattle.c_tree.specs.Views.{node_of};
ghost use Rattle.flow_graph.specs.Seen.{graph_in};
ghost use Rattle.flow_graph.specs.Values.{ending_of};
ghost use Rattle.path_model.specs.CheckerGraphs.Ends.{call_in, call_at};
ghost use Rattle.relevant.specs.ProgramRows.Ends.{callee_at, followed_in, followed_at, IsUnitOf, IsSite};

use crate::program_rows::functions::formals_of;
use crate::relevant_objects::FollowedCall;
use c_tree::Tree;
use call_graph::Program;
use flow_graph::{End, Graph};
use function_tables::FunctionTable;
use refine_restore::Site;
use typed_unit::TypedUnit;

// The call in which a block ends, if it does in one.
fn call_in<'a>(end: &End<'a>) -> Option<&'a Tree<'a>>
    ensures { option_map (λ t. node_of t.now) result ≡ call_in (ending_of end.now) }
{
    match end {
        End::Call { site, .. } => Some(*site),
        End::Goto(_) => None,
        End::Exit => None,
    }
}

// The same of the block with a number; none where it isn't there.
fn call_at<'a>(graph: &Graph<'a>, block: u32) -> Option<&'a Tree<'a>>
    ensures { option_map (λ t. node_of t.now) result ≡ call_at (graph_in graph.now) block }
{
    if block < graph.count() {
        call_in(&graph.block(block).end)
    } else {
        None
    }
}

// The number of the function into which the call at the end of a block is followed.
fn callee_at(table: &FunctionTable, block: u32) -> Option<u32>
    ensures { result ≡ callee_at table.now block }
{
    let block = block as usize;
    if block < table.blocks.len() {
        table.blocks[block].callee
    } else {
        None
    }
}

/// The followed call at the end of a block of the function with a number, which has this table and stands in this unit.
pub(crate) fn followed_at<'u, 'a>(
    program: &Program<'u, 'a>,
    unit: &'u TypedUnit<'a>,
    table: &FunctionTable<'_, 'a>,
    caller: u32,
    block: u32,
) -> Option<FollowedCall<'u, 'a>>
    requires { IsUnitOf program.now.units.items caller unit }
    ensures call { option_map followed_in result ≡ followed_at table.now caller block }
    ensures site { IfSome result (IsSite program.now.units.items) }
{
    let Some(callee) = callee_at(table, block) else {
        return None;
    };
    let Some(call) = call_at(table.graph, block) else {
        return None;
    };
    let formals = formals_of(program, callee);
    let site = Site {
        call,
        unit,
        formals,
    };
    Some(FollowedCall {
        caller,
        callee,
        site,
    })
}
