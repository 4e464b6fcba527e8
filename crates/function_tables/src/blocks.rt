//! The tables of the blocks of a function.

ghost use Rattle.std.specs.Prelude.{◌≡◌, ◌≤◌, ◌<◌, length, IfOk};
ghost use Rattle.type_rules.specs.Options.{◌>?◌};
ghost use Rattle.call_graph.specs.Followed.{followed};
ghost use Rattle.path_model.specs.CheckerPrograms.Texts.{function_of as named};
ghost use Rattle.typed_unit.specs.Texts.{texts_of};
ghost use Rattle.flow_graph.specs.Seen.{graph_in};
ghost use Rattle.flow_graph.specs.Values.{block_of, ending_of};
ghost use Rattle.path_model.specs.CheckerGraphs.Ends.{call_in};
ghost use Rattle.function_tables.specs.Tables.{IsBlockTable, AreBlockTables};
ghost use Rattle.metal_tree.specs.Whole.{machine_view};
ghost use Rattle.call_graph.specs.OfPrograms.Calls.{table_in};
ghost use Rattle.call_graph.specs.OfPrograms.Definitions.{definitions, trees_in};
ghost use Rattle.state_tuples.specs.Values.{function_of as framed};
ghost use Rattle.typed_unit.specs.Functions.{function_of};

use crate::events::rules_of;
use crate::table::BlockTable;
use call_graph::{Program, followed};
use flow_graph::{Block, End, Graph};
use metal_tree::Machine;
use state_tuples::Frame;
use std::alloc::{AllocError, Global};
use typed_unit::TypedFunction;

// The frame in which the events of a function happen. What it says of roots isn't asked here: rules are the same in all frames.
fn frame_of(function: &TypedFunction) -> Frame
    ensures { framed result ≡ named (function_of function.now) }
{
    Frame {
        function: function.place,
        name: function.name,
        is_root: false,
    }
}

// The number of the function into which the call at the end of a block is followed, which stands in the unit of this file.
fn callee_at(program: &Program, machine: &Machine, end: &End, file: u16) -> Option<u32>
    requires { file < length program.now.units.items }
    ensures { result ≡ (call_in (ending_of end.now) >? followed (machine_view machine.now) (table_in program.now.units.items file) file (definitions (trees_in program.now.units.items))) }
{
    match end {
        End::Call { site, .. } => match followed(program, machine, site, file) {
            Some(callee) => Some(callee.number),
            None => None,
        },
        End::Goto(_) => None,
        End::Exit => None,
    }
}

// The table of a block of this function.
fn block_table<'u, 'a>(
    alloc: Global,
    program: &Program<'u, 'a>,
    machine: &Machine<'u>,
    depth: u8,
    function: &TypedFunction<'a>,
    block: &Block<'a>,
) -> Result<BlockTable<'u, 'a>, AllocError>
    requires deep { depth ≤ 8 }
    requires there { function.now.file < length program.now.units.items }
    requires filed { function.now.place.file ≡ function.now.file }
    ensures { IfOk result (λ table. IsBlockTable (machine_view machine.now) depth (texts_of program.now.units.items) (function_of function.now) (block_of block.now) table) }
{
    let unit = program.unit(function.file);
    let frame = frame_of(function);
    let rules = rules_of(alloc, machine, unit, &frame, depth, block.events.as_slice())?;
    let callee = callee_at(program, machine, &block.end, function.file);
    Ok(BlockTable { rules, callee })
}

// The tables of the blocks of this function, whose graph this is.
pub(crate) fn block_tables<'u, 'a>(
    alloc: Global,
    program: &Program<'u, 'a>,
    machine: &Machine<'u>,
    depth: u8,
    function: &TypedFunction<'a>,
    graph: &Graph<'a>,
) -> Result<Vec<BlockTable<'u, 'a>>, AllocError>
    requires deep { depth ≤ 8 }
    requires there { function.now.file < length program.now.units.items }
    requires filed { function.now.place.file ≡ function.now.file }
    ensures { IfOk result (λ tables. AreBlockTables (machine_view machine.now) depth (texts_of program.now.units.items) (function_of function.now) (graph_in graph.now).blocks tables.items) }
{
    let mut tables = Vec::with_capacity(alloc, graph.count() as usize)?;
    for number in 0..graph.count() {
        let table = block_table(
            alloc,
            program,
            machine,
            depth,
            function,
            graph.block(number),
        )?;
        tables.push(table)?;
    }
    Ok(tables)
}
