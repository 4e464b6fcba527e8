//! All followed calls of a program.

ghost use Rattle.std.specs.Prelude.{◌≡◌, ◌<◌, All, length, map, Some, IfOk, OnOk};
ghost use Rattle.least_set.specs.Logs.{Adds, IsExactly, SomeGives};
ghost use Rattle.relevant.specs.ProgramRows.Ends.{followed_at, followed_in, HasFollowed, SomeHasFollowed, IsSite, IsUnitOf};
ghost use Rattle.call_graph.specs.OfPrograms.Definitions.{definitions, trees_in};

use crate::program_rows::ends::followed_at;
use crate::program_rows::functions::unit_of;
use crate::program_rows::listing::add_call;
use crate::program_rows::tables::table_at;
use crate::relevant_objects::FollowedCall;
use call_graph::Program;
use flow_graph::reached;
use function_tables::FunctionTable;
use std::alloc::{AllocError, Global};
use typed_unit::TypedUnit;

// Puts last the followed calls at the ends of these blocks of the function with a number, which has this table and stands in this unit.
fn add_calls_in<'u, 'a>(
    calls: &mut Vec<FollowedCall<'u, 'a>>,
    program: &Program<'u, 'a>,
    unit: &'u TypedUnit<'a>,
    table: &FunctionTable<'_, 'a>,
    caller: u32,
    blocks: &[u32],
) -> Result<(), AllocError>
    requires unit { IsUnitOf program.now.units.items caller unit }
    requires sites { All (IsSite program.now.units.items) calls.old.items }
    ensures calls { OnOk result (Adds (SomeGives (λ b f. followed_at table.now caller b ≡ Some f) blocks.now) (map followed_in calls.old.items) (map followed_in calls.new.items)) }
    ensures sites { OnOk result (All (IsSite program.now.units.items) calls.new.items) }
{
    for block in blocks {
        let call = followed_at(program, unit, table, caller, *block);
        add_call(calls, call)?;
    }
    Ok(())
}

// Puts last the followed calls of the function with a number, in the blocks that control reaches.
fn add_calls_of<'u, 'a>(
    alloc: Global,
    calls: &mut Vec<FollowedCall<'u, 'a>>,
    program: &Program<'u, 'a>,
    tables: &[FunctionTable<'_, 'a>],
    caller: u32,
) -> Result<(), AllocError>
    requires there { caller < length (definitions (trees_in program.now.units.items)) }
    requires sites { All (IsSite program.now.units.items) calls.old.items }
    ensures calls { OnOk result (Adds (HasFollowed tables.now caller) (map followed_in calls.old.items) (map followed_in calls.new.items)) }
    ensures sites { OnOk result (All (IsSite program.now.units.items) calls.new.items) }
{
    let Some(table) = table_at(tables, caller) else {
        return Ok(());
    };
    let unit = unit_of(program, caller);
    let blocks = reached(alloc, table.graph)?;
    add_calls_in(calls, program, unit, table, caller, blocks.as_slice())
}

/// The followed calls of all functions of a program, in the blocks that control reaches.
pub(crate) fn followed_calls<'u, 'a>(
    alloc: Global,
    program: &Program<'u, 'a>,
    tables: &[FunctionTable<'_, 'a>],
) -> Result<Vec<FollowedCall<'u, 'a>>, AllocError>
    ensures calls { IfOk result (λ calls. IsExactly (map followed_in calls.items) (SomeHasFollowed tables.now (length (definitions (trees_in program.now.units.items))))) }
    ensures sites { IfOk result (λ calls. All (IsSite program.now.units.items) calls.items) }
{
    let mut calls = Vec::new(alloc);
    for caller in 0..program.count() {
        add_calls_of(alloc, &mut calls, program, tables, caller)?;
    }
    Ok(calls)
}
