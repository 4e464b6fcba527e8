//! The functions to which the followed calls of each function lead.

ghost use Rattle.std.specs.Prelude.{◌≡◌, ◌<◌, ◌^◌, ◌++◌, length, IfOk, OnOk};
ghost use Rattle.std.specs.Option.{option_map};
ghost use Rattle.root_functions.specs.CallSites.Calls.{nodes_at};
ghost use Rattle.typed_unit.specs.Texts.{texts_of};
ghost use Rattle.root_functions.specs.GraphRoots.Graphs.{StaysWithin};
ghost use Rattle.least_set.specs.Logs.{IsExactly};
ghost use Rattle.metal_tree.specs.Whole.{machine_view};
ghost use Rattle.call_graph.specs.OfPrograms.Definitions.{definitions, trees_in};
ghost use Rattle.path_model.specs.CheckerPrograms.Roots.{Leads};
ghost use Rattle.root_functions.specs.Callees.{FollowedBy, AreBelow, HaveCallees, listed};

use crate::call_sites::calls_in;
use crate::graph_roots::Callees;
use c_tree::Tree;
use call_graph::{FnId, Program, UnitFacts, followed};
use metal_tree::Machine;
use std::alloc::{AllocError, Global};

// Puts the function to which a call leads behind the others, if it leads to one.
fn add(numbers: &mut Vec<u32>, callee: Option<FnId>) -> Result<(), AllocError>
    ensures { OnOk result (numbers.new.items ≡ numbers.old.items ++ listed (option_map (λ f. f.number) callee)) }
{
    match callee {
        None => Ok(()),
        Some(f) => {
            numbers.push(f.number)?;
            Ok(())
        }
    }
}

// The functions to which these calls lead, which stand in the unit of a file.
fn followed_by(
    alloc: Global,
    program: &Program,
    machine: &Machine,
    file: u16,
    calls: &Vec<&Tree>,
) -> Result<Callees, AllocError>
    requires { file < length program.now.units.items }
    ensures exact { IfOk result (λ callees. IsExactly callees.numbers.items (FollowedBy (machine_view machine.now) program.now.units.items file (nodes_at calls.now.items))) }
    ensures below { IfOk result (λ callees. AreBelow (length (definitions (trees_in program.now.units.items))) callees.numbers.items) }
{
    let mut numbers = Vec::new(alloc);
    for i in 0..calls.len() {
        let callee = followed(program, machine, calls[i], file);
        add(&mut numbers, callee)?;
    }
    Ok(Callees { numbers })
}

// The functions to which the followed calls of a function lead.
fn callees_of(
    alloc: Global,
    program: &Program,
    machine: &Machine,
    f: FnId,
) -> Result<Callees, AllocError>
    requires { f.number < length (definitions (trees_in program.now.units.items)) }
    ensures exact { IfOk result (λ callees. ∥ IsExactly callees.numbers.items (Leads (machine_view machine.now) (texts_of program.now.units.items) f.number) ∥₁) }
    ensures below { IfOk result (λ callees. AreBelow (length (definitions (trees_in program.now.units.items))) callees.numbers.items) }
{
    let function = program.function(f);
    let facts = UnitFacts::new(program, function.file);
    let calls = calls_in(alloc, &facts, function.body)?;
    followed_by(alloc, program, machine, function.file, &calls)
}

/// For each function, by its number, those to which its followed calls lead.
pub(crate) fn all_callees(
    alloc: Global,
    program: &Program,
    machine: &Machine,
) -> Result<Vec<Callees>, AllocError>
    ensures count { IfOk result (λ rows. length rows.items ≡ length (definitions (trees_in program.now.units.items))) }
    ensures few { IfOk result (λ rows. length rows.items < 2 ^ 32) }
    ensures exact { IfOk result (λ rows. ∥ HaveCallees (machine_view machine.now) (texts_of program.now.units.items) rows.items ∥₁) }
    ensures stays { IfOk result (λ rows. StaysWithin rows.items) }
{
    let mut rows = Vec::new(alloc);
    for number in 0..program.count() {
        let callees = callees_of(alloc, program, machine, FnId { number })?;
        rows.push(callees)?;
    }
    Ok(rows)
}
