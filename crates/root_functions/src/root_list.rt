//! The roots of a program, in order.

ghost use Rattle.std.specs.Prelude.{◌≡◌, length, map, IfOk};
ghost use Rattle.typed_unit.specs.Texts.{texts_of};
ghost use Rattle.metal_tree.specs.Whole.{machine_view};
ghost use Rattle.call_graph.specs.OfPrograms.Definitions.{definitions, trees_in};
ghost use Rattle.root_functions.specs.Callees.{AreBelow};
ghost use Rattle.root_functions.specs.Roots.{AreRoots};

use crate::callees::all_callees;
use call_graph::{FnId, Program};
use metal_tree::Machine;
use std::alloc::{AllocError, Global};

// The functions with these numbers.
fn with_numbers(alloc: Global, numbers: &Vec<u32>) -> Result<Vec<FnId>, AllocError>
    ensures { IfOk result (λ functions. map (λ f. f.number) functions.items ≡ numbers.now.items) }
{
    let mut functions = Vec::new(alloc);
    for number in numbers.as_slice() {
        functions.push(FnId { number: *number })?;
    }
    Ok(functions)
}

/// The roots of a program under a checker, each once: first the functions to which no followed call leads, not even one in dead
/// code, in source order; and then, as long as functions remain that no root reaches by followed calls, the first of them in
/// source order. The work is linear in the number of functions and the size of their bodies, but that each call goes over the
/// patterns of the checker once.
pub fn roots(alloc: Global, program: &Program, machine: &Machine) -> Result<Vec<FnId>, AllocError>
    ensures exact { IfOk result (λ roots. ∥ AreRoots (machine_view machine.now) (texts_of program.now.units.items) (map (λ f. f.number) roots.items) ∥₁) }
    ensures within { IfOk result (λ roots. AreBelow (length (definitions (trees_in program.now.units.items))) (map (λ f. f.number) roots.items)) }
{
    let callees = all_callees(alloc, program, machine)?;
    let numbers = crate::graph_roots::roots(alloc, &callees)?;
    with_numbers(alloc, &numbers)
}
