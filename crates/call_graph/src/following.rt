//! The calls that are followed under a checker.

ghost use Rattle.std.specs.Prelude.{◌≡◌, ◌<◌, length, Some, IfSome, slice_get};
ghost use Rattle.std.specs.Borrow.{Bor};
ghost use Rattle.std.specs.Option.{option_map};
ghost use Rattle.c_tree.specs.Views.{node_of, nodes_of};
ghost use Rattle.type_rules.specs.Roles.{Role};
ghost use Rattle.type_rules.specs.Scopes.{Scopes};
ghost use Rattle.call_graph.specs.Followed.{body_followed, followed, followed_at};
ghost use Rattle.metal_tree.specs.Whole.{machine_view};
ghost use Rattle.call_graph.specs.OfPrograms.Calls.{table_in};
ghost use Rattle.call_graph.specs.OfPrograms.Definitions.{definitions, trees_in};
ghost use Rattle.typed_unit.specs.declared.typed_unit.TypedUnit.{TypedUnit};
ghost use Rattle.typed_unit.specs.Places.{StandsAt};

use crate::patterns::machine_calls;
use crate::programs::{FnId, Program, called_name};
use c_tree::Tree;
use metal_tree::Machine;

// The body of a name in a file, if the checker's patterns don't call it.
fn body_followed(program: &Program, machine: &Machine, file: u16, name: u32) -> Option<FnId>
    ensures body { option_map (λ f. f.number) result ≡ body_followed (machine_view machine.now) file (definitions (trees_in program.now.units.items)) name }
    ensures within { IfSome result (λ f. f.number < length (definitions (trees_in program.now.units.items))) }
{
    if machine_calls(machine, name) {
        None
    } else {
        program.body_of(file, name)
    }
}

/// The function that a call leads to under a checker, where the call is followed: its callee, without parentheses, is the name of
/// a function with a body (the file's own, else the one with external linkage), and the name stands in callee position in no base
/// pattern of the checker. The call stands in the unit with this number. It takes no memory; its work is that of going over the
/// patterns of the checker once.
pub fn followed(program: &Program, machine: &Machine, site: &Tree, unit: u16) -> Option<FnId>
    requires { unit < length program.now.units.items }
    ensures kept { option_map (λ f. f.number) result ≡ followed (machine_view machine.now) (table_in program.now.units.items unit) unit (definitions (trees_in program.now.units.items)) (node_of site.now) }
    ensures placed { (u : Bor TypedUnit) (v : Scopes) (r : Role) → slice_get program.now.units.items unit ≡ Some u → StandsAt (nodes_of u.now.unit.chunks) v r (node_of site.now) → option_map (λ f. f.number) result ≡ followed_at (machine_view machine.now) v unit (definitions (trees_in program.now.units.items)) (node_of site.now) }
    ensures within { IfSome result (λ f. f.number < length (definitions (trees_in program.now.units.items))) }
{
    match called_name(program.unit(unit), site) {
        None => None,
        Some(name) => body_followed(program, machine, unit, name),
    }
}
