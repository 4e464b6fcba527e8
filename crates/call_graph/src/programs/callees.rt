//! The functions that calls name.

ghost use Rattle.std.specs.Prelude.{◌≡◌};
ghost use Rattle.c_tree.specs.Views.{node_of, nodes_of};
ghost use Rattle.type_rules.specs.Roles.{Role};
ghost use Rattle.type_rules.specs.Scopes.{Scopes};
ghost use Rattle.call_graph.specs.OfPrograms.Calls.{function_named, function_named_at, called_name, called_name_at};
ghost use Rattle.typed_unit.specs.Places.{StandsAt};
ghost use Rattle.typed_unit.specs.Tables.{table_of};

use c_tree::{Kind, Operation, Primary, Tree};
use typed_unit::{TypedUnit, parts_stand_by_case};

// The function that a callee names, without parentheses. A variable is none.
fn function_named(unit: &TypedUnit, callee: &Tree) -> Option<u32>
    ensures kept { result ≡ function_named (table_of unit.now.table) (node_of callee.now) }
    ensures placed { (v : Scopes) (r : Role) → StandsAt (nodes_of unit.now.unit.chunks) v r (node_of callee.now) → result ≡ function_named_at v r (node_of callee.now) }
{
    parts_stand_by_case();
    match &callee.kind {
        Kind::Primary(primary) => match primary {
            Primary::Ident { name } => {
                if unit.ty(callee).is_function() {
                    Some(name.name)
                } else {
                    None
                }
            }
            Primary::Paren { inner } => function_named(unit, inner),
            _ => None,
        },
        _ => None,
    }
}

/// The function whose name a call calls, in the unit in which it stands. There is none where the callee, without parentheses, is
/// another expression, or the name of a variable.
pub fn called_name(unit: &TypedUnit, call: &Tree) -> Option<u32>
    ensures kept { result ≡ called_name (table_of unit.now.table) (node_of call.now) }
    ensures placed { (v : Scopes) (r : Role) → StandsAt (nodes_of unit.now.unit.chunks) v r (node_of call.now) → result ≡ called_name_at v (node_of call.now) }
{
    parts_stand_by_case();
    match &call.kind {
        Kind::Operation(operation) => match operation {
            Operation::Call { callee, .. } => function_named(unit, callee),
            _ => None,
        },
        _ => None,
    }
}
