//! The variables to which events write: assignments, initial values and declarations (ISO 9899:1990, 6.3.2.4, 6.3.3.1, 6.3.16, 6.5.7).

ghost use Rattle.std.specs.Prelude.{◌≡◌, ◌≤◌};
ghost use Rattle.std.specs.Option.{option_map};
ghost use Rattle.c_objects.specs.ObjectOf.{object_of};
ghost use Rattle.c_tree.specs.Node.{Node};
ghost use Rattle.c_tree.specs.Views.{node_of};
ghost use Rattle.numbered_program.specs.EventTables.Written.{base_of, is_step, written};
ghost use Rattle.flow_graph.specs.Values.{event_of, variable_in};
ghost use Rattle.objects.specs.Units.{facts_in};
ghost use Rattle.path_model.specs.CheckerModel.Moves.{assigned, initialized, local_of, move_of, stepped, tree_move};
ghost use Rattle.type_values.specs.Vars.{cvar_of};

use c_tree::{AssignOp, Initializer, Kind, Operation, Subject, Tree, UnaryOp};
use flow_graph::{Event, Variable};
use objects::{Object, object_of};
use type_values::Var;
use typed_unit::TypedUnit;

// The variable from which a path goes; none of the address of one.
fn base_of(object: &Option<Object>) -> Option<Var>
    ensures { option_map cvar_of result ≡ base_of object.now }
{
    match object {
        Some(object) => if object.is_address() {
            None
        } else {
            Some(object.base())
        },
        None => None,
    }
}

// An assignment writes to its left side, whatever it copies.
fn assigned(unit: &TypedUnit, op: AssignOp, left: &Tree, depth: u8) -> Option<Var>
    requires { depth ≤ 8 }
    ensures { (right : Node) → option_map cvar_of result ≡ written (assigned (facts_in unit.now) depth op (node_of left.now) right) }
{
    base_of(&object_of(unit, left, depth))
}

// A name with an initial value, whichever that is.
fn initialized(unit: &TypedUnit, name: &Tree, initial: &Tree, depth: u8) -> Option<Var>
    requires { depth ≤ 8 }
    ensures { option_map cvar_of result ≡ written (initialized (facts_in unit.now) depth (node_of name.now) (node_of initial.now)) }
{
    base_of(&object_of(unit, name, depth))
}

// Whether an operator is `++` or `--`.
fn is_step(op: UnaryOp) -> bool
    ensures { result ≡ is_step op }
{
    match op {
        UnaryOp::PostInc | UnaryOp::PostDec | UnaryOp::PreInc | UnaryOp::PreDec => true,
        _ => false,
    }
}

// `++` and `--` write to their operand, and no other operator of one does.
fn stepped(unit: &TypedUnit, op: UnaryOp, operand: &Tree, depth: u8) -> Option<Var>
    requires { depth ≤ 8 }
    ensures { option_map cvar_of result ≡ written (stepped (facts_in unit.now) depth op (node_of operand.now)) }
{
    if !is_step(op) {
        return None;
    }
    base_of(&object_of(unit, operand, depth))
}

// That of an evaluated tree.
fn tree_written(unit: &TypedUnit, tree: &Tree, depth: u8) -> Option<Var>
    requires { depth ≤ 8 }
    ensures { option_map cvar_of result ≡ written (tree_move (facts_in unit.now) depth (node_of tree.now)) }
{
    match &tree.kind {
        Kind::Operation(Operation::Assign { op, left, .. }) => assigned(unit, *op, left, depth),
        Kind::Operation(Operation::Unary { op, operand }) => stepped(unit, *op, operand, depth),
        Kind::Initializer(Initializer::Init { name, initial, .. }) => initialized(
            unit, name, initial, depth,
        ),
        _ => None,
    }
}

// The variable of a declaration that has been reached.
fn local_of(declared: Variable) -> Var
    ensures { cvar_of result ≡ local_of (variable_in declared) }
{
    Var::Local {
        file: declared.place.file,
        token: declared.place.token,
        name: declared.name,
    }
}

/// The variable from which the path goes that an event writes over, if it writes over one.
pub(crate) fn written(event: &Event, unit: &TypedUnit, depth: u8) -> Option<Var>
    requires { depth ≤ 8 }
    ensures { option_map cvar_of result ≡ written (move_of (facts_in unit.now) depth (event_of event.now)) }
{
    match event {
        Event::Node(Subject::Tree(tree)) => tree_written(unit, tree, depth),
        Event::Node(Subject::DerefOf(_)) => None,
        Event::Declare(declared) => Some(local_of(*declared)),
        Event::Branch(_, _) => None,
        Event::Exit { .. } => None,
    }
}
