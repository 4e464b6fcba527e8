//! What events write over: assignments, initial values and declarations (ISO 9899:1990, 6.3.2.4, 6.3.3.1, 6.3.16, 6.5.7).

ghost use Rattle.std.specs.Prelude.{◌≡◌, ◌≤◌, is_some};
ghost use Rattle.std.specs.Option.{option_map};
ghost use Rattle.c_objects.specs.ObjectOf.{object_of};
ghost use Rattle.c_tree.specs.Views.{node_of};
ghost use Rattle.path_model.specs.CheckerModel.Moves.{moving, assigned, stepped, initialized, tree_move, local_of, move_of};
ghost use Rattle.type_values.specs.Vars.{cvar_of};
ghost use Rattle.flow_graph.specs.Values.{event_of, variable_in};
ghost use Rattle.hole_matching.specs.Subjects.{is_braced};
ghost use Rattle.objects.specs.Units.{facts_in};
ghost use Rattle.synonyms_kills.specs.Values.{move_in};

use c_tree::{AssignOp, Initializer, Kind, Operation, Subject, Tree, UnaryOp};
use flow_graph::{Event, Variable};
use objects::{Object, object_of, variable};
use type_values::Var;
use typed_unit::TypedUnit;

/// A path that is written over, and the object that is copied to it, if it has one.
#[derive(Drop)]
pub(crate) struct Move {
    pub(crate) to: Object,
    pub(crate) from: Option<Object>,
}

// To an object that is a path; nothing moves where there is none, or the address of one.
fn moving(to: Option<Object>, from: Option<Object>) -> Option<Move>
    ensures { option_map move_in result ≡ moving to from }
{
    let to = to?;
    if to.is_address() {
        return None;
    }
    Some(Move { to, from })
}

// `L = R` copies, and `L += R` and the like only write over.
fn assigned(unit: &TypedUnit, op: AssignOp, left: &Tree, right: &Tree, depth: u8) -> Option<Move>
    requires { depth ≤ 8 }
    ensures { option_map move_in result ≡ assigned (facts_in unit.now) depth op (node_of left.now) (node_of right.now) }
{
    let to = object_of(unit, left, depth);
    match op {
        AssignOp::Plain => moving(to, object_of(unit, right, depth)),
        _ => moving(to, None),
    }
}

// `++` and `--` write over their operand, and no other operator of one does.
fn stepped(unit: &TypedUnit, op: UnaryOp, operand: &Tree, depth: u8) -> Option<Move>
    requires { depth ≤ 8 }
    ensures { option_map move_in result ≡ stepped (facts_in unit.now) depth op (node_of operand.now) }
{
    match op {
        UnaryOp::PostInc | UnaryOp::PostDec | UnaryOp::PreInc | UnaryOp::PreDec => {
            moving(object_of(unit, operand, depth), None)
        }
        _ => None,
    }
}

// Whether an initial value stands in braces.
fn is_braced(initial: &Tree) -> bool
    ensures { result ≡ is_braced (node_of initial.now) }
{
    match &initial.kind {
        Kind::Initializer(Initializer::Braces { .. }) => true,
        _ => false,
    }
}

// A name with an initial value; braces are no object.
fn initialized(unit: &TypedUnit, name: &Tree, initial: &Tree, depth: u8) -> Option<Move>
    requires { depth ≤ 8 }
    ensures { option_map move_in result ≡ initialized (facts_in unit.now) depth (node_of name.now) (node_of initial.now) }
{
    let to = object_of(unit, name, depth);
    if is_braced(initial) {
        moving(to, None)
    } else {
        moving(to, object_of(unit, initial, depth))
    }
}

// What an evaluated tree writes over.
fn tree_move(unit: &TypedUnit, tree: &Tree, depth: u8) -> Option<Move>
    requires { depth ≤ 8 }
    ensures { option_map move_in result ≡ tree_move (facts_in unit.now) depth (node_of tree.now) }
{
    match &tree.kind {
        Kind::Operation(Operation::Assign { op, left, right }) => {
            assigned(unit, *op, left, right, depth)
        }
        Kind::Operation(Operation::Unary { op, operand }) => stepped(unit, *op, operand, depth),
        Kind::Initializer(Initializer::Init { name, initial, .. }) => {
            initialized(unit, name, initial, depth)
        }
        _ => None,
    }
}

// The variable of a declaration that has been reached.
fn local_of(declared: Variable) -> Var
    ensures { cvar_of result ≡ local_of (variable_in declared) }
{
    Var::Local {
        file: declared.place.file,
        token: declared.place.token,
        name: declared.name,
    }
}

/// What an event writes over, at this depth of objects. A declaration writes over its variable; a condition, an exit and the `*x` in
/// `x->f` write over nothing.
pub(crate) fn move_of(unit: &TypedUnit, event: &Event, depth: u8) -> Option<Move>
    requires { depth ≤ 8 }
    ensures { option_map move_in result ≡ move_of (facts_in unit.now) depth (event_of event.now) }
{
    match event {
        Event::Node(Subject::Tree(tree)) => tree_move(unit, tree, depth),
        Event::Node(Subject::DerefOf(_)) => None,
        Event::Declare(declared) => moving(Some(variable(local_of(*declared))), None),
        Event::Branch(_, _) => None,
        Event::Exit { .. } => None,
    }
}

/// Whether an event writes over anything, at this depth of objects.
pub fn is_move(event: &Event, unit: &TypedUnit, depth: u8) -> bool
    requires { depth ≤ 8 }
    ensures { result ≡ is_some (move_of (facts_in unit.now) depth (event_of event.now)) }
{
    move_of(unit, event, depth).is_some()
}
