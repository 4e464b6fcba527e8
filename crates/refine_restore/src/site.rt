//! Calls, as far as they pass states.

ghost use Rattle.std.specs.Prelude.{◌≡◌, ℕ};
ghost use Rattle.c_tree.specs.Views.{node_of, nodes_in};
ghost use Rattle.path_model.specs.CheckerModel.Calls.{objects_of, actuals_of};
ghost use Rattle.c_objects.specs.Facts.{Facts};

use c_tree::{Kind, Operation, Tree};
use type_values::Var;
use typed_unit::TypedUnit;

/// A call with the formals of its callee.
#[derive(Clone, Copy)]
pub struct Site<'s, 'a> {
    /// The call.
    pub call: &'s Tree<'a>,
    /// The unit in which it stands.
    pub unit: &'s TypedUnit<'a>,
    /// The variables that the callee's parameters are; `None` for one without a name.
    pub formals: &'s [Option<Var>],
}

/// The actuals of a call.
#[tactic(auto, using(c_tree::proofs::Rows::nodes_out))]
pub(crate) fn actuals<'a>(call: &Tree<'a>) -> &'a [Tree<'a>]
    ensures { (u : Facts) (depth : ℕ) → objects_of u depth (nodes_in result.now) ≡ actuals_of u depth (node_of call.now) }
{
    match &call.kind {
        Kind::Operation(Operation::Call { arguments, .. }) => arguments.all,
        _ => &[],
    }
}
