//! What the events of a function ask of types and scopes.

ghost use Rattle.std.specs.Prelude.{◌≡◌};
ghost use Rattle.std.specs.Option.{option_map};
ghost use Rattle.c_tree.specs.Views.{node_of};
ghost use Rattle.flow_graph.specs.CPaths.Facts.{Facts as KnownFacts};
ghost use Rattle.flow_graph.specs.Values.{variable_in};

use crate::event::Variable;
use c_tree::Tree;

/// What is known of the trees of a unit.
pub trait Facts {
    /// What the answers are, for every node.
    ghost known: { Self → KnownFacts };

    /// Whether the callee of this call, without parentheses, is the name of a function with a body, in its own file or with
    /// external linkage in another (ISO 9899:1990, 6.1.2.2, 6.3.2.2).
    fn has_body(&self, call: &Tree) -> bool
        ensures { result ≡ (known self.now).has_body (node_of call.now) };

    /// The variable that this declarator of a declaration declares, if it has automatic storage (6.1.2.4). There is none for a
    /// `static` or an `extern` variable, a function, or the name of a type.
    fn variable_of(&self, declarator: &Tree) -> Option<Variable>
        ensures { option_map variable_in result ≡ (known self.now).variable_of (node_of declarator.now) };
}
