//! What rows of traces know of types and scopes.

use c_tree::{Declarator, Kind, Tree};
use flow_graph::{Facts, Variable};

/// Each call calls a function with a body, and each plain declarator declares a variable.
pub struct PlainFacts;

impl Facts for PlainFacts {
    ghost use Rattle.rows.specs.Flows.{plain_facts};

    ghost known = { λ _. plain_facts };

    fn has_body(&self, _call: &Tree) -> bool {
        true
    }

    fn variable_of(&self, declarator: &Tree) -> Option<Variable> {
        match &declarator.kind {
            Kind::Declarator(Declarator::Named { name, .. }) => Some(Variable {
                place: name.place,
                name: name.name,
            }),
            _ => None,
        }
    }
}
