//! The calls in bodies of functions.

ghost use Rattle.std.specs.Prelude.{◌≡◌, ◌↔◌, true, IfOk, Contains};
ghost use Rattle.flow_graph.specs.CPaths.Events.{called};
ghost use Rattle.flow_graph.specs.CPaths.Occurrences.{InFlow};
ghost use Rattle.flow_graph.specs.CPaths.TreeFlow.{flow_of};
ghost use Rattle.c_tree.specs.declared.place.Place.{Place};
ghost use Rattle.c_tree.specs.Node.{Node};
ghost use Rattle.c_tree.specs.Views.{node_of};
ghost use Rattle.root_functions.specs.CallSites.Calls.{calls_of, nodes_at};

use crate::call_sites::calls::Calls;
use c_tree::Tree;
use flow_graph::Facts;
use std::alloc::{AllocError, Global};

/// Each call that is evaluated in a body, or in another statement, also where no path comes. What isn't evaluated has none: the operand
/// of `sizeof`, array bounds, values of `case`, and the initial values of variables without automatic storage (ISO 9899:1990,
/// 6.3.3.4, 6.5.7, 6.6.4.2). They stand in the order of the text, the calls in a callee and in arguments before the call itself.
/// The work is linear in the size of the tree.
pub fn calls_in<'a, F: Facts>(
    alloc: Global,
    facts: &F,
    body: &'a Tree<'a>,
) -> Result<Vec<&'a Tree<'a>>, AllocError>
    ensures evaluated { IfOk result (λ calls. (f : Place) (n : Node) → (F.known facts.now).has_body n ≡ true → Contains (nodes_at calls.items) n ↔ InFlow (called n) (flow_of (F.known facts.now) f (node_of body.now))) }
    ensures in_order { IfOk result (λ calls. nodes_at calls.items ≡ calls_of (F.known facts.now) (node_of body.now)) }
{
    let mut calls = Calls::new(alloc);
    calls.statement(facts, body)?;
    Ok(calls.found)
}
