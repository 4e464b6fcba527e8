//! The calls in declarations of blocks (ISO 9899:1990, 6.5, 6.5.7): those in initial values of variables with automatic storage.

ghost use Rattle.std.specs.Prelude.{◌≡◌, OnOk};
ghost use Rattle.c_tree.specs.Views.{node_of, nodes_of, outer_shape};
ghost use Rattle.root_functions.specs.CallSites.Calls.{nodes_at, with_declarator, with_declarators, with_outer, with_declaration};

use crate::call_sites::calls::Calls;
use c_tree::{Initializer, Kind, Outer, Tree, Trees};
use flow_graph::Facts;
use std::alloc::AllocError;

impl<'a> Calls<'a> {
    /// Adds the calls in a declarator with its initial value.
    fn declarator<F: Facts>(&mut self, facts: &F, tree: &'a Tree<'a>) -> Result<(), AllocError>
        ensures { OnOk result (nodes_at self.new.found.items ≡ with_declarator (F.known facts.now) (nodes_at self.old.found.items) (node_of tree.now)) }
    {
        match &tree.kind {
            Kind::Initializer(
                Initializer::Init {
                    declarator,
                    initial,
                    ..
                },
            ) => match facts.variable_of(declarator) {
                None => Ok(()),
                Some(_) => self.expression(initial),
            },
            _ => Ok(()),
        }
    }

    /// Those in the declarators of a declaration, in order.
    fn declarators<F: Facts>(&mut self, facts: &F, trees: &Trees<'a>) -> Result<(), AllocError>
        ensures { OnOk result (nodes_at self.new.found.items ≡ with_declarators (F.known facts.now) (nodes_at self.old.found.items) (nodes_of trees.now)) }
    {
        for tree in trees.all {
            self.declarator(facts, tree)?;
        }
        Ok(())
    }

    /// Those in a declaration.
    pub(crate) fn outer<F: Facts>(&mut self, facts: &F, kind: &Outer<'a>) -> Result<(), AllocError>
        ensures { OnOk result (nodes_at self.new.found.items ≡ with_outer (F.known facts.now) (nodes_at self.old.found.items) (outer_shape kind.now)) }
    {
        match kind {
            Outer::Declaration { declarators, .. } => self.declarators(facts, declarators),
            Outer::Function { .. } | Outer::Empty => Ok(()),
        }
    }

    /// Those in the declaration in the head of a `for` (ISO 9899:1999, 6.8.5).
    pub(crate) fn declaration<F: Facts>(
        &mut self,
        facts: &F,
        tree: &'a Tree<'a>,
    ) -> Result<(), AllocError>
        ensures { OnOk result (nodes_at self.new.found.items ≡ with_declaration (F.known facts.now) (nodes_at self.old.found.items) (node_of tree.now)) }
    {
        match &tree.kind {
            Kind::Outer(kind) => self.outer(facts, kind),
            _ => Ok(()),
        }
    }
}
