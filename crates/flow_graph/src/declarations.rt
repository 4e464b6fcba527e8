//! The blocks of declarations (ISO 9899:1990, 6.5, 6.5.7). A variable with automatic storage is declared, and then its initial
//! value is evaluated, in each declarator in turn; nothing else in a declaration gives events.

ghost use Rattle.std.specs.Prelude.{◌≡◌, IfOk};
ghost use Rattle.c_tree.specs.Views.{node_of, nodes_of, outer_shape};
ghost use Rattle.flow_graph.specs.CPaths.Forms.{done};
ghost use Rattle.flow_graph.specs.CPaths.TreeFlow.{declarator_then, declarators_row, outer_row, declaration_row};
ghost use Rattle.flow_graph.specs.CPaths.Building.{row_blocks};
ghost use Rattle.flow_graph.specs.Values.{drafts_of, made};

use crate::builder::Builder;
use crate::draft::Way;
use crate::event::Event;
use crate::facts::Facts;
use c_tree::{Initializer, Kind, Outer, Tree, Trees};
use std::alloc::AllocError;

impl<'a> Builder<'a> {
    /// A declarator, with or without an initial value.
    fn declarator<F: Facts>(
        &mut self,
        facts: &F,
        tree: &'a Tree<'a>,
        next: u32,
    ) -> Result<u32, AllocError>
        ensures { IfOk result (λ b. made self.new.drafts.items b ≡ row_blocks (declarator_then (F.known facts.now) (node_of tree.now) done) next (drafts_of self.old.drafts.items)) }
    {
        match &tree.kind {
            Kind::Initializer(Initializer::Init { declarator, .. }) => {
                let Some(variable) = facts.variable_of(declarator) else {
                    return Ok(next);
                };
                let initial = self.expression(facts, tree, Way::To(next))?;
                let b = self.lead(Event::Declare(variable), initial)?;
                Ok(b)
            }
            Kind::Declarator(_) => {
                let Some(variable) = facts.variable_of(tree) else {
                    return Ok(next);
                };
                let b = self.lead(Event::Declare(variable), next)?;
                Ok(b)
            }
            _ => Ok(next),
        }
    }

    /// The declarators of a declaration, in order.
    #[tactic(auto, using(crate::proofs::Steps::steps))]
    fn declarators<F: Facts>(
        &mut self,
        facts: &F,
        trees: &Trees<'a>,
        next: u32,
    ) -> Result<u32, AllocError>
        ensures { IfOk result (λ b. made self.new.drafts.items b ≡ row_blocks (declarators_row (F.known facts.now) (nodes_of trees.now)) next (drafts_of self.old.drafts.items)) }
    {
        let all = trees.all;
        let mut first = next;
        let mut left = all.len();
        while left > 0 {
            left -= 1;
            first = self.declarator(facts, &all[left], first)?;
        }
        Ok(first)
    }

    /// What stands at the outermost level of a file, or a declaration in a block.
    pub(crate) fn outer<F: Facts>(
        &mut self,
        facts: &F,
        kind: &Outer<'a>,
        next: u32,
    ) -> Result<u32, AllocError>
        ensures { IfOk result (λ b. made self.new.drafts.items b ≡ row_blocks (outer_row (F.known facts.now) (outer_shape kind.now)) next (drafts_of self.old.drafts.items)) }
    {
        match kind {
            Outer::Declaration { declarators, .. } => self.declarators(facts, declarators, next),
            Outer::Function { .. } | Outer::Empty => Ok(next),
        }
    }

    /// The declaration in the head of a `for` (ISO 9899:1999, 6.8.5).
    pub(crate) fn declaration<F: Facts>(
        &mut self,
        facts: &F,
        tree: &'a Tree<'a>,
        next: u32,
    ) -> Result<u32, AllocError>
        ensures { IfOk result (λ b. made self.new.drafts.items b ≡ row_blocks (declaration_row (F.known facts.now) (node_of tree.now)) next (drafts_of self.old.drafts.items)) }
    {
        match &tree.kind {
            Kind::Outer(kind) => self.outer(facts, kind, next),
            _ => Ok(next),
        }
    }
}
