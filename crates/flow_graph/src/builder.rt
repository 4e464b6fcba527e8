//! Blocks, put behind those that are there. A graph is built from its end, so that a block leads to blocks that are there
//! already; the head of a loop alone is reserved, and filled once its condition is built.

ghost use Rattle.std.specs.Prelude.{◌≡◌, ◌<◌, [], ◌∷◌, length, map, IfOk, OnOk};
ghost use Rattle.c_tree.specs.Views.{node_of};
ghost use Rattle.flow_graph.specs.CPaths.Events.{Exited};
ghost use Rattle.flow_graph.specs.CPaths.Graphs.{Stops};
ghost use Rattle.flow_graph.specs.CPaths.TreeForms.{itself, call_itself};
ghost use Rattle.flow_graph.specs.CPaths.Building.{Settled, Waits, push, lead, filled, split_blocks, row_blocks};
ghost use Rattle.flow_graph.specs.Values.{event_of, sketch_of, drafts_of, way_of, made};

use crate::draft::{Draft, DraftEnd, Way};
use crate::event::Event;
use crate::graph::End;
use c_tree::{Place, Subject, Tree};
use std::alloc::{AllocError, Global};

/// The blocks of a function, while they are built.
#[derive(Drop)]
pub(crate) struct Builder<'a> {
    pub(crate) alloc: Global,
    pub(crate) drafts: Vec<Draft<'a>>,
}

impl<'a> Builder<'a> {
    /// No blocks.
    pub(crate) fn new(alloc: Global) -> Builder<'a>
        ensures { result.drafts.items ≡ [] }
    {
        Builder {
            alloc,
            drafts: Vec::new(alloc),
        }
    }

    /// One more block. Its number is the number of those before.
    pub(crate) fn push(&mut self, draft: Draft<'a>) -> Result<u32, AllocError>
        ensures { IfOk result (λ b. made self.new.drafts.items b ≡ push (drafts_of self.old.drafts.items) (map event_of draft.entry.events.items) (sketch_of draft.entry.end)) }
    {
        let count = self.drafts.len();
        if count >= u32::MAX as usize {
            return Err(AllocError);
        }
        self.drafts.push(draft)?;
        Ok(count as u32)
    }

    /// One more block without events.
    pub(crate) fn silent(&mut self, end: DraftEnd<'a>) -> Result<u32, AllocError>
        ensures { IfOk result (λ b. made self.new.drafts.items b ≡ push (drafts_of self.old.drafts.items) [] (sketch_of end.entry)) }
    {
        let events = Vec::new(self.alloc);
        let b = self.push(Draft { events, end })?;
        Ok(b)
    }

    /// One more block with one event, which leads to one other block.
    pub(crate) fn lead(&mut self, event: Event<'a>, next: u32) -> Result<u32, AllocError>
        ensures { IfOk result (λ b. made self.new.drafts.items b ≡ lead (drafts_of self.old.drafts.items) (event_of event.entry ∷ []) next) }
    {
        let events = vec![in self.alloc; event]?;
        let targets = vec![in self.alloc; next]?;
        let b = self.push(Draft {
            events,
            end: DraftEnd::Known(End::Goto(targets)),
        })?;
        Ok(b)
    }

    /// One more block, in which the function ends at this place.
    pub(crate) fn exit(&mut self, function: Place, place: Place) -> Result<u32, AllocError>
        ensures { IfOk result (λ b. made self.new.drafts.items b ≡ push (drafts_of self.old.drafts.items) (Exited function place ∷ []) (Settled Stops)) }
    {
        let events = vec![in self.alloc; Event::Exit { function, place }]?;
        let b = self.push(Draft {
            events,
            end: DraftEnd::Known(End::Exit),
        })?;
        Ok(b)
    }

    /// Where a tree leads once it has its value: as a condition to two branches.
    pub(crate) fn split(&mut self, tree: &'a Tree<'a>, way: Way) -> Result<u32, AllocError>
        ensures { IfOk result (λ b. made self.new.drafts.items b ≡ split_blocks (node_of tree.now) (way_of way) (drafts_of self.old.drafts.items)) }
    {
        match way {
            Way::To(next) => Ok(next),
            Way::ToEither { holds, fails } => {
                let at_holds = self.lead(Event::Branch(tree, true), holds)?;
                let at_fails = self.lead(Event::Branch(tree, false), fails)?;
                let targets = vec![in self.alloc; at_holds, at_fails]?;
                let b = self.silent(DraftEnd::Known(End::Goto(targets)))?;
                Ok(b)
            }
        }
    }

    /// The tree itself, behind all that it consists of.
    pub(crate) fn itself(&mut self, tree: &'a Tree<'a>, next: u32) -> Result<u32, AllocError>
        ensures { IfOk result (λ b. made self.new.drafts.items b ≡ row_blocks (itself (node_of tree.now)) next (drafts_of self.old.drafts.items)) }
    {
        let b = self.lead(Event::Node(Subject::Tree(tree)), next)?;
        Ok(b)
    }

    /// A call itself, which is marked where its callee has a body.
    pub(crate) fn call_itself(
        &mut self,
        has_body: bool,
        tree: &'a Tree<'a>,
        next: u32,
    ) -> Result<u32, AllocError>
        ensures { IfOk result (λ b. made self.new.drafts.items b ≡ row_blocks (call_itself has_body (node_of tree.now)) next (drafts_of self.old.drafts.items)) }
    {
        if !has_body {
            let b = self.itself(tree, next)?;
            return Ok(b);
        }
        let call = self.silent(DraftEnd::Known(End::Call { site: tree, next }))?;
        let b = self.itself(tree, call)?;
        Ok(b)
    }

    /// One more block, for the head of a loop.
    pub(crate) fn reserve(&mut self) -> Result<u32, AllocError>
        ensures { IfOk result (λ b. made self.new.drafts.items b ≡ push (drafts_of self.old.drafts.items) [] Waits) }
    {
        let b = self.silent(DraftEnd::Open)?;
        Ok(b)
    }

    /// The head of a loop, which was reserved, leads to its condition, or to its body if it has none.
    pub(crate) fn fill(&mut self, head: u32, first: u32) -> Result<(), AllocError>
        requires { head < length self.old.drafts.items }
        ensures { OnOk result (drafts_of self.new.drafts.items ≡ filled (drafts_of self.old.drafts.items) head first) }
    {
        let events = Vec::new(self.alloc);
        let targets = vec![in self.alloc; first]?;
        self.drafts[head as usize] = Draft {
            events,
            end: DraftEnd::Known(End::Goto(targets)),
        };
        Ok(())
    }
}
