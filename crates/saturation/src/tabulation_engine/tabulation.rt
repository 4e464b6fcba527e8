//! The rules of tabulation for path edges (Reps, Horwitz and Sagiv: Precise interprocedural dataflow analysis via graph reachability, POPL
//! 1995): what follows from one edge alone, and from a caller's edge at a call with one at an end of its callee. The tuples at the end of a
//! callee are computed once, as its edge is entered, and serve all who wait for that end.

use crate::tabulation_engine::caching_engine::CachingEngine;
use crate::tabulation_engine::engine::Engine;
use edge_rules::{begin, behind, end_of, next_edges, waits, wake};
use least_set::{CachingRules, Entered};
use path_edges::{Context, Edge, Waiter};
use std::alloc::{AllocError, Global};

impl<'t, 'u, 'a> CachingRules for CachingEngine<'_, 't, 'u, 'a> {
    ghost use Rattle.function_tables.specs.EngineTables.Known.{checker_in, texts_in, graphs_in, objects_in};
    ghost use Rattle.path_edges.specs.Relations.{Begins, LeadsTo, WaitsAt, IsEndOf, IsWoken};

    type Member = Edge;

    type Context = Context;

    type Waiter = Waiter;

    type Source = Engine<'t, 'u, 'a>;

    ghost source = { λ c. c.engine.now };

    ghost asked = { λ c. 0 };

    ghost counting = { λ s m n. n };

    ghost base = { λ e d. ∥ Begins (checker_in e.tables) (texts_in e.tables) (graphs_in e.tables) (objects_in e.tables) d ∥₁ };

    ghost goes = { λ e a d. ∥ LeadsTo (checker_in e.tables) (texts_in e.tables) (graphs_in e.tables) (objects_in e.tables) a d ∥₁ };

    ghost waits = { λ e a k w. ∥ WaitsAt (checker_in e.tables) (texts_in e.tables) (graphs_in e.tables) (objects_in e.tables) a k w ∥₁ };

    ghost ends = { λ e a k. ∥ IsEndOf (checker_in e.tables) (texts_in e.tables) (graphs_in e.tables) (objects_in e.tables) a k ∥₁ };

    ghost wakes = { λ e w a d. ∥ IsWoken (checker_in e.tables) (texts_in e.tables) (graphs_in e.tables) (objects_in e.tables) w a d ∥₁ };

    fn begin(&self, alloc: Global) -> Result<Vec<Edge>, AllocError> {
        begin(alloc, &self.engine.tables)
    }

    fn enter(
        &mut self,
        alloc: Global,
        member: &Edge,
    ) -> Result<Entered<Edge, Context, Waiter>, AllocError> {
        let tables = &self.engine.tables;
        let tuples = behind(alloc, tables, member)?;
        let next = next_edges(alloc, tables, member, tuples.as_slice())?;
        let waits = waits(alloc, tables, member, tuples.as_slice())?;
        let end = end_of(tables, member);
        if end.is_some() {
            self.keep(member, tuples)?;
        }
        Ok(Entered { next, waits, end })
    }

    fn wake(&self, alloc: Global, waiter: &Waiter, end: &Edge) -> Result<Vec<Edge>, AllocError> {
        let tables = &self.engine.tables;
        match self.kept(end) {
            Some(kept) => wake(alloc, tables, waiter, end, kept),
            None => {
                let tuples = behind(alloc, tables, end)?;
                wake(alloc, tables, waiter, end, tuples.as_slice())
            }
        }
    }
}
