//! An engine that keeps what is asked for again.

ghost use Rattle.std.specs.Prelude.{◌≡◌, IfSome};
ghost use Rattle.path_edges.specs.EdgeSteps.Steps.{StandsBehind};
ghost use Rattle.function_tables.specs.EngineTables.Known.{AreKnown, checker_in, texts_in, graphs_in, objects_in};
ghost use Rattle.indexmap.specs.IndexMap.{get};
ghost use Rattle.least_set.specs.Logs.{IsExactly};
ghost use Rattle.path_edges.specs.Ways.Equality.{edges_agree};
ghost use Rattle.saturation.specs.TabulationEngine.KeptTuples.{AreBehind};

use crate::tabulation_engine::engine::Engine;
use indexmap::IndexMap;
use path_edges::{Edge, copy_context, copy_tuple};
use state_tuples::Tuple;
use std::alloc::{AllocError, Global};

/// An engine with the tuples at the ends of the blocks of some edges. An edge with which a called frame ends is met by all who wait for
/// that end, and each of them asks for its tuples.
#[derive(Drop)]
pub(crate) struct CachingEngine<'e, 't, 'u, 'a> {
    pub(crate) engine: &'e Engine<'t, 'u, 'a>,
    ended: IndexMap<Edge, Vec<Tuple>>,
    ghost exact: { ∥ AreBehind engine.now.tables (get edges_agree ended) ∥₁ },
}

// An equal edge.
fn copy_edge(edge: &Edge) -> Edge
    ensures { result ≡ edge.now }
{
    Edge {
        context: copy_context(&edge.context),
        is_root: edge.is_root,
        block: edge.block,
        tuple: copy_tuple(&edge.tuple),
    }
}

impl<'e, 't, 'u, 'a> CachingEngine<'e, 't, 'u, 'a> {
    /// An engine that has kept nothing yet. No memory is taken.
    pub(crate) fn new(alloc: Global, engine: &'e Engine<'t, 'u, 'a>) -> Self
        ensures { result.engine ≡ engine.entry }
    {
        CachingEngine {
            engine,
            ended: IndexMap::new(alloc),
        }
    }

    /// Keeps the tuples at the end of an edge's block.
    pub(crate) fn keep(&mut self, edge: &Edge, tuples: Vec<Tuple>) -> Result<(), AllocError>
        requires { AreKnown self.old.engine.now.tables → IsExactly tuples.items (StandsBehind (checker_in self.old.engine.now.tables) (texts_in self.old.engine.now.tables) (graphs_in self.old.engine.now.tables) (objects_in self.old.engine.now.tables) edge.now) }
        ensures { self.new.engine ≡ self.old.engine }
    {
        self.ended.insert(copy_edge(edge), tuples)?;
        Ok(())
    }

    /// The tuples at the end of an edge's block, if they were kept.
    pub(crate) fn kept(&self, edge: &Edge) -> Option<&[Tuple]>
        ensures { IfSome result (λ tuples. ∥ IsExactly tuples.now (StandsBehind (checker_in self.now.engine.now.tables) (texts_in self.now.engine.now.tables) (graphs_in self.now.engine.now.tables) (objects_in self.now.engine.now.tables) edge.now) ∥₁) }
    {
        match self.ended.get(edge) {
            Some(tuples) => Some(tuples.as_slice()),
            None => None,
        }
    }
}
