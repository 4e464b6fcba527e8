//! Where path edges begin.

ghost use Rattle.std.specs.Prelude.{IfOk};
ghost use Rattle.path_edges.specs.EdgeSteps.Steps.{BeginsIn};
ghost use Rattle.least_set.specs.Logs.{IsExactly, SomeGives};
ghost use Rattle.path_edges.specs.Relations.{Begins};
ghost use Rattle.function_tables.specs.EngineTables.Known.{AreKnown, IsFrame, checker_in, texts_in, graphs_in, objects_in};

use call_graph::FnId;
use function_tables::{Frame, Tables};
use path_edges::{Edge, first_edges};
use std::alloc::{AllocError, Global};

// The first edges of a root's own frame, in a function that is there.
fn first_in(
    alloc: Global,
    tables: &Tables,
    frame: &Frame,
    function: u32,
) -> Result<Vec<Edge>, AllocError>
    ensures { IfOk result (λ list. AreKnown tables.now → IsFrame tables.now function frame.now → IsExactly list.items (BeginsIn (checker_in tables.now) (texts_in tables.now) (graphs_in tables.now) (objects_in tables.now) function)) }
{
    let objects = frame.objects.as_slice();
    first_edges(alloc, function, frame.table.graph.entry(), objects)
}

// The first edges of the own frame of a root.
fn root_edges(alloc: Global, tables: &Tables, root: FnId) -> Result<Vec<Edge>, AllocError>
    ensures { IfOk result (λ list. AreKnown tables.now → IsExactly list.items (BeginsIn (checker_in tables.now) (texts_in tables.now) (graphs_in tables.now) (objects_in tables.now) root.number)) }
{
    match tables.frame(root.number) {
        Some(frame) => first_in(alloc, tables, &frame, root.number),
        None => Ok(Vec::new(alloc)),
    }
}

// Those of these roots.
fn edges_of_roots(alloc: Global, tables: &Tables, roots: &[FnId]) -> Result<Vec<Edge>, AllocError>
    ensures { IfOk result (λ list. AreKnown tables.now → IsExactly list.items (SomeGives (λ f. BeginsIn (checker_in tables.now) (texts_in tables.now) (graphs_in tables.now) (objects_in tables.now) f.number) roots.now)) }
{
    let mut edges = Vec::new(alloc);
    for root in roots {
        let mut found = root_edges(alloc, tables, *root)?;
        edges.append(&mut found)?;
    }
    Ok(edges)
}

/// The base: for each root the first block of its own frame, in the first global state without an object, and with each object that is
/// followed there, unknown.
pub fn begin(alloc: Global, tables: &Tables) -> Result<Vec<Edge>, AllocError>
    ensures { IfOk result (λ list. AreKnown tables.now → IsExactly list.items (Begins (checker_in tables.now) (texts_in tables.now) (graphs_in tables.now) (objects_in tables.now))) }
{
    edges_of_roots(alloc, tables, tables.roots)
}
