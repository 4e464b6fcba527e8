//! How a callee is entered.

ghost use Rattle.std.specs.Prelude.{◌≡◌, ◌≤◌, IfOk};
ghost use Rattle.path_model.specs.CheckerModel.Happenings.{Function, Site as Form};
ghost use Rattle.path_model.specs.CheckerModel.Reports.{Checker};
ghost use Rattle.edge_rules.specs.Entries.{IsEntry};
ghost use Rattle.flow_graph.specs.Seen.{graph_in};
ghost use Rattle.least_set.specs.Logs.{IsExactly, SomeGives};
ghost use Rattle.block_flows.specs.TupleFlows.Passed.{IsSite};

use crate::callees::Callee;
use block_flows::into_call;
use indexmap::IndexSet;
use objects::Object;
use path_edges::{Edge, entered};
use refine_restore::Site;
use state_tuples::Tuple;
use std::alloc::{AllocError, Global};

// The first edges of a callee where this tuple stands before the call, in a function that follows these objects.
fn entered_with(
    alloc: Global,
    site: &Site,
    depth: u8,
    caller_objects: &IndexSet<Object>,
    callee: &Callee,
    tuple: &Tuple,
) -> Result<Vec<Edge>, AllocError>
    requires { depth ≤ 8 }
    ensures { IfOk result (λ list. (c : Checker) (s : Form) (h : Function) → c.depth ≡ depth → IsSite depth site.now s → IsExactly list.items (IsEntry c s h caller_objects.now.keys callee.now.frame.objects.now.keys callee.now.number (graph_in callee.now.frame.table.now.graph.now).entry tuple.now)) }
{
    let callee_objects = callee.frame.objects;
    let entries = into_call(alloc, site, depth, tuple, caller_objects, callee_objects)?;
    entered(
        alloc,
        callee.number,
        callee.frame.table.graph.entry(),
        entries.as_slice(),
    )
}

/// The first edges of a callee where these tuples stand before the call, in a function that follows these objects.
pub(crate) fn entered_edges(
    alloc: Global,
    site: &Site,
    depth: u8,
    caller_objects: &IndexSet<Object>,
    callee: &Callee,
    tuples: &[Tuple],
) -> Result<Vec<Edge>, AllocError>
    requires { depth ≤ 8 }
    ensures { IfOk result (λ list. (c : Checker) (s : Form) (h : Function) → c.depth ≡ depth → IsSite depth site.now s → IsExactly list.items (SomeGives (IsEntry c s h caller_objects.now.keys callee.now.frame.objects.now.keys callee.now.number (graph_in callee.now.frame.table.now.graph.now).entry) tuples.now)) }
{
    let mut edges = Vec::new(alloc);
    for tuple in tuples {
        let mut found = entered_with(alloc, site, depth, caller_objects, callee, tuple)?;
        edges.append(&mut found)?;
    }
    Ok(edges)
}
