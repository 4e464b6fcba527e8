//! Objects that are saved over a call, behind it.

ghost use Rattle.std.specs.Prelude.{◌≡◌};
ghost use Rattle.path_edges.specs.EdgeSteps.Steps.{put_back, woken_edge};

use crate::edge_steps::copies::copy_context;
use crate::edges::{Edge, Waiter};
use objects::{Object, copy};
use state_tuples::Tuple;

// A saved object with its state, in the global state of a tuple.
fn put_back(tuple: &Tuple, object: &Object, state: Option<(u8, u16)>) -> Tuple
    ensures { result ≡ put_back tuple.now object.now state }
{
    Tuple {
        global: tuple.global,
        object: Some(copy(object)),
        state,
    }
}

/// Where a waiter goes on with the object that was saved, at an end of its callee with a tuple.
pub fn put_back_edge(
    waiter: &Waiter,
    object: &Object,
    state: Option<(u8, u16)>,
    tuple: &Tuple,
) -> Edge
    ensures { result ≡ woken_edge waiter.now (put_back tuple.now object.now state) }
{
    Edge {
        context: copy_context(&waiter.context),
        is_root: waiter.is_root,
        block: waiter.behind,
        tuple: put_back(tuple, object, state),
    }
}
