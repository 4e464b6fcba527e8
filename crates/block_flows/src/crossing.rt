//! The tuples at the end of a block.

ghost use Rattle.std.specs.Prelude.{◌≡◌, List, IfOk};
ghost use Rattle.block_flows.specs.Ends.{IsEnd};
ghost use Rattle.block_flows.specs.Events.{AreOfEvents};
ghost use Rattle.path_model.specs.CheckerModel.Happenings.{Function, Happening};
ghost use Rattle.path_model.specs.CheckerModel.Reports.{Checker};
ghost use Rattle.least_set.specs.Logs.{IsExactly, IsOnce};
ghost use Rattle.block_flows.specs.TupleFlows.Moved.{AreObjects};

use crate::fronts::{copies, first, next};
use crate::idle_events::{is_within, leaves_all};
use crate::sets::items;
use indexmap::IndexSet;
use objects::Object;
use state_tuples::{EventRules, Tuple};
use std::alloc::{AllocError, Global};

/// The tuples at the end of a block's events where this one stands at its head, in a root's own frame or in a called one, each once. The
/// rules are those of the events in their order; those that are followed are objects at the depth of the rules. Whether the tuple's own
/// object is followed is asked once: what it becomes is.
pub fn ends(
    alloc: Global,
    rules: &[EventRules],
    is_root: bool,
    tuple: &Tuple,
    followed: &IndexSet<Object>,
) -> Result<Vec<Tuple>, AllocError>
    ensures exact { IfOk result (λ list. (c : Checker) (f : Function) (hs : List Happening) → AreOfEvents c.machine c.depth f hs rules.now → AreObjects c.depth followed.now.keys → IsExactly list.items (IsEnd c hs f is_root followed.now.keys tuple.now)) }
    ensures once { IfOk result (λ list. IsOnce list.items) }
{
    let within = is_within(tuple, followed);
    let mut now = first(alloc, tuple)?;
    for event in rules {
        if leaves_all(event, within) {
            continue;
        }
        let left = items(&now);
        let behind = next(alloc, event, is_root, left, followed)?;
        now = behind;
    }
    let all = items(&now);
    copies(alloc, all)
}
