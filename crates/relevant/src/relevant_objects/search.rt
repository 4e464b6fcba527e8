//! The search for relevant objects.

ghost use Rattle.std.specs.Prelude.{◌≤◌, IfOk, Contains};
ghost use Rattle.least_set.specs.Logs.{IsExactly, IsOnce};
ghost use Rattle.least_set.specs.OnePremise.{Least};
ghost use Rattle.relevant.specs.RelevantObjects.Links.{LinksFrom};

use crate::relevant_objects::rows::FunctionRow;
use crate::relevant_objects::steps::Links;
use indexmap::IndexSet;
use least_set::closure;
use objects::Object;
use std::alloc::{AllocError, Global};

/// All objects of functions to which some of these are linked, they themselves among them, each once. Functions have their positions as
/// their numbers. The only fault is want of memory.
pub fn relevant(
    alloc: Global,
    rows: &[FunctionRow],
    bound: &[(u32, Object)],
    depth: u8,
) -> Result<IndexSet<(u32, Object)>, AllocError>
    requires { depth ≤ 8 }
    ensures exact { IfOk result (λ found. IsExactly found.keys (Least (Contains bound.now) (LinksFrom depth rows.now))) }
    ensures once { IfOk result (λ found. IsOnce found.keys) }
{
    closure(alloc, &Links { rows, bound, depth })
}
