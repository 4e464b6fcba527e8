//! What an engine goes over.

ghost use Rattle.std.specs.Prelude.{◌≤◌};

use crate::table::FunctionTable;
use call_graph::{FnId, Program};
use indexmap::IndexSet;
use metal_tree::Machine;
use mx_base::Names;
use objects::Object;

/// A program under a checker, with all that is computed of it before any path edge is.
#[derive(Drop)]
pub struct Tables<'t, 'u, 'a> {
    pub program: &'t Program<'u, 'a>,
    pub machine: &'t Machine<'u>,
    /// The place of the checker among those of the command, from 0 on.
    pub number: u16,
    /// The texts of all names.
    pub names: &'t Names,
    /// How many selectors an object may have, at most 8.
    pub depth: u8,
    /// The graph of each function and the rules of its events, by the function's number.
    pub functions: &'t [FunctionTable<'u, 'a>],
    /// The objects that are followed in each function, by its number.
    pub objects: &'t [IndexSet<Object>],
    pub roots: &'t [FnId],
    ghost shallow: { depth ≤ 8 },
}
