//! The log: each member once, in the order in which they were found.

ghost use Rattle.std.specs.Prelude.{◌≡◌, ◌<◌, List, IfOk, OnErr, OnOk, Contains, Some, false, not, length, slice_get};
ghost use Rattle.std.specs.List.{list_any, IsDistinct};
ghost use Rattle.indexmap.specs.IndexSet.{insert_key};
ghost use Rattle.least_set.specs.Logs.{Adds};
ghost use Rattle.least_set.specs.Found.{found_member};

use crate::keys::Key;
use indexmap::IndexSet;
use std::alloc::AllocError;

/// A member as a log gives it: the one that it holds, or one that it has made of what it holds.
#[derive(Drop)]
pub enum Found<'a, M> {
    Held(&'a M),
    Made(M),
}

impl<M> Found<'_, M> {
    /// The member.
    pub fn member(&self) -> &M
        ensures { result.now ≡ found_member self.now }
    {
        match self {
            Found::Held(member) => member,
            Found::Made(member) => member,
        }
    }
}

/// A set that keeps its members in the order in which they came, each once: what the driver asks of an `IndexSet`, with the
/// clauses of that. Where members have a shape of their own, a log may hold them in less memory.
pub trait Log<M: Key>: Drop {
    // the members, in order
    ghost keys: { Self → List M };

    /// The number of members.
    fn len(&self) -> usize
        ensures len { result ≡ length (keys self.now) }
        ensures unique { IsDistinct M.eq (keys self.now) };

    /// The member at an index.
    fn get(&self, index: usize) -> Found<'_, M>
        requires { index < length (keys self.now) }
        ensures { slice_get (keys self.now) index ≡ Some (found_member result) };

    /// Inserts a member last and returns `true`, or `false` if it is there. Only a new one can be refused, and then the
    /// members stay.
    fn insert(&mut self, member: M) -> Result<bool, AllocError>
        ensures added { IfOk result (λ added. added ≡ not (list_any (M.eq member) (keys self.old))) }
        ensures last { OnOk result (keys self.new ≡ insert_key M.eq (keys self.old) member) }
        ensures err { OnErr result (keys self.new ≡ keys self.old) }
        ensures absent { OnErr result (list_any (M.eq member) (keys self.old) ≡ false) };
}

impl<M: Key> Log<M> for IndexSet<M> {
    ghost keys = { λ log. log.keys };

    fn len(&self) -> usize {
        IndexSet::len(self)
    }

    fn get(&self, index: usize) -> Found<'_, M> {
        Found::Held(&self.as_slice()[index])
    }

    fn insert(&mut self, member: M) -> Result<bool, AllocError> {
        let added = IndexSet::insert(self, member)?;
        Ok(added)
    }
}

/// Puts last those that aren't there yet.
pub(crate) fn add_all<M: Key, L: Log<M>>(log: &mut L, found: Vec<M>) -> Result<(), AllocError>
    ensures { IfOk result (λ _. Adds (Contains found.items) (L.keys log.old) (L.keys log.new)) }
{
    for member in found {
        log.insert(member)?;
    }
    Ok(())
}
