//! The members of structures and unions (ISO 9899:1990, 6.5.2.1).

ghost use Rattle.std.specs.Prelude.{◌≡◌, ℕ, ◌<◌, ◌++◌, [], ◌∷◌, cond, None, Some, IfOk, IsOk, MatchResult};
ghost use Rattle.type_rules.specs.Options.{or_else};
ghost use Rattle.indexmap.specs.IndexMap.{get, spare};
ghost use Rattle.unit_typing.specs.Members.{same_key, first_named, given_by, AreFiled};
ghost use Rattle.unit_typing.specs.Positions.{list_at};

use crate::items::item_at;
use crate::positions::{list_at, push_at};
use c_tree::Place;
use indexmap::IndexMap;
use std::alloc::{AllocError, Global};
use type_values::Ty;

/// A member of a structure or union.
#[derive(Clone, Copy)]
pub struct MemberEntry<'a> {
    /// The number of the structure or union.
    pub owner: u32,
    pub name: u32,
    /// Where its name stands.
    pub place: Place,
    pub ty: Ty<'a>,
}

/// Members in the order in which they came.
#[derive(Drop)]
pub(crate) struct Members<'a> {
    all: Vec<MemberEntry<'a>>,

    // The first position of each owner and name.
    first: IndexMap<(u32, u32), usize>,

    // The positions of each owner's members.
    positions: IndexMap<u32, Vec<usize>>,

    alloc: Global,

    ghost filed: { AreFiled (get same_key first) (list_at positions) all.items },
}

// Keeps the position of an owner's member of a name, unless there is one already.
fn note_first(
    first: &mut IndexMap<(u32, u32), usize>,
    owner: u32,
    name: u32,
    position: usize,
) -> Result<(), AllocError>
    ensures noted { IfOk result (λ _. (k : ℕ × ℕ) → get same_key first.new k ≡ or_else (get same_key first.old k) (cond (same_key (owner, name) k) (Some position) None)) }
    ensures room { 0 < spare first.old → IsOk result }
{
    match first.get(&(owner, name)).copied() {
        Some(_) => Ok(()),
        None => {
            first.insert((owner, name), position)?;
            Ok(())
        }
    }
}

impl<'a> Members<'a> {
    /// No members.
    pub fn new(alloc: Global) -> Self
        ensures { result.all.items ≡ [] }
    {
        Members {
            all: Vec::new(alloc),
            first: IndexMap::new(alloc),
            positions: IndexMap::new(alloc),
            alloc,
        }
    }

    /// The first member of a structure or union with a name.
    pub fn first_named(&self, owner: u32, name: u32) -> Option<MemberEntry<'a>>
        ensures { result ≡ first_named (owner, name) self.now.all.items }
    {
        match self.first.get(&(owner, name)).copied() {
            Some(position) => item_at(&self.all, position),
            None => None,
        }
    }

    /// Puts a member behind the others.
    pub fn push(&mut self, member: MemberEntry<'a>) -> Result<(), AllocError>
        ensures { MatchResult result (λ _. self.new.all.items ≡ self.old.all.items ++ (member.entry ∷ [])) (λ _. self.new.all.items ≡ self.old.all.items) }
    {
        let position = self.all.len();
        self.all.reserve(1)?;
        self.first.reserve(1)?;
        push_at(self.alloc, &mut self.positions, member.owner, position)?;
        note_first(&mut self.first, member.owner, member.name, position)?;
        self.all.push(member)?;
        Ok(())
    }

    /// A list of members without any.
    pub fn none(&self) -> Vec<MemberEntry<'a>>
        ensures { result.items ≡ [] }
    {
        Vec::new(self.alloc)
    }

    /// The members of a structure or union, as members of another.
    pub fn given_to(&self, owner: u32, number: u32) -> Result<Vec<MemberEntry<'a>>, AllocError>
        ensures { IfOk result (λ found. found.items ≡ given_by owner number self.now.all.items) }
    {
        let mut found = Vec::new(self.alloc);
        for position in list_at(&self.positions, number) {
            if let Some(member) = item_at(&self.all, *position) {
                found.push(MemberEntry { owner, ..member })?;
            }
        }
        Ok(found)
    }
}
