//! Which names are types at a place of a C text (ISO 9899:1990, 6.1.2.1 and 6.5.6).

ghost use Rattle.std.specs.Prelude.{◌≡◌, ◌<◌, nat_eq, length, [], ◌∷◌, MatchResult};
ghost use Rattle.indexmap.specs.IndexMap.{ContainsKey, Updates};
ghost use Rattle.c_grammar.specs.Names.{is_type};

use indexmap::IndexMap;
use std::alloc::{AllocError, Global};
use std::marker::Model;

/// What is taken back when a scope ends.
#[derive(Clone, Copy)]
enum Change {
    /// A scope began.
    Open,

    /// A name was declared. Its declaration in force until then made it a type or not, if it had one.
    Name {
        name: u32,
        is_type: bool,
        before: Option<bool>,
    },
}

/// The names in force at a place, each with whether its declaration makes it a type, and those to which each open scope goes back.
/// A scope costs what it declares, and a question one look-up.
#[derive(Drop)]
pub struct TypeNames {
    // The declaration in force of each name.
    current: IndexMap<u32, bool>,

    // What happened since the beginning, without the scopes that have ended, the oldest first.
    log: Vec<Change, Global>,
}

impl Model for TypeNames {
    ghost use Rattle.std.specs.Prelude.{nat_eq, []};
    ghost use Rattle.indexmap.specs.IndexMap.{get};
    ghost use Rattle.c_grammar.specs.Scopes.{Scopes};

    ghost Value = { Scopes };

    ghost use Rattle.c_grammar.specs.NameChanges.{onto, scopes_of, IsKept};

    ghost view = { λ s. scopes_of (onto s.log.items []) };

    ghost invariant = { λ s. IsKept (get nat_eq s.current) (onto s.log.items []) };
}

// Gives a name that is declared the declaration that it had before.
fn put_back(current: &mut IndexMap<u32, bool>, name: u32, before: Option<bool>)
    requires { ContainsKey nat_eq current.old name }
    ensures { Updates nat_eq current.old current.new name before }
{
    match before {
        Some(was_type) => {
            if let Some(is_type) = current.get_mut(&name) {
                *is_type = was_type;
            }
        }
        None => {
            current.swap_remove(&name);
        }
    }
}

impl TypeNames {
    /// No names, and no scope but the outermost. No memory is taken yet.
    #[tactic(auto, using(crate::proofs::NameChanges::declarations))]
    pub fn new(alloc: Global) -> Self
        ensures now { result.now ≡ [] }
        ensures saved { result.saved ≡ [] }
    {
        TypeNames {
            current: IndexMap::new(alloc),
            log: Vec::new(alloc),
        }
    }

    /// Begins a scope: the names in force stay, and are those to which it goes back.
    #[tactic(auto, using(crate::proofs::NameChanges::declarations))]
    pub fn open(&mut self) -> Result<(), AllocError>
        ensures now { self.new.now ≡ self.old.now }
        ensures saved { MatchResult result (λ _. self.new.saved ≡ self.old.now ∷ self.old.saved) (λ _. self.new.saved ≡ self.old.saved) }
    {
        self.log.push(Change::Open)?;
        Ok(())
    }

    /// Ends the innermost scope: what it declared is no longer in force, and what that hid is again.
    #[tactic(auto, using(crate::proofs::NameChanges::declarations))]
    pub fn close(&mut self)
        requires { 0 < length self.old.saved }
        ensures { self.old.saved ≡ self.new.now ∷ self.new.saved }
    {
        while let Some(change) = self.log.pop() {
            match change {
                Change::Open => return,
                Change::Name { name, before, .. } => put_back(&mut self.current, name, before),
            }
        }
    }

    /// Declares a name in the innermost scope. It hides what was called so before.
    #[tactic(auto, using(crate::proofs::NameChanges::declarations))]
    pub fn declare(&mut self, name: u32, is_type: bool) -> Result<(), AllocError>
        ensures now { MatchResult result (λ _. self.new.now ≡ (name, is_type) ∷ self.old.now) (λ _. self.new.now ≡ self.old.now) }
        ensures saved { self.new.saved ≡ self.old.saved }
    {
        self.log.reserve(1)?;
        let before = self.current.insert(name, is_type)?;
        self.log.push(Change::Name {
            name,
            is_type,
            before,
        })?;
        Ok(())
    }

    /// Whether the declaration in force makes the name a type. One that was never declared is none.
    pub fn is_type(&self, name: u32) -> bool
        ensures { result ≡ is_type self.now.now name }
    {
        self.current.get(&name).copied().unwrap_or(false)
    }
}
