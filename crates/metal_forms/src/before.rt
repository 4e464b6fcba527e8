//! What stands before a clause: the holes that are declared, and whether a section does.

ghost use Rattle.std.specs.Prelude.{◌≡◌, nat_eq, IfOk};
ghost use Rattle.std.specs.Option.{option_map};
ghost use Rattle.indexmap.specs.IndexMap.{get};
ghost use Rattle.metal_grammar.specs.Grammar.{Before as BeforeClause, nothing_before, behind_content};
ghost use Rattle.metal_grammar.specs.Holes.{type_of_hole};
ghost use Rattle.metal_grammar.specs.Written.{Declares};
ghost use Rattle.metal_forms.specs.Before.{Knows, IsAdded};
ghost use Rattle.metal_written.specs.Kinds.{seat_of};
ghost use Rattle.metal_written.specs.Written.{content_view, declaration_view};

use indexmap::IndexMap;
use metal_written::{Content, Declaration, Seat, seat_of};
use mx_base::Names;
use std::alloc::{AllocError, Global};

/// What stands before a clause.
#[derive(Drop)]
pub struct Before {
    // What each name may be as a hole, by its first declaration.
    seats: IndexMap<u32, Seat>,

    /// Whether a section stands before.
    pub section: bool,
}

impl Before {
    /// Nothing stands before the first clause.
    pub fn nothing(alloc: Global) -> Before
        ensures { Knows result nothing_before }
    {
        Before {
            seats: IndexMap::new(alloc),
            section: false,
        }
    }

    /// What a name may be as a hole, if it is one.
    pub(crate) fn seat(&self, name: u32) -> Option<Seat>
        ensures value { result ≡ get nat_eq self.now.seats name }
        ensures known { (before : BeforeClause) → Knows self.now before → result ≡ option_map seat_of (type_of_hole before.holes name) }
    {
        self.seats.get(&name).copied()
    }

    /// Adds a hole. Of two of one name the first counts.
    fn add(&mut self, name: u32, seat: Seat) -> Result<(), AllocError>
        ensures seats { IfOk result (λ _. IsAdded (get nat_eq self.old.seats) (get nat_eq self.new.seats) name seat) }
        ensures section { self.new.section ≡ self.old.section }
    {
        match self.seat(name) {
            Some(_) => Ok(()),
            None => {
                self.seats.insert(name, seat)?;
                Ok(())
            }
        }
    }

    /// Adds the holes of a declaration.
    fn declare(&mut self, names: &Names, declaration: Declaration<'_>) -> Result<(), AllocError>
        ensures { IfOk result (λ _. (before : BeforeClause) → Knows self.old before → Knows self.new (behind_content names.now (Declares (declaration_view declaration.entry)) before)) }
    {
        let Some(seat) = seat_of(names, declaration.of) else {
            return Ok(());
        };
        for name in declaration.names {
            self.add(*name, seat)?;
        }
        Ok(())
    }

    /// Goes behind a clause with this content.
    pub fn go_behind(&mut self, names: &Names, content: Content<'_>) -> Result<(), AllocError>
        ensures { IfOk result (λ _. (before : BeforeClause) → Knows self.old before → Knows self.new (behind_content names.now (content_view content.entry) before)) }
    {
        match content {
            Content::Nothing => Ok(()),
            Content::Declares(declaration) => self.declare(names, declaration),
            Content::Rules(_) => {
                self.section = true;
                Ok(())
            }
        }
    }
}
