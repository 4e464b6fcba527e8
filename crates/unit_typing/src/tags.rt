//! Tags in force (ISO 9899:1990, 6.5.2.3).

ghost use Rattle.std.specs.Prelude.{◌≡◌};

use crate::entries::Named;

/// What a tag is of.
#[derive(Clone, Copy, PartialEq, Eq)]
pub enum Sort {
    Structs,
    Unions,
    Enums,
}

/// A tag that was declared.
#[derive(Clone, Copy)]
pub struct TagEntry {
    pub name: u32,
    /// The depth of the scope in which it was declared.
    pub depth: u32,
    pub sort: Sort,
    /// The number of its structure or union.
    pub number: u32,
    /// It has a body, maybe one that is still open.
    pub body: bool,
}

impl Named for TagEntry {
    ghost name_of = { λ g. g.name };

    fn name(&self) -> u32 {
        self.name
    }
}
