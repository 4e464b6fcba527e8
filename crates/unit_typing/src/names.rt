//! Names in force, and what they stand for.

ghost use Rattle.std.specs.Prelude.{◌≡◌};

use crate::entries::Named;
use type_values::{Ty, Var};

/// What a name stands for.
#[derive(Clone, Copy, PartialEq, Eq)]
pub enum Class {
    /// A variable or a function.
    Variable,
    /// A type.
    Typedef,
    /// A constant of an enumeration.
    Enumerator,
}

/// A name that was declared (ISO 9899:1990, 6.5).
#[derive(Clone, Copy)]
pub struct NameEntry<'a> {
    pub name: u32,
    /// The depth of the scope in which it was declared.
    pub depth: u32,
    pub class: Class,
    pub ty: Ty<'a>,
    /// The variable that it names, unless it is the name of a type or an enumerator.
    pub var: Option<Var>,
    /// It is `extern` or a function, so that a block may declare it once more.
    pub again: bool,
}

impl<'a> Named for NameEntry<'a> {
    ghost name_of = { λ k. k.name };

    fn name(&self) -> u32 {
        self.name
    }
}
