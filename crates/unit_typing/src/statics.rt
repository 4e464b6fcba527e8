//! The names that are `static` at file scope (ISO 9899:1990, 6.1.2.2).

ghost use Rattle.std.specs.Prelude.{◌≡◌, ◌++◌, [], false, map, IfOk};
ghost use Rattle.type_rules.specs.Functions.{is_file_static};
ghost use Rattle.type_rules.specs.Options.{if_there};
ghost use Rattle.type_rules.specs.Scopes.{is_among};
ghost use Rattle.unit_typing.specs.Statics.{statics_in};
ghost use Rattle.unit_typing.specs.Views.{name_entry};

use crate::names::NameEntry;
use crate::number_stack::NumberStack;
use std::alloc::{AllocError, Global};
use std::marker::Model;
use type_values::Var;

/// The names that were declared `static`, each once for every such declaration.
#[derive(Drop)]
pub(crate) struct Statics {
    names: NumberStack,
}

impl Model for Statics {
    ghost use Rattle.std.specs.Prelude.{ℕ, List};

    ghost Value = { List ℕ };

    ghost view = { λ s. s.names };
}

/// Whether a name that was declared so is `static`.
fn is_file_static(entry: &NameEntry) -> bool
    ensures { result ≡ if_there (name_entry entry.now).var false is_file_static }
{
    match entry.var {
        Some(Var::FileStatic { .. }) => true,
        _ => false,
    }
}

impl Statics {
    /// None so far.
    pub fn new(alloc: Global) -> Self
        ensures { result ≡ [] }
    {
        Statics {
            names: NumberStack::new(alloc),
        }
    }

    /// Whether a name was declared `static`.
    pub fn has(&self, name: u32) -> bool
        ensures { result ≡ is_among name self.now }
    {
        self.names.position(name).is_some()
    }

    /// Adds those of these names that are `static`.
    pub fn add(&mut self, entries: &[NameEntry]) -> Result<(), AllocError>
        ensures { IfOk result (λ _. self.new ≡ self.old ++ statics_in (map name_entry entries.now)) }
    {
        for entry in entries {
            if is_file_static(entry) {
                self.names.push(entry.name)?;
            }
        }
        Ok(())
    }
}
