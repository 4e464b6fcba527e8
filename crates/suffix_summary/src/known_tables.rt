//! A program under a checker, as the engine takes it.

ghost use Rattle.function_tables.specs.EngineTables.Known.{AreKnown};

use function_tables::Tables;
use std::marker::PhantomData;
use typed_unit::TypedUnit;

/// What the engine goes over, with all that has to be known of it.
#[derive(Drop)]
pub struct KnownTables<'t, 'u, 'a> {
    pub tables: Tables<'t, 'u, 'a>,
    /// The units live as long as what they refer to.
    pub units: PhantomData<&'u TypedUnit<'a>>,
    ghost known: { ∥ AreKnown tables ∥₁ },
}
