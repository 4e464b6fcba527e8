//! One unit of a program.

ghost use Rattle.std.specs.Prelude.{◌≡◌, ◌<◌, length, Some, slice_get};

use crate::programs::Program;
use typed_unit::TypedUnit;

/// What events ask of one of a program's units: which calls have callees with bodies, and which declarators declare variables
/// with automatic storage.
#[derive(Drop)]
pub struct UnitFacts<'p, 'u, 'a> {
    pub(crate) program: &'p Program<'u, 'a>,
    pub(crate) unit: &'u TypedUnit<'a>,
    /// The number of the unit's file.
    pub(crate) file: u16,
    ghost there: { file < length program.now.units.items },
    ghost found: { ∥ slice_get program.now.units.items file ≡ Some unit ∥₁ },
}
