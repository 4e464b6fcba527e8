//! What patterns are matched under, as a value of the program.

ghost use Rattle.std.specs.Prelude.{◌≤◌};

use metal_tree::HoleDecl;
use typed_unit::TypedUnit;

/// What an alternative of a rule is asked under: the holes of its machine, the state variables first, the unit and the function
/// in which the subject stands, and how many steps the object of a state variable may have.
#[derive(Clone, Copy)]
pub struct Setting<'s, 'a> {
    pub holes: &'s [HoleDecl<'s>],
    /// The number of state variables.
    pub variables: u8,
    pub unit: &'s TypedUnit<'a>,
    /// The number of the function's name.
    pub function: u32,
    pub depth: u8,
    ghost few: { depth ≤ 8 },
}
