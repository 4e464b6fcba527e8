//! The functions that a unit defines.

use c_tree::{Place, Tree};
use type_values::Var;

/// A definition of a function (ISO 9899:1990, 6.7.1).
#[derive(Drop)]
pub struct TypedFunction<'a> {
    pub name: u32,
    /// It belongs to its file alone: it is `static` or `inline`, or an earlier declaration of its name at file scope is `static`
    /// (6.1.2.2).
    pub own: bool,
    /// The number of its file.
    pub file: u16,
    /// The variables that its parameters are; `None` for one without a name.
    pub formals: Vec<Option<Var>>,
    /// Its body, which is a block.
    pub body: &'a Tree<'a>,
    /// The place of its name.
    pub place: Place,
}
