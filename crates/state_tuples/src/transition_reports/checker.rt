//! Checkers that report.

use metal_tree::Machine;
use mx_base::Names;

/// A checker of the command, as far as its reports go.
#[derive(Clone, Copy)]
pub struct Checker<'s, 'm> {
    pub machine: &'s Machine<'m>,
    /// Its place among the checkers of the command, from 0.
    pub number: u16,
    /// The texts of all names.
    pub names: &'s Names,
}
