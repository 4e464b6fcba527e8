//! What is kept of the nodes of a unit, by their numbers.

ghost use Rattle.std.specs.Prelude.{◌≡◌, [], IfOk};
ghost use Rattle.std.specs.Option.{option_map};
ghost use Rattle.type_rules.specs.Definition.{at};
ghost use Rattle.type_rules.specs.Order.{put};
ghost use Rattle.type_values.specs.Vars.{cvar_of};
ghost use Rattle.typed_unit.specs.Tables.{cell_of, table_of, var_in};

use std::alloc::{AllocError, Global};
use type_values::{Ty, Var};

/// What is kept of a node: its type, and the variable behind it.
#[derive(Clone, Copy)]
pub struct Cell<'a> {
    pub ty: Ty<'a>,
    pub var: Option<Var>,
}

/// The types and variables of nodes, by the numbers of the nodes. A look-up takes constant time.
#[derive(Drop)]
pub struct Table<'a> {
    cells: Vec<Option<Cell<'a>>>,
}

impl<'a> Table<'a> {
    /// Nothing is kept so far.
    pub fn new(alloc: Global) -> Self
        ensures { table_of result ≡ [] }
    {
        Table {
            cells: Vec::new(alloc),
        }
    }

    /// Keeps this of the node with a number.
    #[tactic(auto, using(crate::proofs::Cells::puts))]
    pub fn put(&mut self, number: u32, cell: Cell<'a>) -> Result<(), AllocError>
        ensures { IfOk result (λ _. table_of self.new ≡ put number (cell_of cell.entry) (table_of self.old)) }
    {
        let position = number as usize;
        while self.cells.len() <= position {
            self.cells.push(None)?;
        }
        self.cells[position] = Some(cell);
        Ok(())
    }

    /// What is kept of the node with a number.
    pub fn cell(&self, number: u32) -> Option<&Cell<'a>>
        ensures { option_map (λ c. cell_of c.now) result ≡ at number (table_of self.now) }
    {
        match self.cells.get(number as usize) {
            Some(Some(cell)) => Some(cell),
            Some(None) => None,
            None => None,
        }
    }

    /// The variable that is kept of the node with a number.
    pub fn var(&self, number: u32) -> Option<Var>
        ensures { option_map cvar_of result ≡ var_in (at number (table_of self.now)) }
    {
        match self.cell(number) {
            Some(cell) => cell.var,
            None => None,
        }
    }
}
