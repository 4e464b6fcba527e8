//! What a block leads to.

ghost use Rattle.std.specs.Prelude.{◌≡◌, true, Bool, List, IfOk};
ghost use Rattle.row_flows.specs.declared.rows.EventRow.{EventRow};
ghost use Rattle.row_flows.specs.declared.tuples.NumberedTuple.{NumberedTuple as Tuple};
ghost use Rattle.block_summary.specs.Exits.{AreExits};
ghost use Rattle.row_flows.specs.Concerns.{all_calm};

use row_flows::{BlockRows, Firing, NumberedTuple, cross};
use std::alloc::{AllocError, Global};

/// What a tuple at the head of a block leads to, relative to that tuple, so that what leaves its tuple alone is the same for all.
#[derive(Drop)]
pub struct Exits {
    /// Whether the tuple itself stands at the end of the block, beside those in the list.
    pub is_unchanged: bool,
    /// The other tuples at the end of the block.
    pub tuples: Vec<NumberedTuple>,
    /// The alternatives of rules with an action that are taken on the way.
    pub firings: Vec<Firing>,
}

/// Those of a tuple that each event leaves alone.
pub(crate) fn unchanged(alloc: Global) -> Exits
    ensures { (rows : List EventRow) (is_root : Bool) (own : List Bool) (t : Tuple) → all_calm t.object rows ≡ true → AreExits rows is_root own t result }
{
    Exits {
        is_unchanged: true,
        tuples: Vec::new(alloc),
        firings: Vec::new(alloc),
    }
}

/// Those of a tuple over the events of a block, worked out.
pub(crate) fn worked_out(
    alloc: Global,
    block: &BlockRows,
    own: &[bool],
    tuple: NumberedTuple,
    is_root: bool,
) -> Result<Exits, AllocError>
    ensures { IfOk result (AreExits block.now.rows.items is_root own.now tuple) }
{
    let crossed = cross(alloc, block.rows.as_slice(), is_root, own, tuple)?;
    Ok(Exits {
        is_unchanged: false,
        tuples: crossed.tuples,
        firings: crossed.firings,
    })
}

impl Exits {
    ghost use Rattle.std.specs.Prelude.{◌≡◌, ◌∷◌, [], IfOk, IsTrue};
    ghost use Rattle.block_summary.specs.Exits.{tuples_of};
    ghost use Rattle.row_flows.specs.declared.tuples.NumberedTuple.{NumberedTuple as Tuple};

    /// Whether they are known to be those of a block that leaves its tuple alone: it stands at the end, and no other does.
    pub fn is_tuple_alone(&self) -> bool
        ensures { IsTrue result → (t : Tuple) → tuples_of self.now t ≡ t ∷ [] }
    {
        self.is_unchanged && self.tuples.is_empty()
    }

    /// The tuples at the end of the block, where this one stands at its head.
    pub fn tuples_of(
        &self,
        alloc: Global,
        tuple: NumberedTuple,
    ) -> Result<Vec<NumberedTuple>, AllocError>
        ensures { IfOk result (λ list. list.items ≡ tuples_of self.now tuple) }
    {
        let mut list = Vec::new(alloc);
        if self.is_unchanged {
            list.push(tuple)?;
        }
        list.extend_from_slice(self.tuples.as_slice())?;
        Ok(list)
    }
}
