//! The search over a program's moves and followed calls.

ghost use Rattle.std.specs.Prelude.{◌≤◌, IfOk, Contains};
ghost use Rattle.known_objects.specs.Linked.{MovesIn, EntersIn, HandsIn, IsIn};
ghost use Rattle.known_search.specs.Closed.{IsClosed};
ghost use Rattle.known_search.specs.Steps.{IsFound};

use crate::changes::{Move, Numbered};
use crate::filings::{Callers, Entries, Moves};
use crate::links::ProgramLinks;
use indexmap::IndexSet;
use known_search::{Known, file, known};
use objects::Object;
use std::alloc::{AllocError, Global};
use std::marker::PhantomData;

/// What can be known of these objects that rules bind, over these moves and followed calls.
pub(crate) fn known_over<'s, 'a>(
    alloc: Global,
    bound: &[(u32, Object)],
    moves: &[Move<'s, 'a>],
    calls: &[Numbered<'s, 'a>],
    depth: u8,
) -> Result<IndexSet<Known<Object>>, AllocError>
    requires { depth ≤ 8 }
    ensures closed { IfOk result (λ found. IsClosed (λ f o. Contains bound.now (f, o)) (MovesIn depth moves.now) (EntersIn depth calls.now) (HandsIn depth calls.now) (IsIn found.keys)) }
    ensures only { IfOk result (λ found. (y : _) → Contains found.keys y → IsFound (λ f o. Contains bound.now (f, o)) (MovesIn depth moves.now) (EntersIn depth calls.now) (HandsIn depth calls.now) y) }
{
    let by_moves = Moves {
        depth,
        units: PhantomData,
    };
    let by_entries = Entries {
        depth,
        units: PhantomData,
    };
    let by_callers = Callers {
        depth,
        units: PhantomData,
    };
    let links = ProgramLinks {
        bound,
        moves: file(alloc, &by_moves, moves)?,
        entries: file(alloc, &by_entries, calls)?,
        callers: file(alloc, &by_callers, calls)?,
    };
    known(alloc, &links)
}
