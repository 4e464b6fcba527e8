//! Nodes and lists of nodes that were read.

ghost use Rattle.std.specs.Prelude.{◌≡◌, ◌+◌, ◌*◌, ◌<◌, ◌≤◌, ◌^◌, Some, length};
ghost use Rattle.c_tree.specs.Symbol.{symbols_of};
ghost use Rattle.c_tree.specs.Height.{height_of};
ghost use Rattle.c_tree.specs.Forget.{view_all, list_view, kind_view};
ghost use Rattle.c_grammar.specs.Found.{made};
ghost use Rattle.c_tree.specs.Views.{shape_of, nodes_of, nodes_in};
ghost use Rattle.c_expr.specs.Gives.{Gives, left};
ghost use Rattle.c_expr.specs.Standing.{Makes};

use crate::fault::ExprFault;
use bumpalo::collections::into_bump_slice;
use c_tree::{Arena, Kind, Place, Token, Tree, Trees};

/// A tree that was read.
#[derive(Clone, Copy)]
pub struct Read<'a> {
    /// It stands in the arena.
    pub tree: &'a Tree<'a>,
    /// The tokens behind it.
    pub rest: &'a [Token],
    /// Its height.
    pub height: u32,
}

/// Nodes that were read, side by side.
#[derive(Clone, Copy)]
pub struct ReadList<'a> {
    pub trees: Trees<'a>,
    /// The tokens behind them.
    pub rest: &'a [Token],
    /// The height of the highest, and 0 where there is none.
    pub height: u32,
}

/// Nodes side by side in the arena.
#[tactic(auto, using(crate::proofs::Lists::lists))]
pub fn list_of<'a>(all: Vec<Tree<'a>, &'a Arena>) -> Trees<'a>
    ensures views { list_view result ≡ view_all all.entry.items }
    ensures nodes { nodes_of result ≡ nodes_in all.entry.items }
{
    Trees {
        all: into_bump_slice(all),
    }
}

/// A part, which is no node of its own for the height, or a leaf.
pub fn part<'a>(
    arena: &'a Arena,
    kind: Kind<'a>,
    first: Place,
    height: u32,
    rest: &'a [Token],
    next: &mut u32,
) -> Result<Read<'a>, ExprFault>
    requires height { height_of (kind_view kind) ≡ height }
    requires ids { next.old + 1 < 2 ^ 32 }
    ensures found { Gives result (Some (kind_view kind.entry, symbols_of rest.now)) }
    ensures ids { (next.old ≤ next.new) × (next.new ≤ next.old + 1) × (left result ≤ length rest.now) }
    ensures node { Makes result next.old next.new first (shape_of kind.entry) rest.now }
{
    let id = *next;
    let tree = arena.try_alloc(Tree { id, first, kind })?;
    *next += 1;
    Ok(Read { tree, rest, height })
}

/// A node of height at most `room`, whose highest child has this height.
pub fn node<'a>(
    arena: &'a Arena,
    kind: Kind<'a>,
    first: Place,
    highest: u32,
    rest: &'a [Token],
    room: u32,
    next: &mut u32,
) -> Result<Read<'a>, ExprFault>
    requires height { height_of (kind_view kind) ≡ highest + 1 }
    requires ids { next.old + 1 < 2 ^ 32 }
    ensures found { Gives result (made room (kind_view kind.entry) (symbols_of rest.now)) }
    ensures ids { (next.old ≤ next.new) × (next.new ≤ next.old + 1) × (left result ≤ length rest.now) }
    ensures node { Makes result next.old next.new first (shape_of kind.entry) rest.now }
{
    if room <= highest {
        return Err(ExprFault::NoTree);
    }
    part(arena, kind, first, highest + 1, rest, next)
}
