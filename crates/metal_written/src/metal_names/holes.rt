//! Patterns with their holes: a name that is declared as a hole becomes a node of its own.

ghost use Rattle.std.specs.Prelude.{◌≡◌, ◌<◌, length, IfOk};
ghost use Rattle.c_tree.specs.Forget.{view, list_view, primary_view, operation_view, initializer_view};
ghost use Rattle.metal_grammar.specs.Meaning.{number_among};
ghost use Rattle.metal_grammar.specs.Patterns.{name_as_hole, with_holes, primary_with_holes, operation_with_holes, initializer_with_holes, all_with_holes, path_with_holes, designator_with_holes};
ghost use Rattle.metal_grammar.specs.Rules.{is_among};
ghost use Rattle.c_tree.specs.Symbol.{symbol_of};

use bumpalo::collections::into_bump_slice;
use c_tree::{Arena, Initializer, Kind, Operation, Part, Primary, Token, TokenKind, Tree, Trees};
use std::alloc::AllocError;

/// The position of a name among these, from 0.
#[tactic(auto, using(crate::proofs::MetalNames::Positions::positions))]
pub fn number_among(names: &[u32], name: u32) -> Option<usize>
    ensures { result ≡ number_among names.now name }
{
    let mut index = 0;
    while index < names.len() {
        if names[index] == name {
            return Some(index);
        }
        index += 1;
    }
    None
}

/// Whether the name is one of these.
pub fn is_among(names: &[u32], name: u32) -> bool
    ensures { result ≡ is_among names.now name }
{
    number_among(names, name).is_some()
}

/// A name, as a hole if it is one.
fn name_as_hole<'a>(holes: &[u32], name: &'a Token) -> Primary<'a>
    requires { length holes.now < 256 }
    ensures { primary_view result ≡ name_as_hole (number_among holes.now) (symbol_of name.now) }
{
    match name.kind {
        TokenKind::Word(_) => match number_among(holes, name.name) {
            Some(number) => Primary::Hole {
                number: number as u8,
            },
            None => Primary::Ident { name },
        },
        _ => Primary::Ident { name },
    }
}

/// The expression with its holes, of which these are the names, fewer than 256. Ids and places stay.
#[cycle(holes)]
#[tactic(auto, using(crate::proofs::Nodes::lists))]
pub fn with_holes<'a>(
    arena: &'a Arena,
    holes: &[u32],
    tree: &'a Tree<'a>,
) -> Result<&'a Tree<'a>, AllocError>
    requires { length holes.now < 256 }
    ensures { IfOk result (λ made. view made.now ≡ with_holes (number_among holes.now) (view tree.now)) }
{
    let node = node_with_holes(arena, holes, tree)?;
    Ok(arena.try_alloc(node)?)
}

#[cycle(holes)]
#[tactic(auto, using(crate::proofs::Nodes::lists))]
fn node_with_holes<'a>(
    arena: &'a Arena,
    holes: &[u32],
    tree: &'a Tree<'a>,
) -> Result<Tree<'a>, AllocError>
    requires { length holes.now < 256 }
    ensures { IfOk result (λ made. view made ≡ with_holes (number_among holes.now) (view tree.now)) }
{
    let kind = match &tree.kind {
        Kind::Primary(kind) => Kind::Primary(primary_with_holes(arena, holes, kind)?),
        Kind::Operation(kind) => Kind::Operation(operation_with_holes(arena, holes, kind)?),
        Kind::Initializer(kind) => Kind::Initializer(initializer_with_holes(arena, holes, kind)?),
        other => *other,
    };
    Ok(Tree {
        id: tree.id,
        first: tree.first,
        kind,
    })
}

#[cycle(holes)]
#[tactic(auto, using(crate::proofs::Nodes::lists))]
fn primary_with_holes<'a>(
    arena: &'a Arena,
    holes: &[u32],
    kind: &'a Primary<'a>,
) -> Result<Primary<'a>, AllocError>
    requires { length holes.now < 256 }
    ensures { IfOk result (λ made. primary_view made ≡ primary_with_holes (number_among holes.now) (primary_view kind.now)) }
{
    match kind {
        Primary::Ident { name } => Ok(name_as_hole(holes, name)),
        Primary::Paren { inner } => Ok(Primary::Paren {
            inner: with_holes(arena, holes, inner)?,
        }),
        Primary::VaArg { list, of } => Ok(Primary::VaArg {
            list: with_holes(arena, holes, list)?,
            of: *of,
        }),
        Primary::Offsetof { of, member, path } => Ok(Primary::Offsetof {
            of: *of,
            member: *member,
            path: path_with_holes(arena, holes, path)?,
        }),
        other => Ok(*other),
    }
}

#[cycle(holes)]
#[tactic(auto, using(crate::proofs::Nodes::lists))]
fn operation_with_holes<'a>(
    arena: &'a Arena,
    holes: &[u32],
    kind: &'a Operation<'a>,
) -> Result<Operation<'a>, AllocError>
    requires { length holes.now < 256 }
    ensures { IfOk result (λ made. operation_view made ≡ operation_with_holes (number_among holes.now) (operation_view kind.now)) }
{
    match kind {
        Operation::Index { array, index } => Ok(Operation::Index {
            array: with_holes(arena, holes, array)?,
            index: with_holes(arena, holes, index)?,
        }),
        Operation::Call {
            callee,
            open,
            arguments,
        } => Ok(Operation::Call {
            callee: with_holes(arena, holes, callee)?,
            open: *open,
            arguments: all_with_holes(arena, holes, arguments)?,
        }),
        Operation::Member { operand, member } => Ok(Operation::Member {
            operand: with_holes(arena, holes, operand)?,
            member: *member,
        }),
        Operation::Arrow { operand, member } => Ok(Operation::Arrow {
            operand: with_holes(arena, holes, operand)?,
            member: *member,
        }),
        Operation::CompoundLit { of, braces } => Ok(Operation::CompoundLit {
            of: *of,
            braces: with_holes(arena, holes, braces)?,
        }),
        Operation::Unary { op, operand } => Ok(Operation::Unary {
            op: *op,
            operand: with_holes(arena, holes, operand)?,
        }),
        Operation::SizeofType { of } => Ok(Operation::SizeofType { of: *of }),
        Operation::Cast { to, operand } => Ok(Operation::Cast {
            to: *to,
            operand: with_holes(arena, holes, operand)?,
        }),
        Operation::Binary { op, left, right } => Ok(Operation::Binary {
            op: *op,
            left: with_holes(arena, holes, left)?,
            right: with_holes(arena, holes, right)?,
        }),
        Operation::Cond {
            condition,
            then,
            otherwise,
        } => Ok(Operation::Cond {
            condition: with_holes(arena, holes, condition)?,
            then: with_holes(arena, holes, then)?,
            otherwise: with_holes(arena, holes, otherwise)?,
        }),
        Operation::Assign { op, left, right } => Ok(Operation::Assign {
            op: *op,
            left: with_holes(arena, holes, left)?,
            right: with_holes(arena, holes, right)?,
        }),
    }
}

#[cycle(holes)]
#[tactic(auto, using(crate::proofs::Nodes::lists))]
fn initializer_with_holes<'a>(
    arena: &'a Arena,
    holes: &[u32],
    kind: &'a Initializer<'a>,
) -> Result<Initializer<'a>, AllocError>
    requires { length holes.now < 256 }
    ensures { IfOk result (λ made. initializer_view made ≡ initializer_with_holes (number_among holes.now) (initializer_view kind.now)) }
{
    match kind {
        Initializer::Braces { elements, comma } => Ok(Initializer::Braces {
            elements: all_with_holes(arena, holes, elements)?,
            comma: *comma,
        }),
        Initializer::Designated {
            designators,
            initial,
        } => Ok(Initializer::Designated {
            designators: path_with_holes(arena, holes, designators)?,
            initial: with_holes(arena, holes, initial)?,
        }),
        other => Ok(*other),
    }
}

#[cycle(holes)]
#[tactic(auto, using(crate::proofs::Nodes::lists))]
fn all_with_holes<'a>(
    arena: &'a Arena,
    holes: &[u32],
    trees: &'a Trees<'a>,
) -> Result<Trees<'a>, AllocError>
    requires { length holes.now < 256 }
    ensures { IfOk result (λ made. list_view made ≡ all_with_holes (number_among holes.now) (list_view trees.now)) }
{
    let mut all = Vec::new(arena);
    for tree in trees.all {
        all.push(node_with_holes(arena, holes, tree)?)?;
    }
    Ok(Trees {
        all: into_bump_slice(all),
    })
}

#[cycle(holes)]
#[tactic(auto, using(crate::proofs::Nodes::lists))]
fn path_with_holes<'a>(
    arena: &'a Arena,
    holes: &[u32],
    path: &'a Trees<'a>,
) -> Result<Trees<'a>, AllocError>
    requires { length holes.now < 256 }
    ensures { IfOk result (λ made. list_view made ≡ path_with_holes (number_among holes.now) (list_view path.now)) }
{
    let mut all = Vec::new(arena);
    for designator in path.all {
        all.push(designator_with_holes(arena, holes, designator)?)?;
    }
    Ok(Trees {
        all: into_bump_slice(all),
    })
}

#[cycle(holes)]
#[tactic(auto, using(crate::proofs::Nodes::lists))]
fn designator_with_holes<'a>(
    arena: &'a Arena,
    holes: &[u32],
    tree: &'a Tree<'a>,
) -> Result<Tree<'a>, AllocError>
    requires { length holes.now < 256 }
    ensures { IfOk result (λ made. view made ≡ designator_with_holes (number_among holes.now) (view tree.now)) }
{
    match &tree.kind {
        Kind::Part(Part::IndexDesignator { index }) => Ok(Tree {
            id: tree.id,
            first: tree.first,
            kind: Kind::Part(Part::IndexDesignator {
                index: with_holes(arena, holes, index)?,
            }),
        }),
        _ => Ok(*tree),
    }
}
