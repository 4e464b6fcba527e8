//! What the contracts mean on trees of C that are known.

use crate::expected::expect;
use bumpalo::Bump;
use bumpalo::collections::into_bump_slice;
use c_tree::{
    Arena, AssignOp, Initializer, Jump, Kind, Mark, Operation, Place, Primary, Punctuator,
    Statement, Token, TokenKind, Tree, Trees, height,
};
use std::alloc::AllocError;
use std::process::Abort;
use std::test::Fail;
use tree_laws::{copy_tree, equal_tree, same_tree, yields};

static PLACE: Place = Place { file: 0, token: 0 };

fn token(kind: TokenKind, name: u32) -> Token {
    Token {
        kind,
        name,
        start: 0,
        len: 1,
        line: 1,
        col: 1,
        source: 0,
        place: PLACE,
    }
}

fn word(name: u32) -> Token {
    token(TokenKind::Word(Mark::Plain), name)
}

fn sign(mark: Punctuator) -> Token {
    token(TokenKind::Punct(mark), 0)
}

fn expect_same(rt: &impl Abort, a: &Tree, b: &Tree) {
    expect(rt, same_tree(a, b), "the same");
    expect(rt, same_tree(b, a), "the same, turned round");
}

fn expect_other(rt: &impl Abort, a: &Tree, b: &Tree) {
    expect(rt, !same_tree(a, b), "another");
    expect(rt, !same_tree(b, a), "another, turned round");
}

fn put<'a>(arena: &'a Arena, id: u32, kind: Kind<'a>) -> Result<&'a Tree<'a>, AllocError> {
    let tree = Tree {
        id,
        first: PLACE,
        kind,
    };
    Ok(arena.try_alloc(tree)?)
}

fn name(arena: &Arena, id: u32) -> Result<&Tree, AllocError> {
    let name = arena.try_alloc(word(id))?;
    put(arena, id, Kind::Primary(Primary::Ident { name }))
}

fn none(arena: &Arena) -> Trees {
    Trees {
        all: into_bump_slice(Vec::new(arena)),
    }
}

fn two<'a>(arena: &'a Arena, first: &Tree<'a>, second: &Tree<'a>) -> Result<Trees<'a>, AllocError> {
    let mut all = Vec::new(arena);
    all.push(*first)?;
    all.push(*second)?;
    Ok(Trees {
        all: into_bump_slice(all),
    })
}

fn assign<'a>(
    arena: &'a Arena,
    id: u32,
    op: AssignOp,
    left: &'a Tree<'a>,
    right: &'a Tree<'a>,
) -> Result<&'a Tree<'a>, AllocError> {
    put(
        arena,
        id,
        Kind::Operation(Operation::Assign { op, left, right }),
    )
}

/// `int name = initial`, with the name for its declarator.
fn init<'a>(
    arena: &'a Arena,
    id: u32,
    name: &'a Tree<'a>,
    initial: &'a Tree<'a>,
) -> Result<&'a Tree<'a>, AllocError> {
    put(
        arena,
        id,
        Kind::Initializer(Initializer::Init {
            name,
            declarator: name,
            initial,
        }),
    )
}

fn braces(arena: &Arena, id: u32) -> Result<&Tree, AllocError> {
    put(
        arena,
        id,
        Kind::Initializer(Initializer::Braces {
            elements: none(arena),
            comma: false,
        }),
    )
}

#[test]
fn assignments_are_compared(rt: HostRuntime) -> Result<(), Fail> {
    let arena = Bump::new(rt.alloc());
    let x = name(&arena, 1)?;
    let value = name(&arena, 2)?;
    let declared = init(&arena, 4, x, value)?;
    let assigned = assign(&arena, 6, AssignOp::Plain, x, value)?;
    let added = assign(&arena, 7, AssignOp::Add, x, value)?;
    expect_same(&rt, declared, assigned);
    expect_other(&rt, declared, added);
    expect_other(&rt, assigned, added);
    Ok(())
}

#[test]
fn braces_are_compared(rt: HostRuntime) -> Result<(), Fail> {
    let arena = Bump::new(rt.alloc());
    let x = name(&arena, 1)?;
    let braces = braces(&arena, 3)?;
    let braced = init(&arena, 5, x, braces)?;
    let again = init(&arena, 9, name(&arena, 1)?, braces)?;
    expect_same(&rt, braced, again);
    expect_other(&rt, braced, assign(&arena, 8, AssignOp::Plain, x, braces)?);
    expect_other(&rt, braced, init(&arena, 4, x, name(&arena, 2)?)?);
    Ok(())
}

/// `name(first, second)`
fn call<'a>(
    arena: &'a Arena,
    id: u32,
    callee: &'a Tree<'a>,
    first: &Tree<'a>,
    second: &Tree<'a>,
) -> Result<&'a Tree<'a>, AllocError> {
    let arguments = two(arena, first, second)?;
    put(
        arena,
        id,
        Kind::Operation(Operation::Call {
            callee,
            open: PLACE,
            arguments,
        }),
    )
}

/// `1(2, last)`
fn tokens_of_call(last: u32) -> [Token; 6] {
    [
        word(1),
        sign(Punctuator::OpenParen),
        word(2),
        sign(Punctuator::Comma),
        word(last),
        sign(Punctuator::CloseParen),
    ]
}

#[test]
fn tokens_are_yielded(rt: HostRuntime) -> Result<(), Fail> {
    let arena = Bump::new(rt.alloc());
    let (f, a, b) = (name(&arena, 1)?, name(&arena, 2)?, name(&arena, 3)?);
    let call = call(&arena, 4, f, a, b)?;
    let tokens = tokens_of_call(3);
    expect(&rt, yields(call, &tokens), "the tokens of the call");
    expect(&rt, !yields(call, &tokens[..5]), "one fewer");
    expect(&rt, !yields(call, &tokens_of_call(2)), "one other");
    expect(&rt, !yields(f, &tokens), "more than its own");
    Ok(())
}

#[test]
fn holes_yield_no_tokens(rt: HostRuntime) -> Result<(), Fail> {
    let arena = Bump::new(rt.alloc());
    let hole = put(&arena, 5, Kind::Primary(Primary::Hole { number: 0 }))?;
    expect(&rt, yields(hole, &[]), "a hole");
    expect(&rt, !yields(hole, &tokens_of_call(3)), "a hole with tokens");
    Ok(())
}

/// A leaf has the height 1.
fn expect_leaf(rt: &impl Abort, name: &Token) {
    let leaf = Tree {
        id: 1,
        first: PLACE,
        kind: Kind::Primary(Primary::Ident { name }),
    };
    expect(rt, height(&leaf) == 1, "the height of a leaf");
}

/// `if (x) return call;`
fn choice<'a>(
    arena: &'a Arena,
    x: &'a Tree<'a>,
    returned: &'a Tree<'a>,
) -> Result<&'a Tree<'a>, AllocError> {
    put(
        arena,
        4,
        Kind::Statement(Statement::If {
            condition: x,
            then: returned,
            otherwise: None,
        }),
    )
}

/// `{ if (1) return 1(6, 7); return 1(6, 7); }`
fn block(arena: &Arena) -> Result<&Tree, AllocError> {
    let x = name(arena, 1)?;
    let call = call(arena, 2, x, name(arena, 6)?, name(arena, 7)?)?;
    let returned = put(arena, 3, Kind::Jump(Jump::Return { value: Some(call) }))?;
    let items = two(arena, choice(arena, x, returned)?, returned)?;
    put(arena, 5, Kind::Statement(Statement::Block { items }))
}

#[test]
fn trees_are_copied(rt: HostRuntime) -> Result<(), Fail> {
    expect_leaf(&rt, &word(1));
    let arena = Bump::new(rt.alloc());
    let block = block(&arena)?;
    let second = Bump::new(rt.alloc());
    let copy = copy_tree(&second, block)?;
    expect(&rt, equal_tree(copy, block), "the copy");
    expect(&rt, copy.id == 5, "the number of the copy");
    expect(&rt, !equal_tree(copy, name(&arena, 1)?), "another tree");
    Ok(())
}
