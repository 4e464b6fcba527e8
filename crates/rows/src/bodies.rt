//! Short texts of C, read up to the body of a function, and the traces of its graph.

use crate::events::close;
use crate::facts::PlainFacts;
use crate::texts::stripped_of;
use crate::walks::traces_of;
use bumpalo::Bump;
use c_lexer::{LexFault, Tokens};
use c_parser::read_unit;
use c_tree::{Arena, Kind, Outer, Place, Tree};
use flow_graph::build_body;
use mx_base::Names;
use std::alloc::Global;

/// The body of the one function that these tokens are.
fn body_of<'a>(arena: &'a Arena, alloc: Global, tokens: &'a Tokens) -> Option<&'a Tree<'a>> {
    if tokens.all().len() > 100000 {
        return None;
    }
    let Ok(unit) = read_unit(arena, alloc, tokens) else {
        return None;
    };
    let Some(first) = unit.chunks.all.first() else {
        return None;
    };
    match &first.kind {
        Kind::Outer(Outer::Function { body, .. }) => Some(*body),
        _ => None,
    }
}

/// The text of a function with these statements as its body.
fn text_of(alloc: Global, statements: &str) -> Result<Vec<u8>, LexFault> {
    let mut text = Vec::from_slice(
        alloc,
        b"void f(int a, int b, int c, int *p, struct s *q) { ",
    )?;
    text.extend_from_slice(statements.as_bytes())?;
    text.extend_from_slice(b" }")?;
    Ok(text)
}

/// The traces of a function with these statements as its body, each cut off behind so many events.
pub fn traces_of_text(alloc: Global, statements: &str, limit: usize) -> Result<Vec<u8>, LexFault> {
    let arena = Bump::new(alloc);
    let mut names = Names::new(alloc);
    let text = text_of(alloc, statements)?;
    let tokens = stripped_of(alloc, text.as_slice(), 0, &mut names)?;
    let Some(body) = body_of(&arena, alloc, &tokens) else {
        return Ok(Vec::from_slice(alloc, b"no function")?);
    };
    let function = Place { file: 0, token: 1 };
    let graph = build_body(alloc, &PlainFacts, function, body, close())?;
    Ok(traces_of(alloc, &graph, &names, limit)?)
}
