//! Whether a text is a phrase of C by itself (ISO 9899:1990, 6.3, 6.5).

use crate::texts::tokens_of;
use bumpalo::Bump;
use c_expr::{ExprFault, Form, read_declarator, read_expr, read_specs};
use c_grammar::TypeNames;
use c_lexer::{LexFault, Tokens};
use c_tree::{Arena, Tree};
use mx_base::Names;
use std::alloc::Global;

/// What a text is read as. `T` is the name of a type in it, and no other name is.
#[derive(Clone, Copy, PartialEq, Eq)]
pub enum Phrase {
    Expression,
    Specifiers,
    Declarator(Form),
}

/// The tree that these tokens are.
pub fn tree_of<'a>(
    arena: &'a Arena,
    phrase: Phrase,
    tokens: &'a Tokens,
    types: &mut TypeNames,
) -> Result<&'a Tree<'a>, ExprFault> {
    let tokens = tokens.all();
    if tokens.len() > 100000 {
        return Err(ExprFault::NoMemory);
    }
    let mut next = 0;
    match phrase {
        Phrase::Expression => read_expr(arena, tokens, types, &mut next),
        Phrase::Specifiers => read_specs(arena, tokens, types, &mut next),
        Phrase::Declarator(form) => read_declarator(arena, tokens, form, types, &mut next),
    }
}

/// Whether the text is read as this phrase.
pub fn is_read(alloc: Global, phrase: Phrase, text: &[u8]) -> Result<bool, LexFault> {
    let arena = Bump::new(alloc);
    let mut names = Names::new(alloc);
    let type_name = names.intern(b"T")?;
    let tokens = tokens_of(alloc, text, 0, &mut names)?;
    let mut types = TypeNames::new(alloc);
    types.declare(type_name, true)?;
    match tree_of(&arena, phrase, &tokens, &mut types) {
        Ok(_) => Ok(true),
        Err(_) => Ok(false),
    }
}
