//! Whether two texts are read as the same expression, parentheses aside (ISO 9899:1990, 6.3).

use crate::phrases::{Phrase, tree_of};
use crate::texts::tokens_of;
use bumpalo::Bump;
use c_grammar::TypeNames;
use c_lexer::{LexFault, Tokens};
use c_tree::Arena;
use mx_base::Names;
use std::alloc::Global;
use tree_laws::same_tree;

/// How two lists of tokens are read as expressions.
fn said_of_tokens(
    arena: &Arena,
    tokens: &Tokens,
    others: &Tokens,
    types: &mut TypeNames,
) -> &'static str {
    let tree = tree_of(arena, Phrase::Expression, tokens, types);
    let other = tree_of(arena, Phrase::Expression, others, types);
    match (tree, other) {
        (Ok(tree), Ok(other)) => {
            if same_tree(tree, other) && same_tree(other, tree) {
                "the same"
            } else {
                "two trees"
            }
        }
        _ => "not read",
    }
}

/// How two texts are read as expressions in which `T` is the name of a type, and no other name is.
pub fn said_of_two(alloc: Global, text: &str, other: &str) -> Result<&'static str, LexFault> {
    let arena = Bump::new(alloc);
    let mut names = Names::new(alloc);
    let type_name = names.intern(b"T")?;
    let tokens = tokens_of(alloc, text.as_bytes(), 0, &mut names)?;
    let others = tokens_of(alloc, other.as_bytes(), 0, &mut names)?;
    let mut types = TypeNames::new(alloc);
    types.declare(type_name, true)?;
    Ok(said_of_tokens(&arena, &tokens, &others, &mut types))
}
