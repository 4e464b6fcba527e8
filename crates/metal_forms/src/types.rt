//! The words of types: whether they are those of one basic type.

ghost use Rattle.std.specs.Prelude.{◌≡◌, ◌&&◌, ◌++◌, ◌∷◌, List, IfOk, filter_map, true};
ghost use Rattle.c_tree.specs.Symbol.{Symbol, symbol_of, symbols_of};
ghost use Rattle.c_grammar.specs.Specifiers.{is_basic, is_type_word};
ghost use Rattle.metal_grammar.specs.Grammar.{are_type_words, is_type};
ghost use Rattle.metal_grammar.specs.Ways.Steps.{is_type_symbol, keyword_in};
ghost use Rattle.metal_tree.specs.MetalMachines.Kept.{all_of};
ghost use Rattle.metal_written.specs.TypeWords.{has_type_words};
ghost use Rattle.metal_written.specs.Written.{type_view};

use c_tree::{Arena, Keyword, Token, TokenKind};
use metal_written::WrittenType;
use std::alloc::AllocError;
use type_values::is_basic;

/// Whether the keyword is a word of basic types. Each of them is a basic type by itself.
pub(crate) fn is_type_word(word: Keyword) -> bool
    ensures { result ≡ is_type_word word }
{
    is_basic(&[word])
}

/// Adds the token's keyword, if it is one.
#[tactic(auto, using(crate::proofs::InTypes::keywords))]
fn add_keyword<'a>(keywords: &mut Vec<Keyword, &'a Arena>, token: &Token) -> Result<(), AllocError>
    ensures { (rest : List Symbol) → IfOk result (λ _. keywords.new.items ++ filter_map keyword_in rest ≡ keywords.old.items ++ filter_map keyword_in (symbol_of token.now ∷ rest)) }
{
    match token.kind {
        TokenKind::Keyword(keyword) => {
            keywords.push(keyword)?;
            Ok(())
        }
        _ => Ok(()),
    }
}

/// Whether these words are those of one basic type (ISO 9899:1990, 6.5.2).
#[tactic(auto, using(crate::proofs::InTypes::keywords))]
fn are_basic(arena: &Arena, words: &[Token]) -> Result<bool, AllocError>
    requires { all_of is_type_symbol (symbols_of words.now) ≡ true }
    ensures { IfOk result (λ is. is ≡ (are_type_words (filter_map keyword_in (symbols_of words.now)) && is_basic (filter_map keyword_in (symbols_of words.now)))) }
{
    let mut keywords = Vec::new(arena);
    for word in words {
        add_keyword(&mut keywords, word)?;
    }
    Ok(is_basic(keywords.as_slice()))
}

/// Whether the words of the type are those of one.
pub(crate) fn is_type(arena: &Arena, of: WrittenType) -> Result<bool, AllocError>
    requires typed { has_type_words of ≡ true }
    ensures { IfOk result (λ is. is ≡ is_type (type_view of.entry)) }
{
    match of {
        WrittenType::Basic { words, .. } => are_basic(arena, words),
        WrittenType::Kind { .. } | WrittenType::Tag { .. } => Ok(true),
    }
}
