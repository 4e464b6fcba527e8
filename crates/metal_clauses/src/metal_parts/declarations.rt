//! Declarations of holes.

ghost use Rattle.std.specs.Prelude.{◌≡◌, ◌+◌, ◌<◌, ◌≤◌, ◌^◌, length, suc, IfOk};
ghost use Rattle.c_tree.specs.Symbol.{symbols_of};
ghost use Rattle.c_tree.specs.Phrase.{◌⨾◌};
ghost use Rattle.c_tree.specs.declared.punctuator.Punctuator.TheVariants as marks;
ghost use Rattle.metal_grammar.specs.Phrases.{word, maybe_phrase, type_phrase};
ghost use Rattle.metal_grammar.specs.Rules.{size};
ghost use Rattle.metal_grammar.specs.Ways.Steps as steps;
ghost use Rattle.metal_clauses.specs.MetalParts.Given.{Gives};
ghost use Rattle.metal_written.specs.Written.{type_view, name_row, declaration_view};

use crate::metal_parts::front::take_word;
use crate::metal_parts::types::read_type;
use bumpalo::collections::into_bump_slice;
use c_expr::{ExprFault, after_sign};
use c_tree::{Arena, Punctuator, Token};
use metal_written::{Declaration, is_spelled};
use mx_base::Names;

/// One name or more, with commas between.
fn read_names<'a>(
    arena: &'a Arena,
    tokens: &'a [Token],
) -> Result<(&'a [u32], &'a [Token]), ExprFault>
    ensures some { IfOk result (λ r. 0 < length r.0.now) }
    ensures found { Gives name_row result (steps.read_row steps.take_word marks.Comma (suc (length (symbols_of tokens.now))) (symbols_of tokens.now)) }
    ensures shorter { IfOk result (λ r. length r.1.now ≤ length tokens.now) }
{
    let mut all = Vec::new(arena);
    let mut rest = tokens;
    let mut fuel = tokens.len() + 1;
    while fuel != 0 {
        fuel -= 1;
        let Some((name, behind)) = take_word(rest) else {
            return Err(ExprFault::NoTree);
        };
        all.push(name)?;
        let Some(next) = after_sign(Punctuator::Comma, behind) else {
            return Ok((into_bump_slice(all), behind));
        };
        rest = next;
    }
    Err(ExprFault::NoTree)
}

/// What follows the word `decl`, which stands behind so many tokens.
fn read_declared<'a>(
    arena: &'a Arena,
    state: Option<u32>,
    decl: u32,
    words: u32,
    tokens: &'a [Token],
) -> Result<(Declaration<'a>, &'a [Token]), ExprFault>
    requires few { length tokens.now < 2 ^ 31 }
    requires words { words ≡ size (maybe_phrase word state) + 1 }
    requires at_most { words ≤ 2 }
    ensures found { Gives declaration_view result (steps.read_declared state decl (symbols_of tokens.now)) }
    ensures shorter { IfOk result (λ r. length r.1.now ≤ length tokens.now) }
    ensures before { IfOk result (λ r. r.0.before ≡ size (maybe_phrase word r.0.state ⨾ word r.0.decl ⨾ type_phrase (type_view r.0.of))) }
{
    let Some((of, behind)) = read_type(tokens) else {
        return Err(ExprFault::NoTree);
    };
    let before = words + (tokens.len() - behind.len()) as u32;
    let (names, end) = read_names(arena, behind)?;
    let Some(rest) = after_sign(Punctuator::Semicolon, end) else {
        return Err(ExprFault::NoTree);
    };
    let declaration = Declaration {
        state,
        decl,
        of,
        names,
        before,
    };
    Ok((declaration, rest))
}

/// The declaration in front.
pub fn read_declaration<'a>(
    arena: &'a Arena,
    names: &Names,
    tokens: &'a [Token],
) -> Result<(Declaration<'a>, &'a [Token]), ExprFault>
    requires few { length tokens.now < 2 ^ 31 }
    ensures found { Gives declaration_view result (steps.read_declaration names.now (symbols_of tokens.now)) }
    ensures shorter { IfOk result (λ r. length r.1.now ≤ length tokens.now) }
    ensures before { IfOk result (λ r. r.0.before ≡ size (maybe_phrase word r.0.state ⨾ word r.0.decl ⨾ type_phrase (type_view r.0.of))) }
{
    let Some((first, behind)) = take_word(tokens) else {
        return Err(ExprFault::NoTree);
    };
    if !is_spelled(names, b"state", first) {
        return read_declared(arena, None, first, 1, behind);
    }
    let Some((decl, rest)) = take_word(behind) else {
        return Err(ExprFault::NoTree);
    };
    read_declared(arena, Some(first), decl, 2, rest)
}
