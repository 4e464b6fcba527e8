//! Reads specifiers (ISO 9899:1990, 6.5), without the bodies of structures, unions and enumerations.

ghost use Rattle.std.specs.Prelude.{◌≡◌, ◌+◌, ◌*◌, ◌<◌, ◌≤◌, ◌^◌, ◌∷◌, List, false, length, IfSome};
ghost use Rattle.std.specs.Option.{option_map};
ghost use Rattle.c_tree.specs.Symbol.{Reserved, symbol_of, symbols_of};
ghost use Rattle.c_tree.specs.Syntax.{StructTag};
ghost use Rattle.c_grammar.specs.Symbols.{take_symbol};
ghost use Rattle.c_grammar.specs.Specifiers.{goes_on};
ghost use Rattle.c_grammar.specs.Ways.SpecifierSteps as steps;
ghost use Rattle.c_grammar.specs.Nonterminal.{Specifiers};
ghost use Rattle.c_grammar.specs.Reading.{read};
ghost use Rattle.c_tree.specs.declared.keyword.Keyword.TheVariants as words;
ghost use Rattle.c_tree.specs.declared.token.Token.{Token};
ghost use Rattle.c_tree.specs.Tokens.{word_of};
ghost use Rattle.c_expr.specs.Standing.{Over, OverRow, Passes, IsFirst};
ghost use Rattle.c_expr.specs.Gives.{Gives, GivesList, left, left_by_list, count_of, done, Spends};
ghost use Rattle.c_expr.specs.SpecifierPlaces.{place_of};

use crate::fault::ExprFault;
use crate::nodes::{Read, ReadList, list_of, node, part};
use crate::specifier_words::{SpecifierPlace, begins_tag, fit, goes_on, says_type};
use crate::symbols::{place_of, take_word};
use c_grammar::TypeNames;
use c_tree::{Arena, Keyword, Kind, Part, Place, Specifier, StructOrUnion, Token, TokenKind};

/// The tag behind `struct` or `union`.
fn read_struct_tag<'a>(
    arena: &'a Arena,
    which: StructOrUnion,
    first: Place,
    tokens: &'a [Token],
    next: &mut u32,
) -> Result<Read<'a>, ExprFault>
    requires { next.old + 16 * length tokens.now < 2 ^ 32 }
    ensures found { Gives result (steps.read_struct_tag which (symbols_of tokens.now)) }
    ensures stands { (ts : List Token) → IsFirst first ts → Passes (Reserved (word_of which)) ts tokens.now → Over result next.old next.new ts }
    ensures ids { Spends next.old next.new (length tokens.now) (left result) }
{
    let Some((tag, rest)) = take_word(tokens) else {
        return Err(ExprFault::NoTree);
    };
    let kind = Kind::Specifier(Specifier::StructTag { which, tag });
    part(arena, kind, first, 1, rest, next)
}

/// The tag behind `enum`.
fn read_enum_tag<'a>(
    arena: &'a Arena,
    first: Place,
    tokens: &'a [Token],
    next: &mut u32,
) -> Result<Read<'a>, ExprFault>
    requires { next.old + 16 * length tokens.now < 2 ^ 32 }
    ensures found { Gives result (steps.read_enum_tag (symbols_of tokens.now)) }
    ensures stands { (ts : List Token) → IsFirst first ts → Passes (Reserved words.Enum) ts tokens.now → Over result next.old next.new ts }
    ensures ids { Spends next.old next.new (length tokens.now) (left result) }
{
    let Some((tag, rest)) = take_word(tokens) else {
        return Err(ExprFault::NoTree);
    };
    let kind = Kind::Specifier(Specifier::EnumTag { tag });
    part(arena, kind, first, 1, rest, next)
}

/// A tag without a body (6.5.2.3), with its word in front.
fn read_tag<'a>(
    arena: &'a Arena,
    front: &Token,
    tokens: &'a [Token],
    next: &mut u32,
) -> Result<Read<'a>, ExprFault>
    requires { next.old + 16 * length tokens.now < 2 ^ 32 }
    ensures found { Gives result (steps.read_tag (symbol_of front.now ∷ symbols_of tokens.now)) }
    ensures stands { Over result next.old next.new (front.now ∷ tokens.now) }
    ensures ids { Spends next.old next.new (length tokens.now) (left result) }
{
    let first = front.place;
    match front.kind {
        TokenKind::Keyword(word) => match word {
            Keyword::Struct => read_struct_tag(arena, StructOrUnion::Struct, first, tokens, next),
            Keyword::Union => read_struct_tag(arena, StructOrUnion::Union, first, tokens, next),
            Keyword::Enum => read_enum_tag(arena, first, tokens, next),
            _ => Err(ExprFault::NoTree),
        },
        _ => Err(ExprFault::NoTree),
    }
}

/// The specifier that begins with the token in front.
fn read_item<'a>(
    arena: &'a Arena,
    front: &'a Token,
    tokens: &'a [Token],
    next: &mut u32,
) -> Result<Read<'a>, ExprFault>
    requires { next.old + 16 * length tokens.now + 16 < 2 ^ 32 }
    ensures found { Gives result (steps.read_item steps.read_tag (symbol_of front.now) (symbols_of tokens.now)) }
    ensures stands { Over result next.old next.new (front.now ∷ tokens.now) }
    ensures ids { (next.old ≤ next.new) × (next.new + 16 * left result ≤ next.old + 16 * length tokens.now + 1) }
{
    if begins_tag(front) {
        return read_tag(arena, front, tokens, next);
    }
    let kind = Kind::Part(Part::SpecWord { word: front });
    part(arena, kind, front.place, 0, tokens, next)
}

/// The token in front that goes on with specifiers, and what follows it.
fn take_specifier<'a>(
    names: &TypeNames,
    typed: bool,
    tokens: &'a [Token],
) -> Option<(&'a Token, &'a [Token])>
    ensures found { option_map (λ found. (symbol_of found.0.now, symbols_of found.1.now)) result ≡ take_symbol (goes_on names.now.now typed) (symbols_of tokens.now) }
    ensures front { IfSome result (λ found. tokens.now ≡ found.0.now ∷ found.1.now) }
    ensures shorter { IfSome result (λ found. length found.1.now + 1 ≡ length tokens.now) }
{
    match tokens {
        [] => None,
        [front, rest @ ..] => if goes_on(names, typed, front) {
            Some((front, rest))
        } else {
            None
        },
    }
}

/// One specifier after the other, as long as the next token goes on with them.
#[tactic(auto, using(crate::proofs::Items::items))]
fn read_items<'a>(
    arena: &'a Arena,
    tokens: &'a [Token],
    names: &TypeNames,
    next: &mut u32,
) -> Result<ReadList<'a>, ExprFault>
    requires { next.old + 16 * length tokens.now < 2 ^ 32 }
    ensures found { GivesList result (steps.read_items steps.read_tag names.now.now (length (symbols_of tokens.now)) false (symbols_of tokens.now)) }
    ensures stands { OverRow result next.old next.new tokens.now }
    ensures ids { (next.old ≤ next.new) × (next.new + 16 * left_by_list result + 15 * count_of result ≤ next.old + 16 * length tokens.now) }
{
    let mut all = Vec::new(arena);
    let mut highest = 0;
    let mut typed = false;
    let mut rest = tokens;
    let mut fuel = tokens.len();
    while let Some((front, behind)) = take_specifier(names, typed, rest) {
        if fuel == 0 {
            return Err(ExprFault::NoTree);
        }
        fuel -= 1;
        let item = read_item(arena, front, behind, next)?;
        typed |= says_type(item.tree);
        highest = item.height.max(highest);
        all.push(*item.tree)?;
        rest = item.rest;
    }
    Ok(ReadList {
        trees: list_of(all),
        rest,
        height: highest,
    })
}

/// All specifiers in front.
#[tactic(auto, using(crate::proofs::Items::specifiers))]
pub fn specifiers_in_front<'a>(
    arena: &'a Arena,
    place: SpecifierPlace,
    tokens: &'a [Token],
    names: &TypeNames,
    room: u32,
    next: &mut u32,
) -> Result<Read<'a>, ExprFault>
    requires { next.old + 16 * length tokens.now < 2 ^ 32 }
    ensures found { Gives result (read room (Specifiers (place_of place)) names.now.now (symbols_of tokens.now)) }
    ensures stands { Over result next.old next.new tokens.now }
    ensures ids { (next.old ≤ next.new) × (next.new + 16 * left result + 8 * done result ≤ next.old + 16 * length tokens.now) }
{
    if room == 0 {
        return Err(ExprFault::NoTree);
    }
    let items = read_items(arena, tokens, names, next)?;
    if !fit(arena, place, items.trees.all)? {
        return Err(ExprFault::NoTree);
    }
    let kind = Kind::Specifier(Specifier::Specs { items: items.trees });
    node(
        arena,
        kind,
        place_of(tokens),
        items.height,
        items.rest,
        room,
        next,
    )
}
