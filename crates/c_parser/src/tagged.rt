//! Reads structures, unions and enumerations with their bodies (ISO 9899:1990, 6.5.2.1 to 6.5.2.3).

ghost use Rattle.std.specs.Prelude.{◌≡◌, ◌+◌, ◌-◌, ◌*◌, ◌<◌, ◌≤◌, ◌^◌, List, false, length, IfOk};
ghost use Rattle.std.specs.Option.{option_map};
ghost use Rattle.c_tree.specs.declared.keyword.Keyword.TheVariants as words;
ghost use Rattle.c_tree.specs.declared.punctuator.Punctuator.TheVariants as marks;
ghost use Rattle.c_tree.specs.declared.token.Token.{Token};
ghost use Rattle.c_tree.specs.Symbol.{Reserved, symbol_of, symbols_of};
ghost use Rattle.c_tree.specs.Tokens.{word_of};
ghost use Rattle.c_tree.specs.Views.{maybe_token};
ghost use Rattle.c_tree.specs.Forget.{view, list_view};
ghost use Rattle.c_grammar.specs.Names.{name_in, with_name};
ghost use Rattle.c_grammar.specs.Reading.{read as read_expressions};
ghost use Rattle.c_grammar.specs.UnitGrammar.Construct.{TaggedType};
ghost use Rattle.c_grammar.specs.UnitGrammar.Names.{declared, declared_by_all};
ghost use Rattle.c_grammar.specs.UnitGrammar.Reading.{read};
ghost use Rattle.c_grammar.specs.Ways.TaggedSteps as steps;
ghost use Rattle.c_expr.specs.Gives.{Gives, GivesList, left, left_by_list, done, Spends};
ghost use Rattle.c_expr.specs.Standing.{Over, Passes, IsFirst};
ghost use Rattle.c_parser.specs.CommaLists.{GivesCommaList, OverCommaList, left_by_comma_list};
ghost use Rattle.c_parser.specs.Parts.{OverRowUpTo};
ghost use Rattle.c_parser.specs.Tags.{Opens};

use crate::members::member_in_front;
use crate::parts::ReadCommaList;
use crate::tagged_nodes::{enum_body_of, enum_tag_of, struct_body_of, struct_tag_of};
use c_expr::{
    CONDITIONAL_LEVEL, ExprFault, Read, ReadList, after_keyword, after_sign, expression_in_front,
    list_of, part, place_of, take_word,
};
use c_grammar::TypeNames;
use c_tree::{Arena, Keyword, Kind, Part, Place, Punctuator, StructOrUnion, Token, TokenKind};
use std::alloc::AllocError;

/// Puts the name of an enumerator in force (6.1.2.1).
fn declare_enumerator(names: &mut TypeNames, name: &Token) -> Result<(), AllocError>
    ensures now { IfOk result (λ _. names.new.now ≡ with_name (name_in (symbol_of name.now)) false names.old.now) }
    ensures saved { names.new.saved ≡ names.old.saved }
{
    match name.kind {
        TokenKind::Word(_) => {
            names.declare(name.name, false)?;
            Ok(())
        }
        _ => Ok(()),
    }
}

/// A name, with or without a value, which is an enumerator in force behind it (6.5.2.2).
fn read_enumerator<'a>(
    arena: &'a Arena,
    tokens: &'a [Token],
    names: &mut TypeNames,
    room: u32,
    next: &mut u32,
) -> Result<Read<'a>, ExprFault>
    requires positive { 0 < room }
    requires ids { next.old + 16 * length tokens.now < 2 ^ 32 }
    ensures found { Gives result (steps.read_enumerator (read_expressions (room - 1)) names.old.now (symbols_of tokens.now)) }
    ensures stands { Over result next.old next.new tokens.now }
    ensures now { IfOk result (λ r. names.new.now ≡ declared (view r.tree.now) names.old.now) }
    ensures saved { names.new.saved ≡ names.old.saved }
    ensures ids { Spends next.old next.new (length tokens.now) (left result) }
{
    let Some((name, rest)) = take_word(tokens) else {
        return Err(ExprFault::NoTree);
    };
    let first = place_of(tokens);
    let Some(after) = after_sign(Punctuator::Assign, rest) else {
        declare_enumerator(names, name)?;
        let kind = Kind::Part(Part::Enumerator { name, value: None });
        return part(arena, kind, first, 0, rest, next);
    };
    let value = expression_in_front(arena, CONDITIONAL_LEVEL, after, names, room - 1, next)?;
    declare_enumerator(names, name)?;
    let kind = Kind::Part(Part::Enumerator {
        name,
        value: Some(value.tree),
    });
    part(arena, kind, first, value.height, value.rest, next)
}

/// Enumerators up to the brace, at least one. They stay in force.
#[tactic(auto, using(crate::proofs::TaggedSteps::enumerators))]
fn read_enumerators<'a>(
    arena: &'a Arena,
    tokens: &'a [Token],
    names: &mut TypeNames,
    room: u32,
    next: &mut u32,
) -> Result<ReadCommaList<'a>, ExprFault>
    requires positive { 0 < room }
    requires ids { next.old + 16 * length tokens.now < 2 ^ 32 }
    ensures found { GivesCommaList result (steps.read_enumerators (read_expressions (room - 1)) names.old.now (length (symbols_of tokens.now)) (symbols_of tokens.now)) }
    ensures stands { OverCommaList result next.old next.new tokens.now }
    ensures now { IfOk result (λ r. names.new.now ≡ declared_by_all (list_view r.trees) names.old.now) }
    ensures saved { names.new.saved ≡ names.old.saved }
    ensures ids { Spends next.old next.new (length tokens.now) (left_by_comma_list result) }
{
    let mut all = Vec::new(arena);
    let mut highest = 0;
    let mut rest = tokens;
    let mut fuel = tokens.len();
    while fuel != 0 {
        fuel -= 1;
        let enumerator = read_enumerator(arena, rest, names, room, next)?;
        highest = enumerator.height.max(highest);
        all.push(*enumerator.tree)?;
        let Some(others) = after_sign(Punctuator::Comma, enumerator.rest) else {
            let Some(end) = after_sign(Punctuator::CloseBrace, enumerator.rest) else {
                return Err(ExprFault::NoTree);
            };
            return Ok(ReadCommaList {
                trees: list_of(all),
                comma: false,
                rest: end,
                height: highest,
            });
        };
        if let Some(end) = after_sign(Punctuator::CloseBrace, others) {
            return Ok(ReadCommaList {
                trees: list_of(all),
                comma: true,
                rest: end,
                height: highest,
            });
        }
        rest = others;
    }
    Err(ExprFault::NoTree)
}

/// What follows the brace of an enumeration.
fn read_enum_body<'a>(
    arena: &'a Arena,
    first: Place,
    tag: Option<&'a Token>,
    tokens: &'a [Token],
    names: &mut TypeNames,
    room: u32,
    next: &mut u32,
) -> Result<Read<'a>, ExprFault>
    requires positive { 0 < room }
    requires ids { next.old + 16 * length tokens.now + 1 < 2 ^ 32 }
    ensures found { Gives result (steps.read_enum_body (read_expressions (room - 1)) room names.old.now (option_map symbol_of (maybe_token tag.entry)) (symbols_of tokens.now)) }
    ensures stands { (ts us : List Token) → IsFirst first ts → Passes (Reserved words.Enum) ts us → Opens (maybe_token tag.entry) us tokens.now → Over result next.old next.new ts }
    ensures now { IfOk result (λ r. names.new.now ≡ declared (view r.tree.now) names.old.now) }
    ensures saved { names.new.saved ≡ names.old.saved }
    ensures ids { (next.old ≤ next.new) × (next.new + 16 * left result ≤ next.old + 16 * length tokens.now + 1) }
{
    let read = read_enumerators(arena, tokens, names, room, next)?;
    let enumerators = ReadList {
        trees: read.trees,
        rest: read.rest,
        height: read.height,
    };
    enum_body_of(arena, first, tag, enumerators, read.comma, room, next)
}

/// What follows `enum`, of which `first` is the place: a tag, a body, or both (6.5.2.2).
fn read_enum<'a>(
    arena: &'a Arena,
    first: Place,
    tokens: &'a [Token],
    names: &mut TypeNames,
    room: u32,
    next: &mut u32,
) -> Result<Read<'a>, ExprFault>
    requires positive { 0 < room }
    requires ids { next.old + 16 * length tokens.now < 2 ^ 32 }
    ensures found { Gives result (steps.read_enum (read_expressions (room - 1)) room names.old.now (symbols_of tokens.now)) }
    ensures stands { (ts : List Token) → IsFirst first ts → Passes (Reserved words.Enum) ts tokens.now → Over result next.old next.new ts }
    ensures now { IfOk result (λ r. names.new.now ≡ declared (view r.tree.now) names.old.now) }
    ensures saved { names.new.saved ≡ names.old.saved }
    ensures ids { Spends next.old next.new (length tokens.now) (left result) }
{
    let Some((tag, rest)) = take_word(tokens) else {
        let Some(inside) = after_sign(Punctuator::OpenBrace, tokens) else {
            return Err(ExprFault::NoTree);
        };
        return read_enum_body(arena, first, None, inside, names, room, next);
    };
    let Some(inside) = after_sign(Punctuator::OpenBrace, rest) else {
        return enum_tag_of(arena, first, tag, rest, room, next);
    };
    read_enum_body(arena, first, Some(tag), inside, names, room, next)
}

/// Members up to the brace. The enumerators among their specifiers stay in force.
#[tactic(auto, using(crate::proofs::TaggedSteps::members))]
#[cycle(tags)]
fn read_members<'a>(
    arena: &'a Arena,
    tokens: &'a [Token],
    names: &mut TypeNames,
    room: u32,
    next: &mut u32,
) -> Result<ReadList<'a>, ExprFault>
    requires positive { 0 < room }
    requires ids { next.old + 16 * length tokens.now < 2 ^ 32 }
    ensures found { GivesList result (steps.read_members (read (room - 1)) names.old.now (length (symbols_of tokens.now)) (symbols_of tokens.now)) }
    ensures stands { OverRowUpTo result marks.CloseBrace next.old next.new tokens.now }
    ensures now { IfOk result (λ r. names.new.now ≡ declared_by_all (list_view r.trees) names.old.now) }
    ensures saved { names.new.saved ≡ names.old.saved }
    ensures ids { Spends next.old next.new (length tokens.now) (left_by_list result) }
{
    let mut all = Vec::new(arena);
    let mut highest = 0;
    let mut rest = tokens;
    let mut fuel = tokens.len();
    while fuel != 0 {
        fuel -= 1;
        if let Some(end) = after_sign(Punctuator::CloseBrace, rest) {
            return Ok(ReadList {
                trees: list_of(all),
                rest: end,
                height: highest,
            });
        }
        let member = member_in_front(arena, rest, names, room - 1, next)?;
        highest = member.height.max(highest);
        all.push(*member.tree)?;
        rest = member.rest;
    }
    Err(ExprFault::NoTree)
}

/// What follows the brace of a structure or union.
#[cycle(tags)]
fn read_struct_body<'a>(
    arena: &'a Arena,
    first: Place,
    which: StructOrUnion,
    tag: Option<&'a Token>,
    tokens: &'a [Token],
    names: &mut TypeNames,
    room: u32,
    next: &mut u32,
) -> Result<Read<'a>, ExprFault>
    requires positive { 0 < room }
    requires ids { next.old + 16 * length tokens.now + 1 < 2 ^ 32 }
    ensures found { Gives result (steps.read_struct_body (read (room - 1)) room names.old.now which (option_map symbol_of (maybe_token tag.entry)) (symbols_of tokens.now)) }
    ensures stands { (ts us : List Token) → IsFirst first ts → Passes (Reserved (word_of which)) ts us → Opens (maybe_token tag.entry) us tokens.now → Over result next.old next.new ts }
    ensures now { IfOk result (λ r. names.new.now ≡ declared (view r.tree.now) names.old.now) }
    ensures saved { names.new.saved ≡ names.old.saved }
    ensures ids { (next.old ≤ next.new) × (next.new + 16 * left result ≤ next.old + 16 * length tokens.now + 1) }
{
    let members = read_members(arena, tokens, names, room, next)?;
    struct_body_of(arena, first, which, tag, members, room, next)
}

/// What follows `struct` or `union`, of which `first` is the place: a tag, a body, or both (6.5.2.1).
#[cycle(tags)]
fn read_struct<'a>(
    arena: &'a Arena,
    first: Place,
    which: StructOrUnion,
    tokens: &'a [Token],
    names: &mut TypeNames,
    room: u32,
    next: &mut u32,
) -> Result<Read<'a>, ExprFault>
    requires positive { 0 < room }
    requires ids { next.old + 16 * length tokens.now < 2 ^ 32 }
    ensures found { Gives result (steps.read_struct (read (room - 1)) room names.old.now which (symbols_of tokens.now)) }
    ensures stands { (ts : List Token) → IsFirst first ts → Passes (Reserved (word_of which)) ts tokens.now → Over result next.old next.new ts }
    ensures now { IfOk result (λ r. names.new.now ≡ declared (view r.tree.now) names.old.now) }
    ensures saved { names.new.saved ≡ names.old.saved }
    ensures ids { Spends next.old next.new (length tokens.now) (left result) }
{
    let Some((tag, rest)) = take_word(tokens) else {
        let Some(inside) = after_sign(Punctuator::OpenBrace, tokens) else {
            return Err(ExprFault::NoTree);
        };
        return read_struct_body(arena, first, which, None, inside, names, room, next);
    };
    let Some(inside) = after_sign(Punctuator::OpenBrace, rest) else {
        return struct_tag_of(arena, first, which, tag, rest, room, next);
    };
    read_struct_body(arena, first, which, Some(tag), inside, names, room, next)
}

/// The specifier in front that begins with `struct`, `union` or `enum`.
#[tactic(auto, using(crate::proofs::TaggedSteps::reads))]
#[cycle(tags)]
pub(crate) fn tagged_in_front<'a>(
    arena: &'a Arena,
    tokens: &'a [Token],
    names: &mut TypeNames,
    room: u32,
    next: &mut u32,
) -> Result<Read<'a>, ExprFault>
    requires ids { next.old + 16 * length tokens.now < 2 ^ 32 }
    ensures found { Gives result (read room TaggedType names.old.now (symbols_of tokens.now)) }
    ensures stands { Over result next.old next.new tokens.now }
    ensures now { IfOk result (λ r. names.new.now ≡ declared (view r.tree.now) names.old.now) }
    ensures saved { names.new.saved ≡ names.old.saved }
    ensures ids { (next.old ≤ next.new) × (next.new + 16 * left result + 16 * done result ≤ next.old + 16 * length tokens.now) }
{
    if room == 0 {
        return Err(ExprFault::NoTree);
    }
    let first = place_of(tokens);
    if let Some(rest) = after_keyword(Keyword::Struct, tokens) {
        return read_struct(arena, first, StructOrUnion::Struct, rest, names, room, next);
    }
    if let Some(rest) = after_keyword(Keyword::Union, tokens) {
        return read_struct(arena, first, StructOrUnion::Union, rest, names, room, next);
    }
    let Some(rest) = after_keyword(Keyword::Enum, tokens) else {
        return Err(ExprFault::NoTree);
    };
    read_enum(arena, first, rest, names, room, next)
}
