//! Reads members of structures and unions (ISO 9899:1990, 6.5.2.1).

ghost use Rattle.std.specs.Prelude.{◌≡◌, ◌+◌, ◌-◌, ◌*◌, ◌<◌, ◌≤◌, ◌^◌, length, IfOk};
ghost use Rattle.c_tree.specs.declared.punctuator.Punctuator.TheVariants as marks;
ghost use Rattle.c_tree.specs.Symbol.{symbols_of};
ghost use Rattle.c_tree.specs.Height.{height_of};
ghost use Rattle.c_tree.specs.Views.{node_of};
ghost use Rattle.c_tree.specs.Forget.{view, view_all};
ghost use Rattle.c_grammar.specs.Names.{Names};
ghost use Rattle.c_grammar.specs.Reading.{read as read_expressions};
ghost use Rattle.c_grammar.specs.UnitGrammar.Construct.{StructMember};
ghost use Rattle.c_grammar.specs.UnitGrammar.Declarations.{is_struct_body, has_struct_body, makes_members};
ghost use Rattle.c_grammar.specs.UnitGrammar.Names.{declared};
ghost use Rattle.c_grammar.specs.UnitGrammar.Reading.{read};
ghost use Rattle.c_grammar.specs.Ways.TaggedSteps as steps;
ghost use Rattle.c_expr.specs.Gives.{Gives, GivesList, AsBefore, left, left_by_list, Spends};
ghost use Rattle.c_expr.specs.Standing.{Over, OverBehind};
ghost use Rattle.c_parser.specs.Parts.{OverListUpTo};

use crate::specifiers::specifiers_in_front;
use crate::tagged_nodes::{bare_field_of, field_of, members_of};
use c_expr::{
    CONDITIONAL_LEVEL, ExprFault, Form, Read, ReadList, SpecifierPlace, after_sign,
    declarator_in_front, expression_in_front, list_of, node, place_of,
};
use c_grammar::TypeNames;
use c_tree::{Arena, Kind, Outer, Punctuator, Specifier, Token, Tree};

/// Whether the specifier is a structure or union with its body.
fn is_struct_body(item: &Tree) -> bool
    ensures { result ≡ is_struct_body (view item.now) }
{
    match &item.kind {
        Kind::Specifier(specifier) => match specifier {
            Specifier::StructBody { .. } => true,
            _ => false,
        },
        _ => false,
    }
}

/// Whether a structure or union with its body is among the specifiers.
#[tactic(auto, using(crate::proofs::Lists::lists))]
fn has_struct_body(items: &[Tree]) -> bool
    ensures { result ≡ has_struct_body (view_all items.now) }
{
    for item in items {
        if is_struct_body(item) {
            return true;
        }
    }
    false
}

/// Whether members with these specifiers need no declarator.
#[tactic(auto, using(crate::proofs::Lists::list_out))]
fn makes_members(specs: &Tree) -> bool
    ensures { result ≡ makes_members (view specs.now) }
{
    match &specs.kind {
        Kind::Specifier(specifier) => match specifier {
            Specifier::Specs { items } => has_struct_body(items.all),
            _ => false,
        },
        _ => false,
    }
}

/// A declarator, or a bit-field with or without one.
fn read_member_declarator<'a>(
    arena: &'a Arena,
    tokens: &'a [Token],
    names: &mut TypeNames,
    room: u32,
    next: &mut u32,
) -> Result<Read<'a>, ExprFault>
    requires positive { 0 < room }
    requires ids { next.old + 16 * length tokens.now < 2 ^ 32 }
    ensures found { Gives result (steps.read_member_declarator (read_expressions (room - 1)) names.old.now (symbols_of tokens.now)) }
    ensures stands { Over result next.old next.new tokens.now }
    ensures names { AsBefore names.new names.old }
    ensures ids { Spends next.old next.new (length tokens.now) (left result) }
{
    if let Some(rest) = after_sign(Punctuator::Colon, tokens) {
        let width = expression_in_front(arena, CONDITIONAL_LEVEL, rest, names, room - 1, next)?;
        return bare_field_of(arena, place_of(tokens), width, next);
    }
    let declarator = declarator_in_front(arena, Form::Named, tokens, names, room - 1, next)?;
    let Some(rest) = after_sign(Punctuator::Colon, declarator.rest) else {
        return Ok(declarator);
    };
    let width = expression_in_front(arena, CONDITIONAL_LEVEL, rest, names, room - 1, next)?;
    field_of(arena, declarator, width, next)
}

/// Declarators of members up to the semicolon, at least one.
#[tactic(auto, using(crate::proofs::TaggedSteps::member_declarators))]
fn read_member_declarators<'a>(
    arena: &'a Arena,
    tokens: &'a [Token],
    names: &mut TypeNames,
    room: u32,
    next: &mut u32,
) -> Result<ReadList<'a>, ExprFault>
    requires positive { 0 < room }
    requires ids { next.old + 16 * length tokens.now < 2 ^ 32 }
    ensures found { GivesList result (steps.read_member_declarators (read_expressions (room - 1)) names.old.now (length (symbols_of tokens.now)) (symbols_of tokens.now)) }
    ensures stands { OverListUpTo result marks.Semicolon next.old next.new tokens.now }
    ensures names { AsBefore names.new names.old }
    ensures ids { Spends next.old next.new (length tokens.now) (left_by_list result) }
{
    let mut all = Vec::new(arena);
    let mut highest = 0;
    let mut rest = tokens;
    let mut fuel = tokens.len();
    while fuel != 0 {
        fuel -= 1;
        let member = read_member_declarator(arena, rest, names, room, next)?;
        highest = member.height.max(highest);
        all.push(*member.tree)?;
        let Some(others) = after_sign(Punctuator::Comma, member.rest) else {
            let Some(end) = after_sign(Punctuator::Semicolon, member.rest) else {
                return Err(ExprFault::NoTree);
            };
            return Ok(ReadList {
                trees: list_of(all),
                rest: end,
                height: highest,
            });
        };
        rest = others;
    }
    Err(ExprFault::NoTree)
}

/// What follows the specifiers of members: their declarators up to a semicolon, or none where they need none.
fn read_declared_members<'a>(
    arena: &'a Arena,
    specs: Read<'a>,
    names: &mut TypeNames,
    room: u32,
    next: &mut u32,
) -> Result<Read<'a>, ExprFault>
    requires positive { 0 < room }
    requires height { specs.height ≡ height_of (view specs.tree.now) }
    requires ids { next.old + 16 * length specs.rest.now + 1 < 2 ^ 32 }
    ensures found { Gives result (steps.read_declared_members (read_expressions (room - 1)) room names.old.now (view specs.entry.tree.now) (symbols_of specs.entry.rest.now)) }
    ensures stands { OverBehind result (node_of specs.entry.tree.now) next.old next.new specs.entry.rest.now }
    ensures adds { IfOk result (λ r. (before : Names) → declared (view r.tree.now) before ≡ declared (view specs.entry.tree.now) before) }
    ensures names { AsBefore names.new names.old }
    ensures ids { (next.old ≤ next.new) × (next.new + 16 * left result ≤ next.old + 16 * length specs.entry.rest.now + 1) }
{
    if let Some(rest) = after_sign(Punctuator::Semicolon, specs.rest) {
        if !makes_members(specs.tree) {
            return Err(ExprFault::NoTree);
        }
        let none = ReadList {
            trees: list_of(Vec::new(arena)),
            rest,
            height: 0,
        };
        return members_of(arena, specs, none, room, next);
    }
    let declarators = read_member_declarators(arena, specs.rest, names, room, next)?;
    members_of(arena, specs, declarators, room, next)
}

/// The line in front of a body of a structure or union.
#[tactic(auto, using(crate::proofs::TaggedSteps::reads))]
#[cycle(tags)]
pub(crate) fn member_in_front<'a>(
    arena: &'a Arena,
    tokens: &'a [Token],
    names: &mut TypeNames,
    room: u32,
    next: &mut u32,
) -> Result<Read<'a>, ExprFault>
    requires ids { next.old + 16 * length tokens.now < 2 ^ 32 }
    ensures found { Gives result (read room StructMember names.old.now (symbols_of tokens.now)) }
    ensures stands { Over result next.old next.new tokens.now }
    ensures now { IfOk result (λ r. names.new.now ≡ declared (view r.tree.now) names.old.now) }
    ensures saved { names.new.saved ≡ names.old.saved }
    ensures ids { Spends next.old next.new (length tokens.now) (left result) }
{
    if room == 0 {
        return Err(ExprFault::NoTree);
    }
    if let Some(rest) = after_sign(Punctuator::Semicolon, tokens) {
        let kind = Kind::Outer(Outer::Empty);
        return node(arena, kind, place_of(tokens), 0, rest, room, next);
    }
    let place = SpecifierPlace::InTypeName;
    let specs = specifiers_in_front(arena, place, tokens, names, room - 1, next)?;
    read_declared_members(arena, specs, names, room, next)
}
