//! Reads initial values (ISO 9899:1990, 6.5.7).

ghost use Rattle.std.specs.Prelude.{◌+◌, ◌-◌, ◌*◌, ◌<◌, ◌^◌, length};
ghost use Rattle.c_tree.specs.Symbol.{symbols_of};
ghost use Rattle.c_grammar.specs.Reading.{read as read_expressions};
ghost use Rattle.c_grammar.specs.UnitGrammar.Construct.{BracedInitials};
ghost use Rattle.c_grammar.specs.Ways.DeclarationSteps as steps;
ghost use Rattle.c_grammar.specs.UnitGrammar.Reading.{read};
ghost use Rattle.c_expr.specs.Gives.{Gives, AsBefore, left, Spends};
ghost use Rattle.c_expr.specs.Standing.{Over};
ghost use Rattle.c_parser.specs.CommaLists.{GivesCommaList, OverCommaList, left_by_comma_list};

use crate::declaration_nodes::braces_of;
use crate::front::begins_sign;
use crate::parts::ReadCommaList;
use c_expr::{
    ASSIGNMENT_LEVEL, ExprFault, Read, after_sign, expression_in_front, list_of, place_of,
};
use c_grammar::TypeNames;
use c_tree::{Arena, Punctuator, Token};

/// An expression, or initial values in braces.
#[cycle(braces)]
pub(crate) fn read_initial<'a>(
    arena: &'a Arena,
    tokens: &'a [Token],
    names: &mut TypeNames,
    room: u32,
    next: &mut u32,
) -> Result<Read<'a>, ExprFault>
    requires positive { 0 < room }
    requires ids { next.old + 16 * length tokens.now < 2 ^ 32 }
    ensures found { Gives result (steps.read_initial (read_expressions (room - 1)) (read (room - 1)) names.old.now (symbols_of tokens.now)) }
    ensures stands { Over result next.old next.new tokens.now }
    ensures names { AsBefore names.new names.old }
    ensures ids { Spends next.old next.new (length tokens.now) (left result) }
{
    if begins_sign(Punctuator::OpenBrace, tokens) {
        return braces_in_front(arena, tokens, names, room - 1, next);
    }
    expression_in_front(arena, ASSIGNMENT_LEVEL, tokens, names, room - 1, next)
}

/// Initial values up to the brace, at least one.
#[tactic(auto, using(crate::proofs::InitialSteps::initials))]
#[cycle(braces)]
fn read_initials<'a>(
    arena: &'a Arena,
    tokens: &'a [Token],
    names: &mut TypeNames,
    room: u32,
    next: &mut u32,
) -> Result<ReadCommaList<'a>, ExprFault>
    requires positive { 0 < room }
    requires ids { next.old + 16 * length tokens.now < 2 ^ 32 }
    ensures found { GivesCommaList result (steps.read_initials (read_expressions (room - 1)) (read (room - 1)) names.old.now (length (symbols_of tokens.now)) (symbols_of tokens.now)) }
    ensures stands { OverCommaList result next.old next.new tokens.now }
    ensures names { AsBefore names.new names.old }
    ensures ids { Spends next.old next.new (length tokens.now) (left_by_comma_list result) }
{
    let mut all = Vec::new(arena);
    let mut highest = 0;
    let mut rest = tokens;
    let mut fuel = tokens.len();
    while fuel != 0 {
        fuel -= 1;
        let element = read_initial(arena, rest, names, room, next)?;
        highest = element.height.max(highest);
        all.push(*element.tree)?;
        let Some(after) = after_sign(Punctuator::Comma, element.rest) else {
            let Some(end) = after_sign(Punctuator::CloseBrace, element.rest) else {
                return Err(ExprFault::NoTree);
            };
            return Ok(ReadCommaList {
                trees: list_of(all),
                comma: false,
                rest: end,
                height: highest,
            });
        };
        if let Some(end) = after_sign(Punctuator::CloseBrace, after) {
            return Ok(ReadCommaList {
                trees: list_of(all),
                comma: true,
                rest: end,
                height: highest,
            });
        }
        rest = after;
    }
    Err(ExprFault::NoTree)
}

/// The initial values in braces in front.
#[tactic(auto, using(crate::proofs::InitialSteps::reads))]
#[cycle(braces)]
pub(crate) fn braces_in_front<'a>(
    arena: &'a Arena,
    tokens: &'a [Token],
    names: &mut TypeNames,
    room: u32,
    next: &mut u32,
) -> Result<Read<'a>, ExprFault>
    requires ids { next.old + 16 * length tokens.now < 2 ^ 32 }
    ensures found { Gives result (read room BracedInitials names.old.now (symbols_of tokens.now)) }
    ensures stands { Over result next.old next.new tokens.now }
    ensures names { AsBefore names.new names.old }
    ensures ids { Spends next.old next.new (length tokens.now) (left result) }
{
    if room == 0 {
        return Err(ExprFault::NoTree);
    }
    let Some(inside) = after_sign(Punctuator::OpenBrace, tokens) else {
        return Err(ExprFault::NoTree);
    };
    if let Some(rest) = after_sign(Punctuator::CloseBrace, inside) {
        let none = ReadCommaList {
            trees: list_of(Vec::new(arena)),
            comma: false,
            rest,
            height: 0,
        };
        return braces_of(arena, place_of(tokens), none, room, next);
    }
    let elements = read_initials(arena, inside, names, room, next)?;
    braces_of(arena, place_of(tokens), elements, room, next)
}
