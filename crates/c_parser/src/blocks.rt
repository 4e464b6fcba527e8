//! Reads blocks (ISO 9899:1990, 6.6.2). What is declared in a block is in force up to its end.

ghost use Rattle.std.specs.Prelude.{◌≡◌, ◌+◌, ◌-◌, ◌*◌, ◌<◌, ◌≤◌, ◌^◌, List, length};
ghost use Rattle.c_tree.specs.declared.punctuator.Punctuator.TheVariants as marks;
ghost use Rattle.c_tree.specs.declared.token.Token.{Token};
ghost use Rattle.c_tree.specs.Symbol.{Sign, symbols_of};
ghost use Rattle.c_grammar.specs.UnitGrammar.Construct.{FunctionBody};
ghost use Rattle.c_grammar.specs.Ways.StatementSteps as steps;
ghost use Rattle.c_grammar.specs.UnitGrammar.Reading.{read};
ghost use Rattle.c_expr.specs.Standing.{Over, Passes, IsFirst};
ghost use Rattle.c_expr.specs.Gives.{Gives, GivesList, AsBefore, left, left_by_list, Spends};
ghost use Rattle.c_parser.specs.Parts.{OverRowUpTo};

use crate::declarations::declaration_in_front;
use crate::front::begins_declaration;
use crate::statement_nodes::block_of;
use crate::statements::statement_in_front;
use c_expr::{ExprFault, Read, ReadList, after_sign, list_of, place_of};
use c_grammar::TypeNames;
use c_tree::{Arena, Place, Punctuator, Token};

/// Declarations and then statements, up to the brace that closes a block. What is declared stays in force.
#[tactic(auto, using(crate::proofs::StatementSteps::blocks))]
#[cycle(statements)]
fn read_block_items<'a>(
    arena: &'a Arena,
    tokens: &'a [Token],
    names: &mut TypeNames,
    room: u32,
    next: &mut u32,
) -> Result<ReadList<'a>, ExprFault>
    requires positive { 0 < room }
    requires ids { next.old + 16 * length tokens.now < 2 ^ 32 }
    ensures found { GivesList result (steps.read_block_items (read (room - 1)) names.old.now (length (symbols_of tokens.now)) (symbols_of tokens.now)) }
    ensures stands { OverRowUpTo result marks.CloseBrace next.old next.new tokens.now }
    ensures saved { names.new.saved ≡ names.old.saved }
    ensures ids { Spends next.old next.new (length tokens.now) (left_by_list result) }
{
    let mut all = Vec::new(arena);
    let mut highest = 0;
    let mut rest = tokens;
    let mut fuel = tokens.len();
    while begins_declaration(names, rest) {
        if fuel == 0 {
            return Err(ExprFault::NoTree);
        }
        fuel -= 1;
        let declaration = declaration_in_front(arena, rest, names, room - 1, next)?;
        highest = declaration.height.max(highest);
        all.push(*declaration.tree)?;
        rest = declaration.rest;
    }
    while fuel != 0 {
        if let Some(end) = after_sign(Punctuator::CloseBrace, rest) {
            return Ok(ReadList {
                trees: list_of(all),
                rest: end,
                height: highest,
            });
        }
        fuel -= 1;
        let statement = statement_in_front(arena, rest, names, room - 1, next)?;
        highest = statement.height.max(highest);
        all.push(*statement.tree)?;
        rest = statement.rest;
    }
    Err(ExprFault::NoTree)
}

/// What follows the brace that opens a block, of which `first` is the place.
#[cycle(statements)]
pub(crate) fn read_block_rest<'a>(
    arena: &'a Arena,
    first: Place,
    tokens: &'a [Token],
    names: &mut TypeNames,
    room: u32,
    next: &mut u32,
) -> Result<Read<'a>, ExprFault>
    requires positive { 0 < room }
    requires ids { next.old + 16 * length tokens.now + 1 < 2 ^ 32 }
    ensures found { Gives result (steps.read_block_rest (read (room - 1)) room names.old.now (symbols_of tokens.now)) }
    ensures stands { (ts : List Token) → IsFirst first ts → Passes (Sign marks.OpenBrace) ts tokens.now → Over result next.old next.new ts }
    ensures names { AsBefore names.new names.old }
    ensures ids { (next.old ≤ next.new) × (next.new + 16 * left result ≤ next.old + 16 * length tokens.now + 1) }
{
    names.open()?;
    let read = read_block_items(arena, tokens, names, room, next);
    names.close();
    let items = read?;
    block_of(arena, first, items, room, next)
}

/// The block in front.
#[tactic(auto, using(crate::proofs::StatementSteps::reads))]
pub(crate) fn body_in_front<'a>(
    arena: &'a Arena,
    tokens: &'a [Token],
    names: &mut TypeNames,
    room: u32,
    next: &mut u32,
) -> Result<Read<'a>, ExprFault>
    requires ids { next.old + 16 * length tokens.now < 2 ^ 32 }
    ensures found { Gives result (read room FunctionBody names.old.now (symbols_of tokens.now)) }
    ensures stands { Over result next.old next.new tokens.now }
    ensures names { AsBefore names.new names.old }
    ensures ids { Spends next.old next.new (length tokens.now) (left result) }
{
    if room == 0 {
        return Err(ExprFault::NoTree);
    }
    let Some(inside) = after_sign(Punctuator::OpenBrace, tokens) else {
        return Err(ExprFault::NoTree);
    };
    read_block_rest(arena, place_of(tokens), inside, names, room, next)
}
