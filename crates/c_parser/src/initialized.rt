//! Reads declarators with initial values (ISO 9899:1990, 6.5, 6.5.7). A name is in force from behind its declarator on (6.1.2.1).

ghost use Rattle.std.specs.Prelude.{◌≡◌, ◌+◌, ◌-◌, ◌*◌, ◌<◌, ◌^◌, ℕ, List, Some, length, IfOk, IfSome};
ghost use Rattle.std.specs.Option.{option_map};
ghost use Rattle.c_tree.specs.declared.punctuator.Punctuator.TheVariants as marks;
ghost use Rattle.c_tree.specs.declared.token.Token.{Token};
ghost use Rattle.c_tree.specs.Symbol.{Word, symbol_of, symbols_of};
ghost use Rattle.c_tree.specs.Height.{height_of};
ghost use Rattle.c_tree.specs.Forget.{view, list_view, declarator_view};
ghost use Rattle.c_tree.specs.Views.{node_of, declarator_shape};
ghost use Rattle.c_grammar.specs.CPlaces.Lines.{declared_token, declarator_token};
ghost use Rattle.c_grammar.specs.CPlaces.Stands.{StandsOver};
ghost use Rattle.c_grammar.specs.Names.{name_of, declarator_name, with_name};
ghost use Rattle.c_grammar.specs.Reading.{read as read_expressions};
ghost use Rattle.c_grammar.specs.UnitGrammar.Names.{declared_name, with_declarators};
ghost use Rattle.c_grammar.specs.Ways.DeclarationSteps as steps;
ghost use Rattle.c_grammar.specs.UnitGrammar.Reading.{read};
ghost use Rattle.c_expr.specs.Gives.{Gives, GivesList, left, left_by_list, Spends};
ghost use Rattle.c_expr.specs.Standing.{OverBehind};
ghost use Rattle.c_parser.specs.Parts.{OverListUpTo};

use crate::declaration_nodes::init_of;
use crate::declared::{declare, declared_name};
use crate::initials::read_initial;
use c_expr::{ExprFault, Form, Read, ReadList, after_sign, declarator_in_front, list_of, part};
use c_grammar::TypeNames;
use c_tree::{Arena, Declarator, Kind, Primary, Punctuator, Token, TokenKind, Tree};

/// The token that a declarator declares, if it is a word.
#[cycle(declared_word)]
fn declared_word<'a>(tree: &Tree<'a>) -> Option<&'a Token>
    ensures token { IfSome result (λ token. declared_token (node_of tree.now) ≡ Some token.now) }
    ensures word { IfSome result (λ token. symbol_of token.now ≡ Word token.now.name) }
    ensures name { option_map (λ token. token.now.name) result ≡ name_of (view tree.now) }
{
    match &tree.kind {
        Kind::Declarator(declarator) => word_in(declarator),
        _ => None,
    }
}

#[cycle(declared_word)]
fn word_in<'a>(declarator: &Declarator<'a>) -> Option<&'a Token>
    ensures token { IfSome result (λ token. declarator_token (declarator_shape declarator.now) ≡ Some token.now) }
    ensures word { IfSome result (λ token. symbol_of token.now ≡ Word token.now.name) }
    ensures name { option_map (λ token. token.now.name) result ≡ declarator_name (declarator_view declarator.now) }
{
    match declarator {
        Declarator::Named { name, .. } => match name.kind {
            TokenKind::Word(_) => Some(*name),
            _ => None,
        },
        Declarator::Nested { inner, .. } => declared_word(inner),
        Declarator::Unnamed { .. } => None,
    }
}

/// What follows a declarator, up to the end of its initial value, if it has one. Its name is in force from there on.
pub(crate) fn read_initialized<'a>(
    arena: &'a Arena,
    declarator: Read<'a>,
    is_type: bool,
    names: &mut TypeNames,
    room: u32,
    next: &mut u32,
) -> Result<Read<'a>, ExprFault>
    requires positive { 0 < room }
    requires height { declarator.height ≡ height_of (view declarator.tree.now) }
    requires low { declarator.height < room }
    requires ids { next.old + 16 * length declarator.rest.now < 2 ^ 32 }
    ensures found { Gives result (steps.read_initialized (read_expressions (room - 1)) (read (room - 1)) is_type names.old.now (view declarator.entry.tree.now) (symbols_of declarator.entry.rest.now)) }
    ensures stands { OverBehind result (node_of declarator.entry.tree.now) next.old next.new declarator.entry.rest.now }
    ensures now { IfOk result (λ r. names.new.now ≡ with_name (declared_name (view r.tree.now)) is_type names.old.now) }
    ensures saved { names.new.saved ≡ names.old.saved }
    ensures ids { Spends next.old next.new (length declarator.entry.rest.now) (left result) }
{
    declare(names, declared_name(declarator.tree), is_type)?;
    let Some(rest) = after_sign(Punctuator::Assign, declarator.rest) else {
        return Ok(declarator);
    };
    let Some(token) = declared_word(declarator.tree) else {
        return Err(ExprFault::NoTree);
    };
    let kind = Kind::Primary(Primary::Ident { name: token });
    let name = part(arena, kind, token.place, 1, rest, next)?;
    let initial = read_initial(arena, rest, names, room, next)?;
    init_of(arena, name, declarator, initial, room, next)
}

/// What follows the first declarator of a declaration, up to `;`.
#[tactic(auto, using(crate::proofs::InitialSteps::init_declarators))]
pub(crate) fn read_init_declarators<'a>(
    arena: &'a Arena,
    first: Read<'a>,
    is_type: bool,
    names: &mut TypeNames,
    room: u32,
    next: &mut u32,
) -> Result<ReadList<'a>, ExprFault>
    requires positive { 0 < room }
    requires height { first.height ≡ height_of (view first.tree.now) }
    requires low { first.height < room }
    requires ids { next.old + 16 * length first.rest.now < 2 ^ 32 }
    ensures found { GivesList result (steps.read_init_declarators (read_expressions (room - 1)) (read (room - 1)) is_type names.old.now (length (symbols_of first.entry.rest.now)) (view first.entry.tree.now) (symbols_of first.entry.rest.now)) }
    ensures stands { (low : ℕ) (ts : List Token) → StandsOver (node_of first.entry.tree.now) low next.old ts first.entry.rest.now → OverListUpTo result marks.Semicolon low next.new ts }
    ensures now { IfOk result (λ r. names.new.now ≡ with_declarators is_type (list_view r.trees) names.old.now) }
    ensures saved { names.new.saved ≡ names.old.saved }
    ensures ids { Spends next.old next.new (length first.entry.rest.now) (left_by_list result) }
{
    let mut all = Vec::new(arena);
    let mut highest = 0;
    let mut declarator = first;
    let mut fuel = first.rest.len();
    while fuel != 0 {
        fuel -= 1;
        let item = read_initialized(arena, declarator, is_type, names, room, next)?;
        highest = item.height.max(highest);
        all.push(*item.tree)?;
        let Some(after) = after_sign(Punctuator::Comma, item.rest) else {
            let Some(end) = after_sign(Punctuator::Semicolon, item.rest) else {
                return Err(ExprFault::NoTree);
            };
            return Ok(ReadList {
                trees: list_of(all),
                rest: end,
                height: highest,
            });
        };
        declarator = declarator_in_front(arena, Form::Named, after, names, room - 1, next)?;
    }
    Err(ExprFault::NoTree)
}
