//! Reads parameters (ISO 9899:1990, 6.5.4.3). Each is in force behind its declarator, up to the end of its list.

ghost use Rattle.std.specs.Prelude.{◌≡◌, ◌+◌, ◌-◌, ◌*◌, ◌<◌, ◌≤◌, ◌^◌, List, length, IfOk, IfSome, MatchResult};
ghost use Rattle.std.specs.Option.{option_map};
ghost use Rattle.c_tree.specs.Symbol.{Sign, Reserved, symbols_of};
ghost use Rattle.c_tree.specs.Syntax as kinds;
ghost use Rattle.c_tree.specs.Height.{height_of};
ghost use Rattle.c_tree.specs.Forget.{view, declarator_view};
ghost use Rattle.c_grammar.specs.Names.{name_of, declarator_name, with_param};
ghost use Rattle.c_grammar.specs.Ways.DeclaratorSteps as steps;
ghost use Rattle.c_grammar.specs.Nonterminal.{Parameter};
ghost use Rattle.c_grammar.specs.Found.{made};
ghost use Rattle.c_grammar.specs.Reading.{read};
ghost use Rattle.c_tree.specs.declared.keyword.Keyword.TheVariants as words;
ghost use Rattle.c_tree.specs.declared.punctuator.Punctuator.TheVariants as marks;
ghost use Rattle.c_tree.specs.declared.token.Token.{Token};
ghost use Rattle.c_tree.specs.Node as nodes;
ghost use Rattle.c_tree.specs.Views.{node_of};
ghost use Rattle.c_expr.specs.Standing.{Makes, Over, OverParams, Passes, IsFirst};
ghost use Rattle.c_expr.specs.Gives.{Gives, AsBefore, left, Spends};
ghost use Rattle.c_expr.specs.ParamLists.{GivesParams, left_by_params, done_by_params};

use crate::declarators::{Form, begins_declarator, declarator_in_front};
use crate::fault::ExprFault;
use crate::nodes::{Read, list_of, node, part};
use crate::specifier_words::SpecifierPlace;
use crate::specifiers::specifiers_in_front;
use crate::symbols::{after_keyword, after_sign};
use c_grammar::TypeNames;
use c_tree::{
    Arena, Declarator, Keyword, Kind, Part, Place, Punctuator, Specifier, Token, TokenKind, Tree,
    Trees,
};
use std::alloc::AllocError;

/// Parameters that were read, with their parenthesis.
#[derive(Clone, Copy)]
struct ReadParams<'a> {
    trees: Trees<'a>,
    /// Whether `...` stands behind them.
    variadic: bool,
    /// The tokens behind them.
    rest: &'a [Token],
    /// The height of the highest.
    height: u32,
}

/// The name that a declarator declares, if it isn't abstract.
#[cycle(name_of)]
pub fn name_of(tree: &Tree) -> Option<u32>
    ensures { result ≡ name_of (view tree.now) }
{
    match &tree.kind {
        Kind::Declarator(declarator) => name_in(declarator),
        _ => None,
    }
}

#[cycle(name_of)]
fn name_in(declarator: &Declarator) -> Option<u32>
    ensures { result ≡ declarator_name (declarator_view declarator.now) }
{
    match declarator {
        Declarator::Named { name, .. } => match name.kind {
            TokenKind::Word(_) => Some(name.name),
            _ => None,
        },
        Declarator::Nested { inner, .. } => name_of(inner),
        Declarator::Unnamed { .. } => None,
    }
}

/// Puts a parameter in force.
pub fn declare_param(names: &mut TypeNames, param: &Tree) -> Result<(), AllocError>
    ensures now { MatchResult result (λ _. names.new.now ≡ with_param (view param.now) names.old.now) (λ _. names.new.now ≡ names.old.now) }
    ensures saved { names.new.saved ≡ names.old.saved }
{
    match &param.kind {
        Kind::Specifier(specifier) => match specifier {
            Specifier::Param { declarator, .. } => match declarator {
                Some(declarator) => match name_of(declarator) {
                    Some(name) => {
                        names.declare(name, false)?;
                        Ok(())
                    }
                    None => Ok(()),
                },
                None => Ok(()),
            },
            _ => Ok(()),
        },
        _ => Ok(()),
    }
}

/// What follows `void` and a parenthesis.
fn after_void<'a>(tokens: &'a [Token]) -> Option<&'a [Token]>
    ensures found { option_map (λ rest. symbols_of rest.now) result ≡ steps.after_void (symbols_of tokens.now) }
    ensures passes { IfSome result (λ rest. (behind : List Token) × Passes (Reserved words.Void) tokens.now behind × Passes (Sign marks.CloseParen) behind rest.now) }
    ensures shorter { IfSome result (λ rest. length rest.now + 2 ≡ length tokens.now) }
{
    let rest = after_keyword(Keyword::Void, tokens)?;
    after_sign(Punctuator::CloseParen, rest)
}

/// A parameter without a declarator.
fn plain_of<'a>(
    arena: &'a Arena,
    specs: Read<'a>,
    room: u32,
    next: &mut u32,
) -> Result<Read<'a>, ExprFault>
    requires height { specs.height ≡ height_of (view specs.tree.now) }
    requires ids { next.old + 1 < 2 ^ 32 }
    ensures found { Gives result (made room (kinds.Specifier (kinds.Param (view specs.entry.tree.now) kinds.absent)) (symbols_of specs.entry.rest.now)) }
    ensures node { Makes result next.old next.new specs.entry.tree.now.first (nodes.Specifier (nodes.Param (node_of specs.entry.tree.now) nodes.absent)) specs.entry.rest.now }
    ensures ids { (next.old ≤ next.new) × (next.new ≤ next.old + 1) × (left result ≤ length specs.entry.rest.now) }
{
    let kind = Kind::Specifier(Specifier::Param {
        specs: specs.tree,
        declarator: None,
    });
    node(
        arena,
        kind,
        specs.tree.first,
        specs.height,
        specs.rest,
        room,
        next,
    )
}

/// A parameter with its declarator.
fn declared_of<'a>(
    arena: &'a Arena,
    specs: Read<'a>,
    declarator: Read<'a>,
    room: u32,
    next: &mut u32,
) -> Result<Read<'a>, ExprFault>
    requires specs { specs.height ≡ height_of (view specs.tree.now) }
    requires declarator { declarator.height ≡ height_of (view declarator.tree.now) }
    requires ids { next.old + 1 < 2 ^ 32 }
    ensures found { Gives result (made room (kinds.Specifier (kinds.Param (view specs.entry.tree.now) (kinds.present (view declarator.entry.tree.now)))) (symbols_of declarator.entry.rest.now)) }
    ensures node { Makes result next.old next.new specs.entry.tree.now.first (nodes.Specifier (nodes.Param (node_of specs.entry.tree.now) (nodes.present (node_of declarator.entry.tree.now)))) declarator.entry.rest.now }
    ensures ids { (next.old ≤ next.new) × (next.new ≤ next.old + 1) × (left result ≤ length declarator.entry.rest.now) }
{
    let highest = specs.height.max(declarator.height);
    let kind = Kind::Specifier(Specifier::Param {
        specs: specs.tree,
        declarator: Some(declarator.tree),
    });
    node(
        arena,
        kind,
        specs.tree.first,
        highest,
        declarator.rest,
        room,
        next,
    )
}

/// The parameter in front.
#[tactic(auto, using(crate::proofs::Steps::reads))]
#[cycle(read)]
pub fn param_in_front<'a>(
    arena: &'a Arena,
    tokens: &'a [Token],
    names: &mut TypeNames,
    room: u32,
    next: &mut u32,
) -> Result<Read<'a>, ExprFault>
    requires ids { next.old + 16 * length tokens.now < 2 ^ 32 }
    ensures found { Gives result (read room Parameter names.old.now (symbols_of tokens.now)) }
    ensures stands { Over result next.old next.new tokens.now }
    ensures names { AsBefore names.new names.old }
    ensures ids { Spends next.old next.new (length tokens.now) (left result) }
{
    if room == 0 {
        return Err(ExprFault::NoTree);
    }
    let specs = specifiers_in_front(
        arena,
        SpecifierPlace::InParam,
        tokens,
        names,
        room - 1,
        next,
    )?;
    if !begins_declarator(Form::Either, specs.rest) {
        return plain_of(arena, specs, room, next);
    }
    let declarator = declarator_in_front(arena, Form::Either, specs.rest, names, room - 1, next)?;
    declared_of(arena, specs, declarator, room, next)
}

/// Parameters up to the parenthesis, at least one. They stay in force.
#[tactic(auto, using(crate::proofs::ListSteps::params))]
#[cycle(read)]
fn read_params<'a>(
    arena: &'a Arena,
    tokens: &'a [Token],
    names: &mut TypeNames,
    room: u32,
    next: &mut u32,
) -> Result<ReadParams<'a>, ExprFault>
    requires positive { 0 < room }
    requires ids { next.old + 16 * length tokens.now < 2 ^ 32 }
    ensures found { GivesParams result (steps.read_params (read (room - 1)) names.old.now (length (symbols_of tokens.now)) (symbols_of tokens.now)) }
    ensures stands { OverParams result next.old next.new tokens.now }
    ensures saved { names.new.saved ≡ names.old.saved }
    ensures ids { (next.old ≤ next.new) × (next.new + 16 * left_by_params result + 16 * done_by_params result ≤ next.old + 16 * length tokens.now) }
{
    let mut all = Vec::new(arena);
    let mut highest = 0;
    let mut rest = tokens;
    let mut fuel = tokens.len();
    while fuel != 0 {
        fuel -= 1;
        let param = param_in_front(arena, rest, names, room - 1, next)?;
        highest = param.height.max(highest);
        all.push(*param.tree)?;
        let Some(after) = after_sign(Punctuator::Comma, param.rest) else {
            let Some(end) = after_sign(Punctuator::CloseParen, param.rest) else {
                return Err(ExprFault::NoTree);
            };
            return Ok(ReadParams {
                trees: list_of(all),
                variadic: false,
                rest: end,
                height: highest,
            });
        };
        if let Some(behind) = after_sign(Punctuator::Ellipsis, after) {
            let Some(end) = after_sign(Punctuator::CloseParen, behind) else {
                return Err(ExprFault::NoTree);
            };
            return Ok(ReadParams {
                trees: list_of(all),
                variadic: true,
                rest: end,
                height: highest,
            });
        }
        declare_param(names, param.tree)?;
        rest = after;
    }
    Err(ExprFault::NoTree)
}

/// What follows the parenthesis of parameters, of which `first` is the place. They are in force up to its end.
#[cycle(read)]
pub(crate) fn read_param_list<'a>(
    arena: &'a Arena,
    first: Place,
    tokens: &'a [Token],
    names: &mut TypeNames,
    room: u32,
    next: &mut u32,
) -> Result<Read<'a>, ExprFault>
    requires positive { 0 < room }
    requires ids { next.old + 16 * length tokens.now < 2 ^ 32 }
    ensures found { Gives result (steps.read_param_list (read (room - 1)) names.old.now (symbols_of tokens.now)) }
    ensures stands { (ts : List Token) → IsFirst first ts → Passes (Sign marks.OpenParen) ts tokens.now → Over result next.old next.new ts }
    ensures names { AsBefore names.new names.old }
    ensures ids { Spends next.old next.new (length tokens.now) (left result) }
{
    if let Some(rest) = after_sign(Punctuator::CloseParen, tokens) {
        let kind = Kind::Part(Part::Params {
            params: list_of(Vec::new(arena)),
            variadic: false,
        });
        return part(arena, kind, first, 0, rest, next);
    }
    if let Some(rest) = after_void(tokens) {
        let kind = Kind::Part(Part::VoidParams);
        return part(arena, kind, first, 0, rest, next);
    }
    names.open()?;
    let read = read_params(arena, tokens, names, room, next);
    names.close();
    let params = read?;
    let kind = Kind::Part(Part::Params {
        params: params.trees,
        variadic: params.variadic,
    });
    part(arena, kind, first, params.height, params.rest, next)
}
