//! Reads external definitions (ISO 9899:1990, 6.7): functions, declarations and lone `;`.

ghost use Rattle.std.specs.Prelude.{◌≡◌, ◌+◌, ◌-◌, ◌*◌, ◌<◌, ◌≤◌, ◌^◌, length, IfOk};
ghost use Rattle.c_tree.specs.Symbol.{symbols_of};
ghost use Rattle.c_tree.specs.Height.{height_of};
ghost use Rattle.c_tree.specs.Forget.{view, view_all};
ghost use Rattle.c_tree.specs.Views.{node_of};
ghost use Rattle.c_grammar.specs.Names.{Names, with_params};
ghost use Rattle.c_grammar.specs.Reading.{read as read_expressions};
ghost use Rattle.c_grammar.specs.UnitGrammar.Names.{declared};
ghost use Rattle.c_grammar.specs.UnitGrammar.Construct.{FunctionBody};
ghost use Rattle.c_grammar.specs.Ways.ChunkSteps as steps;
ghost use Rattle.c_grammar.specs.UnitGrammar.Reading.{read};
ghost use Rattle.c_expr.specs.Gives.{Gives, AsBefore, left, Spends};
ghost use Rattle.c_expr.specs.Standing.{Over};
ghost use Rattle.c_parser.specs.Behind.{OverBoth};

use crate::blocks::body_in_front;
use crate::control::is_controlled;
use crate::declaration_nodes::{empty_of, function_of};
use crate::declarations::{bare_declaration_of, read_declaration_rest};
use crate::declared::{declare, declare_all};
use crate::definitions::{may_define, params_of};
use crate::front::begins_sign;
use crate::specifiers::specifiers_in_front;
use c_expr::{
    ExprFault, Form, Read, SpecifierPlace, after_sign, declarator_in_front, name_of, place_of,
};
use c_grammar::TypeNames;
use c_tree::{Arena, Punctuator, Token, Tree};
use std::alloc::Global;

/// The body in front of a function with these parameters, which stay in force.
fn read_under<'a>(
    arena: &'a Arena,
    params: &[Tree],
    tokens: &'a [Token],
    names: &mut TypeNames,
    room: u32,
    next: &mut u32,
) -> Result<Read<'a>, ExprFault>
    requires ids { next.old + 16 * length tokens.now < 2 ^ 32 }
    ensures found { Gives result (read room FunctionBody (with_params (view_all params.now) names.old.now) (symbols_of tokens.now)) }
    ensures stands { Over result next.old next.new tokens.now }
    ensures saved { names.new.saved ≡ names.old.saved }
    ensures ids { Spends next.old next.new (length tokens.now) (left result) }
{
    declare_all(names, params)?;
    body_in_front(arena, tokens, names, room, next)
}

/// The body in front of a function with these parameters, which are in force through it (6.1.2.1).
fn read_body<'a>(
    arena: &'a Arena,
    params: &[Tree],
    tokens: &'a [Token],
    names: &mut TypeNames,
    room: u32,
    next: &mut u32,
) -> Result<Read<'a>, ExprFault>
    requires ids { next.old + 16 * length tokens.now < 2 ^ 32 }
    ensures found { Gives result (read room FunctionBody (with_params (view_all params.now) names.old.now) (symbols_of tokens.now)) }
    ensures stands { Over result next.old next.new tokens.now }
    ensures names { AsBefore names.new names.old }
    ensures ids { Spends next.old next.new (length tokens.now) (left result) }
{
    names.open()?;
    let read = read_under(arena, params, tokens, names, room, next);
    names.close();
    read
}

/// A function behind its specifiers and its declarator (6.7.1).
fn read_function<'a>(
    arena: &'a Arena,
    alloc: Global,
    specs: Read<'a>,
    declarator: Read<'a>,
    names: &mut TypeNames,
    room: u32,
    next: &mut u32,
) -> Result<Read<'a>, ExprFault>
    requires positive { 0 < room }
    requires specs { specs.height ≡ height_of (view specs.tree.now) }
    requires declarator { declarator.height ≡ height_of (view declarator.tree.now) }
    requires ids { next.old + 16 * length declarator.rest.now + 1 < 2 ^ 32 }
    ensures found { Gives result (steps.read_function (read (room - 1)) room names.old.now (view specs.entry.tree.now) (view declarator.entry.tree.now) (symbols_of declarator.entry.rest.now)) }
    ensures stands { OverBoth result (node_of specs.entry.tree.now) (node_of declarator.entry.tree.now) next.old next.new declarator.entry.rest.now }
    ensures now { (before : Names) → names.old.now ≡ declared (view specs.entry.tree.now) before → IfOk result (λ r. names.new.now ≡ declared (view r.tree.now) before) }
    ensures saved { names.new.saved ≡ names.old.saved }
    ensures ids { (next.old ≤ next.new) × (next.new + 16 * left result ≤ next.old + 16 * length declarator.entry.rest.now + 1) }
{
    if !may_define(specs.tree) {
        return Err(ExprFault::NoTree);
    }
    let Some(params) = params_of(declarator.tree) else {
        return Err(ExprFault::NoTree);
    };
    declare(names, name_of(declarator.tree), false)?;
    let body = read_body(arena, params, declarator.rest, names, room - 1, next)?;
    if !is_controlled(alloc, body.tree)? {
        return Err(ExprFault::NoTree);
    }
    function_of(arena, specs, declarator, body, room, next)
}

/// A declaration or a function behind its specifiers, whose enumerators are in force, and its first declarator.
fn read_definition<'a>(
    arena: &'a Arena,
    alloc: Global,
    specs: Read<'a>,
    declarator: Read<'a>,
    names: &mut TypeNames,
    room: u32,
    next: &mut u32,
) -> Result<Read<'a>, ExprFault>
    requires positive { 0 < room }
    requires specs { specs.height ≡ height_of (view specs.tree.now) }
    requires declarator { declarator.height ≡ height_of (view declarator.tree.now) }
    requires low { declarator.height < room }
    requires ids { next.old + 16 * length declarator.rest.now + 1 < 2 ^ 32 }
    ensures found { Gives result (steps.read_definition (read_expressions (room - 1)) (read (room - 1)) room names.old.now (view specs.entry.tree.now) (view declarator.entry.tree.now) (symbols_of declarator.entry.rest.now)) }
    ensures stands { OverBoth result (node_of specs.entry.tree.now) (node_of declarator.entry.tree.now) next.old next.new declarator.entry.rest.now }
    ensures now { (before : Names) → names.old.now ≡ declared (view specs.entry.tree.now) before → IfOk result (λ r. names.new.now ≡ declared (view r.tree.now) before) }
    ensures saved { names.new.saved ≡ names.old.saved }
    ensures ids { (next.old ≤ next.new) × (next.new + 16 * left result ≤ next.old + 16 * length declarator.entry.rest.now + 1) }
{
    if begins_sign(Punctuator::OpenBrace, declarator.rest) {
        return read_function(arena, alloc, specs, declarator, names, room, next);
    }
    read_declaration_rest(arena, specs, declarator, names, room, next)
}

/// The external definition in front.
pub(crate) fn read_chunk<'a>(
    arena: &'a Arena,
    alloc: Global,
    tokens: &'a [Token],
    names: &mut TypeNames,
    room: u32,
    next: &mut u32,
) -> Result<Read<'a>, ExprFault>
    requires positive { 0 < room }
    requires ids { next.old + 16 * length tokens.now < 2 ^ 32 }
    ensures found { Gives result (steps.read_chunk (read_expressions (room - 1)) (read (room - 1)) room names.old.now (symbols_of tokens.now)) }
    ensures stands { Over result next.old next.new tokens.now }
    ensures now { IfOk result (λ r. names.new.now ≡ declared (view r.tree.now) names.old.now) }
    ensures saved { names.new.saved ≡ names.old.saved }
    ensures ids { Spends next.old next.new (length tokens.now) (left result) }
{
    if let Some(rest) = after_sign(Punctuator::Semicolon, tokens) {
        return empty_of(arena, place_of(tokens), rest, room, next);
    }
    let place = SpecifierPlace::InDeclaration;
    let specs = specifiers_in_front(arena, place, tokens, names, room - 1, next)?;
    if let Some(rest) = after_sign(Punctuator::Semicolon, specs.rest) {
        return bare_declaration_of(arena, specs, rest, room, next);
    }
    let declarator = declarator_in_front(arena, Form::Named, specs.rest, names, room - 1, next)?;
    read_definition(arena, alloc, specs, declarator, names, room, next)
}
