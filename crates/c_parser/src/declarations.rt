//! Reads declarations (ISO 9899:1990, 6.5).

ghost use Rattle.std.specs.Prelude.{◌≡◌, ◌+◌, ◌-◌, ◌*◌, ◌<◌, ◌≤◌, ◌^◌, length, IfOk};
ghost use Rattle.c_tree.specs.Symbol.{symbols_of};
ghost use Rattle.c_tree.specs.Syntax as kinds;
ghost use Rattle.c_tree.specs.Node as nodes;
ghost use Rattle.c_tree.specs.Height.{height_of};
ghost use Rattle.c_tree.specs.Forget.{view};
ghost use Rattle.c_tree.specs.Views.{node_of};
ghost use Rattle.c_grammar.specs.Names.{Names};
ghost use Rattle.c_grammar.specs.Found.{made};
ghost use Rattle.c_grammar.specs.Reading.{read as read_expressions};
ghost use Rattle.c_grammar.specs.UnitGrammar.Names.{declared};
ghost use Rattle.c_grammar.specs.UnitGrammar.Construct.{BlockDeclaration};
ghost use Rattle.c_grammar.specs.Ways.DeclarationSteps as steps;
ghost use Rattle.c_grammar.specs.UnitGrammar.Reading.{read};
ghost use Rattle.c_expr.specs.Gives.{Gives, left, Spends};
ghost use Rattle.c_expr.specs.Standing.{Makes, Over};
ghost use Rattle.c_parser.specs.Behind.{OverBoth};

use crate::declaration_nodes::declaration_of;
use crate::declared::makes_types;
use crate::initialized::read_init_declarators;
use crate::specifiers::specifiers_in_front;
use c_expr::{
    ExprFault, Form, Read, ReadList, SpecifierPlace, after_sign, declarator_in_front, list_of,
};
use c_grammar::TypeNames;
use c_tree::{Arena, Punctuator, Token};

/// A declaration without declarators, in front of `rest`.
pub(crate) fn bare_declaration_of<'a>(
    arena: &'a Arena,
    specs: Read<'a>,
    rest: &'a [Token],
    room: u32,
    next: &mut u32,
) -> Result<Read<'a>, ExprFault>
    requires specs { specs.height ≡ height_of (view specs.tree.now) }
    requires ids { next.old + 1 < 2 ^ 32 }
    ensures found { Gives result (made room (kinds.Outer (kinds.Declaration (view specs.entry.tree.now) kinds.no_more)) (symbols_of rest.now)) }
    ensures node { Makes result next.old next.new specs.entry.tree.now.first (nodes.Outer (nodes.Declaration (node_of specs.entry.tree.now) nodes.no_more)) rest.now }
    ensures ids { (next.old ≤ next.new) × (next.new ≤ next.old + 1) × (left result ≤ length rest.now) }
{
    let none = ReadList {
        trees: list_of(Vec::new(arena)),
        rest,
        height: 0,
    };
    declaration_of(arena, specs, none, room, next)
}

/// A declaration behind its specifiers, whose enumerators are in force, and its first declarator.
pub(crate) fn read_declaration_rest<'a>(
    arena: &'a Arena,
    specs: Read<'a>,
    declarator: Read<'a>,
    names: &mut TypeNames,
    room: u32,
    next: &mut u32,
) -> Result<Read<'a>, ExprFault>
    requires positive { 0 < room }
    requires specs { specs.height ≡ height_of (view specs.tree.now) }
    requires declarator { declarator.height ≡ height_of (view declarator.tree.now) }
    requires low { declarator.height < room }
    requires ids { next.old + 16 * length declarator.rest.now + 1 < 2 ^ 32 }
    ensures found { Gives result (steps.read_declaration_rest (read_expressions (room - 1)) (read (room - 1)) room names.old.now (view specs.entry.tree.now) (view declarator.entry.tree.now) (symbols_of declarator.entry.rest.now)) }
    ensures stands { OverBoth result (node_of specs.entry.tree.now) (node_of declarator.entry.tree.now) next.old next.new declarator.entry.rest.now }
    ensures now { (before : Names) → names.old.now ≡ declared (view specs.entry.tree.now) before → IfOk result (λ r. names.new.now ≡ declared (view r.tree.now) before) }
    ensures saved { names.new.saved ≡ names.old.saved }
    ensures ids { (next.old ≤ next.new) × (next.new + 16 * left result ≤ next.old + 16 * length declarator.entry.rest.now + 1) }
{
    let is_type = makes_types(specs.tree);
    let declarators = read_init_declarators(arena, declarator, is_type, names, room, next)?;
    declaration_of(arena, specs, declarators, room, next)
}

/// The declaration in front, in a block.
#[tactic(auto, using(crate::proofs::InitialSteps::reads))]
pub(crate) fn declaration_in_front<'a>(
    arena: &'a Arena,
    tokens: &'a [Token],
    names: &mut TypeNames,
    room: u32,
    next: &mut u32,
) -> Result<Read<'a>, ExprFault>
    requires ids { next.old + 16 * length tokens.now < 2 ^ 32 }
    ensures found { Gives result (read room BlockDeclaration names.old.now (symbols_of tokens.now)) }
    ensures stands { Over result next.old next.new tokens.now }
    ensures now { IfOk result (λ r. names.new.now ≡ declared (view r.tree.now) names.old.now) }
    ensures saved { names.new.saved ≡ names.old.saved }
    ensures ids { Spends next.old next.new (length tokens.now) (left result) }
{
    if room == 0 {
        return Err(ExprFault::NoTree);
    }
    let place = SpecifierPlace::InDeclaration;
    let specs = specifiers_in_front(arena, place, tokens, names, room - 1, next)?;
    if let Some(rest) = after_sign(Punctuator::Semicolon, specs.rest) {
        return bare_declaration_of(arena, specs, rest, room, next);
    }
    let declarator = declarator_in_front(arena, Form::Named, specs.rest, names, room - 1, next)?;
    read_declaration_rest(arena, specs, declarator, names, room, next)
}
