//! Reads type names (ISO 9899:1990, 6.5.5).

ghost use Rattle.std.specs.Prelude.{◌≡◌, ◌+◌, ◌-◌, ◌*◌, ◌<◌, ◌≤◌, ◌^◌, length};
ghost use Rattle.c_tree.specs.Symbol.{symbols_of};
ghost use Rattle.c_tree.specs.Syntax as kinds;
ghost use Rattle.c_tree.specs.Height.{height_of};
ghost use Rattle.c_tree.specs.Forget.{view};
ghost use Rattle.c_grammar.specs.Nonterminal.{NameOfType};
ghost use Rattle.c_grammar.specs.Found.{made};
ghost use Rattle.c_grammar.specs.Reading.{read};
ghost use Rattle.c_tree.specs.Node as nodes;
ghost use Rattle.c_tree.specs.Views.{node_of};
ghost use Rattle.c_expr.specs.Standing.{Makes, Over};
ghost use Rattle.c_expr.specs.Gives.{Gives, AsBefore, left, Spends};

use crate::declarators::{Form, begins_declarator, declarator_in_front};
use crate::fault::ExprFault;
use crate::nodes::{Read, node};
use crate::specifier_words::SpecifierPlace;
use crate::specifiers::specifiers_in_front;
use c_grammar::TypeNames;
use c_tree::{Arena, Kind, Specifier, Token};

/// A type name without a declarator.
fn plain_of<'a>(
    arena: &'a Arena,
    specs: Read<'a>,
    room: u32,
    next: &mut u32,
) -> Result<Read<'a>, ExprFault>
    requires height { specs.height ≡ height_of (view specs.tree.now) }
    requires ids { next.old + 1 < 2 ^ 32 }
    ensures found { Gives result (made room (kinds.Specifier (kinds.TypeName (view specs.entry.tree.now) kinds.absent)) (symbols_of specs.entry.rest.now)) }
    ensures node { Makes result next.old next.new specs.entry.tree.now.first (nodes.Specifier (nodes.TypeName (node_of specs.entry.tree.now) nodes.absent)) specs.entry.rest.now }
    ensures ids { (next.old ≤ next.new) × (next.new ≤ next.old + 1) × (left result ≤ length specs.entry.rest.now) }
{
    let kind = Kind::Specifier(Specifier::TypeName {
        specs: specs.tree,
        declarator: None,
    });
    node(
        arena,
        kind,
        specs.tree.first,
        specs.height,
        specs.rest,
        room,
        next,
    )
}

/// A type name with its declarator.
fn declared_of<'a>(
    arena: &'a Arena,
    specs: Read<'a>,
    declarator: Read<'a>,
    room: u32,
    next: &mut u32,
) -> Result<Read<'a>, ExprFault>
    requires specs { specs.height ≡ height_of (view specs.tree.now) }
    requires declarator { declarator.height ≡ height_of (view declarator.tree.now) }
    requires ids { next.old + 1 < 2 ^ 32 }
    ensures found { Gives result (made room (kinds.Specifier (kinds.TypeName (view specs.entry.tree.now) (kinds.present (view declarator.entry.tree.now)))) (symbols_of declarator.entry.rest.now)) }
    ensures node { Makes result next.old next.new specs.entry.tree.now.first (nodes.Specifier (nodes.TypeName (node_of specs.entry.tree.now) (nodes.present (node_of declarator.entry.tree.now)))) declarator.entry.rest.now }
    ensures ids { (next.old ≤ next.new) × (next.new ≤ next.old + 1) × (left result ≤ length declarator.entry.rest.now) }
{
    let highest = specs.height.max(declarator.height);
    let kind = Kind::Specifier(Specifier::TypeName {
        specs: specs.tree,
        declarator: Some(declarator.tree),
    });
    node(
        arena,
        kind,
        specs.tree.first,
        highest,
        declarator.rest,
        room,
        next,
    )
}

/// The type name in front.
#[tactic(auto, using(crate::proofs::Steps::reads))]
#[cycle(read)]
pub fn type_name_in_front<'a>(
    arena: &'a Arena,
    tokens: &'a [Token],
    names: &mut TypeNames,
    room: u32,
    next: &mut u32,
) -> Result<Read<'a>, ExprFault>
    requires ids { next.old + 16 * length tokens.now < 2 ^ 32 }
    ensures found { Gives result (read room NameOfType names.old.now (symbols_of tokens.now)) }
    ensures stands { Over result next.old next.new tokens.now }
    ensures names { AsBefore names.new names.old }
    ensures ids { Spends next.old next.new (length tokens.now) (left result) }
{
    if room == 0 {
        return Err(ExprFault::NoTree);
    }
    let specs = specifiers_in_front(
        arena,
        SpecifierPlace::InTypeName,
        tokens,
        names,
        room - 1,
        next,
    )?;
    if !begins_declarator(Form::Abstract, specs.rest) {
        return plain_of(arena, specs, room, next);
    }
    let declarator = declarator_in_front(arena, Form::Abstract, specs.rest, names, room - 1, next)?;
    declared_of(arena, specs, declarator, room, next)
}
