//! Reads all of some tokens as one expression, as specifiers, or as a declarator.

ghost use Rattle.std.specs.Prelude.{◌≡◌, ◌+◌, ◌*◌, ◌<◌, ◌≤◌, ◌^◌, [], length, IfOk, IfErr};
ghost use Rattle.c_tree.specs.Symbol.{symbols_of};
ghost use Rattle.c_tree.specs.Forget.{view};
ghost use Rattle.c_tree.specs.Views.{node_of};
ghost use Rattle.c_grammar.specs.CPlaces.Stands.{StandsOver};
ghost use Rattle.c_grammar.specs.Levels.{comma_level};
ghost use Rattle.c_grammar.specs.Nonterminal.{Expression, Specifiers, DeclaratorIn};
ghost use Rattle.c_grammar.specs.Specifiers.{InDeclaration};
ghost use Rattle.c_expr.specs.Forms.{form_of};
ghost use Rattle.c_expr.specs.Gives.{AsBefore};
ghost use Rattle.c_expr.specs.Parses.{IsTheParse, HasNoParse};
ghost use Rattle.c_expr.specs.declared.fault.ExprFault.TheVariants.{NoTree};

use crate::declarators::{Form, declarator_in_front};
use crate::expressions::expression_in_front;
use crate::fault::ExprFault;
use crate::nodes::Read;
use crate::operators::COMMA_LEVEL;
use crate::specifier_words::SpecifierPlace;
use crate::specifiers::specifiers_in_front;
use c_grammar::{TypeNames, parses_are_read};
use c_tree::{Arena, Token, Tree};

/// The height of the highest tree that is read.
const MOST_HEIGHT: u32 = 1000;

/// What was read, where nothing is left over.
fn at_end<'a>(read: Read<'a>) -> Result<&'a Tree<'a>, ExprFault>
    ensures kept { IfOk result (λ tree. (tree.now ≡ read.entry.tree.now) × (length read.entry.rest.now ≡ 0)) }
    ensures refused { IfErr result (λ fault. fault ≡ NoTree → 0 < length read.entry.rest.now) }
{
    if !read.rest.is_empty() {
        return Err(ExprFault::NoTree);
    }
    Ok(read.tree)
}

/// The one expression that these tokens are, with the names in force (ISO 9899:1990, 6.3).
///
/// Its nodes have different numbers from the old `next` on, below the new one. `NoTree` comes where the tokens are no expression
/// of height 1000 or less.
pub fn read_expr<'a>(
    arena: &'a Arena,
    tokens: &'a [Token],
    names: &mut TypeNames,
    next: &mut u32,
) -> Result<&'a Tree<'a>, ExprFault>
    requires { next.old + 16 * length tokens.now < 2 ^ 32 }
    ensures parsed { IfOk result (λ tree. IsTheParse (Expression comma_level) names.old.now (view tree.now) (symbols_of tokens.now)) }
    ensures refused { IfErr result (λ fault. fault ≡ NoTree → HasNoParse (Expression comma_level) names.old.now (symbols_of tokens.now)) }
    ensures stands { IfOk result (λ tree. StandsOver (node_of tree.now) next.old next.new tokens.now []) }
    ensures names { AsBefore names.new names.old }
    ensures ids { (next.old ≤ next.new) × (next.new ≤ next.old + 16 * length tokens.now) }
{
    parses_are_read();
    let read = expression_in_front(arena, COMMA_LEVEL, tokens, names, MOST_HEIGHT, next)?;
    at_end(read)
}

/// The specifiers that these tokens are, as they may stand in a declaration, without a body (6.5).
///
/// Numbers of nodes and refusals are as those of `read_expr`.
pub fn read_specs<'a>(
    arena: &'a Arena,
    tokens: &'a [Token],
    names: &mut TypeNames,
    next: &mut u32,
) -> Result<&'a Tree<'a>, ExprFault>
    requires { next.old + 16 * length tokens.now < 2 ^ 32 }
    ensures parsed { IfOk result (λ tree. IsTheParse (Specifiers InDeclaration) names.old.now (view tree.now) (symbols_of tokens.now)) }
    ensures refused { IfErr result (λ fault. fault ≡ NoTree → HasNoParse (Specifiers InDeclaration) names.old.now (symbols_of tokens.now)) }
    ensures stands { IfOk result (λ tree. StandsOver (node_of tree.now) next.old next.new tokens.now []) }
    ensures names { AsBefore names.new names.old }
    ensures ids { (next.old ≤ next.new) × (next.new ≤ next.old + 16 * length tokens.now) }
{
    parses_are_read();
    let read = specifiers_in_front(
        arena,
        SpecifierPlace::InDeclaration,
        tokens,
        names,
        MOST_HEIGHT,
        next,
    )?;
    at_end(read)
}

/// The declarator of this form that these tokens are (6.5.4, 6.5.5).
///
/// Numbers of nodes and refusals are as those of `read_expr`.
pub fn read_declarator<'a>(
    arena: &'a Arena,
    tokens: &'a [Token],
    form: Form,
    names: &mut TypeNames,
    next: &mut u32,
) -> Result<&'a Tree<'a>, ExprFault>
    requires { next.old + 16 * length tokens.now < 2 ^ 32 }
    ensures parsed { IfOk result (λ tree. IsTheParse (DeclaratorIn (form_of form)) names.old.now (view tree.now) (symbols_of tokens.now)) }
    ensures refused { IfErr result (λ fault. fault ≡ NoTree → HasNoParse (DeclaratorIn (form_of form)) names.old.now (symbols_of tokens.now)) }
    ensures stands { IfOk result (λ tree. StandsOver (node_of tree.now) next.old next.new tokens.now []) }
    ensures names { AsBefore names.new names.old }
    ensures ids { (next.old ≤ next.new) × (next.new ≤ next.old + 16 * length tokens.now) }
{
    parses_are_read();
    let read = declarator_in_front(arena, form, tokens, names, MOST_HEIGHT, next)?;
    at_end(read)
}
