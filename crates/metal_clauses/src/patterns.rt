//! Reads the items of a rule: patterns, callouts, and the end of a path.

ghost use Rattle.std.specs.Prelude.{◌≡◌, ◌<◌, ◌≤◌, [], length, suc, IfOk, IfSome};
ghost use Rattle.c_tree.specs.Symbol.{symbols_of};
ghost use Rattle.c_tree.specs.declared.punctuator.Punctuator.TheVariants as marks;
ghost use Rattle.metal_grammar.specs.Ways.Steps as steps;
ghost use Rattle.metal_clauses.specs.MetalParts.Given.{Gives, Finds, IsReady, StaysReady};
ghost use Rattle.metal_written.specs.Written.{item_view, alternative_view, alternatives_row};
ghost use Rattle.metal_clauses.specs.Ways.Steps.{special_item};

use crate::metal_parts::{behind_sign, has_sign, read_callout, take_word};
use bumpalo::collections::into_bump_slice;
use c_expr::{COMMA_LEVEL, ExprFault, after_sign, expression_in_front};
use c_grammar::TypeNames;
use c_tree::{Arena, Punctuator, Token};
use metal_written::{WrittenAlternative, WrittenItem};
use std::alloc::Global;

/// The height of the highest pattern.
const MOST_HEIGHT: u32 = 1000;

/// What patterns are read with. No name is a type in them.
#[derive(Drop)]
pub(crate) struct PatternReader<'a> {
    pub arena: &'a Arena,
    types: TypeNames,
    next: u32,
}

impl<'a> PatternReader<'a> {
    /// A reader that has read nothing.
    pub(crate) fn new(arena: &'a Arena, alloc: Global) -> PatternReader<'a>
        ensures types { result.types.now ≡ [] }
        ensures next { result.next ≡ 0 }
    {
        PatternReader {
            arena,
            types: TypeNames::new(alloc),
            next: 0,
        }
    }

    /// A pattern, behind its `{`.
    fn read_pattern(
        &mut self,
        tokens: &'a [Token],
    ) -> Result<(WrittenItem<'a>, &'a [Token]), ExprFault>
        requires ready { IsReady self.old.types.now self.old.next (length tokens.now) }
        ensures found { Gives item_view result (steps.read_pattern (symbols_of tokens.now)) }
        ensures ready { StaysReady self.old.types.now self.new.types.now self.old.next self.new.next (length tokens.now) result }
    {
        let read = expression_in_front(
            self.arena,
            COMMA_LEVEL,
            tokens,
            &mut self.types,
            MOST_HEIGHT,
            &mut self.next,
        )?;
        let semicolon = has_sign(Punctuator::Semicolon, read.rest);
        let end = behind_sign(Punctuator::Semicolon, read.rest);
        let Some(rest) = after_sign(Punctuator::CloseBrace, end) else {
            return Err(ExprFault::NoTree);
        };
        let pattern = WrittenItem::Pattern {
            tree: read.tree,
            semicolon,
        };
        Ok((pattern, rest))
    }

    /// The item in front.
    fn read_item(
        &mut self,
        tokens: &'a [Token],
    ) -> Result<(WrittenItem<'a>, &'a [Token]), ExprFault>
        requires ready { IsReady self.old.types.now self.old.next (length tokens.now) }
        ensures found { Gives item_view result (steps.read_item (symbols_of tokens.now)) }
        ensures ready { StaysReady self.old.types.now self.new.types.now self.old.next self.new.next (length tokens.now) result }
    {
        if let Some(inside) = after_sign(Punctuator::OpenBrace, tokens) {
            return self.read_pattern(inside);
        }
        match read_special(tokens) {
            Some(found) => Ok(found),
            None => Err(ExprFault::NoTree),
        }
    }

    /// The alternative in front: one item or more, with `&&` between.
    fn read_alternative(
        &mut self,
        tokens: &'a [Token],
    ) -> Result<(WrittenAlternative<'a>, &'a [Token]), ExprFault>
        requires ready { IsReady self.old.types.now self.old.next (length tokens.now) }
        ensures found { Gives alternative_view result (steps.read_alternative (symbols_of tokens.now)) }
        ensures ready { StaysReady self.old.types.now self.new.types.now self.old.next self.new.next (length tokens.now) result }
    {
        let mut items = Vec::new(self.arena);
        let mut rest = tokens;
        let mut fuel = tokens.len() + 1;
        while fuel != 0 {
            fuel -= 1;
            let (item, behind) = self.read_item(rest)?;
            items.push(item)?;
            let Some(next) = after_sign(Punctuator::AndAnd, behind) else {
                let alternative = WrittenAlternative {
                    items: into_bump_slice(items),
                };
                return Ok((alternative, behind));
            };
            rest = next;
        }
        Err(ExprFault::NoTree)
    }

    /// The alternatives in front: one or more, with `||` between.
    pub(crate) fn read_alternatives(
        &mut self,
        tokens: &'a [Token],
    ) -> Result<(&'a [WrittenAlternative<'a>], &'a [Token]), ExprFault>
        requires ready { IsReady self.old.types.now self.old.next (length tokens.now) }
        ensures some { IfOk result (λ r. 0 < length r.0.now) }
        ensures found { Gives alternatives_row result (steps.read_row steps.read_alternative marks.OrOr (suc (length (symbols_of tokens.now))) (symbols_of tokens.now)) }
        ensures ready { StaysReady self.old.types.now self.new.types.now self.old.next self.new.next (length tokens.now) result }
    {
        let mut alternatives = Vec::new(self.arena);
        let mut rest = tokens;
        let mut fuel = tokens.len() + 1;
        while fuel != 0 {
            fuel -= 1;
            let (alternative, behind) = self.read_alternative(rest)?;
            alternatives.push(alternative)?;
            let Some(next) = after_sign(Punctuator::OrOr, behind) else {
                return Ok((into_bump_slice(alternatives), behind));
            };
            rest = next;
        }
        Err(ExprFault::NoTree)
    }
}

/// A callout, behind its `${`.
fn read_asked<'a>(tokens: &'a [Token]) -> Option<(WrittenItem<'a>, &'a [Token])>
    ensures found { Finds item_view result (steps.read_asked (symbols_of tokens.now)) }
    ensures shorter { IfSome result (λ r. length r.1.now ≤ length tokens.now) }
{
    let negated = has_sign(Punctuator::Exclamation, tokens);
    let inside = behind_sign(Punctuator::Exclamation, tokens);
    let (callout, end) = read_callout(inside)?;
    let rest = after_sign(Punctuator::CloseBrace, end)?;
    Some((WrittenItem::Callout { negated, callout }, rest))
}

/// A word and `$`, behind a `$`.
fn read_dollars<'a>(tokens: &'a [Token]) -> Option<(WrittenItem<'a>, &'a [Token])>
    ensures found { Finds item_view result (steps.read_dollars (symbols_of tokens.now)) }
    ensures shorter { IfSome result (λ r. length r.1.now ≤ length tokens.now) }
{
    let (name, end) = take_word(tokens)?;
    let rest = after_sign(Punctuator::Dollar, end)?;
    Some((WrittenItem::Dollars { name }, rest))
}

/// An item that begins with `$`.
fn read_special<'a>(tokens: &'a [Token]) -> Option<(WrittenItem<'a>, &'a [Token])>
    ensures found { Finds item_view result (special_item (symbols_of tokens.now)) }
    ensures shorter { IfSome result (λ r. length r.1.now ≤ length tokens.now) }
{
    let rest = after_sign(Punctuator::Dollar, tokens)?;
    match after_sign(Punctuator::OpenBrace, rest) {
        Some(inside) => read_asked(inside),
        None => read_dollars(rest),
    }
}
