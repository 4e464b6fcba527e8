//! Sections: the rules of a source, as they are written.

ghost use Rattle.std.specs.Prelude.{◌≡◌, ◌+◌, ◌<◌, length, suc, IfOk};
ghost use Rattle.c_tree.specs.Symbol.{symbols_of};
ghost use Rattle.c_tree.specs.declared.punctuator.Punctuator.TheVariants as marks;
ghost use Rattle.metal_grammar.specs.Ways.Steps as steps;
ghost use Rattle.metal_clauses.specs.MetalParts.Given.{Gives, IsReady, StaysReady};
ghost use Rattle.metal_written.specs.Written.{rule_view, rules_row, section_view};
ghost use Rattle.metal_written.specs.Sizes.{HaveSizes};

use crate::metal_parts::{read_destination, read_maybe_action, read_state};
use crate::patterns::PatternReader;
use bumpalo::collections::into_bump_slice;
use c_expr::{ExprFault, after_sign};
use c_tree::{Punctuator, Token};
use metal_written::{Section, WrittenRule};

/// The rule in front.
fn read_rule<'a>(
    reader: &mut PatternReader<'a>,
    tokens: &'a [Token],
) -> Result<(WrittenRule<'a>, &'a [Token]), ExprFault>
    requires ready { IsReady reader.old.types.now reader.old.next (length tokens.now) }
    ensures found { Gives rule_view result (steps.read_rule (symbols_of tokens.now)) }
    ensures size { IfOk result (λ r. r.0.size + length r.1.now ≡ length tokens.now) }
    ensures ready { StaysReady reader.old.types.now reader.new.types.now reader.old.next reader.new.next (length tokens.now) result }
{
    let (alternatives, behind) = reader.read_alternatives(tokens)?;
    let Some(to) = after_sign(Punctuator::LongArrow, behind) else {
        return Err(ExprFault::NoTree);
    };
    let Some((destination, end)) = read_destination(to) else {
        return Err(ExprFault::NoTree);
    };
    let (action, rest) = read_maybe_action(reader.arena, end)?;
    let rule = WrittenRule {
        alternatives,
        destination,
        action,
        size: (tokens.len() - rest.len()) as u32,
    };
    Ok((rule, rest))
}

/// The rules in front: one or more, with `|` between.
fn read_rules<'a>(
    reader: &mut PatternReader<'a>,
    tokens: &'a [Token],
) -> Result<(&'a [WrittenRule<'a>], &'a [Token]), ExprFault>
    requires ready { IsReady reader.old.types.now reader.old.next (length tokens.now) }
    ensures found { Gives rules_row result (steps.read_row steps.read_rule marks.Bar (suc (length (symbols_of tokens.now))) (symbols_of tokens.now)) }
    ensures some { IfOk result (λ r. 0 < length r.0.now) }
    ensures sizes { IfOk result (λ r. HaveSizes r.0.now) }
    ensures ready { StaysReady reader.old.types.now reader.new.types.now reader.old.next reader.new.next (length tokens.now) result }
{
    let mut rules = Vec::new(reader.arena);
    let mut rest = tokens;
    let mut fuel = tokens.len() + 1;
    while fuel != 0 {
        fuel -= 1;
        let (rule, behind) = read_rule(reader, rest)?;
        rules.push(rule)?;
        let Some(next) = after_sign(Punctuator::Bar, behind) else {
            return Ok((into_bump_slice(rules), behind));
        };
        rest = next;
    }
    Err(ExprFault::NoTree)
}

/// The section in front.
pub(crate) fn read_section<'a>(
    reader: &mut PatternReader<'a>,
    tokens: &'a [Token],
) -> Result<(Section<'a>, &'a [Token]), ExprFault>
    requires ready { IsReady reader.old.types.now reader.old.next (length tokens.now) }
    ensures found { Gives section_view result (steps.read_section (symbols_of tokens.now)) }
    ensures sizes { IfOk result (λ r. HaveSizes r.0.rules.now) }
    ensures ready { StaysReady reader.old.types.now reader.new.types.now reader.old.next reader.new.next (length tokens.now) result }
{
    let Some((source, behind)) = read_state(tokens) else {
        return Err(ExprFault::NoTree);
    };
    let Some(list) = after_sign(Punctuator::Colon, behind) else {
        return Err(ExprFault::NoTree);
    };
    let (rules, end) = read_rules(reader, list)?;
    let Some(rest) = after_sign(Punctuator::Semicolon, end) else {
        return Err(ExprFault::NoTree);
    };
    Ok((Section { source, rules }, rest))
}
