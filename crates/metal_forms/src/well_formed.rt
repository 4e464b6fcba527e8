//! Whether what was read is of the language, beside its grammar.

ghost use Rattle.std.specs.Prelude.{◌≡◌, ◌&&◌, not, IfOk};
ghost use Rattle.metal_grammar.specs.Grammar as grammar;
ghost use Rattle.metal_forms.specs.Before.{Knows};
ghost use Rattle.metal_written.specs.Written.{item_view, alternative_view, alternatives_row, rule_view, rules_row, declaration_view, content_view};

use crate::before::Before;
use crate::placing::are_placed;
use crate::plain_types::has_plain_types;
use crate::spellings::{is_action, is_destination, spelled_if};
use crate::types::is_type;
use c_tree::Arena;
use metal_written::{
    Content, Declaration, Position, Section, WrittenAlternative, WrittenItem, WrittenRule, has_end,
    has_pattern, is_callout, is_spelled, may_have,
};
use mx_base::Names;
use std::alloc::AllocError;

/// Whether a declaration is one of the language, and may stand there: no section stands before it.
fn is_declaration<'a>(
    arena: &'a Arena,
    names: &Names,
    before: &Before,
    declaration: Declaration<'a>,
) -> Result<bool, AllocError>
    ensures { IfOk result (λ is. (b : grammar.Before) → Knows before.now b → is ≡ grammar.is_declaration names.now b (declaration_view declaration.entry)) }
{
    let words = !before.section
        && spelled_if(names, b"state", declaration.state)
        && is_spelled(names, b"decl", declaration.decl);
    if !words {
        return Ok(false);
    }
    Ok(
        is_type(arena, declaration.of)?
            && may_have(declaration.state.is_some(), names, declaration.of),
    )
}

/// Whether an item is one of the language, and its holes stand where they may.
fn is_item(names: &Names, before: &Before, item: &WrittenItem) -> bool
    ensures { (b : grammar.Before) → Knows before.now b → result ≡ grammar.is_item names.now b.holes (item_view item.now) }
{
    match item {
        WrittenItem::Pattern { tree, .. } => are_placed(before, Position::Operand, tree)
            && has_plain_types(tree),
        WrittenItem::Callout { callout, .. } => is_callout(names, *callout),
        WrittenItem::Dollars { name } => is_spelled(names, b"end_of_path", *name),
    }
}

/// Whether each item is one.
#[tactic(auto, using(metal_written::proofs::Any::anys))]
fn are_items(names: &Names, before: &Before, alternative: &WrittenAlternative) -> bool
    ensures { (b : grammar.Before) → Knows before.now b → result ≡ grammar.each (grammar.is_item names.now b.holes) (alternative_view alternative.now) }
{
    for item in alternative.items {
        if !is_item(names, before, item) {
            return false;
        }
    }
    true
}

/// Whether the end of the path stands beside no pattern.
fn is_apart(alternative: &WrittenAlternative) -> bool
    ensures { result ≡ not (grammar.some grammar.is_pattern (alternative_view alternative.now) && grammar.some grammar.is_end (alternative_view alternative.now)) }
{
    !(has_pattern(alternative) && has_end(alternative))
}

/// Whether each item is one, and the end of the path stands beside no pattern.
fn is_alternative(names: &Names, before: &Before, alternative: &WrittenAlternative) -> bool
    ensures { (b : grammar.Before) → Knows before.now b → result ≡ grammar.is_alternative names.now b.holes (alternative_view alternative.now) }
{
    are_items(names, before, alternative) && is_apart(alternative)
}

/// Whether each alternative is one.
#[tactic(auto, using(metal_written::proofs::Any::anys))]
fn are_alternatives(names: &Names, before: &Before, rule: &WrittenRule) -> bool
    ensures { (b : grammar.Before) → Knows before.now b → result ≡ grammar.each (grammar.is_alternative names.now b.holes) (alternatives_row rule.now.alternatives) }
{
    for alternative in rule.alternatives {
        if !is_alternative(names, before, alternative) {
            return false;
        }
    }
    true
}

/// Whether the rule is one.
fn is_rule(names: &Names, before: &Before, rule: &WrittenRule) -> bool
    ensures { (b : grammar.Before) → Knows before.now b → result ≡ grammar.is_rule names.now b.holes (rule_view rule.now) }
{
    are_alternatives(names, before, rule)
        && is_destination(names, rule.destination)
        && is_action(names, rule.action)
}

/// Whether each rule is one.
#[tactic(auto, using(metal_written::proofs::Any::anys))]
fn are_rules(names: &Names, before: &Before, section: Section<'_>) -> bool
    ensures { (b : grammar.Before) → Knows before.now b → result ≡ grammar.each (grammar.is_rule names.now b.holes) (rules_row section.entry.rules) }
{
    for rule in section.rules {
        if !is_rule(names, before, rule) {
            return false;
        }
    }
    true
}

/// Whether the content of a clause is of the language, behind those before it.
pub fn is_content<'a>(
    arena: &'a Arena,
    names: &Names,
    before: &Before,
    content: Content<'a>,
) -> Result<bool, AllocError>
    ensures { IfOk result (λ is. (b : grammar.Before) → Knows before.now b → is ≡ grammar.is_content names.now b (content_view content.entry)) }
{
    match content {
        Content::Nothing => Ok(true),
        Content::Declares(declaration) => is_declaration(arena, names, before, declaration),
        Content::Rules(section) => Ok(are_rules(names, before, section)),
    }
}
