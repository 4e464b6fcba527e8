//! The rules of a text in its order, each with its position.

ghost use Rattle.std.specs.Prelude.{◌≡◌, ◌≤◌, length, IfOk, ◌+◌, ◌++◌, ◌<◌, ◌^◌};
ghost use Rattle.metal_grammar.specs.Rules as rules;
ghost use Rattle.metal_written.specs.Placed.{placed_views};
ghost use Rattle.metal_written.specs.Sizes.{HaveSizes, ClauseHasSizes, ClausesHaveSizes, size_of_all, size_of_rules};
ghost use Rattle.metal_written.specs.Written.{clause_view, clause_views, content_view, maybe_head_view, rules_row, state_view};
ghost use Rattle.metal_grammar.specs.Phrases.{maybe_phrase, head_phrase, state_phrase};

use crate::written::{Clause, Content, Section, StateName, WrittenRule};
use bumpalo::collections::into_bump_slice;
use c_tree::Arena;
use std::alloc::AllocError;

/// A rule with its source.
#[derive(Clone, Copy)]
pub struct PlacedRule<'a> {
    /// Its number, from 1.
    pub number: u16,
    /// The number of tokens before it.
    pub position: u32,
    pub source: StateName,
    pub rule: WrittenRule<'a>,
}

/// The number of tokens of a clause's head.
pub fn head_size(clause: &Clause) -> u32
    ensures { result ≡ rules.size (maybe_phrase head_phrase (maybe_head_view clause.now.head)) }
{
    if clause.head.is_some() { 3 } else { 0 }
}

/// The number of tokens of a source and its colon.
fn source_size(source: StateName) -> u32
    ensures { result ≡ rules.size (state_phrase (state_view source)) + 1 }
{
    match source {
        StateName::OfMachine { .. } => 2,
        StateName::OfVariable { .. } => 4,
    }
}

/// Adds the rules of a section, whose first one has this number and stands at this position. Gives the number behind them.
fn add_section<'a>(
    placed: &mut Vec<PlacedRule<'a>, &'a Arena>,
    first: u16,
    position: u32,
    section: Section<'a>,
) -> Result<u16, AllocError>
    requires few { first + length section.rules.now ≤ 1001 }
    requires sizes { HaveSizes section.rules.now }
    requires room { position + size_of_rules section.rules.now < 2 ^ 32 }
    ensures number { IfOk result (λ next. next ≡ first + length section.entry.rules.now) }
    ensures placed { IfOk result (λ _. placed_views placed.new.items ≡ placed_views placed.old.items ++ rules.rules_from first position (state_view section.entry.source) (rules_row section.entry.rules)) }
{
    let mut number = first;
    let mut at = position;
    for rule in section.rules {
        placed.push(PlacedRule {
            number,
            position: at,
            source: section.source,
            rule: *rule,
        })?;
        at += rule.size + 1;
        number += 1;
    }
    Ok(number)
}

/// Adds the rules of a clause that stands at this position, of which the first has this number. Gives the number behind them.
#[tactic(auto, using(crate::proofs::InPlaces::nothing_more))]
fn add_rules<'a>(
    placed: &mut Vec<PlacedRule<'a>, &'a Arena>,
    number: u16,
    position: u32,
    clause: &Clause<'a>,
) -> Result<u16, AllocError>
    requires few { number + rules.count_of_rules (content_view clause.now.content) ≤ 1001 }
    requires sizes { ClauseHasSizes clause.now }
    requires room { position + clause.now.size < 2 ^ 31 }
    ensures number { IfOk result (λ next. next ≡ number + rules.count_of_rules (content_view clause.now.content)) }
    ensures placed { IfOk result (λ _. placed_views placed.new.items ≡ placed_views placed.old.items ++ rules.rules_of_content number (rules.behind_head position (clause_view clause.now)) (content_view clause.now.content)) }
{
    match clause.content {
        Content::Nothing | Content::Declares(_) => Ok(number),
        Content::Rules(section) => {
            let at = position + head_size(clause) + source_size(section.source);
            add_section(placed, number, at, section)
        }
    }
}

/// The rules of a text in its order, numbered from 1. There are at most 1000.
pub fn rules_of<'a>(
    arena: &'a Arena,
    clauses: &[Clause<'a>],
) -> Result<&'a [PlacedRule<'a>], AllocError>
    requires few { length (rules.rules_of (clause_views clauses.now)) ≤ 1000 }
    requires sizes { ClausesHaveSizes clauses.now }
    requires tokens { size_of_all clauses.now < 2 ^ 31 }
    ensures { IfOk result (λ placed. placed_views placed.now ≡ rules.rules_of (clause_views clauses.now)) }
{
    let mut placed = Vec::new(arena);
    let mut number = 1;
    let mut position = 0;
    for clause in clauses {
        number = add_rules(&mut placed, number, position, clause)?;
        position += clause.size;
    }
    Ok(into_bump_slice(placed))
}
