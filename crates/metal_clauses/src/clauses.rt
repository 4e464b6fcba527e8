//! Reads the clauses of a text in turn.

ghost use Rattle.std.specs.Prelude.{◌≡◌, ◌≤◌, ◌<◌, ◌^◌, length, MatchResult, IfOk, IfSome, ◌-◌, nat_eq, take, drop};
ghost use Rattle.c_tree.specs.Symbol.{symbols_of};
ghost use Rattle.metal_grammar.specs.Grammar.{Before as BeforeClause, is_head};
ghost use Rattle.metal_grammar.specs.Reading as reading;
ghost use Rattle.metal_forms.specs.Before.{Knows};
ghost use Rattle.metal_clauses.specs.MetalParts.Given.{Finds, IsReady, KeepsReady};
ghost use Rattle.metal_clauses.specs.Read.{GivesBetween, GivesClause, ReadsAll, IsUnread};
ghost use Rattle.metal_written.specs.Sizes.{HasSizes, ClausesHaveSizes, size_of_all};
ghost use Rattle.metal_written.specs.Written.{maybe_head_view};
ghost use Rattle.metal_clauses.specs.Ways.Steps.{is_nothing};

use crate::contents::read_content;
use crate::cuts::{clause_len, tokens_behind};
use crate::fault::ClauseFault;
use crate::metal_parts::take_word;
use crate::patterns::PatternReader;
use bumpalo::collections::into_bump_slice;
use c_expr::{ExprFault, after_sign};
use c_tree::{Arena, Place, Punctuator, Token};
use metal_forms::{Before, is_content};
use metal_written::{Clause, Head, is_spelled};
use mx_base::Names;
use std::alloc::Global;

/// The head in front, in the first clause.
fn read_head<'a>(is_first: bool, tokens: &'a [Token]) -> Option<(Option<Head>, &'a [Token])>
    ensures found { Finds maybe_head_view result (reading.read_head is_first (symbols_of tokens.now)) }
    ensures shorter { IfSome result (λ r. length r.1.now ≤ length tokens.now) }
{
    if !is_first {
        return Some((None, tokens));
    }
    let (word, behind) = take_word(tokens)?;
    let (name, end) = take_word(behind)?;
    let rest = after_sign(Punctuator::OpenBrace, end)?;
    Some((Some(Head { word, name }), rest))
}

/// Whether nothing but the closing brace, in the last clause, is left.
fn is_at_end(is_last: bool, tokens: &[Token]) -> bool
    ensures { result ≡ is_nothing (reading.after_closing is_last (symbols_of tokens.now)) }
{
    if !is_last {
        return tokens.is_empty();
    }
    match after_sign(Punctuator::CloseBrace, tokens) {
        Some(rest) => rest.is_empty(),
        None => false,
    }
}

/// Whether the word of a head is `sm`.
fn is_head(names: &Names, head: Option<Head>) -> bool
    ensures { result ≡ is_head names.now (maybe_head_view head) }
{
    match head {
        None => true,
        Some(head) => is_spelled(names, b"sm", head.word),
    }
}

/// The clause that all these tokens are, behind those before it.
fn read_clause<'a>(
    reader: &mut PatternReader<'a>,
    names: &Names,
    before: &Before,
    is_first: bool,
    is_last: bool,
    tokens: &'a [Token],
) -> Result<Clause<'a>, ExprFault>
    requires ready { IsReady reader.old.types.now reader.old.next (length tokens.now) }
    requires few { length tokens.now < 2 ^ 31 }
    ensures found { (b : BeforeClause) → Knows before.now b → GivesClause result (reading.read_clause names.now b is_first is_last (symbols_of tokens.now)) }
    ensures size { IfOk result (λ c. c.size ≡ length tokens.now) }
    ensures sizes { IfOk result (λ c. HasSizes c.content) }
    ensures ready { KeepsReady reader.old.types.now reader.new.types.now reader.old.next reader.new.next (length tokens.now) }
{
    let Some((head, behind)) = read_head(is_first, tokens) else {
        return Err(ExprFault::NoTree);
    };
    let (content, rest) = read_content(reader, names, is_first && is_last, behind)?;
    if !is_at_end(is_last, rest) {
        return Err(ExprFault::NoTree);
    }
    if !is_head(names, head) {
        return Err(ExprFault::NoTree);
    }
    if !is_content(reader.arena, names, before, content)? {
        return Err(ExprFault::NoTree);
    }
    Ok(Clause {
        head,
        content,
        closing: is_last,
        size: tokens.len() as u32,
    })
}

/// The clause at a position in the text, or `Syntax` there. `end` is where it ends.
fn read_between<'a>(
    reader: &mut PatternReader<'a>,
    names: &Names,
    before: &Before,
    file: u16,
    all: &'a [Token],
    from: usize,
    end: usize,
) -> Result<Clause<'a>, ClauseFault>
    requires order { from ≤ end }
    requires bound { end ≤ length all.now }
    requires few { length all.now < 2 ^ 31 }
    requires ready { IsReady reader.old.types.now reader.old.next (end - from) }
    ensures found { (b : BeforeClause) → Knows before.now b → GivesBetween file from result (reading.read_clause names.now b (nat_eq from 0) (nat_eq end (length all.now)) (symbols_of (take (end - from) (drop from all.now)))) }
    ensures size { IfOk result (λ c. c.size ≡ end - from) }
    ensures sizes { IfOk result (λ c. HasSizes c.content) }
    ensures ready { KeepsReady reader.old.types.now reader.new.types.now reader.old.next reader.new.next (end - from) }
{
    match read_clause(
        reader,
        names,
        before,
        from == 0,
        end == all.len(),
        &all[from..end],
    ) {
        Ok(clause) => Ok(clause),
        Err(ExprFault::NoTree) => Err(ClauseFault::Syntax(Place {
            file,
            token: from as u32,
        })),
        Err(ExprFault::NoMemory) => Err(ClauseFault::NoMemory),
    }
}

/// All clauses of a text, in the file with this number, whose tokens are numbered from 0.
///
/// `Syntax` comes exactly where a clause has no parse, at the first token of the first such clause.
pub fn read_clauses<'a>(
    arena: &'a Arena,
    alloc: Global,
    names: &Names,
    file: u16,
    tokens: &'a [Token],
) -> Result<&'a [Clause<'a>], ClauseFault>
    requires few { length tokens.now ≤ 16777216 }
    ensures read { MatchResult result (λ clauses. ReadsAll (reading.read_text names.now (symbols_of tokens.now)) clauses.now) (λ fault. IsUnread (reading.read_text names.now (symbols_of tokens.now)) file fault) }
    ensures sizes { IfOk result (λ clauses. ClausesHaveSizes clauses.now) }
    ensures total { IfOk result (λ clauses. size_of_all clauses.now ≤ length tokens.now) }
{
    let mut reader = PatternReader::new(arena, alloc);
    let mut before = Before::nothing(alloc);
    let mut clauses = Vec::new(arena);
    let mut from = 0;
    let mut depth = 0;
    let mut more = true;
    while more {
        let end = from + clause_len(depth, tokens_behind(from, tokens));
        let clause = read_between(&mut reader, names, &before, file, tokens, from, end)?;
        before.go_behind(names, clause.content)?;
        clauses.push(clause)?;
        more = end < tokens.len();
        from = end;
        depth = 1;
    }
    Ok(into_bump_slice(clauses))
}
