//! Reads translation units (ISO 9899:1990, 6.7), an external definition after the other.

ghost use Rattle.std.specs.Prelude.{◌≡◌, ◌+◌, ◌*◌, ◌<◌, ◌≤◌, ◌^◌, ◌↔◌, ℕ, List, [], ◌∷◌, drop, length, IsTrue, IfOk, IfErr};
ghost use Rattle.c_tree.specs.declared.place.Place.{Place};
ghost use Rattle.c_tree.specs.Symbol.{symbols_of};
ghost use Rattle.c_tree.specs.Syntax.{Syntax};
ghost use Rattle.c_tree.specs.Forget.{view, list_view};
ghost use Rattle.c_tree.specs.TokenPlaces.{StandInFile};
ghost use Rattle.c_tree.specs.Views.{node_of, nodes_of};
ghost use Rattle.c_grammar.specs.CPlaces.Lines.{row_line};
ghost use Rattle.c_grammar.specs.CPlaces.Stands.{Stands, StandsOver};
ghost use Rattle.c_lexer.specs.CReading.Chunks.{IsChunk, AreChunks, IsCut};
ghost use Rattle.c_grammar.specs.UnitGrammar.Grammar.{IsParse};
ghost use Rattle.c_grammar.specs.UnitGrammar.Names.{declared};
ghost use Rattle.c_expr.specs.Standing.{IsFirst};
ghost use Rattle.c_expr.specs.declared.fault.ExprFault.TheVariants.{NoTree};
ghost use Rattle.c_parser.specs.declared.fault.ParseFault.TheVariants.{Syntax as SyntaxAt};
ghost use Rattle.c_parser.specs.Units.{IsParseIn, AreTheTrees, IsFirstBadAt};

use crate::fault::ParseFault;
use crate::functions::read_chunk;
use c_expr::{ExprFault, Read, list_of, place_of};
use c_grammar::unit_grammar::parses_are_unique;
use c_grammar::{TypeNames, chunks_are_read};
use c_lexer::{Tokens, chunks, is_cut};
use c_tree::{Arena, Token, Tree};
use std::alloc::Global;
use type_values::Unit;

/// The height of the highest tree that is read.
const MOST_HEIGHT: u32 = 1000;

/// What was read, where nothing is left over.
fn without_rest<'a>(read: Read<'a>) -> Result<&'a Tree<'a>, ExprFault>
    ensures kept { IfOk result (λ tree. (tree.now ≡ read.entry.tree.now) × (length read.entry.rest.now ≡ 0)) }
    ensures refused { IfErr result (λ fault. fault ≡ NoTree → 0 < length read.entry.rest.now) }
{
    if !read.rest.is_empty() {
        return Err(ExprFault::NoTree);
    }
    Ok(read.tree)
}

/// The external definition that these tokens are.
fn read_whole<'a>(
    arena: &'a Arena,
    alloc: Global,
    tokens: &'a [Token],
    names: &mut TypeNames,
    next: &mut u32,
) -> Result<&'a Tree<'a>, ExprFault>
    requires ids { next.old + 16 * length tokens.now < 2 ^ 32 }
    ensures parsed { IfOk result (λ tree. IsParse names.old.now (view tree.now) (symbols_of tokens.now)) }
    ensures refused { IfErr result (λ fault. fault ≡ NoTree → (e : Syntax) → IsParse names.old.now e (symbols_of tokens.now) → ⊥) }
    ensures stands { IfOk result (λ tree. StandsOver (node_of tree.now) next.old next.new tokens.now []) }
    ensures now { IfOk result (λ tree. names.new.now ≡ declared (view tree.now) names.old.now) }
    ensures ids { (next.old ≤ next.new) × (next.new ≤ next.old + 16 * length tokens.now) }
{
    chunks_are_read();
    let read = read_chunk(arena, alloc, tokens, names, MOST_HEIGHT, next)?;
    without_rest(read)
}

/// The external definition that the chunk with these bounds is. `cut` tells whether the last chunk ends.
fn read_between<'a>(
    arena: &'a Arena,
    alloc: Global,
    all: &'a [Token],
    from: usize,
    to: usize,
    cut: bool,
    names: &mut TypeNames,
    next: &mut u32,
) -> Result<&'a Tree<'a>, ParseFault>
    requires chunk { IsChunk all.now from to }
    requires cut { IsTrue cut ↔ IsCut all.now }
    requires few { length all.now ≤ 16777216 }
    requires ids { next.old ≤ 16 * from }
    ensures parsed { IfOk result (λ tree. IsParseIn all.now names.old.now (view tree.now) (from, to)) }
    ensures refused { IfErr result (λ fault. (place : Place) → fault ≡ SyntaxAt place → IsFirst place (drop from all.now) × ((e : Syntax) → IsParseIn all.now names.old.now e (from, to) → ⊥)) }
    ensures stands { IfOk result (λ tree. StandsOver (node_of tree.now) next.old next.new (drop from all.now) (drop to all.now)) }
    ensures now { IfOk result (λ tree. names.new.now ≡ declared (view tree.now) names.old.now) }
    ensures ids { (next.old ≤ next.new) × (next.new ≤ 16 * to) }
{
    let tokens = &all[from..to];
    if to == all.len() && !cut {
        return Err(ParseFault::Syntax(place_of(tokens)));
    }
    match read_whole(arena, alloc, tokens, names, next) {
        Ok(tree) => Ok(tree),
        Err(ExprFault::NoTree) => Err(ParseFault::Syntax(place_of(tokens))),
        Err(ExprFault::NoMemory) => Err(ParseFault::NoMemory),
    }
}

/// The one unit that these stripped tokens are, with a tree for each chunk, in the names that those before it declare.
///
/// The nodes of the trees have different numbers. `Syntax` comes exactly where a chunk has no parse, at the first token of the
/// first such chunk; tokens that are left behind the last end of a chunk are one without.
pub fn read_unit<'a>(
    arena: &'a Arena,
    alloc: Global,
    tokens: &'a Tokens,
) -> Result<Unit<'a>, ParseFault>
    requires { length tokens.now.all ≤ 16777216 }
    ensures parsed { IfOk result (λ unit. (bounds : List (ℕ × ℕ)) × AreChunks tokens.now.all bounds × AreTheTrees tokens.now.all bounds (list_view unit.chunks)) }
    ensures refused { IfErr result (λ fault. (place : Place) → fault ≡ SyntaxAt place → (bounds : List (ℕ × ℕ)) × AreChunks tokens.now.all bounds × IsFirstBadAt tokens.now.all bounds place) }
    ensures stands { IfOk result (λ unit. (high : ℕ) × (high < 2 ^ 32) × Stands (row_line (nodes_of unit.chunks)) 0 high tokens.now.all []) }
    ensures tokens { IfOk result (λ unit. unit.tokens.now ≡ tokens.now.all) }
    ensures file { IfOk result (λ unit. unit.file ≡ tokens.now.end.place.file) }
    ensures places { IfOk result (λ unit. StandInFile unit.file unit.tokens.now) }
{
    parses_are_unique();
    let bounds = chunks(alloc, tokens)?;
    let cut = is_cut(tokens);
    let all = tokens.all();
    let mut trees = Vec::new(arena);
    let mut names = TypeNames::new(alloc);
    let mut next = 0;
    let mut start = 0;
    let mut index = 0;
    'reading: while index < bounds.len() {
        let end = bounds[index].1 as usize;
        let tree = read_between(arena, alloc, all, start, end, cut, &mut names, &mut next)?;
        trees.push(*tree)?;
        start = end;
        index += 1;
    }
    Ok(Unit {
        file: tokens.end().place.file,
        tokens: all,
        chunks: list_of(trees),
    })
}
