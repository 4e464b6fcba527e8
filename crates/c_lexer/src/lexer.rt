//! Reads a whole source, piece by piece.

ghost use Rattle.std.specs.Prelude.{◌≡◌, ◌+◌, ◌<◌, ◌≤◌, ◌^◌, ◌++◌, [], ◌∷◌, length, drop, List, ℕ, Some, None, IfOk, IfErr, MatchResult, OnErr, slice_get, vec_len, true, ◌⊎◌};
ghost use Rattle.mx_base.specs.Names.{AddsAtMost, HasNoRepeats, names_after};
ghost use Rattle.c_lexer.specs.declared.c_reading.mode.Mode.{Mode as ReadMode};
ghost use Rattle.c_lexer.specs.CReading.Pieces.{Piece as ReadPiece, on_next_line};
ghost use Rattle.c_lexer.specs.declared.c_reading.fault.Fault.{Fault as ReadFault};
ghost use Rattle.c_lexer.specs.CReading.Reading.{IsReading, IsFaulty};
ghost use Rattle.c_lexer.specs.Found.{marker_view, following_line};
ghost use Rattle.c_lexer.specs.Naming.{file_in, text_named, with_name, named_by};
ghost use Rattle.c_lexer.specs.Pieces.{piece_view, piece_len, Says, NumbersLow};
ghost use Rattle.c_lexer.specs.Progress.{here_of, InBounds, Steps, Lands, spot_of};
ghost use Rattle.c_lexer.specs.Tokens.{Lexes, Refuses, IsThere, IsToken};
ghost use Rattle.c_lexer.specs.declared.fault.LexFault.TheVariants.{NoMemory};

use crate::c_reading::Mode;
use crate::fault::{LexFault, Spot};
use crate::here::Here;
use crate::markers::{Marker, unescaped};
use crate::pieces::{Piece, cut};
use crate::tokens::Tokens;
use c_tree::{Place, Token, TokenKind};
use mx_base::Names;
use std::alloc::{AllocError, Global};

/// Behind a marker line of so many bytes, with its line feed.
fn next_line(
    alloc: Global,
    here: Here,
    count: usize,
    marker: Marker<'_>,
    names: &mut Names,
) -> Result<Here, AllocError>
    requires bounds { InBounds here }
    requires room { here.offset + count ≤ 16777216 }
    requires some { 1 ≤ count }
    requires line { following_line marker ≤ 2147483647 }
    requires names { length names.old < 2 ^ 31 }
    requires once { HasNoRepeats names.old }
    ensures lands { IfOk result (λ next. (file : List ℕ) → slice_get names.old here.source ≡ Some file →
        Lands names.new next (on_next_line (here_of file here) count (Some (marker_view marker.entry)))) }
    ensures offset { IfOk result (λ next. next.offset ≡ here.offset + count) }
    ensures bounds { IfOk result InBounds }
    ensures adds { AddsAtMost names.old names.new 1 }
    ensures named { IfOk result (λ _. names.new ≡ with_name names.old (file_in (Some (marker_view marker.entry)))) }
    ensures once { HasNoRepeats names.new }
{
    let mut next = Here {
        offset: here.offset + count as u32,
        source: here.source,
        line: here.line + 1,
        column: 1,
        first: true,
    };
    if let Marker::Renumbers { line, file } = marker {
        next.line = line;
        if let Some(raw) = file {
            let name = unescaped(alloc, raw)?;
            next.source = names.intern(name.as_slice())?;
        }
    }
    Ok(next)
}

/// The token of this kind and spelling, there, with so many tokens before.
fn token_of(
    kind: TokenKind,
    text: &[u8],
    here: Here,
    place: Place,
    names: &mut Names,
) -> Result<Token, AllocError>
    requires room { length text.now ≤ 16777216 }
    requires names { length names.old < 2 ^ 31 }
    ensures token { IfOk result (λ token. (file : List ℕ) → slice_get names.old here.source ≡ Some file →
        IsToken place.file names.new place.token (record { kind = kind; spelling = text.now; here = here_of file here }) token) }
    ensures adds { AddsAtMost names.old names.new 1 }
    ensures named { IfOk result (λ _. names.new ≡ names_after names.old text.now) }
    ensures once { HasNoRepeats names.new }
{
    let name = names.intern(text)?;
    Ok(Token {
        kind,
        name,
        start: here.offset,
        len: text.len() as u32,
        line: here.line,
        col: here.column,
        source: here.source,
        place,
    })
}

/// Goes behind a piece in front of the bytes, and keeps its token.
fn take(
    alloc: Global,
    piece: Piece<'_>,
    bytes: &[u8],
    here: Here,
    file: u16,
    tokens: &mut Vec<Token>,
    names: &mut Names,
) -> Result<Here, AllocError>
    requires bounds { InBounds here }
    requires room { here.offset + length bytes.now ≤ 16777216 }
    requires some { 1 ≤ piece_len piece }
    requires fits { piece_len piece ≤ length bytes.now }
    requires line { NumbersLow piece }
    requires count { vec_len tokens.old ≤ here.offset }
    requires names { length names.old < 2 ^ 31 }
    requires once { HasNoRepeats names.old }
    ensures steps { IfOk result (λ next. (mode : ReadMode) (word : List ℕ) →
        Says mode piece.entry bytes.now → slice_get names.old here.source ≡ Some word →
        Steps mode file names.new word here next (piece_view piece.entry bytes.now) tokens.old.items tokens.new.items) }
    ensures offset { IfOk result (λ next. next.offset ≡ here.offset + piece_len piece.entry) }
    ensures bounds { IfOk result InBounds }
    ensures count { IfOk result (λ next. vec_len tokens.new ≤ next.offset) }
    ensures adds { AddsAtMost names.old names.new 1 }
    ensures named { IfOk result (λ _. (mode : ReadMode) → Says mode piece.entry bytes.now → names.new ≡ with_name names.old (text_named (piece_view piece.entry bytes.now))) }
    ensures once { HasNoRepeats names.new }
{
    match piece {
        Piece::Space => Ok(here.behind_byte(bytes[0])),
        Piece::Comment { len } => Ok(here.behind_comment(&bytes[..len])),
        Piece::LineComment { len } => Ok(here.further(len + 2)),
        Piece::MarkerLine { len, ended, marker } => {
            if ended {
                next_line(alloc, here, len + 2, marker, names)
            } else {
                Ok(here.further(len + 1))
            }
        }
        Piece::Spelling { len, kind } => {
            let place = Place {
                file,
                token: tokens.as_slice().len() as u32,
            };
            let token = token_of(kind, &bytes[..len], here, place, names)?;
            tokens.push(token)?;
            Ok(here.further(len))
        }
    }
}

/// The spot where a reading stands, behind these tokens.
fn spot(file: u16, here: Here, tokens: &[Token]) -> Spot
    requires { length tokens.now < 2 ^ 32 }
    ensures { result ≡ spot_of file here (length tokens.now) }
{
    Spot {
        place: Place {
            file,
            token: tokens.len() as u32,
        },
        source: here.source,
        line: here.line,
        col: here.column,
    }
}

/// Reads the bytes of the file with this number. `word` is the presumed file where no marker names another.
///
/// Each token and each marker adds at most one name, and the word one, in the order in which they stand. After a refusal the
/// names begin with the old ones.
pub fn lex(
    alloc: Global,
    bytes: &[u8],
    mode: Mode,
    file: u16,
    word: &[u8],
    names: &mut Names,
) -> Result<Tokens, LexFault>
    requires size { length bytes.now ≤ 16777216 }
    requires room { length bytes.now + length names.old + 1 < 2 ^ 31 }
    // The tokens are those of a reading of the bytes, and each reading has these tokens.
    ensures reading { IfOk result (λ tokens. (pieces : List ReadPiece) × IsReading mode word.now pieces bytes.now ×
        Lexes mode file word.now names.new pieces tokens) }
    ensures only { (pieces : List ReadPiece) → IsReading mode word.now pieces bytes.now →
        MatchResult result (λ tokens. Lexes mode file word.now names.new pieces tokens) (λ fault. fault ≡ NoMemory) }
    // A refusal is the fault of the bytes, which have no reading then.
    ensures fault { IfErr result (λ fault. Refuses mode file word.now names.new bytes.now fault) }
    ensures exact { (pieces : List ReadPiece) (kind : ReadFault) → IsFaulty mode word.now pieces bytes.now kind →
        MatchResult result (λ _. ⊥) (λ fault. (fault ≡ NoMemory) ⊎ IsThere mode file word.now names.new pieces kind fault) }

    ensures few { IfOk result (λ tokens. length tokens.all ≤ length bytes.now) }
    ensures adds { AddsAtMost names.old names.new (length bytes.now + 1) }
    ensures named { IfOk result (λ _. (pieces : List ReadPiece) → IsReading mode word.now pieces bytes.now →
        names.new ≡ named_by (names_after names.old word.now) pieces) }
    ensures distinct { HasNoRepeats names.new }
{
    let source = names.intern(word)?;
    let mut here = Here::beginning(source);
    let mut tokens = Vec::new(alloc);
    let mut rest = bytes;
    'cutting: while !rest.is_empty() {
        let piece = match cut(mode, here.first, rest) {
            Ok(piece) => piece,
            Err(fault) => return Err(LexFault::at(fault, spot(file, here, tokens.as_slice()))),
        };
        here = take(alloc, piece, rest, here, file, &mut tokens, names)?;
        rest = &rest[piece.len()..];
    }
    let end = spot(file, here, tokens.as_slice());
    Ok(Tokens::new(tokens, end))
}
