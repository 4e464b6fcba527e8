//! What is said of the tokens of a text.

use crate::texts::{lexed_of, spelled};
use crate::tokens::push_kind;
use crate::words::Shown;
use c_lexer::{LexFault, Mode, Spot, Tokens, chunks, strip};
use mx_base::Names;
use std::alloc::{AllocError, Global};

/// What is asked of tokens.
#[derive(Clone, Copy, PartialEq, Eq)]
pub enum Listed {
    /// What each is.
    Kinds,
    /// Where each stands, and where the bytes end.
    Places,
    /// The chunks.
    Chunks,
}

/// What each token is.
fn say_kinds(shown: &Shown) -> Result<String, AllocError> {
    let mut text = String::new(shown.alloc);
    for token in shown.tokens.all() {
        if !text.is_empty() {
            text.push_str(" ")?;
        }
        push_kind(shown.alloc, &mut text, token.kind)?;
    }
    Ok(text)
}

/// Appends a presumed file, line and column.
fn push_position(
    shown: &Shown,
    into: &mut String,
    position: (u32, u32, u32),
) -> Result<(), AllocError> {
    let (source, line, column) = position;
    let file = shown.name(source);
    let text = format!(in shown.alloc; "{file}:{line}:{column}")?;
    into.push_str(text.as_str())
}

/// Where each token stands, and where the bytes end.
fn say_places(shown: &Shown) -> Result<String, AllocError> {
    let mut text = String::new(shown.alloc);
    for token in shown.tokens.all() {
        push_position(shown, &mut text, shown.tokens.line_of(token.place))?;
        text.push_str(" ")?;
    }
    text.push_str("end ")?;
    push_position(
        shown,
        &mut text,
        shown.tokens.line_of(shown.tokens.end().place),
    )?;
    Ok(text)
}

/// The first token of each chunk, and the first one behind it.
fn say_chunks(shown: &Shown) -> Result<String, AllocError> {
    let mut text = String::new(shown.alloc);
    let all = chunks(shown.alloc, shown.tokens)?;
    for (first, behind) in all.as_slice() {
        if !text.is_empty() {
            text.push_str(" ")?;
        }
        let bounds = format!(in shown.alloc; "{first}-{behind}")?;
        text.push_str(bounds.as_str())?;
    }
    Ok(text)
}

/// What is said of tokens.
fn say_listed(shown: &Shown, listed: Listed) -> Result<String, AllocError> {
    match listed {
        Listed::Kinds => say_kinds(shown),
        Listed::Places => say_places(shown),
        Listed::Chunks => say_chunks(shown),
    }
}

/// A fault, how many tokens stand before it, and its line and column.
fn say_spot(alloc: Global, word: &str, spot: Spot) -> Result<String, LexFault> {
    let (before, line, column) = (spot.place.token, spot.line, spot.col);
    Ok(format!(in alloc; "{word} behind {before} at {line}:{column}")?)
}

/// What is said of a text without tokens.
fn say_fault(alloc: Global, fault: LexFault) -> Result<String, LexFault> {
    match fault {
        LexFault::BadByte(spot) => say_spot(alloc, "BadByte", spot),
        LexFault::OpenText(spot) => say_spot(alloc, "OpenText", spot),
        LexFault::BadNumber(spot) => say_spot(alloc, "BadNumber", spot),
        LexFault::BadMarker(spot) => say_spot(alloc, "BadMarker", spot),
        LexFault::NoMemory => Err(LexFault::NoMemory),
    }
}

/// The tokens of a text, all of them or those that a parser takes.
fn tokens_in(
    alloc: Global,
    mode: Mode,
    is_kept: bool,
    text: &[u8],
    names: &mut Names,
) -> Result<Tokens, LexFault> {
    let tokens = lexed_of(alloc, mode, text, names)?;
    if is_kept {
        return Ok(strip(alloc, &tokens)?);
    }
    Ok(tokens)
}

/// The answer to a question about the tokens of a text.
pub fn said_of_tokens(
    alloc: Global,
    mode: Mode,
    is_kept: bool,
    text: &str,
    listed: Listed,
) -> Result<String, LexFault> {
    let text = spelled(alloc, text)?;
    let mut names = Names::new(alloc);
    match tokens_in(alloc, mode, is_kept, text.as_slice(), &mut names) {
        Ok(tokens) => {
            let shown = Shown {
                alloc,
                names: &names,
                tokens: &tokens,
            };
            Ok(say_listed(&shown, listed)?)
        }
        Err(fault) => say_fault(alloc, fault),
    }
}

/// How many tokens stand in so many blanks, and the column behind these.
pub fn said_of_blanks(alloc: Global, count: usize) -> Result<String, LexFault> {
    if count > 16777216 {
        return Err(LexFault::NoMemory);
    }
    let blanks = vec![in alloc; b' '; count]?;
    let mut names = Names::new(alloc);
    let tokens = lexed_of(alloc, Mode::C, blanks.as_slice(), &mut names)?;
    let (number, column) = (tokens.all().len(), tokens.end().col);
    Ok(format!(in alloc; "{number} tokens, end in column {column}")?)
}
