//! Texts of rows, and their tokens.

use c_lexer::{LexFault, Mode, Tokens, lex, strip};
use mx_base::Names;
use std::alloc::{AllocError, Global};

/// Appends the byte whose number stands before a semicolon, and what stands behind that.
fn push_escaped(bytes: &mut Vec<u8>, piece: &str) -> Result<(), AllocError> {
    let Some((number, rest)) = piece.split_once(';') else {
        return bytes.extend_from_slice(piece.as_bytes());
    };
    let Ok(byte) = number.parse::<u8>() else {
        return bytes.extend_from_slice(piece.as_bytes());
    };
    bytes.push(byte)?;
    bytes.extend_from_slice(rest.as_bytes())
}

/// The bytes that a text stands for in which a backquote, a number and a semicolon are the byte with this number.
pub fn spelled(alloc: Global, text: &str) -> Result<Vec<u8>, AllocError> {
    let mut bytes = Vec::new(alloc);
    let Some((first, rest)) = text.split_once('`') else {
        bytes.extend_from_slice(text.as_bytes())?;
        return Ok(bytes);
    };
    bytes.extend_from_slice(first.as_bytes())?;
    for piece in rest.split('`') {
        push_escaped(&mut bytes, piece)?;
    }
    Ok(bytes)
}

/// The tokens of a text in the file `a.c`.
pub fn lexed_of(
    alloc: Global,
    mode: Mode,
    text: &[u8],
    names: &mut Names,
) -> Result<Tokens, LexFault> {
    if text.len() > 16777216 || names.len() > 100000 {
        return Err(LexFault::NoMemory);
    }
    lex(alloc, text, mode, 0, b"a.c", names)
}

/// The tokens of a short text; a long one is too much for a row.
pub fn tokens_of(
    alloc: Global,
    text: &[u8],
    file: u16,
    names: &mut Names,
) -> Result<Tokens, LexFault> {
    if text.len() > 100000 || names.len() > 100000 {
        return Err(LexFault::NoMemory);
    }
    lex(alloc, text, Mode::C, file, b"a.c", names)
}

/// The tokens of a short text, as a parser takes them.
pub fn stripped_of(
    alloc: Global,
    text: &[u8],
    file: u16,
    names: &mut Names,
) -> Result<Tokens, LexFault> {
    let tokens = tokens_of(alloc, text, file, names)?;
    Ok(strip(alloc, &tokens)?)
}
