//! Messages: the pieces of an action.

ghost use Rattle.std.specs.Prelude.{◌≡◌, ◌++◌, ◌&&◌, cond, nat_eq, flat_map, IfOk, map, [], ◌∷◌};
ghost use Rattle.metal_grammar.specs.Message.{letter_s, unescaped, pieces_of, message_with};
ghost use Rattle.metal_grammar.specs.Words.{contents_of};
ghost use Rattle.metal_written.specs.Written.{literal_views, action_view};
ghost use Rattle.metal_written.specs.Messages.{bytes_in, pieces_in, ended, is_bad, counts, IsStep, first_of, later_arguments, with_argument, directive_without, directive_behind, directive_of};
ghost use Rattle.metal_tree.specs.Views.{piece_view};

use crate::words::contents_of;
use crate::written::{Literal, WrittenAction};
use bumpalo::collections::into_bump_slice;
use c_tree::Arena;
use metal_tree::Piece;
use mx_base::Names;
use std::alloc::AllocError;
use std::mem::replace;

/// The contents of literals, joined.
fn joined<'a>(arena: &'a Arena, names: &Names, literals: &[Literal]) -> Result<&'a [u8], AllocError>
    ensures { IfOk result (λ bytes. bytes.now ≡ flat_map (contents_of names.now) (literal_views literals.now)) }
{
    let mut bytes = Vec::new(arena);
    for literal in literals {
        bytes.extend_from_slice(contents_of(names, *literal))?;
    }
    Ok(into_bump_slice(bytes))
}

/// Whether a byte stands behind a backslash and isn't one that is escaped.
fn is_bad_escape(behind_backslash: bool, byte: u8) -> bool
    ensures { result ≡ is_bad behind_backslash byte }
{
    behind_backslash && byte != b'\\' && byte != b'"'
}

/// Adds a byte, unless it is a backslash that escapes the next one.
fn add_byte<'a>(
    bytes: &mut Vec<u8, &'a Arena>,
    behind_backslash: bool,
    byte: u8,
) -> Result<(), AllocError>
    ensures { IfOk result (λ _. bytes.new.items ≡ cond (counts behind_backslash byte) (bytes.old.items ++ (byte ∷ [])) bytes.old.items) }
{
    if behind_backslash || byte != b'\\' {
        bytes.push(byte)?;
    }
    Ok(())
}

/// The bytes that these stand for, where only a backslash and a quote are escaped; nothing where another byte is.
fn unescaped<'a>(arena: &'a Arena, text: &[u8]) -> Result<Option<&'a [u8]>, AllocError>
    ensures { IfOk result (λ bytes. bytes_in bytes ≡ unescaped text.now) }
{
    let mut bytes = Vec::new(arena);
    let mut behind_backslash = false;
    for byte in text {
        if is_bad_escape(behind_backslash, *byte) {
            return Ok(None);
        }
        add_byte(&mut bytes, behind_backslash, *byte)?;
        behind_backslash = !behind_backslash && *byte == b'\\';
    }
    if behind_backslash {
        return Ok(None);
    }
    Ok(Some(into_bump_slice(bytes)))
}

/// Puts the literal bytes behind the pieces, unless there are none, and begins new ones.
fn end_literal<'a>(
    arena: &'a Arena,
    pieces: &mut Vec<Piece<'a>, &'a Arena>,
    bytes: &mut Vec<u8, &'a Arena>,
) -> Result<(), AllocError>
    ensures none { IfOk result (λ _. bytes.new.items ≡ []) }
    ensures pieces { IfOk result (λ _. map piece_view pieces.new.items ≡ ended (map piece_view pieces.old.items) bytes.old.items) }
{
    if bytes.is_empty() {
        return Ok(());
    }
    let literal = replace(bytes, Vec::new(arena));
    pieces.push(Piece::Literal {
        bytes: into_bump_slice(literal),
    })?;
    Ok(())
}

/// Adds the next argument, if one is left. Says whether it is.
fn add_hole<'a>(
    arena: &'a Arena,
    pieces: &mut Vec<Piece<'a>, &'a Arena>,
    bytes: &mut Vec<u8, &'a Arena>,
    argument: Option<u8>,
) -> Result<bool, AllocError>
    ensures { IfOk result (λ may. IsStep (map piece_view pieces.old.items) bytes.old.items (map piece_view pieces.new.items) bytes.new.items may (with_argument argument)) }
{
    let Some(hole) = argument else {
        return Ok(false);
    };
    end_literal(arena, pieces, bytes)?;
    pieces.push(Piece::Hole(hole))?;
    Ok(true)
}

/// Adds a byte that doesn't stand behind a `%`, unless it is one.
fn add_plain<'a>(
    pieces: &Vec<Piece<'a>, &'a Arena>,
    bytes: &mut Vec<u8, &'a Arena>,
    byte: u8,
) -> Result<bool, AllocError>
    ensures { IfOk result (λ may. IsStep (map piece_view pieces.now.items) bytes.old.items (map piece_view pieces.now.items) bytes.new.items may (directive_without byte)) }
{
    if byte == b'%' {
        return Ok(true);
    }
    bytes.push(byte)?;
    Ok(true)
}

/// Adds what a byte behind a `%` says. Says whether it may stand there.
fn add_directive<'a>(
    arena: &'a Arena,
    pieces: &mut Vec<Piece<'a>, &'a Arena>,
    bytes: &mut Vec<u8, &'a Arena>,
    argument: Option<u8>,
    byte: u8,
) -> Result<bool, AllocError>
    ensures { IfOk result (λ may. IsStep (map piece_view pieces.old.items) bytes.old.items (map piece_view pieces.new.items) bytes.new.items may (directive_behind argument byte)) }
{
    if byte == b's' {
        return add_hole(arena, pieces, bytes, argument);
    }
    if byte != b'%' {
        return Ok(false);
    }
    bytes.push(byte)?;
    Ok(true)
}

/// Adds a byte of a message. Says whether it may stand there.
fn add_text<'a>(
    arena: &'a Arena,
    pieces: &mut Vec<Piece<'a>, &'a Arena>,
    bytes: &mut Vec<u8, &'a Arena>,
    argument: Option<u8>,
    behind_percent: bool,
    byte: u8,
) -> Result<bool, AllocError>
    ensures { IfOk result (λ may. IsStep (map piece_view pieces.old.items) bytes.old.items (map piece_view pieces.new.items) bytes.new.items may (directive_of behind_percent argument byte)) }
{
    if behind_percent {
        add_directive(arena, pieces, bytes, argument, byte)
    } else {
        add_plain(pieces, bytes, byte)
    }
}

/// The arguments that are left behind a byte: `s` behind a `%` takes one.
fn left_behind(behind_percent: bool, byte: u8, arguments: &[u8]) -> &[u8]
    ensures { result.now ≡ cond (behind_percent && nat_eq byte letter_s) (later_arguments arguments.now) arguments.now }
{
    if behind_percent && byte == b's' {
        match arguments {
            [] => arguments,
            [_, rest @ ..] => rest,
        }
    } else {
        arguments
    }
}

/// The argument in front.
fn first_argument(arguments: &[u8]) -> Option<u8>
    ensures { result ≡ first_of arguments.now }
{
    match arguments {
        [] => None,
        [first, ..] => Some(*first),
    }
}

/// The pieces of a message: `%s` is the next argument, `%%` is `%`. Nothing where another byte stands behind a `%`, or the
/// arguments are more or fewer.
fn pieces_of<'a>(
    arena: &'a Arena,
    text: &[u8],
    arguments: &[u8],
) -> Result<Option<&'a [Piece<'a>]>, AllocError>
    ensures { IfOk result (λ pieces. pieces_in pieces ≡ pieces_of text.now arguments.now) }
{
    let mut pieces = Vec::new(arena);
    let mut bytes = Vec::new(arena);
    let mut left = arguments;
    let mut behind_percent = false;
    for byte in text {
        let argument = first_argument(left);
        let may = add_text(
            arena,
            &mut pieces,
            &mut bytes,
            argument,
            behind_percent,
            *byte,
        )?;
        if !may {
            return Ok(None);
        }
        left = left_behind(behind_percent, *byte, left);
        behind_percent = !behind_percent && *byte == b'%';
    }
    if behind_percent || !left.is_empty() {
        return Ok(None);
    }
    end_literal(arena, &mut pieces, &mut bytes)?;
    Ok(Some(into_bump_slice(pieces)))
}

/// The pieces of an action, whose literals are joined first, with these holes as arguments; nothing where it is no message for
/// so many.
pub fn message_with<'a>(
    arena: &'a Arena,
    names: &Names,
    action: WrittenAction<'a>,
    arguments: &[u8],
) -> Result<Option<&'a [Piece<'a>]>, AllocError>
    ensures { IfOk result (λ pieces. pieces_in pieces ≡ message_with names.now (action_view action.entry) arguments.now) }
{
    let text = joined(arena, names, action.literals)?;
    match unescaped(arena, text)? {
        None => Ok(None),
        Some(bytes) => pieces_of(arena, bytes, arguments),
    }
}
