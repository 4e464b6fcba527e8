//! The one piece that may be cut off where a reading stands.

ghost use Rattle.std.specs.Prelude.{◌≡◌, ◌≤◌, ◌<◌, length, IsTrue, ◌&&◌, Some, None};
ghost use Rattle.std.specs.Option.{option_map};
ghost use Rattle.c_lexer.specs.CReading.Reading.{begins_comment, begins_line_comment, has_markers, spelling_fault};
ghost use Rattle.c_lexer.specs.Ways.Cutting.{cut, comment_at, line_comment_at, marker_at, spelling_at};
ghost use Rattle.c_lexer.specs.Pieces.{piece_view, piece_len, GivesPiece, GivesComment, GivesLineComment, GivesMarker, GivesToken};

use crate::bytes::{Class, begins, front_len, is_blank, is_quote};
use crate::c_reading::{Fault, Mode};
use crate::literals::closing;
use crate::markers::{Marker, marker_of};
use crate::numbers::begins_number;
use crate::spellings::spelling;
use c_tree::TokenKind;

/// A piece in front of bytes.
#[derive(Clone, Copy)]
pub enum Piece<'a> {
    /// One blank byte.
    Space,
    /// A comment between `/*` and `*/`, of this length.
    Comment {
        len: usize,
    },
    /// A comment with this length behind its `//`.
    LineComment {
        len: usize,
    },
    /// A marker line with this length behind its `#`, and whether a line feed ends it, which belongs to it.
    MarkerLine {
        len: usize,
        ended: bool,
        marker: Marker<'a>,
    },
    /// A token of this length.
    Spelling {
        len: usize,
        kind: TokenKind,
    },
}

impl Piece<'_> {
    /// How many bytes the piece has.
    pub fn len(&self) -> usize
        requires { piece_len self.now < 18446744073709551616 }
        ensures { result ≡ piece_len self.now }
    {
        match self {
            Piece::Space => 1,
            Piece::Comment { len } => *len,
            Piece::LineComment { len } => *len + 2,
            Piece::MarkerLine { len, ended, .. } => *len + if *ended { 2 } else { 1 },
            Piece::Spelling { len, .. } => *len,
        }
    }
}

/// Whether `/*` is in front.
fn begins_comment(bytes: &[u8]) -> bool
    ensures { result ≡ begins_comment bytes.now }
{
    match bytes {
        [] => false,
        [first, behind @ ..] => *first == b'/' && begins(b'*', behind),
    }
}

/// Whether `//` is in front.
fn begins_line_comment(bytes: &[u8]) -> bool
    ensures { result ≡ begins_line_comment bytes.now }
{
    match bytes {
        [] => false,
        [first, behind @ ..] => *first == b'/' && begins(b'/', behind),
    }
}

/// Markers stand in C alone.
fn has_markers(mode: Mode) -> bool
    ensures { result ≡ has_markers mode }
{
    match mode {
        Mode::C => true,
        Mode::Metal => false,
    }
}

/// A comment that begins with `/*`.
#[tactic(auto, unfolding(crate::specs::Ways::Cutting::comment_at))]
fn comment<'a>(bytes: &'a [u8]) -> Result<Piece<'a>, Fault>
    requires { IsTrue (begins_comment bytes.now) }
    ensures { GivesComment bytes.now result }
{
    let Some(count) = closing(&bytes[2..]) else {
        return Err(Fault::OpenText);
    };
    Ok(Piece::Comment { len: count + 2 })
}

/// A comment that begins with `//`.
#[tactic(auto, unfolding(crate::specs::Ways::Cutting::line_comment_at))]
fn line_comment<'a>(bytes: &'a [u8]) -> Piece<'a>
    requires { IsTrue (begins_line_comment bytes.now) }
    ensures { GivesLineComment bytes.now result }
{
    let len = front_len(Class::WithinLine, &bytes[2..]);
    Piece::LineComment { len }
}

/// A marker line.
#[tactic(auto, unfolding(crate::specs::Ways::Cutting::marker_at))]
fn marker_line<'a>(bytes: &'a [u8]) -> Result<Piece<'a>, Fault>
    requires { 1 ≤ length bytes.now }
    ensures { GivesMarker bytes.now result }
{
    let behind = &bytes[1..];
    let len = front_len(Class::WithinLine, behind);
    let Some(marker) = marker_of(&behind[..len]) else {
        return Err(Fault::BadMarker);
    };
    let ended = begins(b'\n', &behind[len..]);
    Ok(Piece::MarkerLine { len, ended, marker })
}

/// What is wrong where no token can be cut off.
#[tactic(auto, unfolding(crate::specs::CReading::Reading::spelling_fault))]
fn spelling_fault(bytes: &[u8]) -> Fault
    ensures { result ≡ spelling_fault bytes.now }
{
    let [first, ..] = bytes else {
        return Fault::BadByte;
    };
    if is_quote(*first) {
        return Fault::OpenText;
    }
    if begins_number(bytes) {
        Fault::BadNumber
    } else {
        Fault::BadByte
    }
}

/// A token.
#[tactic(auto, unfolding(crate::specs::Ways::Cutting::spelling_at))]
fn token<'a>(mode: Mode, bytes: &'a [u8]) -> Result<Piece<'a>, Fault>
    ensures { GivesToken mode bytes.now result }
{
    let Some(spelled) = spelling(mode, bytes) else {
        return Err(spelling_fault(bytes));
    };
    let Some(kind) = spelled.kind else {
        return Err(spelling_fault(bytes));
    };
    Ok(Piece::Spelling {
        len: spelled.len,
        kind,
    })
}

/// The piece in front. `first` says whether only spaces and tabs stand before on the line, which doesn't begin inside a comment.
#[tactic(auto, unfolding(crate::specs::Ways::Cutting::cut, crate::specs::CReading::Reading::fault_at))]
pub fn cut<'a>(mode: Mode, first: bool, bytes: &'a [u8]) -> Result<Piece<'a>, Fault>
    ensures { GivesPiece mode first bytes.now result }
{
    let [front, ..] = bytes else {
        return Err(Fault::BadByte);
    };
    if is_blank(*front) {
        return Ok(Piece::Space);
    }
    if begins_comment(bytes) {
        return comment(bytes);
    }
    if begins_line_comment(bytes) {
        return Ok(line_comment(bytes));
    }
    if has_markers(mode) && first && *front == b'#' {
        return marker_line(bytes);
    }
    token(mode, bytes)
}
