//! The text of an object.

ghost use Rattle.std.specs.Prelude.{◌≡◌, [], ◌++◌, OnOk, OnErr, get_or, flat_map};
ghost use Rattle.c_objects.specs.Text.{object_text, text_of};
ghost use Rattle.objects.specs.Pieces.{HasBegun, piece_text};

use crate::object::Object;
use crate::pieces::{Piece, pieces_of};
use itoa::Buffer;
use mx_base::{Names, Text};
use std::alloc::AllocError;

// The text of a name; no number that names don't have has one.
fn name_text(names: &Names, name: u32) -> &[u8]
    ensures { result.now ≡ text_of names.now name }
{
    if name < names.len() {
        names.text_of(name)
    } else {
        &[]
    }
}

fn write_piece(piece: Piece, names: &Names, into: &mut Text) -> Result<(), AllocError>
    ensures ok { OnOk result (into.new ≡ into.old ++ piece_text names.now piece) }
    ensures err { OnErr result (into.new ≡ into.old) }
{
    match piece {
        Piece::Star => into.push_all(b"*"),
        Piece::Address => into.push_all(b"&"),
        Piece::Open => into.push_all(b"("),
        Piece::Close => into.push_all(b")"),
        Piece::Dot => into.push_all(b"."),
        Piece::Arrow => into.push_all(b"->"),
        Piece::Left => into.push_all(b"["),
        Piece::Right => into.push_all(b"]"),
        Piece::Returned => into.push_all(b"result"),
        Piece::NoArguments => into.push_all(b"()"),
        Piece::Name(name) => into.push_all(name_text(names, name)),
        Piece::Number(number) => {
            let mut buffer = Buffer::new();
            into.push_all(buffer.format(number).as_bytes())
        }
    }
}

fn write_pieces(pieces: &[Piece], names: &Names, into: &mut Text) -> Result<(), AllocError>
    ensures ok { OnOk result (into.new ≡ into.old ++ flat_map (piece_text names.now) pieces.now) }
    ensures err { OnErr result (HasBegun into.old (flat_map (piece_text names.now) pieces.now) into.new) }
{
    for piece in pieces {
        write_piece(*piece, names, into)?;
    }
    Ok(())
}

/// Appends the text of an object, such as `p->a[2]`. A variable's text is its name, `result` for what a return leaves behind, and
/// `f()` for what a call does. An error leaves a beginning of the text appended.
#[tactic(auto, using(crate::proofs::Texts::object_pieces_are))]
pub fn write_text(object: &Object, names: &Names, into: &mut Text) -> Result<(), AllocError>
    ensures ok { OnOk result (into.new ≡ into.old ++ object_text names.now object.now) }
    ensures err { OnErr result (HasBegun into.old (object_text names.now object.now) into.new) }
{
    let pieces = pieces_of(object);
    write_pieces(pieces.as_slice(), names, into)
}
