//! The kinds of holes by the words of the language, and where in an expression a hole of each may stand.

ghost use Rattle.std.specs.Prelude.{◌≡◌};
ghost use Rattle.std.specs.Option.{option_map};
ghost use Rattle.metal_grammar.specs.Holes.{kind_of_hole, hole_type};
ghost use Rattle.metal_grammar.specs.Grammar.{may_have};
ghost use Rattle.metal_written.specs.Kinds.{kind_type, seat_of, may_sit};
ghost use Rattle.metal_written.specs.Written.{type_view};

use crate::words::is_spelled;
use crate::written::WrittenType;
use mx_base::Names;

/// A kind of hole that has a word of its own.
#[derive(Clone, Copy, PartialEq, Eq)]
pub enum HoleKind {
    AnyExpr,
    AnyScalar,
    AnyPointer,
    AnyArguments,
    AnyFnCall,
}

/// The part of an expression that a hole may be.
#[derive(Clone, Copy, PartialEq, Eq)]
pub enum Seat {
    /// An operand, also as the last argument.
    Operand,
    /// The last argument alone.
    Arguments,
    /// A callee alone.
    Callee,
}

/// Where in an expression a name stands.
#[derive(Clone, Copy, PartialEq, Eq)]
pub enum Position {
    Operand,
    Callee,
    LastArgument,
}

/// The kind that a word names.
pub fn kind_of_hole(names: &Names, name: u32) -> Option<HoleKind>
    ensures { option_map kind_type result ≡ kind_of_hole names.now name }
{
    if is_spelled(names, b"any_expr", name) {
        Some(HoleKind::AnyExpr)
    } else if is_spelled(names, b"any_scalar", name) {
        Some(HoleKind::AnyScalar)
    } else if is_spelled(names, b"any_pointer", name) {
        Some(HoleKind::AnyPointer)
    } else if is_spelled(names, b"any_arguments", name) {
        Some(HoleKind::AnyArguments)
    } else if is_spelled(names, b"any_fn_call", name) {
        Some(HoleKind::AnyFnCall)
    } else {
        None
    }
}

/// What a hole of a type may be, if this is a type of holes.
pub fn seat_of(names: &Names, of: WrittenType) -> Option<Seat>
    ensures { result ≡ option_map seat_of (hole_type names.now (type_view of.entry)) }
{
    match of {
        WrittenType::Kind { name } => match kind_of_hole(names, name) {
            None => None,
            Some(HoleKind::AnyArguments) => Some(Seat::Arguments),
            Some(HoleKind::AnyFnCall) => Some(Seat::Callee),
            Some(_) => Some(Seat::Operand),
        },
        _ => Some(Seat::Operand),
    }
}

/// Whether holes of this type may be declared; a state variable has to be an operand.
pub fn may_have(is_state: bool, names: &Names, of: WrittenType) -> bool
    ensures { result ≡ may_have is_state (hole_type names.now (type_view of.entry)) }
{
    match seat_of(names, of) {
        None => false,
        Some(Seat::Operand) => true,
        Some(_) => !is_state,
    }
}

/// Whether a name may stand there, of which `seat` says what it may be as a hole, if it is one.
pub fn may_stand(position: Position, seat: Option<Seat>) -> bool
    ensures { result ≡ may_sit position seat }
{
    match seat {
        None => true,
        Some(Seat::Callee) => position == Position::Callee,
        Some(Seat::Arguments) => position == Position::LastArgument,
        Some(Seat::Operand) => position != Position::Callee,
    }
}
