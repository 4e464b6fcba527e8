//! The pieces of the text of an object.

ghost use Rattle.std.specs.Prelude.{◌≡◌, ◌+◌, ◌*◌, ◌≤◌, ◌∷◌, [], ◌++◌, length, reverse};
ghost use Rattle.arrayvec.specs.ArrayVec.{array_vec_len};
ghost use Rattle.c_objects.specs.Objects.{Field};
ghost use Rattle.c_objects.specs.Text.{is_last_star};
ghost use Rattle.type_values.specs.Vars.{cvar_of};
ghost use Rattle.objects.specs.Pieces.{var_pieces, part_pieces, steps_pieces, object_pieces};
ghost use Rattle.objects.specs.Selectors.{selectors_of};

use crate::object::Object;
use crate::selector::Selector;
use arrayvec::ArrayVec;
use type_values::Var;

/// A piece of the text of an object.
#[derive(Clone, Copy, Default)]
pub(crate) enum Piece {
    #[default]
    Star,
    Address,
    Open,
    Close,
    Dot,
    Arrow,
    Left,
    Right,
    /// What a return leaves behind.
    Returned,
    /// Behind the name of a function whose call leaves a value.
    NoArguments,
    Name(u32),
    Number(u64),
}

/// The pieces of a text: at most six for each of 8 steps, two for the variable, and the address mark.
pub(crate) type Pieces = ArrayVec<Piece, 51>;

// Those of a variable.
fn put_var(v: Var, pieces: &mut Pieces)
    requires { array_vec_len pieces.old + 2 ≤ 51 }
    ensures pieces { pieces.new.items ≡ pieces.old.items ++ var_pieces (cvar_of v) }
    ensures few { array_vec_len pieces.new ≤ array_vec_len pieces.old + 2 }
{
    match v {
        Var::Extern { name } => pieces.push(Piece::Name(name)),
        Var::FileStatic { name, .. } => pieces.push(Piece::Name(name)),
        Var::LocalStatic { name, .. } => pieces.push(Piece::Name(name)),
        Var::Param { name, .. } => pieces.push(Piece::Name(name)),
        Var::Local { name, .. } => pieces.push(Piece::Name(name)),
        Var::Result => pieces.push(Piece::Returned),
        Var::Called { name, .. } => {
            pieces.push(Piece::Name(name));
            pieces.push(Piece::NoArguments);
        }
    }
}

// Whether the last step is `*`.
#[tactic(auto, using(crate::proofs::Reversed::reversed))]
fn is_last_star(steps: &[Selector]) -> bool
    ensures { result ≡ is_last_star (reverse (selectors_of steps.now)) }
{
    match steps.split_last() {
        Some((Selector::Deref, _)) => true,
        _ => false,
    }
}

// Those of a path.
#[tactic(auto, using(crate::proofs::Reversed::reversed))]
#[cycle(pieces)]
fn put_steps(base: Var, steps: &[Selector], pieces: &mut Pieces)
    requires { array_vec_len pieces.old + 6 * length steps.now + 2 ≤ 51 }
    ensures pieces { pieces.new.items ≡ pieces.old.items ++ steps_pieces (cvar_of base) (reverse (selectors_of steps.now)) }
    ensures few { array_vec_len pieces.new ≤ array_vec_len pieces.old + 6 * length steps.now + 2 }
{
    let Some((last, rest)) = steps.split_last() else {
        put_var(base, pieces);
        return;
    };
    match *last {
        Selector::Deref => {
            pieces.push(Piece::Star);
            put_steps(base, rest, pieces);
        }
        Selector::Field(name) => put_member(base, rest, name, pieces),
        Selector::At(index) => {
            put_part(base, rest, pieces);
            pieces.push(Piece::Left);
            pieces.push(Piece::Number(index));
            pieces.push(Piece::Right);
        }
        Selector::AtVar(index) => {
            put_part(base, rest, pieces);
            pieces.push(Piece::Left);
            put_var(index, pieces);
            pieces.push(Piece::Right);
        }
    }
}

// Those of a path before `.`, `->` and `[`: it stands in parentheses where its last step is `*`.
#[cycle(pieces)]
fn put_part(base: Var, steps: &[Selector], pieces: &mut Pieces)
    requires { array_vec_len pieces.old + 6 * length steps.now + 4 ≤ 51 }
    ensures pieces { pieces.new.items ≡ pieces.old.items ++ part_pieces (is_last_star (reverse (selectors_of steps.now))) (steps_pieces (cvar_of base) (reverse (selectors_of steps.now))) }
    ensures few { array_vec_len pieces.new ≤ array_vec_len pieces.old + 6 * length steps.now + 4 }
{
    if is_last_star(steps) {
        pieces.push(Piece::Open);
        put_steps(base, steps, pieces);
        pieces.push(Piece::Close);
    } else {
        put_steps(base, steps, pieces);
    }
}

// Those of a member: `->` stands for `*` and `.`.
#[tactic(auto, using(crate::proofs::Reversed::reversed))]
#[cycle(pieces)]
fn put_member(base: Var, steps: &[Selector], name: u32, pieces: &mut Pieces)
    requires { array_vec_len pieces.old + 6 * length steps.now + 4 ≤ 51 }
    ensures pieces { pieces.new.items ≡ pieces.old.items ++ steps_pieces (cvar_of base) (Field name ∷ reverse (selectors_of steps.now)) }
    ensures few { array_vec_len pieces.new ≤ array_vec_len pieces.old + 6 * length steps.now + 4 }
{
    if let Some((Selector::Deref, rest)) = steps.split_last() {
        put_part(base, rest, pieces);
        pieces.push(Piece::Arrow);
        pieces.push(Piece::Name(name));
        return;
    }
    put_steps(base, steps, pieces);
    pieces.push(Piece::Dot);
    pieces.push(Piece::Name(name));
}

/// The pieces of the text of an object.
pub(crate) fn pieces_of(object: &Object) -> Pieces
    ensures { result.items ≡ object_pieces object.now }
{
    let mut pieces = ArrayVec::new();
    if object.address {
        pieces.push(Piece::Address);
    }
    put_steps(object.base, object.selectors.as_slice(), &mut pieces);
    pieces
}
