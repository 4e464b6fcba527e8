//! Levels of trees that are seen as they are written, or as C reads them.

ghost use Rattle.std.specs.Prelude.{◌≡◌, true};
ghost use Rattle.c_tree.specs.Forget.{view};
ghost use Rattle.c_tree.specs.Symbol.{symbol_of};
ghost use Rattle.c_tree.specs.Compared.{compared, compared_init, is_braces, pointed_to};
ghost use Rattle.tree_laws.specs.TreeEquality.Levels.{level_of, pointed_member, seen, seen_level, is_plain};

use crate::tree_equality::heads::{Branches, Form, Head, Level, Seeing, Seen, Words};
use crate::tree_equality::levels::level;
use c_tree::{AssignOp, Initializer, Kind, Operation, Primary, Specifier, Token, Tree, UnaryOp};

/// The level of a tree as it is written.
pub fn written<'a>(tree: &Tree<'a>) -> Seen<'a>
    ensures { seen_level result ≡ level_of (view tree.now) }
{
    Seen {
        how: Seeing::AsWritten,
        level: level(tree),
    }
}

// The level of a tree of which C reads nothing otherwise than it is written, but what stands below it.
fn plain<'a>(tree: &Tree<'a>) -> Seen<'a>
    requires { is_plain (view tree.now) ≡ true }
    ensures { seen_level result ≡ level_of (compared (view tree.now)) }
{
    Seen {
        how: Seeing::AsRead,
        level: level(tree),
    }
}

// Whether a tree is an initializer in braces, which may stand in parentheses.
#[tactic(auto, using(crate::proofs::TreeEquality::ComparedKinds::primary_stays, crate::proofs::TreeEquality::ComparedKinds::init_braces))]
fn is_braced(tree: &Tree) -> bool
    ensures { result ≡ is_braces (compared (view tree.now)) }
{
    match &tree.kind {
        Kind::Primary(primary) => match primary {
            Primary::Paren { inner } => is_braced(inner),
            _ => false,
        },
        Kind::Initializer(initializer) => match initializer {
            Initializer::Braces { .. } => true,
            _ => false,
        },
        _ => false,
    }
}

// A name with an initializer that isn't in braces is an assignment to the name (ISO 9899:1990, 6.5.7).
fn initialized<'a>(name: &'a Tree<'a>, declarator: &'a Tree<'a>, initial: &'a Tree<'a>) -> Seen<'a>
    ensures { seen_level result ≡ level_of (compared_init (compared (view name.now)) (compared (view declarator.now)) (compared (view initial.now))) }
{
    if is_braced(initial) {
        Seen {
            how: Seeing::AsRead,
            level: Level {
                head: Head::Plain(Form::Init),
                words: Words::Single(None),
                branches: Branches::Four(Some(name), Some(declarator), Some(initial), None),
            },
        }
    } else {
        Seen {
            how: Seeing::AsRead,
            level: Level {
                head: Head::Assign(AssignOp::Plain),
                words: Words::Single(None),
                branches: Branches::Two(Some(name), Some(initial)),
            },
        }
    }
}

// `operand->member` is `(*operand).member` (6.3.2.3).
fn pointed<'a>(operand: &'a Tree<'a>, member: &'a Token) -> Seen<'a>
    ensures { seen_level result ≡ level_of (pointed_member (compared (view operand.now)) (symbol_of member.now)) }
{
    Seen {
        how: Seeing::PointedTo,
        level: Level {
            head: Head::Plain(Form::Member),
            words: Words::Single(Some(member)),
            branches: Branches::Two(Some(operand), None),
        },
    }
}

// What a pointer points to.
fn dereferenced<'a>(pointer: &'a Tree<'a>) -> Seen<'a>
    ensures { seen_level result ≡ level_of (pointed_to (compared (view pointer.now))) }
{
    Seen {
        how: Seeing::AsRead,
        level: Level {
            head: Head::Unary(UnaryOp::Deref),
            words: Words::Single(None),
            branches: Branches::Two(Some(pointer), None),
        },
    }
}

/// The level of a tree as C reads it. Parentheses are seen through, and `x->f` is `(*x).f` (6.3.2.3). Inside a type name
/// nothing is seen through.
pub fn read<'a>(tree: &Tree<'a>) -> Seen<'a>
    ensures { seen_level result ≡ level_of (compared (view tree.now)) }
{
    match &tree.kind {
        Kind::Primary(kind) => match kind {
            Primary::Paren { inner } => read(inner),
            _ => plain(tree),
        },
        Kind::Operation(kind) => match kind {
            Operation::Arrow { operand, member } => pointed(*operand, *member),
            _ => plain(tree),
        },
        Kind::Initializer(kind) => match kind {
            Initializer::Init {
                name,
                declarator,
                initial,
            } => initialized(*name, *declarator, *initial),
            _ => plain(tree),
        },
        Kind::Specifier(kind) => match kind {
            Specifier::TypeName { .. } => written(tree),
            _ => plain(tree),
        },
        _ => plain(tree),
    }
}

/// The level of a tree, in the way in which it is seen.
pub fn seen<'a>(how: Seeing, tree: &'a Tree<'a>) -> Seen<'a>
    ensures { seen_level result ≡ level_of (seen how (view tree.now)) }
{
    match how {
        Seeing::AsWritten => written(tree),
        Seeing::AsRead => read(tree),
        Seeing::PointedTo => dereferenced(tree),
    }
}
