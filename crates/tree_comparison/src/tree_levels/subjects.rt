//! Subjects of a unit: what is in their parentheses, their types and their objects.

ghost use Rattle.std.specs.Prelude.{◌≡◌};
ghost use Rattle.c_tree.specs.Views.{node_of};
ghost use Rattle.type_values.specs.Types.{ctype_of};
ghost use Rattle.hole_matching.specs.Subjects.{inside, inner, is_expression, subject_type};
ghost use Rattle.objects.specs.Units.{facts_in};
ghost use Rattle.c_tree.specs.PathSubjects.Values.{subject_of};

use crate::tree_levels::levels::{is_braced, type_of};
use c_tree::{Initializer, Kind, Primary, Subject, Tree};
use type_values::Ty;
use typed_unit::TypedUnit;

// What stands in the parentheses.
fn inside<'a>(tree: &'a Tree<'a>) -> &'a Tree<'a>
    ensures { node_of result.now ≡ inside (node_of tree.now) }
{
    match &tree.kind {
        Kind::Primary(Primary::Paren { inner }) => inside(inner),
        _ => tree,
    }
}

/// A subject without the parentheses around it.
pub fn inner<'a>(subject: Subject<'a>) -> Subject<'a>
    ensures { subject_of result ≡ inner (subject_of subject.entry) }
{
    match subject {
        Subject::Tree(tree) => Subject::Tree(inside(tree)),
        Subject::DerefOf(pointer) => Subject::DerefOf(pointer),
    }
}

/// Whether a subject is an expression (ISO 9899:1990, 6.3), or read as one.
pub fn is_expression(subject: Subject) -> bool
    ensures { result ≡ is_expression (subject_of subject.entry) }
{
    match subject {
        Subject::Tree(tree) => match &tree.kind {
            Kind::Primary(Primary::Hole { .. }) => false,
            Kind::Primary(_) => true,
            Kind::Operation(_) => true,
            Kind::Initializer(Initializer::Init { initial, .. }) => !is_braced(initial),
            _ => false,
        },
        Subject::DerefOf(_) => true,
    }
}

/// The type of a subject; that of `*x` is what `x` points to (6.3.3.2).
pub fn subject_type<'a>(unit: &TypedUnit<'a>, subject: Subject) -> Ty<'a>
    ensures { ctype_of result ≡ subject_type (facts_in unit.now) (subject_of subject.entry) }
{
    match subject {
        Subject::Tree(tree) => type_of(unit, tree),
        Subject::DerefOf(pointer) => {
            let ty = type_of(unit, pointer);
            match ty.pointed() {
                Some(to) => to,
                None => ty,
            }
        }
    }
}
