//! The objects that subjects name.

ghost use Rattle.std.specs.Prelude.{◌≡◌, ◌≤◌, is_some};
ghost use Rattle.hole_matching.specs.Subjects.{subject_object};
ghost use Rattle.objects.specs.Units.{facts_in};
ghost use Rattle.c_tree.specs.PathSubjects.Values.{subject_of};

use c_tree::Subject;
use objects::{Object, Selector, append, object_of};
use typed_unit::TypedUnit;

/// The object of a subject, if it has one of at most so many steps.
pub fn subject_object(unit: &TypedUnit, subject: Subject, depth: u8) -> Option<Object>
    requires { depth ≤ 8 }
    ensures { result ≡ subject_object (facts_in unit.now) depth (subject_of subject.entry) }
{
    match subject {
        Subject::Tree(tree) => object_of(unit, tree, depth),
        Subject::DerefOf(pointer) => match object_of(unit, pointer, depth) {
            Some(object) => append(&object, &[Selector::Deref], depth),
            None => None,
        },
    }
}

/// Whether a subject has an object with at most so many steps.
pub(crate) fn has_object(unit: &TypedUnit, subject: Subject, depth: u8) -> bool
    requires { depth ≤ 8 }
    ensures { result ≡ is_some (subject_object (facts_in unit.now) depth (subject_of subject.entry)) }
{
    subject_object(unit, subject, depth).is_some()
}
