//! The objects that bindings have for state variables.

ghost use Rattle.std.specs.Prelude.{◌≡◌, Some};
ghost use Rattle.c_tree.specs.PathSubjects.Values.{subject_of};
ghost use Rattle.hole_matcher.specs.HoleBindings.Bindings.{taken_of, binding_of};
ghost use Rattle.hole_matcher.specs.HoleBindings.Settings.{setting_in};
ghost use Rattle.hole_matching.specs.Alternatives.{object_taken, bound_object};
ghost use Rattle.hole_matching.specs.Subjects.{subject_object};
ghost use Rattle.objects.specs.Units.{facts_in};

use c_tree::Subject;
use hole_matcher::{Binding, Setting, Taken};
use objects::{Object, Selector, append, object_of};

// The object of a subject, if it has one.
fn subject_object(setting: &Setting, subject: Subject) -> Option<Object>
    ensures { result ≡ subject_object (facts_in setting.now.unit.now) setting.now.depth (subject_of subject.entry) }
{
    match subject {
        Subject::Tree(tree) => object_of(setting.unit, tree, setting.depth),
        Subject::DerefOf(pointer) => match object_of(setting.unit, pointer, setting.depth) {
            Some(object) => append(&object, &[Selector::Deref], setting.depth),
            None => None,
        },
    }
}

// The object of what a hole has taken. Arguments have none.
fn object_taken(setting: &Setting, taken: Taken) -> Option<Object>
    ensures { result ≡ object_taken (setting_in setting.now) (Some (taken_of taken.entry)) }
{
    match taken {
        Taken::One(subject) => subject_object(setting, subject),
        Taken::Many(_) => None,
    }
}

/// The object that a variable is bound to, if what it took has one.
pub(crate) fn bound_object(setting: &Setting, variable: u8, binding: &Binding) -> Option<Object>
    ensures { result ≡ bound_object (setting_in setting.now) variable (binding_of binding.now) }
{
    match binding.slot(variable) {
        Some(taken) => object_taken(setting, taken),
        None => None,
    }
}
