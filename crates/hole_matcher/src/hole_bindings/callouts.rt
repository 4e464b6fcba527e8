//! Callouts: what they ask of a binding.

ghost use Rattle.std.specs.Prelude.{◌≡◌};
ghost use Rattle.std.specs.Option.{option_map};
ghost use Rattle.c_objects.specs.Objects.{Object};
ghost use Rattle.c_tree.specs.Views.{node_of};
ghost use Rattle.type_values.specs.Vars.{cvar_of};
ghost use Rattle.hole_matcher.specs.HoleBindings.Bindings.{binding_of};
ghost use Rattle.hole_matcher.specs.HoleBindings.Sorts.{one_in, sort_of};
ghost use Rattle.hole_matcher.specs.HoleBindings.Settings.{setting_in};
ghost use Rattle.hole_matching.specs.Callouts.{is_enumerator, is_constant, is_named, of_tree, of_one, has_base, answer, holds, most_depth};
ghost use Rattle.hole_matching.specs.Matching.{slot};
ghost use Rattle.hole_matching.specs.Subjects.{subject_object};
ghost use Rattle.metal_tree.specs.Views.{callout_view};
ghost use Rattle.objects.specs.Units.{facts_in};
ghost use Rattle.c_tree.specs.PathSubjects.Values.{subject_of};

use crate::hole_bindings::binding::{Binding, Taken};
use crate::hole_bindings::named::subject_object;
use crate::hole_bindings::setting::Setting;
use c_tree::{Kind, Operation, Primary, Subject, Tree};
use metal_tree::{Callout, CalloutRow};
use objects::{is_static, variable};
use tree_comparison::type_of;
use type_values::Var;
use typed_unit::TypedUnit;

// Whether a name is an enumerator (ISO 9899:1990, 6.1.3.3): it stands for no variable, and its type is arithmetic.
#[tactic(auto, using(objects::proofs::Cells::cells))]
fn is_enumerator(unit: &TypedUnit, tree: &Tree) -> bool
    ensures { result ≡ is_enumerator (facts_in unit.now) tree.now.id }
{
    unit.table.var(tree.id).is_none() && type_of(unit, tree).is_arithmetic()
}

// Whether a tree is, under any parentheses and casts, a constant, a string or an enumerator.
fn is_constant(unit: &TypedUnit, tree: &Tree) -> bool
    ensures { result ≡ is_constant (facts_in unit.now) (node_of tree.now) }
{
    match &tree.kind {
        Kind::Primary(Primary::Ident { .. }) => is_enumerator(unit, tree),
        Kind::Primary(Primary::Constant { .. }) => true,
        Kind::Primary(Primary::StrConst { .. }) => true,
        Kind::Primary(Primary::Paren { inner }) => is_constant(unit, inner),
        Kind::Operation(Operation::Cast { operand, .. }) => is_constant(unit, operand),
        _ => false,
    }
}

// Whether a tree is, under any parentheses and casts, an identifier of this spelling.
fn is_named(text: u32, tree: &Tree) -> bool
    ensures { result ≡ is_named text (node_of tree.now) }
{
    match &tree.kind {
        Kind::Primary(Primary::Ident { name }) => name.name == text,
        Kind::Primary(Primary::Paren { inner }) => is_named(text, inner),
        Kind::Operation(Operation::Cast { operand, .. }) => is_named(text, operand),
        _ => false,
    }
}

// The one subject that a hole has taken, if it has taken one.
fn one_taken<'a>(binding: &Binding<'a>, hole: u8) -> Option<Subject<'a>>
    ensures { option_map subject_of result ≡ one_in (slot hole (binding_of binding.now)) }
{
    match binding.slot(hole) {
        Some(taken) => match taken {
            Taken::One(subject) => Some(subject),
            Taken::Many(_) => None,
        },
        None => None,
    }
}

// Whether a subject is a constant. A `*x` that is read out of `x->f` is none.
fn is_constant_subject(unit: &TypedUnit, subject: Subject) -> bool
    ensures { result ≡ of_tree (is_constant (facts_in unit.now)) (subject_of subject.entry) }
{
    match subject {
        Subject::Tree(tree) => is_constant(unit, tree),
        Subject::DerefOf(_) => false,
    }
}

// Whether a subject is an identifier of this spelling.
fn is_named_subject(text: u32, subject: Subject) -> bool
    ensures { result ≡ of_tree (is_named text) (subject_of subject.entry) }
{
    match subject {
        Subject::Tree(tree) => is_named(text, tree),
        Subject::DerefOf(_) => false,
    }
}

// Whether a hole has taken a constant.
#[tactic(auto, using(crate::proofs::HoleBindings::TakenOnes::of_one_is))]
fn took_constant(unit: &TypedUnit, binding: &Binding, hole: u8) -> bool
    ensures { result ≡ of_one (of_tree (is_constant (facts_in unit.now))) (slot hole (binding_of binding.now)) }
{
    match one_taken(binding, hole) {
        Some(subject) => is_constant_subject(unit, subject),
        None => false,
    }
}

// Whether a hole has taken an identifier of this spelling.
#[tactic(auto, using(crate::proofs::HoleBindings::TakenOnes::of_one_is))]
fn took_name(text: u32, binding: &Binding, hole: u8) -> bool
    ensures { result ≡ of_one (of_tree (is_named text)) (slot hole (binding_of binding.now)) }
{
    match one_taken(binding, hole) {
        Some(subject) => is_named_subject(text, subject),
        None => false,
    }
}

// The variable from which the path of a subject's object goes; objects have at most 8 steps here.
fn base_of(unit: &TypedUnit, subject: Subject) -> Option<Var>
    ensures { option_map cvar_of result ≡ option_map (λ (o : Object). o.base) (subject_object (facts_in unit.now) most_depth (subject_of subject.entry)) }
{
    match subject_object(unit, subject, 8) {
        Some(object) => Some(object.base()),
        None => None,
    }
}

// The sorts of variables that callouts ask for.
#[derive(Clone, Copy)]
enum Sort {
    /// With static storage.
    Static,
    Param,
    Local,
}

// Whether a variable is of a sort (ISO 9899:1990, 6.1.2.4).
fn is_of_sort(sort: Sort, base: Var) -> bool
    ensures { result ≡ sort_of sort (cvar_of base) }
{
    match sort {
        Sort::Static => is_static(&variable(base)),
        Sort::Param => matches!(base, Var::Param { .. }),
        Sort::Local => matches!(base, Var::Local { .. }),
    }
}

// Whether a subject has an object, and its variable is of a sort.
#[tactic(auto, using(crate::proofs::HoleBindings::TakenOnes::has_base_is))]
fn has_base(unit: &TypedUnit, sort: Sort, subject: Subject) -> bool
    ensures { result ≡ has_base (sort_of sort) (facts_in unit.now) (subject_of subject.entry) }
{
    match base_of(unit, subject) {
        Some(base) => is_of_sort(sort, base),
        None => false,
    }
}

// Whether a hole has taken a subject with such an object.
#[tactic(auto, using(crate::proofs::HoleBindings::TakenOnes::of_one_is))]
fn took_base(unit: &TypedUnit, sort: Sort, binding: &Binding, hole: u8) -> bool
    ensures { result ≡ of_one (has_base (sort_of sort) (facts_in unit.now)) (slot hole (binding_of binding.now)) }
{
    match one_taken(binding, hole) {
        Some(subject) => has_base(unit, sort, subject),
        None => false,
    }
}

// What a callout answers where no `!` stands before it.
fn answer(setting: &Setting, call: &Callout, binding: &Binding) -> bool
    ensures { result ≡ answer (setting_in setting.now) (callout_view call.now) (binding_of binding.now) }
{
    match call.row {
        CalloutRow::IsConst => took_constant(setting.unit, binding, call.hole),
        CalloutRow::IsGlobal => took_base(setting.unit, Sort::Static, binding, call.hole),
        CalloutRow::IsParam => took_base(setting.unit, Sort::Param, binding, call.hole),
        CalloutRow::IsLocal => took_base(setting.unit, Sort::Local, binding, call.hole),
        CalloutRow::NameIs => took_name(call.text, binding, call.hole),
        CalloutRow::InFunction => setting.function == call.text,
        CalloutRow::NeverHolds => false,
        CalloutRow::AlwaysHolds => true,
    }
}

/// Whether a callout holds of a binding.
pub fn holds(setting: &Setting, call: &Callout, binding: &Binding) -> bool
    ensures { result ≡ holds (setting_in setting.now) (callout_view call.now) (binding_of binding.now) }
{
    let answer = answer(setting, call, binding);
    if call.negated { !answer } else { answer }
}
