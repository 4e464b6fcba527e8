//! The walk over a pattern and a subject, which fills the slots of holes in the order of the text.

ghost use Rattle.std.specs.Prelude.{◌≡◌, [], ◌∷◌};
ghost use Rattle.c_objects.specs.Facts.{Facts};
ghost use Rattle.c_tree.specs.Forget.{view, maybe_view, kind_view, list_view, primary_view, operation_view, initializer_view, part_view};
ghost use Rattle.c_tree.specs.Symbol.{symbols_of};
ghost use Rattle.c_tree.specs.Views.{node_of, nodes_of};
ghost use Rattle.c_tree.specs.declared.operator.UnaryOp.TheVariants as unary;
ghost use Rattle.type_rules.specs.Options.{◌>?◌};
ghost use Rattle.hole_matcher.specs.HoleBindings.Bindings.{binding_of, behind};
ghost use Rattle.hole_matcher.specs.HoleBindings.Settings.{setting_in};
ghost use Rattle.hole_matcher.specs.Ways.Walks.{matched_opened, seat_of};
ghost use Rattle.hole_matching.specs.Matched.{matched, matched_all};
ghost use Rattle.hole_matching.specs.Matching.{Binding as Seen};
ghost use Rattle.hole_matching.specs.Matching.{Elsewhere, first_seat, next_seat};
ghost use Rattle.hole_matching.specs.Pattern.{Member, Unary, Cond, Braces, Designated, Strings, Named, likewise, more, no_more, same_head};
ghost use Rattle.hole_matching.specs.Subjects.{trees, trees_then};
ghost use Rattle.hole_matching.specs.Written.{pattern_of, patterns_of, patterns_then, primary_pattern, operation_pattern, initializer_pattern, part_pattern, one_part, two_parts, around_written, written_specs, spellings};
ghost use Rattle.objects.specs.Units.{facts_in};
ghost use Rattle.c_tree.specs.PathSubjects.Subjects.{Tree as TreeSubject};
ghost use Rattle.c_tree.specs.PathSubjects.Values.{subject_of};
ghost use Rattle.tree_comparison.specs.TreeLevels.Levels.{leaf_head, one_head, two_head, front_head, level_opened};

use crate::hole_bindings::{Binding, Setting, Taken, bind, take};
use crate::patterns::{hole_of, rest_hole};
use crate::seat::Seat;
use c_tree::{
    Initializer, Kind, Operation, Part, Primary, Specifier, Subject, Token, Tree, Trees, UnaryOp,
};
use tree_comparison::{
    Front, Leaf, Level, One, Two, are_written, inner, is_written_type, level_of, same_front,
    same_leaf, same_one, same_two, spelling, written_constant,
};

// Where the patterns behind the first one stand.
fn seat_behind(head: Front) -> Seat
    ensures { seat_of result ≡ next_seat (first_seat (front_head head)) }
{
    match head {
        Front::Call => Seat::Argument,
        Front::Offsetof(_) => Seat::Elsewhere,
    }
}

/// Goes on over a pattern and a subject.
#[cycle(walk)]
pub(crate) fn match_tree<'a>(
    setting: &Setting<'_, 'a>,
    pattern: &Tree,
    subject: Subject<'a>,
    into: &mut Binding<'a>,
) -> bool
    ensures { behind result (binding_of into.new) ≡ matched (setting_in setting.now) (pattern_of (view pattern.now)) (subject_of subject.entry) (binding_of into.old) }
{
    match hole_of(pattern) {
        Some(hole) => take(setting, hole, inner(subject), into),
        None => match_kind(
            setting,
            &pattern.kind,
            level_of(setting.unit, subject),
            into,
        ),
    }
}

// The same, of a pattern that is no hole.
#[cycle(walk)]
fn match_kind<'a>(
    setting: &Setting<'_, 'a>,
    kind: &Kind,
    level: Level<'a>,
    into: &mut Binding<'a>,
) -> bool
    ensures { behind result (binding_of into.new) ≡ matched_opened (setting_in setting.now) (pattern_of (kind_view kind.now)) (level_opened (facts_in setting.now.unit.now) level.entry) (binding_of into.old) }
{
    match kind {
        Kind::Primary(kind) => match_primary(setting, kind, level, into),
        Kind::Operation(kind) => match_operation(setting, kind, level, into),
        Kind::Initializer(kind) => match_initializer(setting, kind, level, into),
        Kind::Specifier(Specifier::TypeName { specs, declarator }) => {
            match_type(setting, specs, *declarator, level)
        }
        Kind::Part(kind) => match_part(setting, kind, level, into),
        _ => false,
    }
}

// A head without parts.
fn match_leaf(setting: &Setting, head: Leaf, level: Level) -> bool
    ensures { (b : Seen) → behind result b ≡ matched_opened (setting_in setting.now) (likewise (leaf_head (facts_in setting.now.unit.now) head.entry) no_more) (level_opened (facts_in setting.now.unit.now) level.entry) b }
{
    match level {
        Level::Leaf(other) => same_leaf(setting.unit, other, head),
        _ => false,
    }
}

// Whether a head is that of these string literals, by their spellings.
fn are_strings(head: Leaf, literals: &[Token]) -> bool
    ensures { (u : Facts) → result ≡ same_head (leaf_head u head.entry) (Strings (spellings (symbols_of literals.now))) }
{
    match head {
        Leaf::Strings(others) => are_written(others, literals),
        _ => false,
    }
}

// Strings (6.1.4).
fn match_strings(setting: &Setting, literals: &[Token], level: Level) -> bool
    ensures { (b : Seen) → behind result b ≡ matched_opened (setting_in setting.now) (likewise (Strings (spellings (symbols_of literals.now))) no_more) (level_opened (facts_in setting.now.unit.now) level.entry) b }
{
    match level {
        Level::Leaf(other) => are_strings(other, literals),
        _ => false,
    }
}

// Whether a head is that of a written type name.
fn is_type(setting: &Setting, head: Leaf, specs: &Tree, declarator: Option<&Tree>) -> bool
    ensures { result ≡ same_head (leaf_head (facts_in setting.now.unit.now) head.entry) (Named (around_written (maybe_view declarator.entry) (written_specs (view specs.now)))) }
{
    match head {
        Leaf::TypeName(ty) => is_written_type(setting.unit, &ty, specs, declarator),
        _ => false,
    }
}

// Type names (6.5.5).
fn match_type(setting: &Setting, specs: &Tree, declarator: Option<&Tree>, level: Level) -> bool
    ensures { (b : Seen) → behind result b ≡ matched_opened (setting_in setting.now) (likewise (Named (around_written (maybe_view declarator.entry) (written_specs (view specs.now)))) no_more) (level_opened (facts_in setting.now.unit.now) level.entry) b }
{
    match level {
        Level::Leaf(other) => is_type(setting, other, specs, declarator),
        _ => false,
    }
}

// Primary expressions (ISO 9899:1990, 6.3.1).
#[cycle(walk)]
fn match_primary<'a>(
    setting: &Setting<'_, 'a>,
    kind: &Primary,
    level: Level<'a>,
    into: &mut Binding<'a>,
) -> bool
    ensures { behind result (binding_of into.new) ≡ matched_opened (setting_in setting.now) (primary_pattern (primary_view kind.now)) (level_opened (facts_in setting.now.unit.now) level.entry) (binding_of into.old) }
{
    match kind {
        Primary::Ident { name } => match_leaf(setting, Leaf::Identifier(spelling(name)), level),
        Primary::Constant { token } => match_leaf(setting, written_constant(token), level),
        Primary::StrConst { literals } => match_strings(setting, literals, level),
        Primary::Paren { inner } => match_kind(setting, &inner.kind, level, into),
        Primary::VaArg { list, of } => match_two(setting, Two::VaArg, list, of, level, into),
        Primary::Offsetof { of, member, path } => {
            match_front(
                setting,
                Front::Offsetof(spelling(member)),
                of,
                path,
                level,
                into,
            )
        }
        Primary::Hole { .. } => false,
    }
}

// A head with one part.
#[cycle(walk)]
fn match_one<'a>(
    setting: &Setting<'_, 'a>,
    head: One,
    part: &Tree,
    level: Level<'a>,
    into: &mut Binding<'a>,
) -> bool
    ensures { behind result (binding_of into.new) ≡ matched_opened (setting_in setting.now) (likewise (one_head head) (one_part (pattern_of (view part.now)))) (level_opened (facts_in setting.now.unit.now) level.entry) (binding_of into.old) }
{
    match level {
        Level::One(other, other_part) => {
            same_one(other, head) && match_tree(setting, part, other_part, into)
        }
        _ => false,
    }
}

// Two patterns and two trees.
#[cycle(walk)]
fn match_both<'a>(
    setting: &Setting<'_, 'a>,
    left: &Tree,
    right: &Tree,
    other_left: &'a Tree<'a>,
    other_right: &'a Tree<'a>,
    into: &mut Binding<'a>,
) -> bool
    ensures { behind result (binding_of into.new) ≡ (matched (setting_in setting.now) (pattern_of (view left.now)) (TreeSubject (node_of other_left.now)) (binding_of into.old) >? matched (setting_in setting.now) (pattern_of (view right.now)) (TreeSubject (node_of other_right.now))) }
{
    match_tree(setting, left, Subject::Tree(other_left), into)
        && match_tree(setting, right, Subject::Tree(other_right), into)
}

// A head with two parts.
#[cycle(walk)]
fn match_two<'a>(
    setting: &Setting<'_, 'a>,
    head: Two,
    left: &Tree,
    right: &Tree,
    level: Level<'a>,
    into: &mut Binding<'a>,
) -> bool
    ensures { behind result (binding_of into.new) ≡ matched_opened (setting_in setting.now) (likewise (two_head head) (two_parts (pattern_of (view left.now)) (pattern_of (view right.now)))) (level_opened (facts_in setting.now.unit.now) level.entry) (binding_of into.old) }
{
    match level {
        Level::Two(other, other_left, other_right) => {
            same_two(other, head) && match_both(setting, left, right, other_left, other_right, into)
        }
        _ => false,
    }
}

// A pattern and a list of them, and a tree and a list.
#[cycle(walk)]
fn match_first<'a>(
    setting: &Setting<'_, 'a>,
    seat: Seat,
    first: &Tree,
    list: &Trees,
    other_first: &'a Tree<'a>,
    other_list: &Trees<'a>,
    into: &mut Binding<'a>,
) -> bool
    ensures { behind result (binding_of into.new) ≡ (matched (setting_in setting.now) (pattern_of (view first.now)) (TreeSubject (node_of other_first.now)) (binding_of into.old) >? matched_all (setting_in setting.now) (seat_of seat) (patterns_of (list_view list.now)) (trees (nodes_of other_list.now))) }
{
    match_tree(setting, first, Subject::Tree(other_first), into)
        && match_list(setting, seat, list, other_list, into)
}

// A head with one part and a list behind it, which is one of arguments in a call.
#[cycle(walk)]
fn match_front<'a>(
    setting: &Setting<'_, 'a>,
    head: Front,
    first: &Tree,
    list: &Trees,
    level: Level<'a>,
    into: &mut Binding<'a>,
) -> bool
    ensures { behind result (binding_of into.new) ≡ matched_opened (setting_in setting.now) (likewise (front_head head) (more (pattern_of (view first.now)) (patterns_of (list_view list.now)))) (level_opened (facts_in setting.now.unit.now) level.entry) (binding_of into.old) }
{
    match level {
        Level::Front(other, other_first, other_list) => {
            same_front(other, head)
                && match_first(
                    setting,
                    seat_behind(head),
                    first,
                    list,
                    other_first,
                    &other_list,
                    into,
                )
        }
        _ => false,
    }
}

// A member of what a pointer points to.
#[cycle(walk)]
fn match_member<'a>(
    setting: &Setting<'_, 'a>,
    member: u32,
    pointer: &Tree,
    level: Level<'a>,
    into: &mut Binding<'a>,
) -> bool
    ensures { behind result (binding_of into.new) ≡ matched_opened (setting_in setting.now) (likewise (Member member) (one_part (likewise (Unary unary.Deref) (one_part (pattern_of (view pointer.now)))))) (level_opened (facts_in setting.now.unit.now) level.entry) (binding_of into.old) }
{
    match level {
        Level::One(other, other_part) => {
            same_one(other, One::Member(member))
                && match_pointed(setting, pointer, other_part, into)
        }
        _ => false,
    }
}

// `condition ? then : otherwise`
#[cycle(walk)]
fn match_condition<'a>(
    setting: &Setting<'_, 'a>,
    condition: &Tree,
    then: &Tree,
    otherwise: &Tree,
    level: Level<'a>,
    into: &mut Binding<'a>,
) -> bool
    ensures { behind result (binding_of into.new) ≡ matched_opened (setting_in setting.now) (likewise Cond (more (pattern_of (view condition.now)) (two_parts (pattern_of (view then.now)) (pattern_of (view otherwise.now))))) (level_opened (facts_in setting.now.unit.now) level.entry) (binding_of into.old) }
{
    match level {
        Level::Cond(first, second, third) => {
            match_tree(setting, condition, Subject::Tree(first), into)
                && match_both(setting, then, otherwise, second, third, into)
        }
        _ => false,
    }
}

// A list in braces.
#[cycle(walk)]
fn match_braces<'a>(
    setting: &Setting<'_, 'a>,
    elements: &Trees,
    level: Level<'a>,
    into: &mut Binding<'a>,
) -> bool
    ensures { behind result (binding_of into.new) ≡ matched_opened (setting_in setting.now) (likewise Braces (patterns_of (list_view elements.now))) (level_opened (facts_in setting.now.unit.now) level.entry) (binding_of into.old) }
{
    match level {
        Level::Braces(others) => match_list(setting, Seat::Elsewhere, elements, &others, into),
        _ => false,
    }
}

// An initial value behind designators.
#[cycle(walk)]
fn match_designated<'a>(
    setting: &Setting<'_, 'a>,
    designators: &Trees,
    initial: &Tree,
    level: Level<'a>,
    into: &mut Binding<'a>,
) -> bool
    ensures { behind result (binding_of into.new) ≡ matched_opened (setting_in setting.now) (likewise Designated (patterns_then (list_view designators.now) (one_part (pattern_of (view initial.now))))) (level_opened (facts_in setting.now.unit.now) level.entry) (binding_of into.old) }
{
    match level {
        Level::Designated(others, other_initial) => {
            match_list_and_last(setting, designators, initial, &others, other_initial, into)
        }
        _ => false,
    }
}

// Operators on operands (6.3.2 to 6.3.17).
#[cycle(walk)]
fn match_operation<'a>(
    setting: &Setting<'_, 'a>,
    kind: &Operation,
    level: Level<'a>,
    into: &mut Binding<'a>,
) -> bool
    ensures { behind result (binding_of into.new) ≡ matched_opened (setting_in setting.now) (operation_pattern (operation_view kind.now)) (level_opened (facts_in setting.now.unit.now) level.entry) (binding_of into.old) }
{
    match kind {
        Operation::Index { array, index } => {
            match_two(setting, Two::Index, array, index, level, into)
        }
        Operation::Call {
            callee,
            arguments,
            ..
        } => match_front(setting, Front::Call, callee, arguments, level, into),
        Operation::Member { operand, member } => {
            match_one(setting, One::Member(spelling(member)), operand, level, into)
        }
        Operation::Arrow { operand, member } => {
            match_member(setting, spelling(member), operand, level, into)
        }
        Operation::CompoundLit { of, braces } => {
            match_two(setting, Two::CompoundLit, of, braces, level, into)
        }
        Operation::Unary { op, operand } => {
            match_one(setting, One::Unary(*op), operand, level, into)
        }
        Operation::SizeofType { of } => match_one(setting, One::SizeofType, of, level, into),
        Operation::Cast { to, operand } => {
            match_two(setting, Two::Cast, to, operand, level, into)
        }
        Operation::Binary { op, left, right } => {
            match_two(setting, Two::Binary(*op), left, right, level, into)
        }
        Operation::Cond {
            condition,
            then,
            otherwise,
        } => match_condition(setting, condition, then, otherwise, level, into),
        Operation::Assign { op, left, right } => {
            match_two(setting, Two::Assign(*op), left, right, level, into)
        }
    }
}

// `*pointer`, as `pointer->f` reads it.
#[cycle(walk)]
fn match_pointed<'a>(
    setting: &Setting<'_, 'a>,
    pointer: &Tree,
    subject: Subject<'a>,
    into: &mut Binding<'a>,
) -> bool
    ensures { behind result (binding_of into.new) ≡ matched (setting_in setting.now) (likewise (Unary unary.Deref) (one_part (pattern_of (view pointer.now)))) (subject_of subject.entry) (binding_of into.old) }
{
    let other = level_of(setting.unit, subject);
    match_one(setting, One::Unary(UnaryOp::Deref), pointer, other, into)
}

// Initializers (6.5.7).
#[cycle(walk)]
fn match_initializer<'a>(
    setting: &Setting<'_, 'a>,
    kind: &Initializer,
    level: Level<'a>,
    into: &mut Binding<'a>,
) -> bool
    ensures { behind result (binding_of into.new) ≡ matched_opened (setting_in setting.now) (initializer_pattern (initializer_view kind.now)) (level_opened (facts_in setting.now.unit.now) level.entry) (binding_of into.old) }
{
    match kind {
        Initializer::Init { .. } => false,
        Initializer::Braces { elements, .. } => match_braces(setting, elements, level, into),
        Initializer::Designated {
            designators,
            initial,
        } => match_designated(setting, designators, initial, level, into),
    }
}

// Designators.
#[cycle(walk)]
fn match_part<'a>(
    setting: &Setting<'_, 'a>,
    kind: &Part,
    level: Level<'a>,
    into: &mut Binding<'a>,
) -> bool
    ensures { behind result (binding_of into.new) ≡ matched_opened (setting_in setting.now) (part_pattern (part_view kind.now)) (level_opened (facts_in setting.now.unit.now) level.entry) (binding_of into.old) }
{
    match kind {
        Part::MemberDesignator { member } => {
            match_leaf(setting, Leaf::MemberDesignator(spelling(member)), level)
        }
        Part::IndexDesignator { index } => {
            match_one(setting, One::IndexDesignator, index, level, into)
        }
        _ => false,
    }
}

// The patterns of a list and the trees of another, one by one.
#[cycle(walk)]
fn match_list<'a>(
    setting: &Setting<'_, 'a>,
    seat: Seat,
    patterns: &Trees,
    others: &Trees<'a>,
    into: &mut Binding<'a>,
) -> bool
    ensures { behind result (binding_of into.new) ≡ matched_all (setting_in setting.now) (seat_of seat) (patterns_of (list_view patterns.now)) (trees (nodes_of others.now)) (binding_of into.old) }
{
    let all = patterns.all;
    let given = others.all;
    for i in 0..all.len() {
        if let Some(hole) = rest_hole(setting, seat, &all[i], i + 1 == all.len()) {
            return bind(setting.unit, hole, Taken::Many(&given[i..]), into);
        }
        if i >= given.len() {
            return false;
        }
        if !match_tree(setting, &all[i], Subject::Tree(&given[i]), into) {
            return false;
        }
    }
    all.len() == given.len()
}

// The same, with one more behind both lists.
#[cycle(walk)]
fn match_list_and_last<'a>(
    setting: &Setting<'_, 'a>,
    patterns: &Trees,
    last: &Tree,
    others: &Trees<'a>,
    other_last: &'a Tree<'a>,
    into: &mut Binding<'a>,
) -> bool
    ensures { behind result (binding_of into.new) ≡ matched_all (setting_in setting.now) Elsewhere (patterns_then (list_view patterns.now) (one_part (pattern_of (view last.now)))) (trees_then (nodes_of others.now) (TreeSubject (node_of other_last.now) ∷ [])) (binding_of into.old) }
{
    match_list(setting, Seat::Elsewhere, patterns, others, into)
        && match_tree(setting, last, Subject::Tree(other_last), into)
}
