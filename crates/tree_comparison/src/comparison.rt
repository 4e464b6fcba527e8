//! Whether what a hole takes is equal to what it took before: trees of one unit, as matching sees them.

ghost use Rattle.std.specs.Prelude.{◌≡◌, ◌&&◌};
ghost use Rattle.c_objects.specs.Facts.{Facts};
ghost use Rattle.c_tree.specs.Views.{node_of, nodes_of, nodes_in, primary_shape, operation_shape, initializer_shape, part_shape};
ghost use Rattle.c_tree.specs.declared.operator.AssignOp.TheVariants as assign;
ghost use Rattle.c_tree.specs.declared.operator.UnaryOp.TheVariants as unary;
ghost use Rattle.tree_comparison.specs.TreeLevels.Levels.{leaf_head, one_head, two_head, front_head, level_pattern};
ghost use Rattle.hole_matching.specs.ComparedSubjects.{compared, compared_node, compared_nodes, compared_then, compared_primary, compared_operation, compared_initializer, compared_part};
ghost use Rattle.hole_matching.specs.Pattern.{Member, Unary, Cond, Braces, Designated, other, likewise, no_more, more, same_pattern, same_patterns};
ghost use Rattle.hole_matching.specs.Written.{one_part, two_parts};
ghost use Rattle.objects.specs.Units.{facts_in};
ghost use Rattle.c_tree.specs.PathSubjects.Values.{subject_of};

use crate::same_heads::{same_front, same_leaf, same_one, same_two};
use crate::tree_levels::{Front, Leaf, Level, One, Two, constant, is_braced, level_of, type_of};
use c_tree::{
    AssignOp, Initializer, Kind, Operation, Part, Primary, Specifier, Subject, Tree, Trees, UnaryOp,
};
use hole_matching::compared_level_by_level;
use typed_unit::TypedUnit;

// The level that a subject is compared by.
#[tactic(auto, using(crate::proofs::ComparedLevels::opened_compared))]
fn seen<'a>(unit: &TypedUnit<'a>, subject: Subject<'a>) -> Level<'a>
    ensures { level_pattern (facts_in unit.now) result ≡ compared (facts_in unit.now) (subject_of subject.entry) }
{
    compared_level_by_level();
    level_of(unit, subject)
}

// Whether a level has this head, and no parts.
fn is_leaf(unit: &TypedUnit, head: Leaf, level: Level) -> bool
    ensures { result ≡ same_pattern (likewise (leaf_head (facts_in unit.now) head.entry) no_more) (level_pattern (facts_in unit.now) level.entry) }
{
    match level {
        Level::Leaf(other) => same_leaf(unit, head, other),
        _ => false,
    }
}

// Whether no pattern matches what has this level.
fn is_other(level: Level) -> bool
    ensures { (u : Facts) → result ≡ same_pattern other (level_pattern u level.entry) }
{
    matches!(level, Level::Other)
}

// Whether a tree is equal to a subject.
#[cycle(same)]
fn same_tree<'a>(unit: &TypedUnit<'a>, tree: &Tree<'a>, subject: Subject<'a>) -> bool
    ensures { result ≡ same_pattern (compared_node (facts_in unit.now) (node_of tree.now)) (compared (facts_in unit.now) (subject_of subject.entry)) }
{
    match &tree.kind {
        Kind::Primary(kind) => same_primary(unit, kind, subject),
        Kind::Operation(kind) => same_operation(unit, kind, seen(unit, subject)),
        Kind::Initializer(kind) => same_initializer(unit, kind, seen(unit, subject)),
        Kind::Specifier(Specifier::TypeName { .. }) => {
            is_leaf(
                unit,
                Leaf::TypeName(type_of(unit, tree)),
                seen(unit, subject),
            )
        }
        Kind::Part(kind) => same_part(unit, kind, seen(unit, subject)),
        _ => is_other(seen(unit, subject)),
    }
}

// Primary expressions (ISO 9899:1990, 6.3.1).
#[cycle(same)]
fn same_primary<'a>(unit: &TypedUnit<'a>, kind: &Primary<'a>, subject: Subject<'a>) -> bool
    ensures { result ≡ same_pattern (compared_primary (facts_in unit.now) (primary_shape kind.now)) (compared (facts_in unit.now) (subject_of subject.entry)) }
{
    match kind {
        Primary::Paren { inner } => same_tree(unit, inner, subject),
        Primary::Ident { name } => {
            is_leaf(unit, Leaf::Identifier(name.name), seen(unit, subject))
        }
        Primary::Constant { token } => is_leaf(unit, constant(token), seen(unit, subject)),
        Primary::StrConst { literals } => {
            is_leaf(unit, Leaf::Strings(literals), seen(unit, subject))
        }
        Primary::VaArg { list, of } => { have_two(unit, Two::VaArg, list, of, seen(unit, subject)) }
        Primary::Offsetof { of, member, path } => {
            let head = Front::Offsetof(member.name);
            has_front(unit, head, of, path, seen(unit, subject))
        }
        Primary::Hole { .. } => is_other(seen(unit, subject)),
    }
}

// Whether a level has this head, and one part that is equal.
#[cycle(same)]
fn has_one<'a>(unit: &TypedUnit<'a>, head: One, part: &Tree<'a>, level: Level<'a>) -> bool
    ensures { result ≡ same_pattern (likewise (one_head head) (one_part (compared_node (facts_in unit.now) (node_of part.now)))) (level_pattern (facts_in unit.now) level.entry) }
{
    match level {
        Level::One(other, other_part) => same_one(head, other) && same_tree(unit, part, other_part),
        _ => false,
    }
}

// Whether a level has this head, and two parts that are equal.
#[cycle(same)]
fn have_two<'a>(
    unit: &TypedUnit<'a>,
    head: Two,
    left: &Tree<'a>,
    right: &Tree<'a>,
    level: Level<'a>,
) -> bool
    ensures { result ≡ same_pattern (likewise (two_head head) (two_parts (compared_node (facts_in unit.now) (node_of left.now)) (compared_node (facts_in unit.now) (node_of right.now)))) (level_pattern (facts_in unit.now) level.entry) }
{
    match level {
        Level::Two(other, other_left, other_right) => {
            same_two(head, other)
                && same_tree(unit, left, Subject::Tree(other_left))
                && same_tree(unit, right, Subject::Tree(other_right))
        }
        _ => false,
    }
}

// Whether a tree and a list behind it are equal to others.
#[cycle(same)]
fn are_front<'a>(
    unit: &TypedUnit<'a>,
    first: &Tree<'a>,
    list: &Trees<'a>,
    other_first: &'a Tree<'a>,
    other_list: &Trees<'a>,
) -> bool
    ensures { result ≡ (same_pattern (compared_node (facts_in unit.now) (node_of first.now)) (compared_node (facts_in unit.now) (node_of other_first.now)) && same_patterns (compared_nodes (facts_in unit.now) (nodes_of list.now)) (compared_nodes (facts_in unit.now) (nodes_of other_list.now))) }
{
    same_tree(unit, first, Subject::Tree(other_first)) && same_list(unit, list, other_list)
}

// Whether a level has this head, and parts that are equal: one, and a list behind it.
#[cycle(same)]
fn has_front<'a>(
    unit: &TypedUnit<'a>,
    head: Front,
    first: &Tree<'a>,
    list: &Trees<'a>,
    level: Level<'a>,
) -> bool
    ensures { result ≡ same_pattern (likewise (front_head head) (more (compared_node (facts_in unit.now) (node_of first.now)) (compared_nodes (facts_in unit.now) (nodes_of list.now)))) (level_pattern (facts_in unit.now) level.entry) }
{
    match level {
        Level::Front(other, other_first, other_list) => {
            same_front(head, other) && are_front(unit, first, list, other_first, &other_list)
        }
        _ => false,
    }
}

// Whether a level is a member of what a pointer points to.
#[cycle(same)]
fn has_pointed<'a>(unit: &TypedUnit<'a>, member: u32, pointer: &Tree<'a>, level: Level<'a>) -> bool
    ensures { result ≡ same_pattern (likewise (Member member) (one_part (likewise (Unary unary.Deref) (one_part (compared_node (facts_in unit.now) (node_of pointer.now)))))) (level_pattern (facts_in unit.now) level.entry) }
{
    match level {
        Level::One(other, other_part) => {
            same_one(One::Member(member), other) && is_pointed_to(unit, pointer, other_part)
        }
        _ => false,
    }
}

// Whether a level is a conditional expression with equal parts.
#[cycle(same)]
fn has_three<'a>(
    unit: &TypedUnit<'a>,
    condition: &Tree<'a>,
    then: &Tree<'a>,
    otherwise: &Tree<'a>,
    level: Level<'a>,
) -> bool
    ensures { result ≡ same_pattern (likewise Cond (more (compared_node (facts_in unit.now) (node_of condition.now)) (two_parts (compared_node (facts_in unit.now) (node_of then.now)) (compared_node (facts_in unit.now) (node_of otherwise.now))))) (level_pattern (facts_in unit.now) level.entry) }
{
    match level {
        Level::Cond(first, second, third) => {
            same_tree(unit, condition, Subject::Tree(first))
                && same_tree(unit, then, Subject::Tree(second))
                && same_tree(unit, otherwise, Subject::Tree(third))
        }
        _ => false,
    }
}

// Whether a level is a list in braces with equal elements.
#[cycle(same)]
fn has_braces<'a>(unit: &TypedUnit<'a>, elements: &Trees<'a>, level: Level<'a>) -> bool
    ensures { result ≡ same_pattern (likewise Braces (compared_nodes (facts_in unit.now) (nodes_of elements.now))) (level_pattern (facts_in unit.now) level.entry) }
{
    match level {
        Level::Braces(others) => same_list(unit, elements, &others),
        _ => false,
    }
}

// Whether a level is an initial value behind designators, with equal parts.
#[cycle(same)]
fn is_designated<'a>(
    unit: &TypedUnit<'a>,
    designators: &Trees<'a>,
    initial: &Tree<'a>,
    level: Level<'a>,
) -> bool
    ensures { result ≡ same_pattern (likewise Designated (compared_then (facts_in unit.now) (nodes_of designators.now) (one_part (compared_node (facts_in unit.now) (node_of initial.now))))) (level_pattern (facts_in unit.now) level.entry) }
{
    match level {
        Level::Designated(others, other_initial) => {
            same_list_and_last(unit, designators, initial, &others, other_initial)
        }
        _ => false,
    }
}

// Operators on operands (6.3.2 to 6.3.17).
#[cycle(same)]
fn same_operation<'a>(unit: &TypedUnit<'a>, kind: &Operation<'a>, level: Level<'a>) -> bool
    ensures { result ≡ same_pattern (compared_operation (facts_in unit.now) (operation_shape kind.now)) (level_pattern (facts_in unit.now) level.entry) }
{
    match kind {
        Operation::Index { array, index } => have_two(unit, Two::Index, array, index, level),
        Operation::Call {
            callee,
            arguments,
            ..
        } => has_front(unit, Front::Call, callee, arguments, level),
        Operation::Member { operand, member } => {
            has_one(unit, One::Member(member.name), operand, level)
        }
        Operation::Arrow { operand, member } => has_pointed(unit, member.name, operand, level),
        Operation::CompoundLit { of, braces } => {
            have_two(unit, Two::CompoundLit, of, braces, level)
        }
        Operation::Unary { op, operand } => has_one(unit, One::Unary(*op), operand, level),
        Operation::SizeofType { of } => has_one(unit, One::SizeofType, of, level),
        Operation::Cast { to, operand } => have_two(unit, Two::Cast, to, operand, level),
        Operation::Binary { op, left, right } => {
            have_two(unit, Two::Binary(*op), left, right, level)
        }
        Operation::Cond {
            condition,
            then,
            otherwise,
        } => has_three(unit, condition, then, otherwise, level),
        Operation::Assign { op, left, right } => {
            have_two(unit, Two::Assign(*op), left, right, level)
        }
    }
}

// Whether a subject is `*pointer`.
#[cycle(same)]
fn is_pointed_to<'a>(unit: &TypedUnit<'a>, pointer: &Tree<'a>, subject: Subject<'a>) -> bool
    ensures { result ≡ same_pattern (likewise (Unary unary.Deref) (one_part (compared_node (facts_in unit.now) (node_of pointer.now)))) (compared (facts_in unit.now) (subject_of subject.entry)) }
{
    has_one(
        unit,
        One::Unary(UnaryOp::Deref),
        pointer,
        seen(unit, subject),
    )
}

// Initializers (6.5.7).
#[cycle(same)]
fn same_initializer<'a>(unit: &TypedUnit<'a>, kind: &Initializer<'a>, level: Level<'a>) -> bool
    ensures { result ≡ same_pattern (compared_initializer (facts_in unit.now) (initializer_shape kind.now)) (level_pattern (facts_in unit.now) level.entry) }
{
    match kind {
        Initializer::Init { name, initial, .. } => {
            if is_braced(initial) {
                is_other(level)
            } else {
                have_two(unit, Two::Assign(AssignOp::Plain), name, initial, level)
            }
        }
        Initializer::Braces { elements, .. } => has_braces(unit, elements, level),
        Initializer::Designated {
            designators,
            initial,
        } => is_designated(unit, designators, initial, level),
    }
}

// Designators.
#[cycle(same)]
fn same_part<'a>(unit: &TypedUnit<'a>, kind: &Part<'a>, level: Level<'a>) -> bool
    ensures { result ≡ same_pattern (compared_part (facts_in unit.now) (part_shape kind.now)) (level_pattern (facts_in unit.now) level.entry) }
{
    match kind {
        Part::MemberDesignator { member } => {
            is_leaf(unit, Leaf::MemberDesignator(member.name), level)
        }
        Part::IndexDesignator { index } => has_one(unit, One::IndexDesignator, index, level),
        _ => is_other(level),
    }
}

// Whether trees are equal one by one.
#[cycle(same)]
fn same_list<'a>(unit: &TypedUnit<'a>, left: &Trees<'a>, right: &Trees<'a>) -> bool
    ensures { result ≡ same_patterns (compared_nodes (facts_in unit.now) (nodes_of left.now)) (compared_nodes (facts_in unit.now) (nodes_of right.now)) }
{
    let all = left.all;
    let others = right.all;
    if all.len() != others.len() {
        return false;
    }
    for i in 0..all.len() {
        if !same_tree(unit, &all[i], Subject::Tree(&others[i])) {
            return false;
        }
    }
    true
}

// Whether trees are equal one by one, and those behind them.
#[cycle(same)]
fn same_list_and_last<'a>(
    unit: &TypedUnit<'a>,
    left: &Trees<'a>,
    last: &Tree<'a>,
    right: &Trees<'a>,
    other_last: &'a Tree<'a>,
) -> bool
    ensures { result ≡ same_patterns (compared_then (facts_in unit.now) (nodes_of left.now) (one_part (compared_node (facts_in unit.now) (node_of last.now)))) (compared_then (facts_in unit.now) (nodes_of right.now) (one_part (compared_node (facts_in unit.now) (node_of other_last.now)))) }
{
    same_list(unit, left, right) && same_tree(unit, last, Subject::Tree(other_last))
}

/// Whether two subjects are equal.
pub fn same_subject<'a>(unit: &TypedUnit<'a>, left: Subject<'a>, right: Subject<'a>) -> bool
    ensures { result ≡ same_pattern (compared (facts_in unit.now) (subject_of left.entry)) (compared (facts_in unit.now) (subject_of right.entry)) }
{
    match left {
        Subject::Tree(tree) => same_tree(unit, tree, right),
        Subject::DerefOf(pointer) => is_pointed_to(unit, pointer, right),
    }
}

/// Whether lists of arguments are equal one by one.
pub fn same_arguments<'a>(unit: &TypedUnit<'a>, left: &'a [Tree<'a>], right: &'a [Tree<'a>]) -> bool
    ensures { result ≡ same_patterns (compared_nodes (facts_in unit.now) (nodes_in left.now)) (compared_nodes (facts_in unit.now) (nodes_in right.now)) }
{
    same_list(unit, &Trees { all: left }, &Trees { all: right })
}
