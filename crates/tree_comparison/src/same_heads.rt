//! Whether heads are the same.

ghost use Rattle.std.specs.Prelude.{◌≡◌};
ghost use Rattle.hole_matching.specs.Pattern.{same_head, same_names};
ghost use Rattle.hole_matching.specs.Subjects.{names_of};
ghost use Rattle.objects.specs.Units.{facts_in};
ghost use Rattle.tree_comparison.specs.TreeLevels.Levels.{leaf_head, one_head, two_head, front_head};

use crate::matched_types::same_type;
use crate::tree_levels::{Front, Leaf, One, Two};
use c_tree::Token;
use typed_unit::TypedUnit;

/// Whether tokens are spelled alike one by one.
pub fn same_spellings(left: &[Token], right: &[Token]) -> bool
    ensures { result ≡ same_names (names_of left.now) (names_of right.now) }
{
    match left {
        [] => right.is_empty(),
        [first, rest @ ..] => match right {
            [] => false,
            [other, others @ ..] => first.name == other.name && same_spellings(rest, others),
        },
    }
}

/// Whether two heads without parts are the same.
pub fn same_leaf(unit: &TypedUnit, left: Leaf, right: Leaf) -> bool
    ensures { result ≡ same_head (leaf_head (facts_in unit.now) left.entry) (leaf_head (facts_in unit.now) right.entry) }
{
    match left {
        Leaf::Identifier(name) => matches!(right, Leaf::Identifier(other) if name == other),
        Leaf::Integer(value) => matches!(right, Leaf::Integer(other) if value == other),
        Leaf::Spelled(name) => matches!(right, Leaf::Spelled(other) if name == other),
        Leaf::Strings(literals) => match right {
            Leaf::Strings(others) => same_spellings(literals, others),
            _ => false,
        },
        Leaf::TypeName(ty) => match right {
            Leaf::TypeName(other) => same_type(unit, &ty, &other),
            _ => false,
        },
        Leaf::MemberDesignator(name) => {
            matches!(right, Leaf::MemberDesignator(other) if name == other)
        }
    }
}

/// Whether two heads with one part are the same.
pub fn same_one(left: One, right: One) -> bool
    ensures { result ≡ same_head (one_head left) (one_head right) }
{
    match left {
        One::Member(name) => matches!(right, One::Member(other) if name == other),
        One::Unary(op) => match right {
            One::Unary(other) => op as u8 == other as u8,
            _ => false,
        },
        One::SizeofType => matches!(right, One::SizeofType),
        One::IndexDesignator => matches!(right, One::IndexDesignator),
    }
}

/// Whether two heads with two parts are the same.
pub fn same_two(left: Two, right: Two) -> bool
    ensures { result ≡ same_head (two_head left) (two_head right) }
{
    match left {
        Two::VaArg => matches!(right, Two::VaArg),
        Two::Index => matches!(right, Two::Index),
        Two::CompoundLit => matches!(right, Two::CompoundLit),
        Two::Cast => matches!(right, Two::Cast),
        Two::Binary(op) => match right {
            Two::Binary(other) => op as u8 == other as u8,
            _ => false,
        },
        Two::Assign(op) => match right {
            Two::Assign(other) => op as u8 == other as u8,
            _ => false,
        },
    }
}

/// Whether two heads with one part and a list are the same.
pub fn same_front(left: Front, right: Front) -> bool
    ensures { result ≡ same_head (front_head left) (front_head right) }
{
    match left {
        Front::Call => matches!(right, Front::Call),
        Front::Offsetof(name) => matches!(right, Front::Offsetof(other) if name == other),
    }
}
