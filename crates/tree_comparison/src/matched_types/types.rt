//! Types as matching compares them: structures and unions by word and tag.

ghost use Rattle.std.specs.Prelude.{◌≡◌};
ghost use Rattle.type_values.specs.Types.{ctype_of};
ghost use Rattle.hole_matching.specs.MatchedTypes.{matched_type, same_type, same_tag};
ghost use Rattle.objects.specs.Units.{facts_in};

use type_values::Ty;
use typed_unit::TypedUnit;

/// Whether two types of a unit are the same, or structures or unions of one tag. Two without tags count as one.
pub fn same_type(unit: &TypedUnit, left: &Ty, right: &Ty) -> bool
    ensures { result ≡ same_type (matched_type (facts_in unit.now) (ctype_of left.now)) (matched_type (facts_in unit.now) (ctype_of right.now)) }
{
    match left {
        Ty::Void => matches!(right, Ty::Void),
        Ty::Arith(kind) => match right {
            Ty::Arith(other) => *kind as u8 == *other as u8,
            _ => false,
        },
        Ty::VaList => matches!(right, Ty::VaList),
        Ty::Pointer(to) => match right {
            Ty::Pointer(other) => same_type(unit, to, other),
            _ => false,
        },
        Ty::Array(of) => match right {
            Ty::Array(other) => same_type(unit, of, other),
            _ => false,
        },
        Ty::Func(gives) => match right {
            Ty::Func(other) => same_type(unit, gives, other),
            _ => false,
        },
        Ty::Struct(_) => match right {
            Ty::Struct(_) => same_tag(unit.tag(left), unit.tag(right)),
            _ => false,
        },
        Ty::Union(_) => match right {
            Ty::Union(_) => same_tag(unit.tag(left), unit.tag(right)),
            _ => false,
        },
    }
}

/// Whether two tags are the same, or both are missing.
pub(crate) fn same_tag(left: Option<u32>, right: Option<u32>) -> bool
    ensures { result ≡ same_tag left right }
{
    match left {
        None => right.is_none(),
        Some(name) => match right {
            Some(other) => name == other,
            None => false,
        },
    }
}
