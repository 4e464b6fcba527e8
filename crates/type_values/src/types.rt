//! Types (ISO 9899:1990, 6.1.2.5), without qualifiers, lengths of arrays and types of parameters.

ghost use Rattle.std.specs.Prelude.{◌≡◌, IfOk, true, ◌↔◌};
ghost use Rattle.std.specs.Option.{option_map};
ghost use Rattle.type_rules.specs.Types.{Pointer, Array, Func, arithmetic, is_arithmetic, is_integer, is_function, pointed, element, result, called, promoted, moved, adjusted};
ghost use Rattle.type_values.specs.Types.{arithmetic_of, ctype_of};

use crate::arithmetic::Arithmetic;
use c_tree::Arena;
use std::alloc::AllocError;

/// A type. The number of a structure or union counts those that a unit declares, in order.
#[cycle(ty)]
#[derive(Clone, Copy)]
pub enum Ty<'a> {
    Void,
    Arith(Arithmetic),
    /// `__builtin_va_list`
    VaList,
    /// A pointer to this type.
    Pointer(&'a Ty<'a>),
    /// An array of elements of this type.
    Array(&'a Ty<'a>),
    /// A function with a result of this type.
    Func(&'a Ty<'a>),
    Struct(u32),
    Union(u32),
}

impl<'a> Ty<'a> {
    /// The kind of an arithmetic type.
    pub fn arithmetic(self) -> Option<Arithmetic>
        ensures { option_map arithmetic_of result ≡ arithmetic (ctype_of self.entry) }
    {
        match self {
            Ty::Arith(kind) => Some(kind),
            _ => None,
        }
    }

    pub fn is_arithmetic(self) -> bool
        ensures { result ≡ is_arithmetic (ctype_of self.entry) }
    {
        match self {
            Ty::Arith(_) => true,
            _ => false,
        }
    }

    pub fn is_integer(self) -> bool
        ensures { result ≡ is_integer (ctype_of self.entry) }
    {
        match self {
            Ty::Arith(kind) => !kind.is_floating(),
            _ => false,
        }
    }

    pub fn is_function(self) -> bool
        ensures { result ≡ is_function (ctype_of self.entry) }
    {
        match self {
            Ty::Func(_) => true,
            _ => false,
        }
    }

    /// What `*x` is, where this is the type of `x` (6.3.3.2).
    pub fn pointed(self) -> Option<Ty<'a>>
        ensures { option_map ctype_of result ≡ pointed (ctype_of self.entry) }
    {
        match self {
            Ty::Pointer(to) => Some(*to),
            Ty::Array(of) => Some(*of),
            Ty::Func(_) => Some(self),
            _ => None,
        }
    }

    /// What a pointer points to, or an array's element.
    pub fn element(self) -> Option<&'a Ty<'a>>
        ensures { option_map (λ t. ctype_of t.now) result ≡ element (ctype_of self.entry) }
    {
        match self {
            Ty::Pointer(to) => Some(to),
            Ty::Array(of) => Some(of),
            _ => None,
        }
    }

    /// The result of a function or of a function pointed to (6.3.2.2).
    pub fn called(self) -> Option<Ty<'a>>
        ensures { option_map ctype_of result ≡ called (ctype_of self.entry) }
    {
        match self {
            Ty::Func(gives) => Some(*gives),
            Ty::Pointer(to) => match to {
                Ty::Func(gives) => Some(**gives),
                _ => None,
            },
            _ => None,
        }
    }

    /// A promoted operand. What has no arithmetic type counts as `int`.
    pub fn promoted(self) -> Ty<'a>
        ensures { ctype_of result ≡ promoted (ctype_of self.entry) }
    {
        match self {
            Ty::Arith(kind) => Ty::Arith(kind.promote()),
            _ => Ty::Arith(Arithmetic::Int),
        }
    }

    /// A pointer to this type.
    pub fn pointer_to(self, arena: &'a Arena) -> Result<Ty<'a>, AllocError>
        ensures { IfOk result (λ t. ctype_of t ≡ Pointer (ctype_of self.entry)) }
    {
        Ok(Ty::Pointer(arena.try_alloc(self)?))
    }

    /// An array of elements of this type.
    pub fn array_of(self, arena: &'a Arena) -> Result<Ty<'a>, AllocError>
        ensures { IfOk result (λ t. ctype_of t ≡ Array (ctype_of self.entry)) }
    {
        Ok(Ty::Array(arena.try_alloc(self)?))
    }

    /// A function that gives this type.
    pub fn function_giving(self, arena: &'a Arena) -> Result<Ty<'a>, AllocError>
        ensures { IfOk result (λ t. ctype_of t ≡ Func (ctype_of self.entry)) }
    {
        Ok(Ty::Func(arena.try_alloc(self)?))
    }

    /// A parameter's type as the function sees it (6.5.4.3, 6.7.1).
    pub fn adjusted(self, arena: &'a Arena) -> Result<Ty<'a>, AllocError>
        ensures { IfOk result (λ t. ctype_of t ≡ adjusted (ctype_of self.entry)) }
    {
        match self {
            Ty::Array(of) => Ok(Ty::Pointer(of)),
            Ty::Func(_) => self.pointer_to(arena),
            _ => Ok(self),
        }
    }
}

/// Whether two types are the same.
pub fn same_type(left: &Ty, right: &Ty) -> bool
    ensures { (result ≡ true) ↔ (ctype_of left.now ≡ ctype_of right.now) }
{
    match left {
        Ty::Void => matches!(right, Ty::Void),
        Ty::Arith(kind) => match right {
            Ty::Arith(other) => *kind == *other,
            _ => false,
        },
        Ty::VaList => matches!(right, Ty::VaList),
        Ty::Pointer(to) => match right {
            Ty::Pointer(other) => same_type(to, other),
            _ => false,
        },
        Ty::Array(of) => match right {
            Ty::Array(other) => same_type(of, other),
            _ => false,
        },
        Ty::Func(gives) => match right {
            Ty::Func(other) => same_type(gives, other),
            _ => false,
        },
        Ty::Struct(number) => match right {
            Ty::Struct(other) => *number == *other,
            _ => false,
        },
        Ty::Union(number) => match right {
            Ty::Union(other) => *number == *other,
            _ => false,
        },
    }
}
