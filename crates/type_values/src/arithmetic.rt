//! Arithmetic types (ISO 9899:1990, 6.1.2.5), and what becomes of them in operators (6.2.1).

ghost use Rattle.std.specs.Prelude.{◌≡◌, ◌-◌, cond};
ghost use Rattle.type_rules.specs.Arithmetic.{float_rank, is_floating, rank, is_unsigned, bits, to_unsigned, promote, joined, convert_integers, convert_floats, convert, holds};
ghost use Rattle.type_values.specs.Types.{arithmetic_of};

/// An arithmetic type. An enumeration has the type `int`.
#[derive(Clone, Copy, PartialEq, Eq)]
pub enum Arithmetic {
    /// `_Bool`
    Boolean,
    Char,
    SignedChar,
    UnsignedChar,
    Short,
    UnsignedShort,
    Int,
    UnsignedInt,
    Long,
    UnsignedLong,
    LongLong,
    UnsignedLongLong,
    /// `__int128`
    Int128,
    /// `unsigned __int128`
    UnsignedInt128,
    /// `_Float32`
    Float32,
    Float,
    /// `_Float32x`
    Float32x,
    /// `_Float64`
    Float64,
    Double,
    /// `_Float64x`
    Float64x,
    LongDouble,
    /// `_Float128`, also written `__float128`
    Float128,
}

impl Arithmetic {
    /// The order of the floating types, in which the later of two operands decides. It is 0 for an integer type.
    pub fn float_rank(self) -> u8
        ensures { result ≡ float_rank (arithmetic_of self) }
    {
        match self {
            Arithmetic::Float32 => 1,
            Arithmetic::Float => 2,
            Arithmetic::Float32x => 3,
            Arithmetic::Float64 => 4,
            Arithmetic::Double => 5,
            Arithmetic::Float64x => 6,
            Arithmetic::LongDouble => 7,
            Arithmetic::Float128 => 8,
            _ => 0,
        }
    }

    /// Whether it is a floating type.
    pub fn is_floating(self) -> bool
        ensures { result ≡ is_floating (arithmetic_of self) }
    {
        self.float_rank() > 0
    }

    /// The order of the integer types. A floating type stands above them.
    pub fn rank(self) -> u8
        ensures { result ≡ rank (arithmetic_of self) }
    {
        match self {
            Arithmetic::Boolean => 0,
            Arithmetic::Char | Arithmetic::SignedChar | Arithmetic::UnsignedChar => 1,
            Arithmetic::Short | Arithmetic::UnsignedShort => 2,
            Arithmetic::Int | Arithmetic::UnsignedInt => 3,
            Arithmetic::Long | Arithmetic::UnsignedLong => 4,
            Arithmetic::LongLong | Arithmetic::UnsignedLongLong => 5,
            Arithmetic::Int128 | Arithmetic::UnsignedInt128 => 6,
            _ => 7,
        }
    }

    /// Whether it is an unsigned integer type.
    pub fn is_unsigned(self) -> bool
        ensures { result ≡ is_unsigned (arithmetic_of self) }
    {
        match self {
            Arithmetic::Boolean
            | Arithmetic::UnsignedChar
            | Arithmetic::UnsignedShort
            | Arithmetic::UnsignedInt
            | Arithmetic::UnsignedLong
            | Arithmetic::UnsignedLongLong
            | Arithmetic::UnsignedInt128 => true,
            _ => false,
        }
    }

    /// The number of bits of an integer type. It is 0 for a floating type.
    pub fn bits(self) -> u8
        ensures { result ≡ bits (arithmetic_of self) }
    {
        match self {
            Arithmetic::Boolean => 1,
            Arithmetic::Char | Arithmetic::SignedChar | Arithmetic::UnsignedChar => 8,
            Arithmetic::Short | Arithmetic::UnsignedShort => 16,
            Arithmetic::Int | Arithmetic::UnsignedInt => 32,
            Arithmetic::Long
            | Arithmetic::UnsignedLong
            | Arithmetic::LongLong
            | Arithmetic::UnsignedLongLong => 64,
            Arithmetic::Int128 | Arithmetic::UnsignedInt128 => 128,
            _ => 0,
        }
    }

    /// The unsigned type of the same rank, of `int` and what ranks above it.
    fn to_unsigned(self) -> Arithmetic
        ensures { arithmetic_of result ≡ to_unsigned (arithmetic_of self) }
    {
        match self {
            Arithmetic::Int => Arithmetic::UnsignedInt,
            Arithmetic::Long => Arithmetic::UnsignedLong,
            Arithmetic::LongLong => Arithmetic::UnsignedLongLong,
            Arithmetic::Int128 => Arithmetic::UnsignedInt128,
            _ => self,
        }
    }

    /// The integral promotion (6.2.1.1): what ranks below `int` becomes `int`.
    pub fn promote(self) -> Arithmetic
        ensures { arithmetic_of result ≡ promote (arithmetic_of self) }
    {
        if self.rank() < Arithmetic::Int.rank() {
            Arithmetic::Int
        } else {
            self
        }
    }

    /// The type of two promoted operands, where this one has the higher or the same rank.
    fn joined(self, low: Arithmetic) -> Arithmetic
        ensures { arithmetic_of result ≡ joined (arithmetic_of self) (arithmetic_of low) }
    {
        if low.is_unsigned() && !self.is_unsigned() && low.bits() >= self.bits() {
            self.to_unsigned()
        } else {
            self
        }
    }

    /// The conversion of two promoted integer operands.
    fn convert_integers(self, other: Arithmetic) -> Arithmetic
        ensures { arithmetic_of result ≡ convert_integers (arithmetic_of self) (arithmetic_of other) }
    {
        if self.rank() < other.rank() {
            other.joined(self)
        } else {
            self.joined(other)
        }
    }

    /// The conversion of two operands, one of them floating.
    fn convert_floats(self, other: Arithmetic) -> Arithmetic
        ensures { arithmetic_of result ≡ convert_floats (arithmetic_of self) (arithmetic_of other) }
    {
        if self.float_rank() < other.float_rank() {
            other
        } else {
            self
        }
    }

    /// The usual arithmetic conversions (6.2.1.5).
    pub fn convert(self, other: Arithmetic) -> Arithmetic
        ensures { arithmetic_of result ≡ convert (arithmetic_of self) (arithmetic_of other) }
    {
        if !self.is_floating() && !other.is_floating() {
            self.promote().convert_integers(other.promote())
        } else {
            self.convert_floats(other)
        }
    }

    /// The number of bits of a value that is not below 0.
    fn value_bits(self) -> u8
        ensures { result ≡ bits (arithmetic_of self) - cond (is_unsigned (arithmetic_of self)) 0 1 }
    {
        let bits = self.bits();
        if self.is_unsigned() {
            bits
        } else {
            bits.saturating_sub(1)
        }
    }

    /// Whether the value is one of this integer type.
    pub fn holds(self, value: u64) -> bool
        ensures { result ≡ holds (arithmetic_of self) value }
    {
        let bits = self.value_bits();
        bits >= 64 || value < 1 << bits
    }
}
