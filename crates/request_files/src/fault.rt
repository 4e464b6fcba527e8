//! Why a file is refused, and where.

ghost use Rattle.std.specs.Prelude.{◌≡◌};
ghost use Rattle.request_files.specs.Faults.{fault_name};

/// A fault of a file. Its name stands in the line of the refusal. Of several faults of a file the first one is told: in the order of
/// the text, but for those of the rules of checkers, which have an order of their own.
#[derive(Clone, Copy, Debug, PartialEq, Eq)]
pub enum Fault {
    /// The file has more bytes than one file, or all files together, may have.
    TooLarge,
    /// No token begins with a byte.
    BadByte,
    /// A literal or a comment isn't closed, or a character constant is empty.
    OpenText,
    /// A number is no constant.
    BadNumber,
    /// A line that begins with `#` is no marker.
    BadMarker,
    /// No declaration or function is complete there (ISO 9899:1990, 6.7); in a checker, a clause is none of the language. A clause is
    /// a declaration, or a section with its rules.
    Syntax,
    /// A name isn't in scope (6.3.1).
    Undeclared,
    /// No member of the structure or union has the name (6.3.2.3).
    NoField,
    /// A name or a tag is declared again where it may not be (6.5, 6.1.2.3, 6.5.2.3).
    Redeclared,
    /// An operand that has to be a pointer or an array isn't one (6.3.2.1, 6.3.2.3, 6.3.3.2).
    NotPointer,
    /// The operand of `.` is no complete structure or union (6.3.2.3).
    NotStruct,
    /// What is called is neither a function nor a pointer to one (6.3.2.2).
    NotFunction,
    /// An operand that has to be an lvalue isn't one (6.3.2.4, 6.3.3.1, 6.3.3.2, 6.3.16).
    NotLvalue,
    /// A checker has more than 8 state variables, 16 holes or 1000 rules.
    TooMany,
    /// A name of a checker is declared a second time.
    Twice,
    /// A callout is none of the language, or has other arguments.
    UnknownCallout,
    /// A rule names two state variables.
    TwoVariables,
    /// A rule splits and has a message, or stands at the end of a path, or its targets are of two kinds.
    BadSplit,
    /// A rule has a source or a target that doesn't fit.
    BadSource,
    /// A rule asks in an alternative of what no pattern there binds.
    VariableMissing,
    /// A rule's message is none for its arguments.
    BadFormat,
    /// A function is defined a second time (6.7).
    DuplicateFunction,
}

impl Fault {
    /// The name by which a file is refused.
    pub fn name(self) -> &'static str
        ensures { result.now ≡ fault_name self }
    {
        match self {
            Fault::TooLarge => "TooLarge",
            Fault::BadByte => "BadByte",
            Fault::OpenText => "OpenText",
            Fault::BadNumber => "BadNumber",
            Fault::BadMarker => "BadMarker",
            Fault::Syntax => "Syntax",
            Fault::Undeclared => "Undeclared",
            Fault::NoField => "NoField",
            Fault::Redeclared => "Redeclared",
            Fault::NotPointer => "NotPointer",
            Fault::NotStruct => "NotStruct",
            Fault::NotFunction => "NotFunction",
            Fault::NotLvalue => "NotLvalue",
            Fault::TooMany => "TooMany",
            Fault::Twice => "Twice",
            Fault::UnknownCallout => "UnknownCallout",
            Fault::TwoVariables => "TwoVariables",
            Fault::BadSplit => "BadSplit",
            Fault::BadSource => "BadSource",
            Fault::VariableMissing => "VariableMissing",
            Fault::BadFormat => "BadFormat",
            Fault::DuplicateFunction => "DuplicateFunction",
        }
    }
}

/// A fault, and where it stands.
#[derive(Drop)]
pub struct LocatedFault {
    pub fault: Fault,
    /// The presumed file: the word on the command line, unless a marker names another.
    pub file: Vec<u8>,
    /// The presumed line.
    pub line: u32,
}
