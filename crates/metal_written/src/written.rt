//! The text of a checker as it is written: a type for each line of its grammar. No list that the grammar has as one or more is
//! empty.

ghost use Rattle.std.specs.Prelude.{◌≡◌, ◌<◌, length, true};
ghost use Rattle.metal_written.specs.TypeWords.{has_type_words};

use c_tree::{StructOrUnion, Token, Tree};

/// A string literal.
#[derive(Clone, Copy)]
pub struct Literal {
    /// Whether an `L` stands before it.
    pub wide: bool,
    /// The number of its whole spelling.
    pub name: u32,
}

/// A state, by name.
#[derive(Clone, Copy)]
pub enum StateName {
    /// `state`: a state of the machine.
    OfMachine { state: u32 },
    /// `variable.state`: a state of the object that the variable takes.
    OfVariable { variable: u32, state: u32 },
}

/// The type of a hole as it is written.
#[derive(Clone, Copy)]
pub enum WrittenType<'a> {
    /// A word of the language, as `any_pointer`.
    Kind {
        name: u32,
    },
    /// The words of a basic type, and so many stars.
    Basic {
        words: &'a [Token],
        stars: u32,
    },
    /// A structure or union, and so many stars.
    Tag {
        which: StructOrUnion,
        tag: u32,
        stars: u32,
    },
}

/// A declaration: names that are holes of one type.
#[derive(Clone, Copy)]
pub struct Declaration<'a> {
    /// The word `state`, where the holes are state variables.
    pub state: Option<u32>,
    /// The word `decl`.
    pub decl: u32,
    pub of: WrittenType<'a>,
    /// One or more names.
    pub names: &'a [u32],
    /// The number of tokens before the first name.
    pub before: u32,
    ghost some: { 0 < length names.now },
    ghost typed: { has_type_words of ≡ true },
}

/// The first argument of a callout.
#[derive(Clone, Copy)]
pub enum Argument {
    Name(u32),
    Text(Literal),
}

/// A callout without its `!`.
#[derive(Clone, Copy)]
pub enum WrittenCallout<'a> {
    /// `0` or `1`
    Digit {
        token: &'a Token,
    },
    /// A name with one or two arguments.
    Asked {
        name: u32,
        argument: Argument,
        text: Option<Literal>,
    },
}

/// An item of an alternative, as it is written.
#[derive(Clone, Copy)]
pub enum WrittenItem<'a> {
    /// `{ expression }`, where a `;` may stand behind the expression. Names of holes are names like others.
    Pattern {
        tree: &'a Tree<'a>,
        semicolon: bool,
    },
    /// `${ callout }`
    Callout {
        negated: bool,
        callout: WrittenCallout<'a>,
    },
    /// `$word$`
    Dollars {
        name: u32,
    },
}

/// An alternative: one item or more.
#[derive(Clone, Copy)]
pub struct WrittenAlternative<'a> {
    pub items: &'a [WrittenItem<'a>],
    ghost some: { 0 < length items.now },
}

/// The target of a rule, or one for each truth, behind the words `true` and `false`.
#[derive(Clone, Copy)]
pub enum Destination {
    To(StateName),
    Split {
        true_word: u32,
        on_true: StateName,
        false_word: u32,
        on_false: StateName,
    },
}

/// An argument of a message: `mc_identifier(name)`.
#[derive(Clone, Copy)]
pub struct Identifier {
    /// The word `mc_identifier`.
    pub word: u32,
    pub name: u32,
}

/// An action: `err(literals, arguments)`.
#[derive(Clone, Copy)]
pub struct WrittenAction<'a> {
    /// The word `err`.
    pub word: u32,
    /// One literal or more, which are one message.
    pub literals: &'a [Literal],
    pub arguments: &'a [Identifier],
    /// Whether a `;` ends it.
    pub semicolon: bool,
    ghost some: { 0 < length literals.now },
}

/// A rule as it is written.
#[derive(Clone, Copy)]
pub struct WrittenRule<'a> {
    /// One alternative or more.
    pub alternatives: &'a [WrittenAlternative<'a>],
    pub destination: Destination,
    pub action: Option<WrittenAction<'a>>,
    /// The number of its tokens.
    pub size: u32,
    ghost some: { 0 < length alternatives.now },
}

/// A section: one rule or more from one state.
#[derive(Clone, Copy)]
pub struct Section<'a> {
    pub source: StateName,
    pub rules: &'a [WrittenRule<'a>],
    ghost some: { 0 < length rules.now },
}

/// The content of a clause.
#[derive(Clone, Copy)]
pub enum Content<'a> {
    /// Nothing, in a machine that has neither a declaration nor a section.
    Nothing,
    Declares(Declaration<'a>),
    Rules(Section<'a>),
}

/// The head of a text, which stands in its first clause.
#[derive(Clone, Copy)]
pub struct Head {
    /// The word `sm`.
    pub word: u32,
    /// The name of the machine.
    pub name: u32,
}

/// A clause.
#[derive(Clone, Copy)]
pub struct Clause<'a> {
    pub head: Option<Head>,
    pub content: Content<'a>,
    /// Whether the machine's closing brace stands behind it.
    pub closing: bool,
    /// The number of its tokens.
    pub size: u32,
}
