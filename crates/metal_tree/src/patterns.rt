//! The patterns of a rule: what has to stand at an event, and what is asked of it.

use c_tree::Tree;

/// The pattern of a rule: it matches where one of its alternatives does.
#[derive(Clone, Copy)]
pub struct Pattern<'a> {
    pub alternatives: &'a [Alternative<'a>],
}

/// An alternative: it matches where all of its items do.
#[derive(Clone, Copy)]
pub struct Alternative<'a> {
    pub items: &'a [Item<'a>],
}

/// An item of an alternative.
#[derive(Clone, Copy)]
pub enum Item<'a> {
    /// A base pattern: an expression of C, whose holes are nodes of their own.
    Base(&'a Tree<'a>),
    /// A condition on what the base patterns took.
    Call(Callout),
    /// `$end_of_path$`: it stands at the end of a path, and asks nothing.
    EndOfPath,
}

/// What a callout asks.
#[derive(Clone, Copy, Debug, PartialEq, Eq)]
pub enum CalloutRow {
    /// `mc_is_const(h)`: whether the hole took a constant.
    IsConst,
    /// `mc_is_global(h)`: whether it took an object with static storage.
    IsGlobal,
    /// `mc_is_param(h)`: whether it took an object of a parameter.
    IsParam,
    /// `mc_is_local(h)`: whether it took an object of a local variable.
    IsLocal,
    /// `mc_name_is(h, "s")`: whether it took a name that is spelled so.
    NameIs,
    /// `mc_in_function("s")`: whether the event stands in a function of this name.
    InFunction,
    /// `0`
    NeverHolds,
    /// `1`
    AlwaysHolds,
}

/// A callout.
#[derive(Clone, Copy, Debug, PartialEq, Eq)]
pub struct Callout {
    /// Whether a `!` turns the answer round.
    pub negated: bool,
    pub row: CalloutRow,
    /// The number of the hole that it asks of, and 0 where it asks of none.
    pub hole: u8,
    /// The number of the name that is spelled like its text, and 0 where it has none.
    pub text: u32,
}
