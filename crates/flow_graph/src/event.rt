//! What happens in a function, as far as a checker sees it.

use c_tree::{Place, Subject, Tree};

/// A variable of a block with automatic storage (ISO 9899:1990, 6.1.2.4). A parameter is none.
#[derive(Clone, Copy, Debug, PartialEq, Eq)]
pub struct Variable {
    /// The place of the declared name.
    pub place: Place,
    /// The number of the name.
    pub name: u32,
}

/// An event of a function.
#[derive(Clone, Copy)]
pub enum Event<'a> {
    /// An expression, or the initializer of a name, has been evaluated, and what it consists of before (ISO 9899:1990, 6.3,
    /// 6.5.7).
    Node(Subject<'a>),
    /// The declaration of a variable has been reached (6.1.2.4, 6.6.2).
    Declare(Variable),
    /// A condition has come out as this truth: that of a statement (6.6.4, 6.6.5) or the first operand of an operator that
    /// decides whether another one is evaluated (6.3.13 to 6.3.15). It stands behind the condition's own node.
    Branch(&'a Tree<'a>, bool),
    /// The function ends: at a `return` (6.6.6.4) or at the closing brace of its body (6.7.1).
    Exit {
        /// The place of the function's name, where it is defined.
        function: Place,
        /// The place of the `return` or of the brace.
        place: Place,
    },
}
