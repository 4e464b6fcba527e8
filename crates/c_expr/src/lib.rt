//! Reads C's expressions, type names, specifiers and declarators.
#![tactic(auto)]

// nodes, symbols and faults
mod fault;
mod nodes;
mod symbols;

// operators and words of specifiers
mod operators;
mod specifier_words;

// expressions by their levels
mod expressions;
mod postfix;
mod primary;

// specifiers, declarators and type names
mod declarators;
mod params;
mod specifiers;
mod types;

// readings of all tokens
mod reading;

pub use declarators::{Form, declarator_in_front};
pub use expressions::expression_in_front;
pub use fault::ExprFault;
pub use nodes::{Read, ReadList, list_of, node, part};
pub use operators::{
    ASSIGNMENT_LEVEL, CAST_LEVEL, COMMA_LEVEL, CONDITIONAL_LEVEL, POSTFIX_LEVEL, UNARY_LEVEL,
};
pub use params::{declare_param, name_of, param_in_front};
pub use reading::{read_declarator, read_expr, read_specs};
pub use specifier_words::{
    SpecifierPlace, begins_specifiers, begins_tag, fit, goes_on, is_type_word, says_type,
};
pub use specifiers::specifiers_in_front;
pub use symbols::{after_keyword, after_sign, is_keyword, is_sign, place_of, take_word};
pub use types::type_name_in_front;
