//! What is said of a text of C that is read and typed.

use crate::found::{last_declarator, last_expression, last_initialized, last_type_name};
use crate::texts::stripped_of;
use crate::words::Shown;
use bumpalo::Bump;
use c_lexer::{LexFault, Tokens};
use c_parser::{ParseFault, read_unit};
use c_tree::{Arena, Place, Tree};
use mx_base::Names;
use std::alloc::{AllocError, Global};
use typed_unit::TypedUnit;
use unit_typing::{TypeFault, type_unit};

/// Why a text has no types.
#[derive(Clone, Copy, Debug, PartialEq, Eq)]
pub enum Untyped {
    Syntax(Place),
    Typing(TypeFault),
    NoMemory,
}

/// What is asked of a typed text.
#[derive(Clone, Copy, Debug, PartialEq, Eq)]
pub enum Question {
    /// Whether it has types.
    Fault,
    /// The type of the last expression.
    Type,
    /// The tag of that type.
    Tag,
    /// The type that the type name in the last expression names.
    TypeName,
    /// The variable that the last expression is.
    Variable,
    /// The type and variable of the last declarator.
    Declarator,
    /// The type of the last declarator with its initializer, and the type and variable of the name in it.
    Initializer,
    /// The functions in order.
    Functions,
}

/// The unit that these tokens are, with its types.
pub fn typed_of<'a>(
    arena: &'a Arena,
    alloc: Global,
    tokens: &'a Tokens,
) -> Result<TypedUnit<'a>, Untyped> {
    if tokens.all().len() > 100000 {
        return Err(Untyped::NoMemory);
    }
    let unit = match read_unit(arena, alloc, tokens) {
        Ok(unit) => unit,
        Err(ParseFault::Syntax(place)) => return Err(Untyped::Syntax(place)),
        Err(ParseFault::NoMemory) => return Err(Untyped::NoMemory),
    };
    match type_unit(arena, alloc, unit) {
        Ok(typed) => Ok(typed),
        Err(fault) => Err(Untyped::Typing(fault)),
    }
}

/// The type of this tree.
fn say_type(shown: &Shown, typed: &TypedUnit, tree: &Tree) -> Result<String, AllocError> {
    let mut text = String::new(shown.alloc);
    shown.push_type(&mut text, typed, typed.ty(tree))?;
    Ok(text)
}

/// The tag of the type of this tree.
fn say_tag(shown: &Shown, typed: &TypedUnit, tree: &Tree) -> Result<String, AllocError> {
    let mut text = String::new(shown.alloc);
    shown.push_tag(&mut text, typed.tag(typed.ty(tree)))?;
    Ok(text)
}

/// The variable that this tree is.
fn say_variable(shown: &Shown, typed: &TypedUnit, tree: &Tree) -> Result<String, AllocError> {
    let mut text = String::new(shown.alloc);
    shown.push_var(&mut text, typed.var(tree))?;
    Ok(text)
}

/// The type of a declarator, and the variable that it declares.
fn say_declared(shown: &Shown, typed: &TypedUnit, tree: &Tree) -> Result<String, AllocError> {
    let mut text = say_type(shown, typed, tree)?;
    text.push_str(", ")?;
    shown.push_var(&mut text, typed.declared(tree))?;
    Ok(text)
}

/// The type of the last declarator with its initializer, and the type and variable of the name in it.
fn say_initialized(shown: &Shown, typed: &TypedUnit) -> Result<String, AllocError> {
    let Some((initialized, name)) = last_initialized(typed) else {
        return String::from_str(shown.alloc, "nothing there");
    };
    let mut text = say_type(shown, typed, initialized)?;
    text.push_str(": ")?;
    shown.push_type(&mut text, typed, typed.ty(name))?;
    text.push_str(", ")?;
    shown.push_var(&mut text, typed.var(name))?;
    Ok(text)
}

/// What is asked of a tree.
fn say_of(
    shown: &Shown,
    typed: &TypedUnit,
    question: Question,
    tree: &Tree,
) -> Result<String, AllocError> {
    match question {
        Question::Tag => say_tag(shown, typed, tree),
        Question::Variable => say_variable(shown, typed, tree),
        Question::Declarator => say_declared(shown, typed, tree),
        _ => say_type(shown, typed, tree),
    }
}

/// The functions of a unit in order, each with a semicolon behind it.
fn say_functions(shown: &Shown, typed: &TypedUnit) -> Result<String, AllocError> {
    let mut text = String::new(shown.alloc);
    for function in &typed.functions {
        shown.push_function(&mut text, function)?;
        text.push_str(";")?;
    }
    Ok(text)
}

/// The tree that a question is about.
fn asked<'a>(typed: &TypedUnit<'a>, question: Question) -> Option<&'a Tree<'a>> {
    match question {
        Question::Type | Question::Tag | Question::Variable => last_expression(typed),
        Question::TypeName => last_type_name(typed),
        Question::Declarator => last_declarator(typed),
        Question::Fault | Question::Initializer | Question::Functions => None,
    }
}

/// What is said of a typed unit.
fn say(shown: &Shown, typed: &TypedUnit, question: Question) -> Result<String, AllocError> {
    match question {
        Question::Fault => String::from_str(shown.alloc, "typed"),
        Question::Functions => say_functions(shown, typed),
        Question::Initializer => say_initialized(shown, typed),
        _ => {
            match asked(typed, question) {
                Some(tree) => say_of(shown, typed, question, tree),
                None => String::from_str(shown.alloc, "nothing there"),
            }
        }
    }
}

/// What is said of a text without types: its fault, with the name in it and the line and column.
fn say_untyped(shown: &Shown, why: Untyped) -> Result<String, AllocError> {
    let mut text = String::new(shown.alloc);
    match why {
        Untyped::Syntax(place) => shown.push_at(&mut text, "Syntax", place)?,
        Untyped::Typing(fault) => shown.push_fault(&mut text, fault)?,
        Untyped::NoMemory => text.push_str("NoMemory")?,
    }
    Ok(text)
}

/// The answer to a question about the text of a file with this number, or its fault.
pub fn said_in(
    alloc: Global,
    file: u16,
    text: &str,
    question: Question,
) -> Result<String, LexFault> {
    let arena = Bump::new(alloc);
    let mut names = Names::new(alloc);
    let tokens = stripped_of(alloc, text.as_bytes(), file, &mut names)?;
    let shown = Shown {
        alloc,
        names: &names,
        tokens: &tokens,
    };
    match typed_of(&arena, alloc, &tokens) {
        Ok(typed) => Ok(say(&shown, &typed, question)?),
        Err(why) => Ok(say_untyped(&shown, why)?),
    }
}
