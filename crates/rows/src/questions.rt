//! What a row asks: its question stands before the first `: `, and what it is asked about behind it.

use crate::alike::said_of_two;
use crate::bodies::traces_of_text;
use crate::expressions::said_of;
use crate::lexed::{Listed, said_of_blanks, said_of_tokens};
use crate::phrases::{Phrase, is_read};
use crate::typed::{Question, said_in};
use c_expr::Form;
use c_lexer::{LexFault, Mode};
use std::alloc::Global;
use std::str::from_utf8;

/// The phrase that a question asks for.
fn phrase_of(asked: &str) -> Option<Phrase> {
    match asked {
        "an expression" => Some(Phrase::Expression),
        "specifiers" => Some(Phrase::Specifiers),
        "a declarator with a name" => Some(Phrase::Declarator(Form::Named)),
        "a declarator without a name" => Some(Phrase::Declarator(Form::Abstract)),
        "a declarator of a parameter" => Some(Phrase::Declarator(Form::Either)),
        _ => None,
    }
}

/// What a question asks of an expression behind the declarations of these rows.
fn asked_of_expression(asked: &str) -> Option<Question> {
    match asked {
        "type of" => Some(Question::Type),
        "type name in" => Some(Question::TypeName),
        _ => None,
    }
}

/// What a question asks of a unit.
fn asked_of_unit(asked: &str) -> Option<Question> {
    match asked {
        "fault" => Some(Question::Fault),
        "type" => Some(Question::Type),
        "tag" => Some(Question::Tag),
        "variable" => Some(Question::Variable),
        "declarator" => Some(Question::Declarator),
        "initial value" => Some(Question::Initializer),
        "functions" => Some(Question::Functions),
        _ => None,
    }
}

/// Behind how many events a question asks to cut traces off.
fn limit_of(asked: &str) -> Option<usize> {
    match asked.strip_prefix("traces of ") {
        Some(number) => match number.parse::<usize>() {
            Ok(limit) => Some(limit),
            Err(_) => None,
        },
        None => None,
    }
}

/// What a question asks of tokens: in which mode they are read, whether only those that a parser takes, and what is listed.
fn asked_of_tokens(asked: &str) -> Option<(Mode, bool, Listed)> {
    match asked {
        "tokens" => Some((Mode::C, false, Listed::Kinds)),
        "tokens of a checker" => Some((Mode::Metal, false, Listed::Kinds)),
        "places" => Some((Mode::C, false, Listed::Places)),
        "kept tokens" => Some((Mode::C, true, Listed::Kinds)),
        "kept places" => Some((Mode::C, true, Listed::Places)),
        "chunks" => Some((Mode::C, true, Listed::Chunks)),
        _ => None,
    }
}

/// A truth in words.
fn say_truth(alloc: Global, holds: bool) -> Result<String, LexFault> {
    Ok(String::from_str(alloc, if holds { "yes" } else { "no" })?)
}

/// The traces of a function with these statements for its body.
fn say_traces(alloc: Global, statements: &str, limit: usize) -> Result<String, LexFault> {
    let traces = traces_of_text(alloc, statements, limit)?;
    let text = from_utf8(traces.as_slice()).unwrap_or("no text");
    Ok(String::from_str(alloc, text)?)
}

/// The answer to a question about a unit, which is file 7 where the question says so.
fn say_of_unit(alloc: Global, asked: &str, text: &str) -> Result<String, LexFault> {
    let (file, question) = match asked.strip_suffix(" in file 7") {
        Some(asked) => (7, asked_of_unit(asked)),
        None => (0, asked_of_unit(asked)),
    };
    match question {
        Some(question) => said_in(alloc, file, text, question),
        None => Ok(String::from_str(alloc, "no question")?),
    }
}

/// What is said of blanks, whose number is written.
fn say_of_blanks(alloc: Global, number: &str) -> Result<String, LexFault> {
    match number.parse::<usize>() {
        Ok(count) => said_of_blanks(alloc, count),
        Err(_) => Ok(String::from_str(alloc, "no number")?),
    }
}

/// How two expressions with a semicolon between them are read.
fn say_alike(alloc: Global, texts: &str) -> Result<String, LexFault> {
    match texts.split_once("; ") {
        Some((text, other)) => Ok(String::from_str(alloc, said_of_two(alloc, text, other)?)?),
        None => Ok(String::from_str(alloc, "no two texts")?),
    }
}

/// The answer to a question about a text behind its tokens.
fn answer_behind_tokens(alloc: Global, asked: &str, text: &str) -> Result<String, LexFault> {
    if let Some(phrase) = phrase_of(asked) {
        return say_truth(alloc, is_read(alloc, phrase, text.as_bytes())?);
    }
    if let Some(question) = asked_of_expression(asked) {
        return said_of(alloc, text, question);
    }
    match limit_of(asked) {
        Some(limit) => say_traces(alloc, text, limit),
        None => say_of_unit(alloc, asked, text),
    }
}

/// The answer to a question about a text.
fn answer_to(alloc: Global, asked: &str, text: &str) -> Result<String, LexFault> {
    if asked == "blanks" {
        return say_of_blanks(alloc, text);
    }
    if asked == "read alike" {
        return say_alike(alloc, text);
    }
    match asked_of_tokens(asked) {
        Some((mode, is_kept, listed)) => said_of_tokens(alloc, mode, is_kept, text, listed),
        None => answer_behind_tokens(alloc, asked, text),
    }
}

/// The answer to a row.
pub fn answer(alloc: Global, row: &str) -> Result<String, LexFault> {
    match row.split_once(": ") {
        Some((asked, text)) => answer_to(alloc, asked, text),
        None => Ok(String::from_str(alloc, "no row")?),
    }
}
