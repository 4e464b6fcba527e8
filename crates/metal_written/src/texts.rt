//! The texts of callouts. Each string of a checker gets a number among the names before the checker is read, since a callout is
//! compared with names of C.

ghost use Rattle.std.specs.Prelude.{◌≡◌, ◌+◌, ◌<◌, ◌^◌, length, IfOk};
ghost use Rattle.c_tree.specs.Symbol.{symbol_of, symbols_of};
ghost use Rattle.mx_base.specs.Names.{AddsAtMost, HasNoRepeats, names_after};
ghost use Rattle.metal_grammar.specs.Words.{Spelling, contents_of, name_spelled};
ghost use Rattle.metal_grammar.specs.Known.{IsName, SymbolIsKnown, StringsAreKnown};
ghost use Rattle.metal_written.specs.Strings.{with_string, with_strings};
ghost use Rattle.metal_written.specs.Texts.{AreBelow, AreRight};
ghost use Rattle.metal_written.specs.Written.{literal_view};

use crate::words::{contents_of, is_spelled, up_to_contents};
use crate::written::Literal;
use c_tree::{Token, TokenKind};
use indexmap::IndexMap;
use mx_base::{Names, Text};
use std::alloc::{AllocError, Global};

/// The numbers of the contents of strings, by the number of the string and that of the bytes up to its contents.
#[derive(Drop)]
pub struct Texts {
    numbers: IndexMap<(u32, usize), u32>,
}

/// The number of the name that is spelled so; where there is none, the number of names.
#[tactic(auto, using(crate::proofs::InTexts::searching))]
fn name_spelled(names: &Names, text: &[u8]) -> u32
    ensures { result ≡ name_spelled names.now text.now }
{
    let mut number = 0;
    'searching: while number < names.len() {
        if is_spelled(names, text, number) {
            return number;
        }
        number += 1;
    }
    number
}

impl Texts {
    /// No texts yet.
    fn new(alloc: Global) -> Texts
        ensures { (names : Spelling) → AreRight names result }
    {
        Texts {
            numbers: IndexMap::new(alloc),
        }
    }

    /// Gives the contents of a string their number.
    fn add(&mut self, alloc: Global, literal: Literal, names: &mut Names) -> Result<(), AllocError>
        requires room { length names.old < 2 ^ 31 }
        requires below { literal.name < length names.old }
        requires right { AreRight names.old self.old }
        requires distinct { HasNoRepeats names.old }
        ensures right { IfOk result (λ _. AreRight names.new self.new) }
        ensures adds { AddsAtMost names.old names.new 1 }
        ensures distinct { HasNoRepeats names.new }
        ensures known { IfOk result (λ _. IsName names.new (contents_of names.new (literal_view literal))) }
        ensures named { IfOk result (λ _. names.new ≡ names_after names.old (contents_of names.old (literal_view literal))) }
    {
        let contents = Text::from_bytes(alloc, contents_of(names, literal))?;
        let number = names.intern(contents.as_bytes())?;
        self.numbers
            .insert((literal.name, up_to_contents(literal)), number)?;
        Ok(())
    }

    /// The same of a token, if it is a string.
    fn add_token(
        &mut self,
        alloc: Global,
        token: &Token,
        names: &mut Names,
    ) -> Result<(), AllocError>
        requires room { length names.old < 2 ^ 31 }
        requires below { token.now.name < length names.old }
        requires right { AreRight names.old self.old }
        requires distinct { HasNoRepeats names.old }
        ensures right { IfOk result (λ _. AreRight names.new self.new) }
        ensures adds { AddsAtMost names.old names.new 1 }
        ensures distinct { HasNoRepeats names.new }
        ensures known { IfOk result (λ _. SymbolIsKnown names.new (symbol_of token.now)) }
        ensures named { IfOk result (λ _. names.new ≡ with_string names.old (symbol_of token.now)) }
    {
        match token.kind {
            TokenKind::Str { wide } => {
                let literal = Literal {
                    wide,
                    name: token.name,
                };
                self.add(alloc, literal, names)
            }
            _ => Ok(()),
        }
    }

    /// The texts of all strings among these tokens, whose contents become names.
    pub fn of_tokens(
        alloc: Global,
        tokens: &[Token],
        names: &mut Names,
    ) -> Result<Texts, AllocError>
        requires room { length tokens.now + length names.old < 2 ^ 31 }
        requires below { AreBelow (length names.old) tokens.now }
        ensures right { IfOk result (λ texts. AreRight names.new texts) }
        ensures adds { AddsAtMost names.old names.new (length tokens.now) }
        ensures distinct { HasNoRepeats names.new }
        ensures known { IfOk result (λ _. StringsAreKnown names.new (symbols_of tokens.now)) }
        ensures named { IfOk result (λ _. names.new ≡ with_strings names.old (symbols_of tokens.now)) }
    {
        let mut texts = Texts::new(alloc);
        let _count = names.len();
        for token in tokens {
            texts.add_token(alloc, token, names)?;
        }
        Ok(texts)
    }

    /// The number of a string's contents among the names. One that wasn't kept is searched for.
    pub fn number_of(&self, names: &Names, literal: Literal) -> u32
        requires { AreRight names.now self.now }
        ensures { result ≡ name_spelled names.now (contents_of names.now (literal_view literal)) }
    {
        match self
            .numbers
            .get(&(literal.name, up_to_contents(literal)))
            .copied()
        {
            Some(number) => number,
            None => name_spelled(names, contents_of(names, literal)),
        }
    }
}
