//! A checker's machine, or its first fault at its place.

ghost use Rattle.std.specs.Prelude.{◌≡◌, ◌⊎◌, ◌+◌, ◌<◌, ◌≤◌, ◌^◌, ℕ, List, [], Some, length, slice_get, IfOk, IfErr, MatchResult};
ghost use Rattle.mx_base.specs.Names.{AddsAtMost, HasNoRepeats};
ghost use Rattle.c_tree.specs.Symbol.{symbols_of};
ghost use Rattle.c_lexer.specs.CReading.Pieces.{Piece as ReadPiece};
ghost use Rattle.c_lexer.specs.Tokens.{Lexes};
ghost use Rattle.c_lexer.specs.declared.c_reading.mode.Mode.TheVariants.{Metal};
ghost use Rattle.metal_grammar.specs.Definition.{IsMachine};
ghost use Rattle.metal_grammar.specs.Grammar.{IsText};
ghost use Rattle.metal_grammar.specs.Written.{Clause};
ghost use Rattle.metal_tree.specs.Whole.{machine_view};
ghost use Rattle.metal_written.specs.Strings.{with_strings};
ghost use Rattle.metal_written.specs.Texts.{AreBelow};
ghost use Rattle.metal_numbers.specs.MetalBuilding.Places.{HasPlaces};
ghost use Rattle.request_files.specs.FrontEnd.Checkers.{HasNoMachine};
ghost use Rattle.request_files.specs.FrontEnd.Found.{stands_first};
ghost use Rattle.request_files.specs.FrontEnd.Refusals.{unmade_as, stands_behind, stands_at_rule, refused_rule};
ghost use Rattle.request_files.specs.declared.front_end.refusal.Faulty.{Faulty as Found};
ghost use Rattle.request_files.specs.declared.front_end.refusal.Refusal.TheVariants.{Faulty as FaultyAt, NoMemory};

use crate::fault::Fault;
use crate::front_end::refusal::{Faulty, Refusal};
use crate::front_end::tokens::at_spot;
use bumpalo::Bump;
use c_lexer::Tokens;
use c_tree::Token;
use metal_reader::{MetalFault, read_machine, rule_place};
use metal_tree::Machine;
use mx_base::Names;
use std::alloc::Global;

/// The token behind so many others, if there is one.
fn token_behind(tokens: &[Token], before: u32) -> Option<Token>
    ensures { result ≡ slice_get tokens.now before }
{
    tokens.get(before as usize).copied()
}

/// A fault where the bytes of a file end.
fn at_end(fault: Fault, tokens: &Tokens) -> Refusal
    ensures { result ≡ FaultyAt (stands_first fault [] tokens.now.end) }
{
    at_spot(fault, tokens.end())
}

/// A fault at the token behind so many others, or at the end where there is none. All tokens of a checker are kept, so that as many
/// stand before each as its place says.
fn at_token(fault: Fault, tokens: &Tokens, before: u32) -> Refusal
    ensures { result ≡ FaultyAt (stands_behind tokens.now fault before) }
{
    match token_behind(tokens.all(), before) {
        Some(token) => Refusal::Faulty(Faulty {
            fault,
            source: token.source,
            line: token.line,
        }),
        None => at_end(fault, tokens),
    }
}

/// A fault of a rule, at the rule's first token, or at the end where there is no such rule.
fn at_rule(fault: Fault, tokens: &Tokens, rule: u16, names: &Names) -> Refusal
    requires text { (cs : List Clause) × IsText names.now cs (symbols_of tokens.now.all) }
    ensures { result ≡ FaultyAt (stands_at_rule tokens.now fault rule) }
{
    match rule_place(tokens, rule, names) {
        Some(place) => at_token(fault, tokens, place.token),
        None => at_end(fault, tokens),
    }
}

/// Why tokens are no machine. Where a rule has the fault, they are a text.
fn unmade(fault: MetalFault, tokens: &Tokens, names: &Names) -> Refusal
    requires text { (rule : ℕ) → refused_rule fault ≡ Some rule → (cs : List Clause) × IsText names.now cs (symbols_of tokens.now.all) }
    ensures { result ≡ unmade_as tokens.now fault }
{
    match fault {
        MetalFault::Syntax(place) => at_token(Fault::Syntax, tokens, place.token),
        MetalFault::TooMany(_, place) => at_token(Fault::TooMany, tokens, place.token),
        MetalFault::Twice(_, place) => at_token(Fault::Twice, tokens, place.token),
        MetalFault::UnknownCallout(_, place) => at_token(
            Fault::UnknownCallout,
            tokens,
            place.token,
        ),
        MetalFault::TwoVariables(rule) => at_rule(Fault::TwoVariables, tokens, rule, names),
        MetalFault::BadSplit(rule) => at_rule(Fault::BadSplit, tokens, rule, names),
        MetalFault::BadSource(rule) => at_rule(Fault::BadSource, tokens, rule, names),
        MetalFault::VariableMissing(rule) => at_rule(Fault::VariableMissing, tokens, rule, names),
        MetalFault::BadFormat(rule) => at_rule(Fault::BadFormat, tokens, rule, names),
        MetalFault::NoMemory => Refusal::NoMemory,
    }
}

/// The machine of a checker's tokens.
///
/// Another fault than those of the lexer comes exactly where it is the first one of the tokens, with the presumed file and line of
/// its place: a clause's first token, a name that is declared again, or the first token of a rule; of the end where there are no
/// tokens. Each token adds at most one name, the contents of a string.
pub fn read_checker<'a>(
    arena: &'a Bump,
    alloc: Global,
    tokens: &'a Tokens,
    names: &mut Names,
) -> Result<Machine<'a>, Refusal>
    requires few { length tokens.now.all ≤ 16777216 }
    requires room { length tokens.now.all + length names.old < 2 ^ 31 }
    requires below { AreBelow (length names.old) tokens.now.all }
    ensures machine { IfOk result (λ machine. IsMachine names.new (symbols_of tokens.now.all) (machine_view machine)) }
    ensures places { IfOk result (λ machine. HasPlaces tokens.now.end.place.file machine.rules.now) }
    ensures refused { IfErr result (λ e. (found : Found) → e ≡ FaultyAt found → HasNoMachine names.new tokens.now found) }
    // The tokens are still those of a reading, with more names.
    ensures lexed { (number : ℕ) (word : List ℕ) (pieces : List ReadPiece) → Lexes Metal number word names.old pieces tokens.now → Lexes Metal number word names.new pieces tokens.now }
    ensures adds { AddsAtMost names.old names.new (length tokens.now.all) }
    ensures named { MatchResult result (λ _. names.new ≡ with_strings names.old (symbols_of tokens.now.all)) (λ e. (e ≡ NoMemory) ⊎ (names.new ≡ with_strings names.old (symbols_of tokens.now.all))) }
    ensures distinct { HasNoRepeats names.new }
{
    match read_machine(arena, alloc, tokens, names) {
        Ok(machine) => Ok(machine),
        Err(fault) => Err(unmade(fault, tokens, names)),
    }
}
