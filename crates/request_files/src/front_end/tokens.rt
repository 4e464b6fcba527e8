//! The tokens of a file, and where faults stand in it.

ghost use Rattle.std.specs.Prelude.{◌≡◌, ◌+◌, ◌<◌, ◌≤◌, ◌^◌, length, IfOk, IfErr};
ghost use Rattle.mx_base.specs.Names.{AddsAtMost, HasNoRepeats};
ghost use Rattle.metal_written.specs.Texts.{AreBelow};
ghost use Rattle.request_files.specs.FrontEnd.Found.{HasNoTokens, stands_at};
ghost use Rattle.request_files.specs.FrontEnd.Refusals.{kind_and_spot, unread_as};
ghost use Rattle.request_files.specs.Lexed.{AreTokensOf};
ghost use Rattle.request_files.specs.declared.front_end.refusal.Faulty.{Faulty as Found};
ghost use Rattle.request_files.specs.declared.front_end.refusal.Refusal.TheVariants.{Faulty as FaultyAt};

use crate::fault::Fault;
use crate::front_end::refusal::{Faulty, Refusal};
use c_lexer::{LexFault, Mode, Spot, Tokens, lex};
use c_tree::Place;
use mx_base::Names;
use std::alloc::Global;

/// A fault where a reader stopped.
pub(crate) fn at_spot(fault: Fault, spot: Spot) -> Refusal
    ensures { result ≡ FaultyAt (record { fault = fault; source = spot.source; line = spot.line }) }
{
    Refusal::Faulty(Faulty {
        fault,
        source: spot.source,
        line: spot.line,
    })
}

/// A fault at a token of a file.
pub(crate) fn at_place(fault: Fault, tokens: &Tokens, place: Place) -> Refusal
    ensures { result ≡ FaultyAt (stands_at tokens.now fault place.token) }
{
    let (source, line, _) = tokens.line_of(place);
    Refusal::Faulty(Faulty {
        fault,
        source,
        line,
    })
}

/// Why a file has no tokens.
fn unread(fault: LexFault) -> Refusal
    ensures { result ≡ unread_as (kind_and_spot fault) }
{
    match fault {
        LexFault::BadByte(spot) => at_spot(Fault::BadByte, spot),
        LexFault::OpenText(spot) => at_spot(Fault::OpenText, spot),
        LexFault::BadNumber(spot) => at_spot(Fault::BadNumber, spot),
        LexFault::BadMarker(spot) => at_spot(Fault::BadMarker, spot),
        LexFault::NoMemory => Refusal::NoMemory,
    }
}

/// The tokens of a file, in the mode of its kind. `word` names the file where no marker names another.
///
/// One of the four lexical faults comes exactly where the bytes have no reading, at the first place where no blank, marker or
/// spelling can be cut off behind those before. Each token and each marker adds at most one name, and the word one.
pub fn read_tokens(
    alloc: Global,
    bytes: &[u8],
    mode: Mode,
    file: u16,
    word: &[u8],
    names: &mut Names,
) -> Result<Tokens, Refusal>
    requires size { length bytes.now ≤ 16777216 }
    requires room { length bytes.now + length names.old + 1 < 2 ^ 31 }
    ensures tokens { IfOk result (λ tokens. AreTokensOf mode file word.now names.old names.new bytes.now tokens) }
    ensures refused { IfErr result (λ e. (found : Found) → e ≡ FaultyAt found → HasNoTokens mode word.now names.new bytes.now found) }
    ensures few { IfOk result (λ tokens. length tokens.all ≤ length bytes.now) }
    ensures below { IfOk result (λ tokens. AreBelow (length names.new) tokens.all) }
    ensures adds { AddsAtMost names.old names.new (length bytes.now + 1) }
    ensures distinct { HasNoRepeats names.new }
{
    match lex(alloc, bytes, mode, file, word, names) {
        Ok(tokens) => Ok(tokens),
        Err(fault) => Err(unread(fault)),
    }
}
