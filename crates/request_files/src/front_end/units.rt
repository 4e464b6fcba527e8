//! A C file's unit with types.

ghost use Rattle.std.specs.Prelude.{◌≡◌, ◌<◌, ◌≤◌, ◌⊎◌, length, map, IfOk, IfErr};
ghost use Rattle.c_tree.specs.Views.{nodes_of};
ghost use Rattle.type_rules.specs.Functions.{functions_of};
ghost use Rattle.type_rules.specs.Unit.{table_by};
ghost use Rattle.typed_unit.specs.Functions.{function_of};
ghost use Rattle.typed_unit.specs.Tables.{table_of};
ghost use Rattle.unit_typing.specs.Faults.{fault_of};
ghost use Rattle.request_files.specs.FrontEnd.Refusals.{unparsed_as, untyped_as};
ghost use Rattle.request_files.specs.FrontEnd.Sources.{AreTypedTrees, HasNoTrees, HasNoTypes};
ghost use Rattle.request_files.specs.declared.front_end.refusal.Faulty.{Faulty as Found};
ghost use Rattle.request_files.specs.declared.front_end.refusal.Refusal.TheVariants.{Faulty as FaultyAt};

use crate::fault::Fault;
use crate::front_end::refusal::Refusal;
use crate::front_end::tokens::at_place;
use c_lexer::Tokens;
use c_parser::{ParseFault, read_unit};
use c_tree::Arena;
use std::alloc::Global;
use type_values::Unit;
use typed_unit::TypedUnit;
use unit_typing::{TypeFault, type_unit};

/// Why a file has no trees.
fn unparsed(tokens: &Tokens, fault: ParseFault) -> Refusal
    ensures { result ≡ unparsed_as tokens.now fault }
{
    match fault {
        ParseFault::Syntax(place) => at_place(Fault::Syntax, tokens, place),
        ParseFault::NoMemory => Refusal::NoMemory,
    }
}

/// Why a file has no types.
fn untyped(tokens: &Tokens, fault: TypeFault) -> Refusal
    ensures { result ≡ untyped_as tokens.now (fault_of fault) }
{
    match fault {
        TypeFault::Undeclared { place, .. } => at_place(Fault::Undeclared, tokens, place),
        TypeFault::NoField { place, .. } => at_place(Fault::NoField, tokens, place),
        TypeFault::Redeclared { place, .. } => at_place(Fault::Redeclared, tokens, place),
        TypeFault::NotPointer { place } => at_place(Fault::NotPointer, tokens, place),
        TypeFault::NotStruct { place } => at_place(Fault::NotStruct, tokens, place),
        TypeFault::NotFunction { place } => at_place(Fault::NotFunction, tokens, place),
        TypeFault::NotLvalue { place } => at_place(Fault::NotLvalue, tokens, place),
        TypeFault::NoMemory => Refusal::NoMemory,
    }
}

/// The unit of a C file's tokens, without those that are dropped, with the types of its expressions.
///
/// `Syntax` comes exactly where a part of the text up to the end of a declaration or function has no parse, at the first token
/// of the first such part; else one of the seven faults of typing exactly where it is the first in the order of the text.
pub fn read_typed<'a>(
    arena: &'a Arena,
    alloc: Global,
    tokens: &'a Tokens,
) -> Result<TypedUnit<'a>, Refusal>
    requires { length tokens.now.all ≤ 16777216 }
    ensures typed { IfOk result (λ typed. AreTypedTrees tokens.now.all (nodes_of typed.unit.chunks)) }
    ensures table { IfOk result (λ typed. table_of typed.table ≡ table_by (nodes_of typed.unit.chunks)) }
    ensures functions { IfOk result (λ typed. map function_of typed.functions.items ≡ functions_of (nodes_of typed.unit.chunks)) }
    ensures tokens { IfOk result (λ typed. typed.unit.tokens.now ≡ tokens.now.all) }
    ensures file { IfOk result (λ typed. typed.unit.file ≡ tokens.now.end.place.file) }
    ensures refused { IfErr result (λ e. (found : Found) → e ≡ FaultyAt found → HasNoTrees tokens.now found ⊎ HasNoTypes tokens.now found) }
{
    let unit = match read_unit(arena, alloc, tokens) {
        Ok(unit) => unit,
        Err(fault) => return Err(unparsed(tokens, fault)),
    };
    match type_unit(arena, alloc, unit) {
        Ok(typed) => Ok(typed),
        Err(fault) => Err(untyped(tokens, fault)),
    }
}
