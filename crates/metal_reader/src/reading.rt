//! Reads a checker from its tokens.

ghost use Rattle.std.specs.Prelude.{◌≡◌, ◌⊎◌, ◌+◌, ◌<◌, ◌≤◌, ◌^◌, None, List, length, IfOk, IfErr, MatchResult};
ghost use Rattle.mx_base.specs.Names.{AddsAtMost, HasNoRepeats};
ghost use Rattle.c_tree.specs.Symbol.{Symbol, symbol_of, symbols_of};
ghost use Rattle.metal_grammar.specs.Definition.{IsMachine};
ghost use Rattle.metal_grammar.specs.Grammar.{IsText};
ghost use Rattle.metal_tree.specs.Whole.{machine_view};
ghost use Rattle.metal_reader.specs.Faults.{Refuses};
ghost use Rattle.metal_numbers.specs.MetalBuilding.Places.{HasPlaces};
ghost use Rattle.metal_written.specs.Strings.{with_strings};
ghost use Rattle.metal_written.specs.Texts.{AreBelow, AreRight};
ghost use Rattle.metal_grammar.specs.FirstFault.{fault_of, fault_of_rules};
ghost use Rattle.metal_grammar.specs.Known.{StringsAreKnown};
ghost use Rattle.metal_grammar.specs.Rules as grammar;
ghost use Rattle.metal_grammar.specs.Meaning as meaning;
ghost use Rattle.metal_reader.specs.MetalFaults.FirstFaults.{Says, faults_before_rules};
ghost use Rattle.metal_reader.specs.declared.metal_faults.fault.MetalFault.TheVariants.{NoMemory};
ghost use Rattle.metal_written.specs.Sizes.{ClausesHaveSizes, size_of_all};
ghost use Rattle.metal_written.specs.Written.{clause_views};

use crate::metal_faults::{MetalFault, check_declarations, check_rules};
use c_lexer::Tokens;
use c_tree::{Arena, Token};
use metal_clauses::read_clauses;
use metal_numbers::{builder_of, holes_of, made_of};
use metal_tree::Machine;
use metal_written::{Clause, Texts, rules_of};
use mx_base::Names;
use std::alloc::Global;

/// The machine of clauses that have no fault before their rules, or the first fault of these.
fn machine_behind<'a>(
    arena: &'a Arena,
    names: &Names,
    texts: &Texts,
    file: u16,
    clauses: &[Clause<'a>],
) -> Result<Machine<'a>, MetalFault>
    requires text { (ts : List Symbol) × IsText names.now (clause_views clauses.now) ts }
    requires fine { faults_before_rules (clause_views clauses.now) ≡ None }
    requires sizes { ClausesHaveSizes clauses.now }
    requires few { size_of_all clauses.now < 2 ^ 31 }
    requires texts { AreRight names.now texts.now }
    ensures faults { Says file result (fault_of_rules names.now (grammar.holes_of names.now (clause_views clauses.now)) (grammar.rules_of (clause_views clauses.now))) }
    ensures machine { IfOk result (λ machine. machine_view machine ≡ meaning.machine_of names.now (clause_views clauses.now)) }
    ensures places { IfOk result (λ machine. HasPlaces file machine.rules.now) }
{
    let declared = holes_of(arena, names, clauses)?;
    let rules = rules_of(arena, clauses)?;
    let builder = builder_of(arena, names, texts, file, declared, rules)?;
    match check_rules(&builder, declared, rules) {
        Ok(()) => Ok(made_of(&builder, clauses, declared, rules)?),
        Err(fault) => Err(fault),
    }
}

/// The machine of these clauses, or the first fault that they have.
fn machine_of<'a>(
    arena: &'a Arena,
    names: &Names,
    texts: &Texts,
    file: u16,
    clauses: &[Clause<'a>],
) -> Result<Machine<'a>, MetalFault>
    requires text { (ts : List Symbol) × IsText names.now (clause_views clauses.now) ts }
    requires sizes { ClausesHaveSizes clauses.now }
    requires few { size_of_all clauses.now < 2 ^ 31 }
    requires texts { AreRight names.now texts.now }
    ensures faults { Says file result (fault_of names.now (clause_views clauses.now)) }
    ensures machine { IfOk result (λ machine. machine_view machine ≡ meaning.machine_of names.now (clause_views clauses.now)) }
    ensures places { IfOk result (λ machine. HasPlaces file machine.rules.now) }
{
    match check_declarations(arena, file, clauses) {
        Ok(()) => machine_behind(arena, names, texts, file, clauses),
        Err(fault) => Err(fault),
    }
}

/// The machine of tokens, the contents of whose strings are names.
fn machine_of_tokens<'a>(
    arena: &'a Arena,
    alloc: Global,
    names: &Names,
    texts: &Texts,
    file: u16,
    tokens: &'a [Token],
) -> Result<Machine<'a>, MetalFault>
    requires few { length tokens.now ≤ 16777216 }
    requires texts { AreRight names.now texts.now }
    requires known { StringsAreKnown names.now (symbols_of tokens.now) }
    ensures machine { IfOk result (λ machine. IsMachine names.now (symbols_of tokens.now) (machine_view machine)) }
    ensures places { IfOk result (λ machine. HasPlaces file machine.rules.now) }
    ensures refused { IfErr result (λ fault. Refuses names.now (symbols_of tokens.now) file fault) }
{
    match read_clauses(arena, alloc, names, file, tokens) {
        Ok(clauses) => machine_of(arena, names, texts, file, clauses),
        Err(fault) => Err(MetalFault::from(fault)),
    }
}

/// The machine that these tokens of a checker are, or the first fault that they have.
///
/// The contents of strings become names, behind the old ones, since callouts compare them with names of C.
pub fn read_machine<'a>(
    arena: &'a Arena,
    alloc: Global,
    tokens: &'a Tokens,
    names: &mut Names,
) -> Result<Machine<'a>, MetalFault>
    requires few { length tokens.now.all ≤ 16777216 }
    requires room { length tokens.now.all + length names.old < 2 ^ 31 }
    requires below { AreBelow (length names.old) tokens.now.all }
    ensures machine { IfOk result (λ machine. IsMachine names.new (symbols_of tokens.now.all) (machine_view machine)) }
    ensures places { IfOk result (λ machine. HasPlaces tokens.now.end.place.file machine.rules.now) }
    ensures refused { IfErr result (λ fault. Refuses names.new (symbols_of tokens.now.all) tokens.now.end.place.file fault) }
    ensures adds { AddsAtMost names.old names.new (length tokens.now.all) }
    ensures named { MatchResult result (λ _. names.new ≡ with_strings names.old (symbols_of tokens.now.all)) (λ fault. (fault ≡ NoMemory) ⊎ (names.new ≡ with_strings names.old (symbols_of tokens.now.all))) }
    ensures distinct { HasNoRepeats names.new }
{
    let all = tokens.all();
    let file = tokens.end().place.file;
    match Texts::of_tokens(alloc, all, names) {
        Ok(texts) => machine_of_tokens(arena, alloc, names, &texts, file, all),
        Err(_) => Err(MetalFault::NoMemory),
    }
}
