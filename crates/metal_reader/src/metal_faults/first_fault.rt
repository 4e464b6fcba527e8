//! The first fault of a text whose clauses were read: too many of something, a name twice, and then the rules in their order.

ghost use Rattle.std.specs.Prelude.{◌≡◌, IfOk, ◌<◌, ◌^◌};
ghost use Rattle.metal_grammar.specs.FirstFault as grammar;
ghost use Rattle.metal_reader.specs.MetalFaults.FirstFaults.{Says, faults_before_rules, rule_fault, what};
ghost use Rattle.metal_written.specs.Placed.{placed_view, placed_views};
ghost use Rattle.metal_written.specs.Sizes.{ClausesHaveSizes, size_of_all};
ghost use Rattle.metal_written.specs.Written.{clause_views, literals_row, maybe_action_view};
ghost use Rattle.metal_grammar.specs.Faults as faults;
ghost use Rattle.metal_grammar.specs.Faults.{passing};
ghost use Rattle.metal_grammar.specs.Written.{members};
ghost use Rattle.metal_numbers.specs.MetalDeclared.DeclaredHoles.{declared_views};
ghost use Rattle.metal_numbers.specs.MetalDeclared.Limits.{counting, limit_of};

use crate::metal_faults::fault::MetalFault;
use c_tree::{Arena, Place};
use metal_numbers::{
    Builder, DeclaredHole, Which, is_bad_source, is_bad_split, lacks_variable, names_of,
    names_two_variables, passing, repeated, unknown_callout, variables_among,
};
use metal_written::{Clause, PlacedRule, WrittenAction};
use std::alloc::AllocError;

/// Refuses a text with more of these than a checker may have.
fn check_limit(which: Which, file: u16, clauses: &[Clause]) -> Result<(), MetalFault>
    requires sizes { ClausesHaveSizes clauses.now }
    requires few { size_of_all clauses.now < 2 ^ 31 }
    ensures { Says file result (grammar.too_many (what which) (passing (counting which) (limit_of which) 0 0 (clause_views clauses.now))) }
{
    match passing(which, clauses) {
        None => Ok(()),
        Some(position) => Err(MetalFault::TooMany(
            which,
            Place {
                file,
                token: position,
            },
        )),
    }
}

/// Refuses a text that has too many variables, holes or rules, or declares a name twice.
#[tactic(auto, using(crate::proofs::MetalFaults::Order::told))]
pub fn check_declarations(arena: &Arena, file: u16, clauses: &[Clause]) -> Result<(), MetalFault>
    requires sizes { ClausesHaveSizes clauses.now }
    requires few { size_of_all clauses.now < 2 ^ 31 }
    ensures { Says file result (faults_before_rules (clause_views clauses.now)) }
{
    check_limit(Which::Variables, file, clauses)?;
    check_limit(Which::Holes, file, clauses)?;
    check_limit(Which::Rules, file, clauses)?;
    match repeated(arena, clauses)? {
        None => Ok(()),
        Some(declared) => Err(MetalFault::Twice(
            declared.name,
            Place {
                file,
                token: declared.position,
            },
        )),
    }
}

/// Whether a literal of the message has the prefix `L`.
#[tactic(auto, using(metal_written::proofs::Any::anys))]
fn any_wide(action: WrittenAction<'_>) -> bool
    ensures { result ≡ faults.any_wide (members (literals_row action.entry.literals)) }
{
    for literal in action.literals {
        if literal.wide {
            return true;
        }
    }
    false
}

/// Whether the message of a rule is none for its arguments.
fn is_bad_format<'a>(
    builder: &Builder<'a, '_>,
    action: Option<WrittenAction<'a>>,
) -> Result<bool, AllocError>
    ensures { IfOk result (λ bad. bad ≡ faults.is_bad_format builder.now.names.now (maybe_action_view action.entry)) }
{
    match action {
        None => Ok(false),
        Some(written) => Ok(any_wide(written) || builder.action(action)?.is_none()),
    }
}

/// Refuses a rule that has a fault.
#[tactic(auto, using(crate::proofs::MetalFaults::Order::told))]
fn check_rule<'a>(
    builder: &Builder<'a, '_>,
    variables: &[u32],
    holes: &[u32],
    rule: &PlacedRule<'a>,
) -> Result<(), MetalFault>
    ensures { Says builder.now.file result (rule_fault builder.now.names.now variables.now holes.now (placed_view rule.now)) }
{
    if let Some(name) = unknown_callout(builder.names, &rule.rule) {
        let place = Place {
            file: builder.file,
            token: rule.position,
        };
        return Err(MetalFault::UnknownCallout(name, place));
    }
    if names_two_variables(variables, rule) {
        return Err(MetalFault::TwoVariables(rule.number));
    }
    if is_bad_split(&rule.rule) {
        return Err(MetalFault::BadSplit(rule.number));
    }
    if is_bad_source(builder.names, variables, rule) {
        return Err(MetalFault::BadSource(rule.number));
    }
    if lacks_variable(holes, rule) {
        return Err(MetalFault::VariableMissing(rule.number));
    }
    if is_bad_format(builder, rule.rule.action)? {
        return Err(MetalFault::BadFormat(rule.number));
    }
    Ok(())
}

/// Refuses the first rule that has a fault.
#[tactic(auto, using(crate::proofs::MetalFaults::Order::told))]
pub fn check_rules<'a>(
    builder: &Builder<'a, '_>,
    declared: &[DeclaredHole<'a>],
    rules: &[PlacedRule<'a>],
) -> Result<(), MetalFault>
    ensures { Says builder.now.file result (grammar.fault_of_rules builder.now.names.now (declared_views declared.now) (placed_views rules.now)) }
{
    let variables = variables_among(builder.arena, declared)?;
    let all = names_of(builder.arena, declared)?;
    for rule in rules {
        check_rule(builder, variables, all, rule)?;
    }
    Ok(())
}
