//! What the rules of a text are built with, and the machine of a text without a fault.

ghost use Rattle.std.specs.Prelude.{◌≡◌, ◌≤◌, None, List, map, length, IfOk};
ghost use Rattle.c_tree.specs.Symbol.{Symbol};
ghost use Rattle.metal_grammar.specs.FirstFault.{fault_of};
ghost use Rattle.metal_grammar.specs.Grammar.{IsText};
ghost use Rattle.metal_grammar.specs.Meaning as meaning;
ghost use Rattle.metal_grammar.specs.Rules as grammar;
ghost use Rattle.metal_grammar.specs.Rules.{variables_among};
ghost use Rattle.metal_tree.specs.MetalMachines.Limits.{most_holes, most_rules};
ghost use Rattle.metal_tree.specs.Whole.{machine_view};
ghost use Rattle.metal_written.specs.Placed.{placed_views};
ghost use Rattle.metal_written.specs.Texts.{AreRight};
ghost use Rattle.metal_written.specs.Written.{clause_views};
ghost use Rattle.metal_numbers.specs.MetalDeclared.DeclaredHoles.{declared_views};
ghost use Rattle.metal_numbers.specs.Numbers.{variables_in, AreNamed};
ghost use Rattle.metal_numbers.specs.MetalBuilding.Builders.{numbers, IsRight};
ghost use Rattle.metal_numbers.specs.MetalBuilding.Places.{HasPlaces};

use crate::metal_building::building::{Builder, holes_of};
use crate::metal_declared::DeclaredHole;
use crate::numbering::{in_order, names_of, numbering_of, variables_among};
use c_tree::Arena;
use metal_tree::Machine;
use metal_written::{Clause, PlacedRule, Texts};
use mx_base::Names;
use std::alloc::AllocError;

/// The number of the machine's name.
fn machine_name(clauses: &[Clause]) -> u32
    ensures { result ≡ meaning.machine_name (clause_views clauses.now) }
{
    match clauses {
        [] => 0,
        [first, ..] => match first.head {
            None => 0,
            Some(head) => head.name,
        },
    }
}

/// What the rules of these clauses are built with. The text has not too many holes, and not too many rules.
pub fn builder_of<'a, 'n>(
    arena: &'a Arena,
    names: &'n Names,
    texts: &'n Texts,
    file: u16,
    declared: &[DeclaredHole<'a>],
    rules: &[PlacedRule<'a>],
) -> Result<Builder<'a, 'n>, AllocError>
    requires holes { length declared.now ≤ most_holes }
    requires rules { length rules.now ≤ most_rules }
    requires texts { AreRight names.now texts.now }
    ensures right { IfOk result (λ builder. IsRight builder) }
    ensures numbers { IfOk result (λ builder. numbers builder ≡ record { spelling = names.now; holes = map (λ h. h.name) (meaning.in_order (declared_views declared.now)); states = meaning.states_mentioned (placed_views rules.now) }) }
    ensures variables { IfOk result (λ builder. variables_in builder.numbering ≡ variables_among (declared_views declared.now)) }
    ensures given { IfOk result (λ builder. (builder.names.now ≡ names.now) × (builder.file ≡ file)) }
{
    let holes = in_order(arena, declared)?;
    let variables = variables_among(arena, declared)?;
    let numbering = numbering_of(arena, names, names_of(arena, holes)?, variables, rules)?;
    Ok(Builder {
        arena,
        names,
        texts,
        numbering,
        file,
    })
}

/// The machine of clauses that have no fault.
pub fn made_of<'a>(
    builder: &Builder<'a, '_>,
    clauses: &[Clause<'a>],
    declared: &[DeclaredHole<'a>],
    rules: &[PlacedRule<'a>],
) -> Result<Machine<'a>, AllocError>
    requires text { (ts : List Symbol) × IsText builder.now.names.now (clause_views clauses.now) ts }
    requires fine { fault_of builder.now.names.now (clause_views clauses.now) ≡ None }
    requires declared { declared_views declared.now ≡ grammar.holes_of builder.now.names.now (clause_views clauses.now) }
    requires rules { placed_views rules.now ≡ grammar.rules_of (clause_views clauses.now) }
    requires right { IsRight builder.now }
    requires numbers { numbers builder.now ≡ meaning.numbering_of builder.now.names.now (clause_views clauses.now) }
    requires variables { variables_in builder.now.numbering ≡ variables_among (declared_views declared.now) }
    requires named { AreNamed (variables_in builder.now.numbering) (placed_views rules.now) }
    ensures machine { IfOk result (λ machine. machine_view machine ≡ meaning.machine_of builder.now.names.now (clause_views clauses.now)) }
    ensures places { IfOk result (λ machine. HasPlaces builder.now.file machine.rules.now) }
{
    let numbering = builder.numbering;
    Ok(Machine {
        name: machine_name(clauses),
        variables: numbering.states.len() as u8,
        holes: holes_of(builder.arena, in_order(builder.arena, declared)?)?,
        globals: numbering.globals,
        states: numbering.states,
        rules: builder.rules(rules)?,
    })
}
