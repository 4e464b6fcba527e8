//! The numbers of holes and states: holes with the state variables first, states as they are first mentioned.

ghost use Rattle.std.specs.Prelude.{◌≡◌, ◌≤◌, ◌∷◌, ◌++◌, true, false, not, map, length, take, IfOk, filter};
ghost use Rattle.metal_grammar.specs.Meaning as meaning;
ghost use Rattle.metal_grammar.specs.Faults.{any_of, is_misnamed};
ghost use Rattle.metal_grammar.specs.Rules as rules;
ghost use Rattle.metal_grammar.specs.Rules.{is_among, targets_of};
ghost use Rattle.metal_written.specs.Placed.{placed_view, placed_views};
ghost use Rattle.metal_written.specs.Written.{state_view, destination_view};
ghost use Rattle.metal_tree.specs.MetalMachines.Limits.{most_holes, most_rules};
ghost use Rattle.metal_tree.specs.Parts.{state_names};
ghost use Rattle.metal_tree.specs.Views.{source_view, target_view, dest_view};
ghost use Rattle.metal_numbers.specs.MetalDeclared.DeclaredHoles.{declared_views};
ghost use Rattle.metal_numbers.specs.Small.{are_few};
ghost use Rattle.metal_numbers.specs.Numbers.{is_kind, IsNumbering, added, added_if, numbering_in, variables_in};

use crate::metal_declared::DeclaredHole;
use crate::metal_rules::is_stop;
use crate::numbers::Numbering;
use bumpalo::collections::into_bump_slice;
use c_tree::Arena;
use metal_tree::{Dest, FIRST_NAMED, START, STOP, Source, States, Target};
use metal_written::{Destination, PlacedRule, StateName, is_spelled, number_among};
use mx_base::Names;
use std::alloc::AllocError;

/// Adds a name, unless it is there.
#[tactic(auto, using(metal_written::proofs::MetalNames::Positions::among))]
fn add<'a>(names: &mut Vec<u32, &'a Arena>, name: u32) -> Result<(), AllocError>
    ensures { IfOk result (λ _. names.new.items ≡ added names.old.items name) }
{
    if number_among(names.as_slice(), name).is_none() {
        names.push(name)?;
    }
    Ok(())
}

/// Adds the name of a state, if it is one of the machine but `start` and `stop`.
fn add_global<'a>(
    names: &Names,
    found: &mut Vec<u32, &'a Arena>,
    state: StateName,
) -> Result<(), AllocError>
    ensures { IfOk result (λ _. found.new.items ≡ added_if found.old.items (meaning.global_name names.now (state_view state))) }
{
    match state {
        StateName::OfMachine { state: name } => if is_spelled(names, b"start", name)
            || is_stop(names, state)
        {
            Ok(())
        } else {
            add(found, name)
        },
        StateName::OfVariable { .. } => Ok(()),
    }
}

/// Adds the name of a state, if it is one of this variable but `stop`.
fn add_state<'a>(
    names: &Names,
    variable: u32,
    found: &mut Vec<u32, &'a Arena>,
    state: StateName,
) -> Result<(), AllocError>
    ensures { IfOk result (λ _. found.new.items ≡ added_if found.old.items (meaning.name_for names.now variable (state_view state))) }
{
    match state {
        StateName::OfMachine { .. } => Ok(()),
        StateName::OfVariable {
            variable: of,
            state: name,
        } => if of != variable || is_stop(names, state) {
            Ok(())
        } else {
            add(found, name)
        },
    }
}

/// Adds the states that a rule leads to.
#[tactic(auto, using(crate::proofs::Distinct::mentions))]
fn add_targets<'a>(
    states: &mut Vec<StateName, &'a Arena>,
    destination: Destination,
) -> Result<(), AllocError>
    ensures { IfOk result (λ _. map state_view states.new.items ≡ map state_view states.old.items ++ targets_of (destination_view destination)) }
{
    match destination {
        Destination::To(target) => states.push(target)?,
        Destination::Split {
            on_true,
            on_false,
            ..
        } => {
            states.push(on_true)?;
            states.push(on_false)?;
        }
    }
    Ok(())
}

/// Adds the states that a rule mentions.
#[tactic(auto, using(crate::proofs::Distinct::mentions))]
fn add_states<'a>(
    states: &mut Vec<StateName, &'a Arena>,
    rule: &PlacedRule,
) -> Result<(), AllocError>
    ensures { IfOk result (λ _. map state_view states.new.items ≡ map state_view states.old.items ++ ((placed_view rule.now).source ∷ targets_of (placed_view rule.now).rule.destination)) }
{
    states.push(rule.source)?;
    add_targets(states, rule.rule.destination)
}

/// The states that the rules mention, in the order of the text.
#[tactic(auto, using(crate::proofs::MetalDeclared::InHoles::additions))]
fn states_mentioned<'a>(
    arena: &'a Arena,
    rules: &[PlacedRule<'a>],
) -> Result<&'a [StateName], AllocError>
    ensures { IfOk result (λ states. map state_view states.now ≡ meaning.states_mentioned (placed_views rules.now)) }
{
    let mut states = Vec::new(arena);
    for rule in rules {
        add_states(&mut states, rule)?;
    }
    Ok(into_bump_slice(states))
}

/// The names of the global states among these, each where it stands first.
#[tactic(auto, using(crate::proofs::Distinct::distincts))]
fn globals_among<'a>(
    arena: &'a Arena,
    names: &Names,
    states: &[StateName],
) -> Result<&'a [u32], AllocError>
    ensures { IfOk result (λ found. found.now ≡ meaning.globals_among names.now (map state_view states.now)) }
{
    let mut found = Vec::new(arena);
    for state in states {
        add_global(names, &mut found, *state)?;
    }
    Ok(into_bump_slice(found))
}

/// The names of a variable's states among these, each where it stands first.
#[tactic(auto, using(crate::proofs::Distinct::distincts))]
fn states_among<'a>(
    arena: &'a Arena,
    names: &Names,
    states: &[StateName],
    variable: u32,
) -> Result<&'a [u32], AllocError>
    ensures { IfOk result (λ found. found.now ≡ meaning.states_among names.now (map state_view states.now) variable) }
{
    let mut found = Vec::new(arena);
    for state in states {
        add_state(names, variable, &mut found, *state)?;
    }
    Ok(into_bump_slice(found))
}

/// Adds those holes that are state variables, or those that are none.
#[tactic(auto, using(crate::proofs::Choosing::chosen))]
fn add_kind<'a>(
    ordered: &mut Vec<DeclaredHole<'a>, &'a Arena>,
    holes: &[DeclaredHole<'a>],
    is_state: bool,
) -> Result<(), AllocError>
    ensures { IfOk result (λ _. declared_views ordered.new.items ≡ declared_views ordered.old.items ++ filter (λ h. is_kind is_state h.is_state) (declared_views holes.now)) }
{
    for hole in holes {
        if hole.is_state == is_state {
            ordered.push(*hole)?;
        }
    }
    Ok(())
}

/// The holes in their order: the state variables first.
#[tactic(auto, using(crate::proofs::Choosing::chosen))]
pub fn in_order<'a>(
    arena: &'a Arena,
    holes: &[DeclaredHole<'a>],
) -> Result<&'a [DeclaredHole<'a>], AllocError>
    ensures { IfOk result (λ ordered. declared_views ordered.now ≡ meaning.in_order (declared_views holes.now)) }
{
    let mut ordered = Vec::new(arena);
    add_kind(&mut ordered, holes, true)?;
    add_kind(&mut ordered, holes, false)?;
    Ok(into_bump_slice(ordered))
}

/// The names of these holes.
#[tactic(auto, using(crate::proofs::MetalDeclared::InHoles::additions))]
pub fn names_of<'a>(arena: &'a Arena, holes: &[DeclaredHole<'a>]) -> Result<&'a [u32], AllocError>
    ensures { IfOk result (λ found. found.now ≡ map (λ h. h.name) (declared_views holes.now)) }
{
    let mut found = Vec::new(arena);
    for hole in holes {
        found.push(hole.name)?;
    }
    Ok(into_bump_slice(found))
}

/// The names of the state variables among these holes.
#[tactic(auto, using(crate::proofs::Choosing::chosen))]
pub fn variables_among<'a>(
    arena: &'a Arena,
    holes: &[DeclaredHole<'a>],
) -> Result<&'a [u32], AllocError>
    ensures { IfOk result (λ found. found.now ≡ rules.variables_among (declared_views holes.now)) }
{
    let mut variables = Vec::new(arena);
    for hole in holes {
        if hole.is_state {
            variables.push(hole.name)?;
        }
    }
    Ok(into_bump_slice(variables))
}

/// The states of each of these variables.
#[tactic(auto, using(crate::proofs::MetalDeclared::InHoles::additions, crate::proofs::FewStates::fews))]
fn states_of<'a>(
    arena: &'a Arena,
    names: &Names,
    mentioned: &[StateName],
    variables: &[u32],
) -> Result<&'a [States<'a>], AllocError>
    requires { length mentioned.now ≤ 3000 }
    ensures states { IfOk result (λ states. map state_names states.now ≡ map (meaning.states_among names.now (map state_view mentioned.now)) variables.now) }
    ensures few { IfOk result (λ states. are_few states.now ≡ true) }
{
    let mut states = Vec::new(arena);
    for variable in variables {
        states.push(States {
            names: states_among(arena, names, mentioned, *variable)?,
        })?;
    }
    Ok(into_bump_slice(states))
}

/// The numbering of holes in their order, of which these are the variables, and of the states that rules mention.
pub fn numbering_of<'a>(
    arena: &'a Arena,
    names: &Names,
    holes: &'a [u32],
    variables: &[u32],
    rules: &[PlacedRule<'a>],
) -> Result<Numbering<'a>, AllocError>
    requires holes { length holes.now ≤ most_holes }
    requires variables { variables.now ≡ take (length variables.now) holes.now }
    requires rules { length rules.now ≤ most_rules }
    ensures numbering { IfOk result (λ numbering. IsNumbering names.now numbering) }
    ensures numbers { IfOk result (λ numbering. numbering_in names.now numbering ≡ record { spelling = names.now; holes = holes.now; states = meaning.states_mentioned (placed_views rules.now) }) }
    ensures variables { IfOk result (λ numbering. variables_in numbering ≡ variables.now) }
{
    let mentioned = states_mentioned(arena, rules)?;
    Ok(Numbering {
        holes,
        mentioned,
        globals: globals_among(arena, names, mentioned)?,
        states: states_of(arena, names, mentioned, variables)?,
    })
}

/// The number of a name among these, and 0 where it is none of them.
#[tactic(auto, using(metal_written::proofs::MetalNames::Positions::within))]
fn number_in(names: &[u32], name: u32) -> usize
    ensures number { result ≡ meaning.number_in names.now name }
    ensures within { result ≤ length names.now }
{
    number_among(names, name).unwrap_or(0)
}

impl<'a> Numbering<'a> {
    /// The number of a global state.
    fn global(&self, names: &Names, name: u32) -> u16
        requires numbering { IsNumbering names.now self.now }
        ensures { result ≡ meaning.global_number (numbering_in names.now self.now) name }
    {
        if is_spelled(names, b"start", name) {
            START
        } else if is_spelled(names, b"stop", name) {
            STOP
        } else {
            number_in(self.globals, name) as u16 + FIRST_NAMED
        }
    }

    /// The number of a hole.
    pub fn hole(&self, name: u32) -> u8
        ensures { result ≡ meaning.number_in self.now.holes.now name }
    {
        number_in(self.holes, name) as u8
    }

    /// The number of a variable's state.
    fn state(&self, names: &Names, variable: u32, name: u32) -> u16
        requires numbering { IsNumbering names.now self.now }
        requires variable { is_among (variables_in self.now) variable ≡ true }
        ensures { result ≡ meaning.state_number (numbering_in names.now self.now) variable name }
    {
        let number = number_in(self.holes, variable);
        if number < self.states.len() {
            number_in(self.states[number].names, name) as u16
        } else {
            0
        }
    }

    /// The state that a rule begins in.
    pub fn source(&self, names: &Names, state: StateName) -> Source
        requires numbering { IsNumbering names.now self.now }
        requires named { is_misnamed (variables_in self.now) (state_view state) ≡ false }
        ensures { source_view result ≡ meaning.source_of (numbering_in names.now self.now) (state_view state) }
    {
        match state {
            StateName::OfMachine { state } => Source::Global(self.global(names, state)),
            StateName::OfVariable { variable, state } => Source::Object {
                variable: self.hole(variable),
                state: self.state(names, variable, state),
            },
        }
    }

    /// A state that a rule leads to.
    fn target(&self, names: &Names, state: StateName) -> Target
        requires numbering { IsNumbering names.now self.now }
        requires named { is_misnamed (variables_in self.now) (state_view state) ≡ false }
        ensures { target_view result ≡ meaning.target_of (numbering_in names.now self.now) (state_view state) }
    {
        match state {
            StateName::OfMachine { state } => Target::Global(self.global(names, state)),
            StateName::OfVariable {
                variable,
                state: name,
            } => if is_stop(names, state) {
                Target::Unknown {
                    variable: self.hole(variable),
                }
            } else {
                Target::Object {
                    variable: self.hole(variable),
                    state: self.state(names, variable, name),
                }
            },
        }
    }

    /// Where a rule leads.
    pub fn dest(&self, names: &Names, destination: Destination) -> Dest
        requires numbering { IsNumbering names.now self.now }
        requires named { any_of (is_misnamed (variables_in self.now)) (targets_of (destination_view destination)) ≡ false }
        ensures { dest_view result ≡ meaning.dest_of (numbering_in names.now self.now) (destination_view destination) }
    {
        match destination {
            Destination::To(target) => Dest::To(self.target(names, target)),
            Destination::Split {
                on_true,
                on_false,
                ..
            } => Dest::Split {
                on_true: self.target(names, on_true),
                on_false: self.target(names, on_false),
            },
        }
    }
}
