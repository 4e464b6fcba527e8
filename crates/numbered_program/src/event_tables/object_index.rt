//! The objects that are followed in a function, by the variables that they have.

ghost use Rattle.std.specs.Prelude.{◌≡◌, ◌++◌, ◌≤◌, ◌&&◌, ◌||◌, [], ◌∷◌, not, length, take, IfOk};
ghost use Rattle.c_objects.specs.Objects.{is_indexed_by, same_var};
ghost use Rattle.numbered_program.specs.EventTables.ObjectIndex.{any, has_variable, numbers_at, numbers_for, numbers_from, numbers_with, one_if, stands_in, IsIndexOf};
ghost use Rattle.objects.specs.Selectors.{selector_of, selectors_of};
ghost use Rattle.type_rules.specs.Vars.{CVar};
ghost use Rattle.type_values.specs.Vars.{cvar_of};

use crate::numbered_tuples::Numbering;
use indexmap::IndexMap;
use objects::{Object, Selector, is_indexed_by, same_var, variable};
use std::alloc::{AllocError, Global};
use type_values::Var;

/// The numbers of the objects that are followed in a function, as far as a move concerns them that writes to a variable.
#[derive(Drop)]
pub enum ObjectIndex {
    /// Of few objects those of all.
    All(Vec<u32>),
    /// By each variable that the objects have: as the base of their path, or as an index in it. A variable stands here as the path that it is
    /// by itself.
    ByVariable(IndexMap<Object, Vec<u32>>),
}

// Puts a number last under a variable.
fn add(
    alloc: Global,
    numbers: &mut IndexMap<Object, Vec<u32>>,
    place: Var,
    number: u32,
) -> Result<(), AllocError>
    ensures { IfOk result (λ _. (v : CVar) → numbers_at numbers.new v ≡ numbers_at numbers.old v ++ one_if (same_var (cvar_of place) v) number) }
{
    let key = variable(place);
    if let Some(list) = numbers.get_mut(&key) {
        list.push(number)?;
        return Ok(());
    }
    let mut list = Vec::new(alloc);
    list.push(number)?;
    numbers.insert(key, list)?;
    Ok(())
}

// The first so many steps.
fn front(steps: &[Selector], count: usize) -> &[Selector]
    requires { count ≤ length steps.now }
    ensures { result.now ≡ take count steps.now }
{
    &steps[..count]
}

// Whether a variable is this base, or an index in these steps.
fn stands_in(base: Var, steps: &[Selector], v: Var) -> bool
    ensures { result ≡ stands_in (cvar_of base) (selectors_of steps.now) (cvar_of v) }
{
    same_var(base, v) || is_indexed_by(steps, v)
}

// Puts a number last under an index, unless it stands there by what goes before.
fn add_index(
    alloc: Global,
    numbers: &mut IndexMap<Object, Vec<u32>>,
    base: Var,
    before: &[Selector],
    index: Var,
    number: u32,
) -> Result<(), AllocError>
    ensures { IfOk result (λ _. (v : CVar) → numbers_at numbers.new v ≡ numbers_at numbers.old v ++ one_if (same_var (cvar_of index) v && not (stands_in (cvar_of base) (selectors_of before.now) v)) number) }
{
    if stands_in(base, before, index) {
        return Ok(());
    }
    add(alloc, numbers, index, number)
}

// Puts a number last under the index of a step, if it has one, unless it stands there by what goes before.
fn add_step(
    alloc: Global,
    numbers: &mut IndexMap<Object, Vec<u32>>,
    base: Var,
    before: &[Selector],
    step: Selector,
    number: u32,
) -> Result<(), AllocError>
    ensures { IfOk result (λ _. (v : CVar) → numbers_at numbers.new v ≡ numbers_at numbers.old v ++ one_if (is_indexed_by (selector_of step ∷ []) v && not (stands_in (cvar_of base) (selectors_of before.now) v)) number) }
{
    match step {
        Selector::AtVar(index) => add_index(alloc, numbers, base, before, index, number),
        Selector::Deref => Ok(()),
        Selector::Field(_) => Ok(()),
        Selector::At(_) => Ok(()),
    }
}

// Puts a number last under each index of these steps but the base.
fn add_steps(
    alloc: Global,
    numbers: &mut IndexMap<Object, Vec<u32>>,
    base: Var,
    steps: &[Selector],
    number: u32,
) -> Result<(), AllocError>
    ensures { IfOk result (λ _. (v : CVar) → numbers_at numbers.new v ≡ numbers_at numbers.old v ++ one_if (not (same_var (cvar_of base) v) && is_indexed_by (selectors_of steps.now) v) number) }
{
    for (count, step) in steps.iter().enumerate() {
        add_step(alloc, numbers, base, front(steps, count), *step, number)?;
    }
    Ok(())
}

// Puts the number of an object last under each variable that it has.
fn add_object(
    alloc: Global,
    numbers: &mut IndexMap<Object, Vec<u32>>,
    object: &Object,
    number: u32,
) -> Result<(), AllocError>
    ensures { IfOk result (λ _. (v : CVar) → numbers_at numbers.new v ≡ numbers_at numbers.old v ++ one_if (has_variable v object.now) number) }
{
    add(alloc, numbers, object.base(), number)?;
    add_steps(alloc, numbers, object.base(), object.selectors(), number)
}

// The numbers of all objects that have numbers.
fn all_numbers(alloc: Global, numbering: &Numbering) -> Result<Vec<u32>, AllocError>
    ensures { IfOk result (λ list. list.items ≡ numbers_from any 1 numbering.now.objects.now.keys) }
{
    let objects = numbering.objects.as_slice();
    let mut list = Vec::with_capacity(alloc, objects.len())?;
    for (place, _) in objects.iter().enumerate() {
        list.push(place as u32 + 1)?;
    }
    Ok(list)
}

// Those of the objects by their variables.
fn by_variable(
    alloc: Global,
    numbering: &Numbering,
) -> Result<IndexMap<Object, Vec<u32>>, AllocError>
    ensures { IfOk result (λ numbers. (v : CVar) → numbers_at numbers v ≡ numbers_with v numbering.now.objects.now.keys) }
{
    let mut numbers = IndexMap::new(alloc);
    let objects = numbering.objects.as_slice();
    for (place, object) in objects.iter().enumerate() {
        add_object(alloc, &mut numbers, object, place as u32 + 1)?;
    }
    numbers.shrink_to_fit();
    Ok(numbers)
}

// What a map has under a variable.
fn under(numbers: &IndexMap<Object, Vec<u32>>, v: Var) -> &[u32]
    ensures { result.now ≡ numbers_at numbers.now (cvar_of v) }
{
    match numbers.get(&variable(v)) {
        Some(list) => list.as_slice(),
        None => &[],
    }
}

impl ObjectIndex {
    /// Those of the objects that have numbers.
    pub fn new(alloc: Global, numbering: &Numbering) -> Result<ObjectIndex, AllocError>
        ensures { IfOk result (IsIndexOf numbering.now.objects.now.keys) }
    {
        if numbering.objects.len() <= 8 {
            let all = all_numbers(alloc, numbering)?;
            return Ok(ObjectIndex::All(all));
        }
        let numbers = by_variable(alloc, numbering)?;
        Ok(ObjectIndex::ByVariable(numbers))
    }

    /// The numbers of all objects that have a variable, in their order. Of few objects there may be others among them.
    pub fn with(&self, v: Var) -> &[u32]
        ensures { result.now ≡ numbers_for self.now (cvar_of v) }
    {
        match self {
            ObjectIndex::All(numbers) => numbers.as_slice(),
            ObjectIndex::ByVariable(numbers) => under(numbers, v),
        }
    }
}
