//! Linking: from typed units to a program.

ghost use Rattle.std.specs.Prelude.{◌≡◌, ◌+◌, ◌<◌, ◌≤◌, ◌^◌, ◌++◌, [], ◌∷◌, length, map, List, None, IfOk, IfErr, OnOk};
ghost use Rattle.type_rules.specs.Functions.{Defined};
ghost use Rattle.call_graph.specs.Faults.{IsRepeat, IsLinkFault};
ghost use Rattle.call_graph.specs.OfPrograms.Definitions.{AreNumbered, defined_by, definitions, kept_in, trees_in};
ghost use Rattle.call_graph.specs.OfPrograms.Repeats.{AreApart, first_repeat, link_fault};
ghost use Rattle.typed_unit.specs.Functions.{function_of};

use crate::fault::LinkFault;
use crate::programs::{Functions, Program, units_are_listed};
use typed_unit::{TypedFunction, TypedUnit};

// Adds a function, unless it repeats an earlier one.
fn add<'u, 'a>(
    functions: &mut Functions<'u, 'a>,
    function: &'u TypedFunction<'a>,
) -> Result<(), LinkFault>
    requires { length functions.old.all.items + 1 < 2 ^ 32 }
    ensures kept { IfOk result (λ _. defined_by functions.new.all.items ≡ defined_by functions.old.all.items ++ (function_of function.now ∷ [])) }
    ensures goes_on { IfOk result (λ _. (rest : List Defined) → first_repeat (defined_by functions.old.all.items) (function_of function.now ∷ rest) ≡ first_repeat (defined_by functions.new.all.items) rest) }
    ensures repeated { IfErr result (λ e. (rest : List Defined) → IsRepeat e (first_repeat (defined_by functions.old.all.items) (function_of function.now ∷ rest))) }
{
    if functions.repeats(function) {
        return Err(LinkFault::DuplicateFunction {
            name: function.name,
            place: function.place,
        });
    }
    functions.push(function)?;
    Ok(())
}

// Adds the functions of a unit.
fn add_unit<'u, 'a>(
    functions: &mut Functions<'u, 'a>,
    unit: &'u TypedUnit<'a>,
) -> Result<(), LinkFault>
    requires { length functions.old.all.items + length unit.now.functions.items < 2 ^ 32 }
    ensures kept { IfOk result (λ _. defined_by functions.new.all.items ≡ defined_by functions.old.all.items ++ map function_of unit.now.functions.items) }
    ensures goes_on { IfOk result (λ _. (rest : List Defined) → first_repeat (defined_by functions.old.all.items) (map function_of unit.now.functions.items ++ rest) ≡ first_repeat (defined_by functions.new.all.items) rest) }
    ensures repeated { IfErr result (λ e. (rest : List Defined) → IsRepeat e (first_repeat (defined_by functions.old.all.items) (map function_of unit.now.functions.items ++ rest))) }
{
    for function in unit.functions.as_slice() {
        add(functions, function)?;
    }
    Ok(())
}

// The functions of all units, in source order.
fn gather<'u, 'a>(units: &Vec<&'u TypedUnit<'a>>) -> Result<Functions<'u, 'a>, LinkFault>
    requires { length (kept_in units.now.items) < 2 ^ 32 }
    ensures kept { IfOk result (λ functions. defined_by functions.all.items ≡ kept_in units.now.items) }
    ensures linked { OnOk result (first_repeat [] (kept_in units.now.items) ≡ None) }
    ensures repeated { IfErr result (λ e. IsRepeat e (first_repeat [] (kept_in units.now.items))) }
{
    let mut functions = Functions::new(*units.allocator());
    for i in 0..units.len() {
        add_unit(&mut functions, units[i])?;
    }
    Ok(functions)
}

/// Links typed units, each with the number of its file as its position: the program that they are, if no function has two bodies
/// that stand in one file or that both have external linkage. The work is linear in the number of functions.
pub fn link<'u, 'a>(units: Vec<&'u TypedUnit<'a>>) -> Result<Program<'u, 'a>, LinkFault>
    requires few_units { length units.items ≤ 65535 }
    requires numbered { AreNumbered units.items }
    requires few_functions { length (definitions (trees_in units.items)) < 2 ^ 32 }
    ensures units { IfOk result (λ program. program.units ≡ units.entry) }
    ensures linked { OnOk result (link_fault (definitions (trees_in units.entry.items)) ≡ None) }
    ensures apart { OnOk result (AreApart (definitions (trees_in units.entry.items))) }
    ensures fault { IfErr result (λ e. IsLinkFault e (link_fault (definitions (trees_in units.entry.items)))) }
{
    units_are_listed();
    let functions = gather(&units)?;
    Ok(Program::new(units, functions))
}
