//! What patterns are matched under.

ghost use Rattle.std.specs.Prelude.{◌≡◌, ◌≤◌};
ghost use Rattle.hole_matcher.specs.HoleBindings.Settings.{setting_in};
ghost use Rattle.hole_matching.specs.MachineMatches.{setting_of};
ghost use Rattle.metal_tree.specs.Whole.{machine_view};
ghost use Rattle.objects.specs.Units.{facts_in};

use crate::hole_bindings::setting::Setting;
use metal_tree::Machine;
use typed_unit::TypedUnit;

impl<'s, 'a> Setting<'s, 'a> {
    /// What the rules of a machine are asked under in a function of this name, where objects have at most `depth` steps.
    pub fn new(machine: &Machine<'s>, unit: &'s TypedUnit<'a>, function: u32, depth: u8) -> Self
        requires { depth ≤ 8 }
        ensures rules { setting_in result ≡ setting_of (machine_view machine.now) (facts_in unit.now) depth function }
        ensures unit { result.unit ≡ unit.entry }
    {
        Setting {
            holes: machine.holes,
            variables: machine.variables,
            unit,
            function,
            depth,
        }
    }
}
