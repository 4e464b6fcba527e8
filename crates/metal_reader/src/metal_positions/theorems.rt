//! Rules are found by going over the symbols of a text.

ghost use Rattle.metal_reader.specs.MetalPositions.Theorems.{RulesAreCounted};

/// The rule with a number begins behind as many of those `:` and `|` that stand within the machine's braces alone.
pub fn rules_are_counted()
    ensures { RulesAreCounted }
{}
