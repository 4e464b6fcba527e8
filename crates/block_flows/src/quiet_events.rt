//! Events at which no rule with an action can be taken. In most blocks all are such.

ghost use Rattle.std.specs.Prelude.{◌≡◌};
ghost use Rattle.block_flows.specs.QuietEvents.{is_silent, is_quiet, are_quiet};

use state_tuples::{EventRules, Fired};

// Whether an alternative is of a rule without an action.
fn is_silent(fired: &Fired) -> bool
    ensures { result ≡ is_silent fired.now }
{
    fired.rule.action.is_none()
}

// Whether none of the alternatives that apply at an event is of a rule with an action.
fn is_quiet(rules: &EventRules) -> bool
    ensures { result ≡ is_quiet rules.now }
{
    for fired in rules.applied.as_slice() {
        if !is_silent(fired) {
            return false;
        }
    }
    true
}

/// Whether this is so at each of these events. It takes time for each alternative that applies there, and no memory.
pub(crate) fn are_quiet(rules: &[EventRules]) -> bool
    ensures { result ≡ are_quiet rules.now }
{
    for event in rules {
        if !is_quiet(event) {
            return false;
        }
    }
    true
}
