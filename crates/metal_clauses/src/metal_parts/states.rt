//! The states that a text names, in sources and targets.

ghost use Rattle.std.specs.Prelude.{◌≤◌, length, IfSome};
ghost use Rattle.c_tree.specs.Symbol.{symbols_of};
ghost use Rattle.metal_grammar.specs.Ways.Steps as steps;
ghost use Rattle.metal_clauses.specs.MetalParts.Given.{Finds};
ghost use Rattle.metal_written.specs.Written.{state_view};

use crate::metal_parts::front::take_word;
use c_expr::after_sign;
use c_tree::{Punctuator, Token};
use metal_written::StateName;

/// The state in front.
pub fn read_state<'a>(tokens: &'a [Token]) -> Option<(StateName, &'a [Token])>
    ensures found { Finds state_view result (steps.read_state (symbols_of tokens.now)) }
    ensures shorter { IfSome result (λ r. length r.1.now ≤ length tokens.now) }
{
    let (first, behind) = take_word(tokens)?;
    let Some(rest) = after_sign(Punctuator::Dot, behind) else {
        return Some((StateName::OfMachine { state: first }, behind));
    };
    let (state, rest) = take_word(rest)?;
    Some((
        StateName::OfVariable {
            variable: first,
            state,
        },
        rest,
    ))
}
