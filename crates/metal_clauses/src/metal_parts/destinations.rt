//! Where rules lead, as it is written.

ghost use Rattle.c_tree.specs.Symbol.{symbols_of};
ghost use Rattle.std.specs.Prelude.{◌≡◌, ◌≤◌, length, IfSome};
ghost use Rattle.metal_grammar.specs.Ways.Steps as steps;
ghost use Rattle.metal_clauses.specs.MetalParts.Given.{Finds};
ghost use Rattle.metal_written.specs.Written.{destination_view};

use crate::metal_parts::front::take_word;
use crate::metal_parts::states::read_state;
use c_expr::after_sign;
use c_tree::{Punctuator, Token};
use metal_written::Destination;

/// What follows the first word of a split and its `=`.
fn read_split<'a>(true_word: u32, tokens: &'a [Token]) -> Option<(Destination, &'a [Token])>
    ensures found { Finds destination_view result (steps.read_split true_word (symbols_of tokens.now)) }
    ensures shorter { IfSome result (λ r. length r.1.now ≤ length tokens.now) }
{
    let (on_true, behind) = read_state(tokens)?;
    let second = after_sign(Punctuator::Comma, behind)?;
    let (false_word, behind) = take_word(second)?;
    let other = after_sign(Punctuator::Assign, behind)?;
    let (on_false, rest) = read_state(other)?;
    Some((
        Destination::Split {
            true_word,
            on_true,
            false_word,
            on_false,
        },
        rest,
    ))
}

/// The destination in front.
pub fn read_destination<'a>(tokens: &'a [Token]) -> Option<(Destination, &'a [Token])>
    ensures found { Finds destination_view result (steps.read_destination (symbols_of tokens.now)) }
    ensures shorter { IfSome result (λ r. length r.1.now ≤ length tokens.now) }
{
    let (word, behind) = take_word(tokens)?;
    if let Some(rest) = after_sign(Punctuator::Assign, behind) {
        return read_split(word, rest);
    }
    let (target, rest) = read_state(tokens)?;
    Some((Destination::To(target), rest))
}
