//! The holes of a pattern.

ghost use Rattle.std.specs.Prelude.{◌≡◌};
ghost use Rattle.c_tree.specs.Forget.{view, primary_view};
ghost use Rattle.hole_matcher.specs.HoleBindings.Settings.{setting_in};
ghost use Rattle.hole_matcher.specs.Ways.Walks.{hole_in, seat_of, behind_it};
ghost use Rattle.hole_matching.specs.Matched.{rest_hole};
ghost use Rattle.hole_matching.specs.Matching.{Argument};
ghost use Rattle.hole_matching.specs.Pattern.{no_more};
ghost use Rattle.hole_matching.specs.Written.{pattern_of, primary_pattern};

use crate::hole_bindings::{Setting, takes_rest};
use crate::seat::Seat;
use c_tree::{Kind, Primary, Tree};

/// The hole that a pattern is, in any parentheses.
#[tactic(auto, using(crate::proofs::NoHoles::no_holes))]
#[cycle(hole)]
pub(crate) fn hole_of(pattern: &Tree) -> Option<u8>
    ensures { result ≡ hole_in (pattern_of (view pattern.now)) }
{
    match &pattern.kind {
        Kind::Primary(kind) => primary_hole(kind),
        Kind::Operation(_) => None,
        Kind::Initializer(_) => None,
        Kind::Specifier(_) => None,
        Kind::Part(_) => None,
        _ => None,
    }
}

// The same, of a primary expression (6.3.1).
#[cycle(hole)]
fn primary_hole(kind: &Primary) -> Option<u8>
    ensures { result ≡ hole_in (primary_pattern (primary_view kind.now)) }
{
    match kind {
        Primary::Paren { inner } => hole_of(inner),
        Primary::Hole { number } => Some(*number),
        _ => None,
    }
}

/// The hole for arguments that a pattern is, if it stands last among the arguments of a call.
#[tactic(auto, using(crate::proofs::WalkSteps::rest_of, crate::proofs::WalkSteps::rest_behind))]
pub(crate) fn rest_hole(setting: &Setting, seat: Seat, pattern: &Tree, last: bool) -> Option<u8>
    ensures { result ≡ rest_hole (setting_in setting.now) (seat_of seat) (pattern_of (view pattern.now)) (behind_it last) }
{
    match seat {
        Seat::Elsewhere => None,
        Seat::Argument => {
            if !last {
                return None;
            }
            last_argument(setting, pattern)
        }
    }
}

// The hole for arguments that a pattern is, which is the last argument of a call.
#[tactic(auto, using(crate::proofs::WalkSteps::rest_of))]
fn last_argument(setting: &Setting, pattern: &Tree) -> Option<u8>
    ensures { result ≡ rest_hole (setting_in setting.now) Argument (pattern_of (view pattern.now)) no_more }
{
    match hole_of(pattern) {
        Some(hole) => {
            if takes_rest(setting, hole) {
                Some(hole)
            } else {
                None
            }
        }
        None => None,
    }
}
