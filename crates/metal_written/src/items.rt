//! What stands among the items of an alternative.

ghost use Rattle.std.specs.Prelude.{◌≡◌};
ghost use Rattle.metal_grammar.specs.Grammar as grammar;
ghost use Rattle.metal_written.specs.Written.{item_view, alternative_view};

use crate::written::{WrittenAlternative, WrittenItem};

/// Whether the item is a pattern.
fn is_pattern(item: &WrittenItem) -> bool
    ensures { result ≡ grammar.is_pattern (item_view item.now) }
{
    match item {
        WrittenItem::Pattern { .. } => true,
        _ => false,
    }
}

/// Whether a pattern is among the items.
#[tactic(auto, using(crate::proofs::Any::anys))]
pub fn has_pattern(alternative: &WrittenAlternative) -> bool
    ensures { result ≡ grammar.some grammar.is_pattern (alternative_view alternative.now) }
{
    for item in alternative.items {
        if is_pattern(item) {
            return true;
        }
    }
    false
}

/// Whether the item is the end of a path.
fn is_end(item: &WrittenItem) -> bool
    ensures { result ≡ grammar.is_end (item_view item.now) }
{
    match item {
        WrittenItem::Dollars { .. } => true,
        _ => false,
    }
}

/// Whether the alternative stands at the end of a path.
#[tactic(auto, using(crate::proofs::Any::anys))]
pub fn has_end(alternative: &WrittenAlternative) -> bool
    ensures { result ≡ grammar.some grammar.is_end (alternative_view alternative.now) }
{
    for item in alternative.items {
        if is_end(item) {
            return true;
        }
    }
    false
}
