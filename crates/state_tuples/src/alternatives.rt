//! Alternatives of rules at events.

ghost use Rattle.std.specs.Prelude.{◌≡◌, [], ◌∷◌, map, cond, ◌&&◌, Some, None};
ghost use Rattle.std.specs.Option.{option_map};
ghost use Rattle.path_model.specs.CheckerModel.Choices.{is_split, applied};
ghost use Rattle.flow_graph.specs.Values.{event_of};
ghost use Rattle.hole_matcher.specs.HoleBindings.Bindings.{binding_of};
ghost use Rattle.hole_matcher.specs.HoleBindings.Settings.{setting_in};
ghost use Rattle.hole_matching.specs.Alternatives.{has_end_of_path, all_hold};
ghost use Rattle.hole_matching.specs.Matched.{nothing_taken};
ghost use Rattle.metal_tree.specs.Views.{dest_view, item_view};

use c_tree::Subject;
use flow_graph::Event;
use hole_matcher::{Binding, Setting, all_hold, match_items};
use metal_tree::{Dest, Item};

// Whether a rule leads to a target of its own for each truth of a branch.
fn is_split(dest: &Dest) -> bool
    ensures { result ≡ is_split (dest_view dest.now) }
{
    match dest {
        Dest::To(_) => false,
        Dest::Split { .. } => true,
    }
}

// Whether an item is `$end_of_path$`.
fn is_end(item: &Item) -> bool
    ensures { result ≡ has_end_of_path (item_view item.now ∷ []) }
{
    match item {
        Item::Base(_) => false,
        Item::Call(_) => false,
        Item::EndOfPath => true,
    }
}

// Whether an alternative is asked at the end of a path.
#[tactic(auto, using(crate::proofs::ItemSteps::end_next, crate::proofs::ItemSteps::end_here, crate::proofs::ItemSteps::end_past))]
fn has_end_of_path(items: &[Item]) -> bool
    ensures { result ≡ has_end_of_path (map item_view items.now) }
{
    for item in items {
        if is_end(item) {
            return true;
        }
    }
    false
}

// The binding with which an alternative applies at the end of a path: no hole has taken anything there.
fn at_end<'a>(setting: &Setting<'_, 'a>, items: &[Item]) -> Option<Binding<'a>>
    ensures { option_map binding_of result ≡ cond (has_end_of_path (map item_view items.now) && all_hold (setting_in setting.now) (map item_view items.now) nothing_taken) (Some nothing_taken) None }
{
    let binding = Binding::new();
    if has_end_of_path(items) && all_hold(setting, items, &binding) {
        Some(binding)
    } else {
        None
    }
}

/// The binding with which an alternative of a rule that leads there applies at an event. All matching of alternatives goes through here.
pub fn alternative_applies<'a>(
    setting: &Setting<'_, 'a>,
    event: &Event<'a>,
    dest: &Dest,
    items: &[Item],
) -> Option<Binding<'a>>
    ensures { option_map binding_of result ≡ applied (setting_in setting.now) (event_of event.now) (dest_view dest.now) (map item_view items.now) }
{
    match event {
        Event::Node(subject) => {
            if is_split(dest) || has_end_of_path(items) {
                return None;
            }
            match_items(setting, items, *subject)
        }
        Event::Branch(tree, _) => {
            if !is_split(dest) || has_end_of_path(items) {
                return None;
            }
            match_items(setting, items, Subject::Tree(tree))
        }
        Event::Exit { .. } => at_end(setting, items),
        Event::Declare(_) => None,
    }
}
