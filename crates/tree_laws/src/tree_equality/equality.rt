//! Trees that are equal up to their ids and places.

ghost use Rattle.std.specs.Prelude.{◌≡◌, ◌↔◌, IsTrue};
ghost use Rattle.c_tree.specs.Forget.{view, maybe_view, list_view};
ghost use Rattle.c_tree.specs.Compared.{compared};
ghost use Rattle.tree_laws.specs.TreeEquality.Levels.{seen, seen_maybe, seen_all, seen_branches, seen_level, branches_view};

use crate::tree_equality::heads::{Branches, Seeing, Seen};
use crate::tree_equality::same_heads::{same_head, same_words};
use crate::tree_equality::seen::{read, seen, written};
use c_tree::{Tree, Trees};

/// Whether two trees are equal up to ids and places: kind by kind, token by token, with nothing seen through.
pub fn equal_tree(a: &Tree, b: &Tree) -> bool
    ensures { IsTrue result ↔ (view a.now ≡ view b.now) }
{
    let left = written(a);
    let right = written(b);
    same_levels(&left, &right)
}

/// Whether two trees are the same up to ids and places. Parentheses are seen through, `x->f` is `(*x).f` (ISO 9899:1990,
/// 6.3.2.3), integer constants are compared by value, and a name with an initializer that isn't braced is an assignment to
/// the name (6.5.7). Inside a type name nothing is seen through.
pub fn same_tree(a: &Tree, b: &Tree) -> bool
    ensures { IsTrue result ↔ (compared (view a.now) ≡ compared (view b.now)) }
{
    let left = read(a);
    let right = read(b);
    same_levels(&left, &right)
}

/// Whether two levels are the same: their heads, their tokens, and the trees below them as they are seen.
#[cycle(same)]
fn same_levels<'a, 'b>(a: &Seen<'a>, b: &Seen<'b>) -> bool
    ensures { IsTrue result ↔ (seen_level a.now ≡ seen_level b.now) }
{
    same_head(a.level.head, b.level.head)
        && same_words(a.how, &a.level.words, b.how, &b.level.words)
        && same_branches(a.how, &a.level.branches, b.how, &b.level.branches)
}

/// Whether the trees below two trees are the same one by one.
#[cycle(same)]
fn same_branches<'a, 'b>(how: Seeing, a: &Branches<'a>, other_how: Seeing, b: &Branches<'b>) -> bool
    ensures { IsTrue result ↔ (seen_branches how (branches_view a.now) ≡ seen_branches other_how (branches_view b.now)) }
{
    match a {
        Branches::Two(first, second) => match b {
            Branches::Two(other_first, other_second) => {
                same_optional(how, *first, other_how, *other_first)
                    && same_optional(how, *second, other_how, *other_second)
            }
            _ => false,
        },
        Branches::Four(first, second, third, fourth) => match b {
            Branches::Four(other_first, other_second, other_third, other_fourth) => {
                same_optional(how, *first, other_how, *other_first)
                    && same_optional(how, *second, other_how, *other_second)
                    && same_optional(how, *third, other_how, *other_third)
                    && same_optional(how, *fourth, other_how, *other_fourth)
            }
            _ => false,
        },
        Branches::Listed(first, list) => match b {
            Branches::Listed(other_first, other_list) => {
                same_optional(how, *first, other_how, *other_first)
                    && same_list(how, list, other_how, other_list)
            }
            _ => false,
        },
    }
}

/// Whether two trees are the same, each in the way in which it is seen.
#[cycle(same)]
fn same_seen<'a, 'b>(how: Seeing, a: &'a Tree<'a>, other_how: Seeing, b: &'b Tree<'b>) -> bool
    ensures { IsTrue result ↔ (seen how (view a.now) ≡ seen other_how (view b.now)) }
{
    let left = seen(how, a);
    let right = seen(other_how, b);
    same_levels(&left, &right)
}

/// Whether two trees are the same, or both are missing.
#[cycle(same)]
fn same_optional<'a, 'b>(
    how: Seeing,
    a: Option<&'a Tree<'a>>,
    other_how: Seeing,
    b: Option<&'b Tree<'b>>,
) -> bool
    ensures { IsTrue result ↔ (seen_maybe how (maybe_view a.entry) ≡ seen_maybe other_how (maybe_view b.entry)) }
{
    match a {
        None => b.is_none(),
        Some(a) => match b {
            None => false,
            Some(b) => same_seen(how, a, other_how, b),
        },
    }
}

/// Whether trees are the same one by one.
#[cycle(same)]
#[tactic(auto, using(c_tree::proofs::Rows::nodes_out))]
fn same_list<'a, 'b>(how: Seeing, a: &Trees<'a>, other_how: Seeing, b: &Trees<'b>) -> bool
    ensures { IsTrue result ↔ (seen_all how (list_view a.now) ≡ seen_all other_how (list_view b.now)) }
{
    let all = a.all;
    let others = b.all;
    if all.len() != others.len() {
        return false;
    }
    for i in 0..all.len() {
        if !same_seen(how, &all[i], other_how, &others[i]) {
            return false;
        }
    }
    true
}
