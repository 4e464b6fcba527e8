//! Reads specifiers with the bodies of structures, unions and enumerations (ISO 9899:1990, 6.5, 6.5.2).

ghost use Rattle.std.specs.Prelude.{◌≡◌, ◌+◌, ◌-◌, ◌*◌, ◌<◌, ◌≤◌, ◌^◌, ◌∷◌, ◌&&◌, false, length, IfOk, IfSome};
ghost use Rattle.std.specs.Option.{option_map};
ghost use Rattle.c_tree.specs.Symbol.{symbol_of, symbols_of};
ghost use Rattle.c_tree.specs.Forget.{view, list_view};
ghost use Rattle.c_grammar.specs.Symbols.{take_symbol};
ghost use Rattle.c_grammar.specs.Specifiers.{begins_tag, goes_on};
ghost use Rattle.c_grammar.specs.Ways.SpecifierSteps as steps;
ghost use Rattle.c_grammar.specs.UnitGrammar.Construct.{SpecifiersIn, TaggedType};
ghost use Rattle.c_grammar.specs.UnitGrammar.Names.{declared, declared_by_all};
ghost use Rattle.c_grammar.specs.UnitGrammar.Reading.{read};
ghost use Rattle.c_expr.specs.Gives.{Gives, GivesList, left, left_by_list, count_of, done};
ghost use Rattle.c_expr.specs.SpecifierPlaces.{place_of};
ghost use Rattle.c_expr.specs.Standing.{Over, OverRow};
ghost use Rattle.c_parser.specs.Ways.TypedOnce.{read_typed_once};

use crate::tagged::tagged_in_front;
use c_expr::{
    ExprFault, Read, ReadList, SpecifierPlace, begins_tag, fit, goes_on, list_of, node, part,
    place_of, says_type,
};
use c_grammar::TypeNames;
use c_tree::{Arena, Kind, Part, Specifier, Token};

/// The token in front that goes on with specifiers, and what follows it.
fn take_specifier<'a>(
    names: &TypeNames,
    typed: bool,
    tokens: &'a [Token],
) -> Option<(&'a Token, &'a [Token])>
    ensures found { option_map (λ found. (symbol_of found.0.now, symbols_of found.1.now)) result ≡ take_symbol (goes_on names.now.now typed) (symbols_of tokens.now) }
    ensures front { IfSome result (λ found. tokens.now ≡ found.0.now ∷ found.1.now) }
    ensures shorter { IfSome result (λ found. length found.1.now + 1 ≡ length tokens.now) }
{
    match tokens {
        [] => None,
        [front, rest @ ..] => if goes_on(names, typed, front) {
            Some((front, rest))
        } else {
            None
        },
    }
}

/// Whether a structure, union or enumeration begins behind a type.
fn begins_second(typed: bool, front: &Token) -> bool
    ensures { result ≡ (typed && begins_tag (symbol_of front.now)) }
{
    typed && begins_tag(front)
}

/// The specifier that begins with the token in front.
#[cycle(tags)]
fn read_item<'a>(
    arena: &'a Arena,
    front: &'a Token,
    behind: &'a [Token],
    tokens: &'a [Token],
    names: &mut TypeNames,
    room: u32,
    next: &mut u32,
) -> Result<Read<'a>, ExprFault>
    requires positive { 0 < room }
    requires front { tokens.now ≡ front.now ∷ behind.now }
    requires ids { next.old + 16 * length tokens.now < 2 ^ 32 }
    ensures found { Gives result (steps.read_item (read (room - 1) TaggedType names.old.now) (symbol_of front.now) (symbols_of behind.now)) }
    ensures stands { Over result next.old next.new tokens.now }
    ensures now { IfOk result (λ r. names.new.now ≡ declared (view r.tree.now) names.old.now) }
    ensures saved { names.new.saved ≡ names.old.saved }
    ensures ids { (next.old ≤ next.new) × (next.new + 16 * left result + 15 * done result ≤ next.old + 16 * length tokens.now) }
{
    if begins_tag(front) {
        return tagged_in_front(arena, tokens, names, room - 1, next);
    }
    let kind = Kind::Part(Part::SpecWord { word: front });
    part(arena, kind, front.place, 0, behind, next)
}

/// One specifier after the other, as long as the next token goes on with them. No structure, union or enumeration stands behind
/// a type, since no place has both: so the names in force make no difference once there is a type.
#[tactic(auto, using(crate::proofs::TypedOnce::items))]
#[cycle(tags)]
fn read_items<'a>(
    arena: &'a Arena,
    tokens: &'a [Token],
    names: &mut TypeNames,
    room: u32,
    next: &mut u32,
) -> Result<ReadList<'a>, ExprFault>
    requires positive { 0 < room }
    requires ids { next.old + 16 * length tokens.now < 2 ^ 32 }
    ensures found { GivesList result (read_typed_once (read (room - 1) TaggedType names.old.now) names.old.now (length (symbols_of tokens.now)) false (symbols_of tokens.now)) }
    ensures stands { OverRow result next.old next.new tokens.now }
    ensures now { IfOk result (λ r. names.new.now ≡ declared_by_all (list_view r.trees) names.old.now) }
    ensures saved { names.new.saved ≡ names.old.saved }
    ensures ids { (next.old ≤ next.new) × (next.new + 16 * left_by_list result + 15 * count_of result ≤ next.old + 16 * length tokens.now) }
{
    let mut all = Vec::new(arena);
    let mut highest = 0;
    let mut typed = false;
    let mut rest = tokens;
    let mut fuel = tokens.len();
    while let Some((front, behind)) = take_specifier(names, typed, rest) {
        if fuel == 0 {
            return Err(ExprFault::NoTree);
        }
        if begins_second(typed, front) {
            return Err(ExprFault::NoTree);
        }
        fuel -= 1;
        let item = read_item(arena, front, behind, rest, names, room, next)?;
        typed |= says_type(item.tree);
        highest = item.height.max(highest);
        all.push(*item.tree)?;
        rest = item.rest;
    }
    Ok(ReadList {
        trees: list_of(all),
        rest,
        height: highest,
    })
}

/// All specifiers in front, with their bodies.
#[tactic(auto, using(crate::proofs::TypedOnce::specifiers))]
#[cycle(tags)]
pub(crate) fn specifiers_in_front<'a>(
    arena: &'a Arena,
    place: SpecifierPlace,
    tokens: &'a [Token],
    names: &mut TypeNames,
    room: u32,
    next: &mut u32,
) -> Result<Read<'a>, ExprFault>
    requires ids { next.old + 16 * length tokens.now < 2 ^ 32 }
    ensures found { Gives result (read room (SpecifiersIn (place_of place)) names.old.now (symbols_of tokens.now)) }
    ensures stands { Over result next.old next.new tokens.now }
    ensures now { IfOk result (λ r. names.new.now ≡ declared (view r.tree.now) names.old.now) }
    ensures saved { names.new.saved ≡ names.old.saved }
    ensures ids { (next.old ≤ next.new) × (next.new + 16 * left result + 8 * done result ≤ next.old + 16 * length tokens.now) }
{
    if room == 0 {
        return Err(ExprFault::NoTree);
    }
    let items = read_items(arena, tokens, names, room, next)?;
    if !fit(arena, place, items.trees.all)? {
        return Err(ExprFault::NoTree);
    }
    let kind = Kind::Specifier(Specifier::Specs { items: items.trees });
    node(
        arena,
        kind,
        place_of(tokens),
        items.height,
        items.rest,
        room,
        next,
    )
}
