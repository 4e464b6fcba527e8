//! Reads declarators (ISO 9899:1990, 6.5.4) and abstract ones (6.5.5).

ghost use Rattle.std.specs.Prelude.{◌≡◌, ◌+◌, ◌-◌, ◌*◌, ◌<◌, ◌≤◌, ◌^◌, List, false, length, IfSome};
ghost use Rattle.std.specs.Option.{option_map};
ghost use Rattle.c_tree.specs.Symbol.{Sign, symbol_of, symbols_of};
ghost use Rattle.c_tree.specs.Syntax as kinds;
ghost use Rattle.c_tree.specs.Height.{height_of, height_in};
ghost use Rattle.c_tree.specs.Forget.{view, list_view};
ghost use Rattle.c_grammar.specs.Symbols.{begins, run_of, after_run};
ghost use Rattle.c_grammar.specs.Grammar.{is_bound_word, is_nothing};
ghost use Rattle.c_grammar.specs.Ways.DeclaratorSteps as steps;
ghost use Rattle.c_grammar.specs.Nonterminal.{may_name, may_omit, DeclaratorIn};
ghost use Rattle.c_grammar.specs.Found.{made};
ghost use Rattle.c_grammar.specs.Reading.{read};
ghost use Rattle.c_tree.specs.declared.punctuator.Punctuator.TheVariants as marks;
ghost use Rattle.c_tree.specs.declared.token.Token.{Token};
ghost use Rattle.c_tree.specs.Node as nodes;
ghost use Rattle.c_tree.specs.Views.{node_of, nodes_of};
ghost use Rattle.c_expr.specs.Standing.{Makes, Over, OverRow, Passes, Keeps, KeepsAll, IsFirst};
ghost use Rattle.c_expr.specs.Gives.{Gives, GivesList, AsBefore, left, left_by_list, count_of, done, count_in, Spends};
ghost use Rattle.c_expr.specs.Forms.{form_of};

use crate::expressions::expression_in_front;
use crate::fault::ExprFault;
use crate::nodes::{Read, ReadList, list_of, node, part};
use crate::operators::ASSIGNMENT_LEVEL;
use crate::params::read_param_list;
use crate::specifier_words::begins_specifiers;
use crate::symbols::{Run, after_sign, is_sign, place_of, split_run, take_word};
use c_grammar::TypeNames;
use c_tree::{Arena, Declarator, Kind, Part, Place, Punctuator, Token, TokenKind, Trees};

/// Whether a declarator has a name.
#[derive(Clone, Copy, Debug, PartialEq, Eq)]
pub enum Form {
    /// It has one (6.5.4).
    Named,
    /// It has none (6.5.5).
    Abstract,
    /// That of a parameter has one or none (6.5.4.3).
    Either,
}

/// Whether a name may stand in it.
fn may_name(form: Form) -> bool
    ensures { result ≡ may_name (form_of form) }
{
    match form {
        Form::Abstract => false,
        _ => true,
    }
}

/// Whether the name may be missing.
fn may_omit(form: Form) -> bool
    ensures { result ≡ may_omit (form_of form) }
{
    match form {
        Form::Named => false,
        _ => true,
    }
}

/// Whether a bound or parameters stand in front.
fn begins_suffix(tokens: &[Token]) -> bool
    ensures { result ≡ begins steps.begins_suffix (symbols_of tokens.now) }
{
    match tokens {
        [] => false,
        [front, ..] => match front.kind {
            TokenKind::Punct(sign) => match sign {
                Punctuator::OpenBracket | Punctuator::OpenParen => true,
                _ => false,
            },
            _ => false,
        },
    }
}

/// Whether a declarator of a form that may lack a name stands in front.
pub(crate) fn begins_declarator(form: Form, tokens: &[Token]) -> bool
    ensures { result ≡ begins (steps.begins_declarator (form_of form)) (symbols_of tokens.now) }
{
    match tokens {
        [] => false,
        [front, ..] => match front.kind {
            TokenKind::Punct(sign) => match sign {
                Punctuator::Star | Punctuator::OpenBracket | Punctuator::OpenParen => true,
                _ => false,
            },
            TokenKind::Word(_) => may_name(form),
            _ => false,
        },
    }
}

/// The stars and qualifiers in front, and what follows them.
fn split_pointers<'a>(tokens: &'a [Token]) -> (&'a [Token], &'a [Token])
    ensures pointers { symbols_of result.0.now ≡ steps.pointers_of (symbols_of tokens.now) }
    ensures rest { symbols_of result.1.now ≡ steps.after_pointers (symbols_of tokens.now) }
    ensures kept { KeepsAll result.0.now tokens.now result.1.now }
    ensures length { length result.0.now + length result.1.now ≡ length tokens.now }
{
    match after_sign(Punctuator::Star, tokens) {
        Some(_) => split_run(Run::Pointers, tokens),
        None => tokens.split_at(0),
    }
}

/// The name that a declarator of this form has in front, and what follows it.
fn take_name<'a>(form: Form, tokens: &'a [Token]) -> Option<(&'a Token, &'a [Token])>
    ensures found { option_map (λ found. (symbol_of found.0.now, symbols_of found.1.now)) result ≡ steps.take_name (form_of form) (symbols_of tokens.now) }
    ensures kept { IfSome result (λ found. Keeps found.0.now tokens.now found.1.now) }
    ensures shorter { IfSome result (λ found. length found.1.now + 1 ≡ length tokens.now) }
{
    if may_name(form) {
        take_word(tokens)
    } else {
        None
    }
}

/// Whether parameters stand behind a parenthesis, or there are none.
fn begins_params(names: &TypeNames, tokens: &[Token]) -> bool
    ensures { result ≡ begins (steps.begins_params names.now.now) (symbols_of tokens.now) }
{
    match tokens {
        [] => false,
        [front, ..] => is_sign(Punctuator::CloseParen, front) || begins_specifiers(names, tokens),
    }
}

/// What follows a parenthesis that begins no parameters.
fn after_nesting<'a>(form: Form, names: &TypeNames, tokens: &'a [Token]) -> Option<&'a [Token]>
    ensures found { option_map (λ rest. symbols_of rest.now) result ≡ steps.after_nesting (form_of form) names.now.now (symbols_of tokens.now) }
    ensures passes { IfSome result (λ rest. Passes (Sign marks.OpenParen) tokens.now rest.now) }
    ensures shorter { IfSome result (λ rest. length rest.now + 1 ≡ length tokens.now) }
{
    let inside = after_sign(Punctuator::OpenParen, tokens)?;
    if may_omit(form) && begins_params(names, inside) {
        None
    } else {
        Some(inside)
    }
}

/// Whether nothing of a declarator is there.
#[tactic(auto, using(crate::proofs::Steps::nothing_told))]
fn is_nothing(pointers: &[Token], suffixes: &Trees) -> bool
    ensures { result ≡ is_nothing (symbols_of pointers.now) (list_view suffixes.now) }
{
    pointers.is_empty() && suffixes.all.is_empty()
}

/// What follows the words of a bound; `first` is the place of its bracket.
#[cycle(read)]
fn read_bound<'a>(
    arena: &'a Arena,
    first: Place,
    words: &'a [Token],
    tokens: &'a [Token],
    names: &mut TypeNames,
    room: u32,
    next: &mut u32,
) -> Result<Read<'a>, ExprFault>
    requires positive { 0 < room }
    requires ids { next.old + 16 * length tokens.now < 2 ^ 32 }
    ensures found { Gives result (steps.read_bound (read (room - 1)) names.old.now (symbols_of words.now) (symbols_of tokens.now)) }
    ensures stands { (ts us : List Token) → IsFirst first ts → Passes (Sign marks.OpenBracket) ts us → KeepsAll words.now us tokens.now → Over result next.old next.new ts }
    ensures names { AsBefore names.new names.old }
    ensures ids { Spends next.old next.new (length tokens.now) (left result) }
{
    if let Some(rest) = after_sign(Punctuator::CloseBracket, tokens) {
        let kind = Kind::Part(Part::ArrayBound { words, bound: None });
        return part(arena, kind, first, 0, rest, next);
    }
    let bound = expression_in_front(arena, ASSIGNMENT_LEVEL, tokens, names, room - 1, next)?;
    let Some(rest) = after_sign(Punctuator::CloseBracket, bound.rest) else {
        return Err(ExprFault::NoTree);
    };
    let kind = Kind::Part(Part::ArrayBound {
        words,
        bound: Some(bound.tree),
    });
    part(arena, kind, first, bound.height, rest, next)
}

/// A bound in brackets (6.5.4.2) or parameters in parentheses (6.5.4.3).
#[cycle(read)]
fn read_suffix<'a>(
    arena: &'a Arena,
    tokens: &'a [Token],
    names: &mut TypeNames,
    room: u32,
    next: &mut u32,
) -> Result<Read<'a>, ExprFault>
    requires positive { 0 < room }
    requires ids { next.old + 16 * length tokens.now < 2 ^ 32 }
    ensures found { Gives result (steps.read_suffix (read (room - 1)) names.old.now (symbols_of tokens.now)) }
    ensures stands { Over result next.old next.new tokens.now }
    ensures names { AsBefore names.new names.old }
    ensures ids { (next.old ≤ next.new) × (next.new + 16 * left result + 16 * done result ≤ next.old + 16 * length tokens.now) }
{
    let first = place_of(tokens);
    if let Some(inside) = after_sign(Punctuator::OpenBracket, tokens) {
        let (words, rest) = split_run(Run::BoundWords, inside);
        return read_bound(arena, first, words, rest, names, room, next);
    }
    let Some(inside) = after_sign(Punctuator::OpenParen, tokens) else {
        return Err(ExprFault::NoTree);
    };
    read_param_list(arena, first, inside, names, room, next)
}

/// One suffix after the other.
#[tactic(auto, using(crate::proofs::ListSteps::suffixes))]
#[cycle(read)]
fn read_suffixes<'a>(
    arena: &'a Arena,
    tokens: &'a [Token],
    names: &mut TypeNames,
    room: u32,
    next: &mut u32,
) -> Result<ReadList<'a>, ExprFault>
    requires positive { 0 < room }
    requires ids { next.old + 16 * length tokens.now < 2 ^ 32 }
    ensures found { GivesList result (steps.read_suffixes (read (room - 1)) names.old.now (length (symbols_of tokens.now)) (symbols_of tokens.now)) }
    ensures stands { OverRow result next.old next.new tokens.now }
    ensures names { AsBefore names.new names.old }
    ensures ids { (next.old ≤ next.new) × (next.new + 16 * left_by_list result + 16 * count_of result ≤ next.old + 16 * length tokens.now) }
{
    let mut all = Vec::new(arena);
    let mut highest = 0;
    let mut rest = tokens;
    let mut fuel = tokens.len();
    while begins_suffix(rest) {
        if fuel == 0 {
            return Err(ExprFault::NoTree);
        }
        fuel -= 1;
        let suffix = read_suffix(arena, rest, names, room, next)?;
        highest = suffix.height.max(highest);
        all.push(*suffix.tree)?;
        rest = suffix.rest;
    }
    Ok(ReadList {
        trees: list_of(all),
        rest,
        height: highest,
    })
}

/// What follows the pointers and the name of a declarator.
#[cycle(read)]
fn read_named<'a>(
    arena: &'a Arena,
    first: Place,
    pointers: &'a [Token],
    name: &'a Token,
    tokens: &'a [Token],
    names: &mut TypeNames,
    room: u32,
    next: &mut u32,
) -> Result<Read<'a>, ExprFault>
    requires positive { 0 < room }
    requires ids { next.old + 16 * length tokens.now + 1 < 2 ^ 32 }
    ensures found { Gives result (steps.read_named (read (room - 1)) room names.old.now (symbols_of pointers.now) (symbol_of name.now) (symbols_of tokens.now)) }
    ensures stands { (ts us : List Token) → IsFirst first ts → KeepsAll pointers.now ts us → Keeps name.now us tokens.now → Over result next.old next.new ts }
    ensures names { AsBefore names.new names.old }
    ensures ids { (next.old ≤ next.new) × (next.new + 16 * left result ≤ next.old + 16 * length tokens.now + 1) }
{
    let suffixes = read_suffixes(arena, tokens, names, room, next)?;
    let kind = Kind::Declarator(Declarator::Named {
        pointers,
        name,
        suffixes: suffixes.trees,
    });
    node(
        arena,
        kind,
        first,
        suffixes.height,
        suffixes.rest,
        room,
        next,
    )
}

/// A declarator in parentheses, with the suffixes behind it.
fn nested_of<'a>(
    arena: &'a Arena,
    first: Place,
    pointers: &'a [Token],
    inner: Read<'a>,
    suffixes: ReadList<'a>,
    room: u32,
    next: &mut u32,
) -> Result<Read<'a>, ExprFault>
    requires inner { inner.height ≡ height_of (view inner.tree.now) }
    requires suffixes { suffixes.height ≡ height_in (list_view suffixes.trees) }
    requires ids { next.old + 1 < 2 ^ 32 }
    ensures found { Gives result (made room (kinds.Declarator (kinds.Nested (symbols_of pointers.now) (view inner.entry.tree.now) (list_view suffixes.entry.trees))) (symbols_of suffixes.entry.rest.now)) }
    ensures node { Makes result next.old next.new first (nodes.Declarator (nodes.Nested pointers.now (node_of inner.entry.tree.now) (nodes_of suffixes.entry.trees))) suffixes.entry.rest.now }
    ensures ids { (next.old ≤ next.new) × (next.new ≤ next.old + 1) × (left result ≤ length suffixes.entry.rest.now) }
{
    let highest = inner.height.max(suffixes.height);
    let kind = Kind::Declarator(Declarator::Nested {
        pointers,
        inner: inner.tree,
        suffixes: suffixes.trees,
    });
    node(arena, kind, first, highest, suffixes.rest, room, next)
}

/// What follows the pointers and the parenthesis of a declarator.
#[cycle(read)]
fn read_nested<'a>(
    arena: &'a Arena,
    form: Form,
    first: Place,
    pointers: &'a [Token],
    tokens: &'a [Token],
    names: &mut TypeNames,
    room: u32,
    next: &mut u32,
) -> Result<Read<'a>, ExprFault>
    requires positive { 0 < room }
    requires ids { next.old + 16 * length tokens.now < 2 ^ 32 }
    ensures found { Gives result (steps.read_nested (read (room - 1)) room (form_of form) names.old.now (symbols_of pointers.now) (symbols_of tokens.now)) }
    ensures stands { (ts us : List Token) → IsFirst first ts → KeepsAll pointers.now ts us → Passes (Sign marks.OpenParen) us tokens.now → Over result next.old next.new ts }
    ensures names { AsBefore names.new names.old }
    ensures ids { Spends next.old next.new (length tokens.now) (left result) }
{
    let inner = declarator_in_front(arena, form, tokens, names, room - 1, next)?;
    let Some(rest) = after_sign(Punctuator::CloseParen, inner.rest) else {
        return Err(ExprFault::NoTree);
    };
    let suffixes = read_suffixes(arena, rest, names, room, next)?;
    nested_of(arena, first, pointers, inner, suffixes, room, next)
}

/// What follows the pointers of a declarator that has neither name nor parentheses of its own.
#[cycle(read)]
fn read_unnamed<'a>(
    arena: &'a Arena,
    form: Form,
    first: Place,
    pointers: &'a [Token],
    tokens: &'a [Token],
    names: &mut TypeNames,
    room: u32,
    next: &mut u32,
) -> Result<Read<'a>, ExprFault>
    requires positive { 0 < room }
    requires ids { next.old + 16 * length tokens.now + 16 * length pointers.now < 2 ^ 32 }
    ensures found { Gives result (steps.read_unnamed (read (room - 1)) room (form_of form) names.old.now (symbols_of pointers.now) (symbols_of tokens.now)) }
    ensures stands { (ts : List Token) → IsFirst first ts → KeepsAll pointers.now ts tokens.now → Over result next.old next.new ts }
    ensures names { AsBefore names.new names.old }
    ensures ids { (next.old ≤ next.new) × (next.new + 16 * left result ≤ next.old + 16 * length tokens.now + 16 * length pointers.now) }
{
    if !may_omit(form) {
        return Err(ExprFault::NoTree);
    }
    let suffixes = read_suffixes(arena, tokens, names, room, next)?;
    if is_nothing(pointers, &suffixes.trees) {
        return Err(ExprFault::NoTree);
    }
    let kind = Kind::Declarator(Declarator::Unnamed {
        pointers,
        suffixes: suffixes.trees,
    });
    node(
        arena,
        kind,
        first,
        suffixes.height,
        suffixes.rest,
        room,
        next,
    )
}

/// What follows the pointers of a declarator.
#[cycle(read)]
fn read_direct<'a>(
    arena: &'a Arena,
    form: Form,
    first: Place,
    pointers: &'a [Token],
    tokens: &'a [Token],
    names: &mut TypeNames,
    room: u32,
    next: &mut u32,
) -> Result<Read<'a>, ExprFault>
    requires positive { 0 < room }
    requires ids { next.old + 16 * length tokens.now + 16 * length pointers.now < 2 ^ 32 }
    ensures found { Gives result (steps.read_direct (read (room - 1)) room (form_of form) names.old.now (symbols_of pointers.now) (symbols_of tokens.now)) }
    ensures stands { (ts : List Token) → IsFirst first ts → KeepsAll pointers.now ts tokens.now → Over result next.old next.new ts }
    ensures names { AsBefore names.new names.old }
    ensures ids { (next.old ≤ next.new) × (next.new + 16 * left result ≤ next.old + 16 * length tokens.now + 16 * length pointers.now) }
{
    if let Some((name, rest)) = take_name(form, tokens) {
        return read_named(arena, first, pointers, name, rest, names, room, next);
    }
    if let Some(inside) = after_nesting(form, names, tokens) {
        return read_nested(arena, form, first, pointers, inside, names, room, next);
    }
    read_unnamed(arena, form, first, pointers, tokens, names, room, next)
}

/// The declarator of this form in front.
#[tactic(auto, using(crate::proofs::Steps::reads))]
#[cycle(read)]
pub fn declarator_in_front<'a>(
    arena: &'a Arena,
    form: Form,
    tokens: &'a [Token],
    names: &mut TypeNames,
    room: u32,
    next: &mut u32,
) -> Result<Read<'a>, ExprFault>
    requires ids { next.old + 16 * length tokens.now < 2 ^ 32 }
    ensures found { Gives result (read room (DeclaratorIn (form_of form)) names.old.now (symbols_of tokens.now)) }
    ensures stands { Over result next.old next.new tokens.now }
    ensures names { AsBefore names.new names.old }
    ensures ids { Spends next.old next.new (length tokens.now) (left result) }
{
    if room == 0 {
        return Err(ExprFault::NoTree);
    }
    let (pointers, rest) = split_pointers(tokens);
    read_direct(
        arena,
        form,
        place_of(tokens),
        pointers,
        rest,
        names,
        room,
        next,
    )
}
