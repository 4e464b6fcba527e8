//! Reads primary expressions (ISO 9899:1990, 6.3.1), and the built-in forms of GNU C.

ghost use Rattle.std.specs.Prelude.{◌≡◌, ◌+◌, ◌-◌, ◌*◌, ◌<◌, ◌≤◌, ◌^◌, List, true, length};
ghost use Rattle.c_tree.specs.Symbol.{Sign, Reserved, symbol_of, symbols_of};
ghost use Rattle.c_tree.specs.Syntax as kinds;
ghost use Rattle.c_tree.specs.Height.{height_of, height_in};
ghost use Rattle.c_tree.specs.Forget.{view, list_view};
ghost use Rattle.c_grammar.specs.Symbols.{begins, is_string, run_of, after_run};
ghost use Rattle.c_grammar.specs.Ways.ExpressionSteps as steps;
ghost use Rattle.c_grammar.specs.Found.{made};
ghost use Rattle.c_grammar.specs.Reading.{read};
ghost use Rattle.c_tree.specs.declared.keyword.Keyword.TheVariants as words;
ghost use Rattle.c_tree.specs.declared.punctuator.Punctuator.TheVariants as marks;
ghost use Rattle.c_tree.specs.declared.token.Token.{Token};
ghost use Rattle.c_tree.specs.Node as nodes;
ghost use Rattle.c_tree.specs.Views.{node_of, nodes_of};
ghost use Rattle.c_expr.specs.Standing.{Makes, Over, OverPath, Passes, IsFirst};
ghost use Rattle.c_expr.specs.Gives.{Gives, GivesList, AsBefore, left, left_by_list, Spends};

use crate::expressions::expression_in_front;
use crate::fault::ExprFault;
use crate::nodes::{Read, ReadList, list_of, node, part};
use crate::operators::{ASSIGNMENT_LEVEL, COMMA_LEVEL};
use crate::symbols::{Run, after_sign, place_of, split_run, take_word};
use crate::types::type_name_in_front;
use c_grammar::TypeNames;
use c_tree::{Arena, Keyword, Kind, Part, Place, Primary, Punctuator, Token, TokenKind};

/// A string literal with those that follow it (6.1.4).
fn read_strings<'a>(
    arena: &'a Arena,
    first: Place,
    tokens: &'a [Token],
    room: u32,
    next: &mut u32,
) -> Result<Read<'a>, ExprFault>
    requires string { begins is_string (symbols_of tokens.now) ≡ true }
    requires ids { next.old + 16 * length tokens.now < 2 ^ 32 }
    ensures found { Gives result (made room (kinds.Primary (kinds.StrConst (run_of is_string (symbols_of tokens.now)))) (after_run is_string (symbols_of tokens.now))) }
    ensures stands { IsFirst first tokens.now → Over result next.old next.new tokens.now }
    ensures ids { Spends next.old next.new (length tokens.now) (left result) }
{
    let (literals, rest) = split_run(Run::Strings, tokens);
    let kind = Kind::Primary(Primary::StrConst { literals });
    node(arena, kind, first, 0, rest, room, next)
}

/// `__builtin_va_arg` of these.
fn va_arg_of<'a>(
    arena: &'a Arena,
    first: Place,
    list: Read<'a>,
    of: Read<'a>,
    rest: &'a [Token],
    room: u32,
    next: &mut u32,
) -> Result<Read<'a>, ExprFault>
    requires list { list.height ≡ height_of (view list.tree.now) }
    requires of { of.height ≡ height_of (view of.tree.now) }
    requires ids { next.old + 1 < 2 ^ 32 }
    ensures found { Gives result (made room (kinds.Primary (kinds.VaArg (view list.entry.tree.now) (view of.entry.tree.now))) (symbols_of rest.now)) }
    ensures node { Makes result next.old next.new first (nodes.Primary (nodes.VaArg (node_of list.entry.tree.now) (node_of of.entry.tree.now))) rest.now }
    ensures ids { (next.old ≤ next.new) × (next.new ≤ next.old + 1) × (left result ≤ length rest.now) }
{
    let highest = list.height.max(of.height);
    let kind = Kind::Primary(Primary::VaArg {
        list: list.tree,
        of: of.tree,
    });
    node(arena, kind, first, highest, rest, room, next)
}

/// `__builtin_offsetof` of these.
fn offsetof_of<'a>(
    arena: &'a Arena,
    first: Place,
    of: Read<'a>,
    member: &'a Token,
    path: ReadList<'a>,
    room: u32,
    next: &mut u32,
) -> Result<Read<'a>, ExprFault>
    requires of { of.height ≡ height_of (view of.tree.now) }
    requires path { path.height ≡ height_in (list_view path.trees) }
    requires ids { next.old + 1 < 2 ^ 32 }
    ensures found { Gives result (made room (kinds.Primary (kinds.Offsetof (view of.entry.tree.now) (symbol_of member.now) (list_view path.entry.trees))) (symbols_of path.entry.rest.now)) }
    ensures node { Makes result next.old next.new first (nodes.Primary (nodes.Offsetof (node_of of.entry.tree.now) member.now (nodes_of path.entry.trees))) path.entry.rest.now }
    ensures ids { (next.old ≤ next.new) × (next.new ≤ next.old + 1) × (left result ≤ length path.entry.rest.now) }
{
    let highest = of.height.max(path.height);
    let kind = Kind::Primary(Primary::Offsetof {
        of: of.tree,
        member,
        path: path.trees,
    });
    node(arena, kind, first, highest, path.rest, room, next)
}

/// A member or an index behind the first member of an offset.
#[cycle(read)]
fn read_designator<'a>(
    arena: &'a Arena,
    tokens: &'a [Token],
    names: &mut TypeNames,
    room: u32,
    next: &mut u32,
) -> Result<Read<'a>, ExprFault>
    requires positive { 0 < room }
    requires ids { next.old + 16 * length tokens.now < 2 ^ 32 }
    ensures found { Gives result (steps.read_designator (read (room - 1)) names.old.now (symbols_of tokens.now)) }
    ensures stands { Over result next.old next.new tokens.now }
    ensures names { AsBefore names.new names.old }
    ensures ids { Spends next.old next.new (length tokens.now) (left result) }
{
    let first = place_of(tokens);
    if let Some(rest) = after_sign(Punctuator::Dot, tokens) {
        let Some((member, rest)) = take_word(rest) else {
            return Err(ExprFault::NoTree);
        };
        let kind = Kind::Part(Part::MemberDesignator { member });
        return part(arena, kind, first, 0, rest, next);
    }
    let Some(inside) = after_sign(Punctuator::OpenBracket, tokens) else {
        return Err(ExprFault::NoTree);
    };
    let index = expression_in_front(arena, COMMA_LEVEL, inside, names, room - 1, next)?;
    let Some(rest) = after_sign(Punctuator::CloseBracket, index.rest) else {
        return Err(ExprFault::NoTree);
    };
    let kind = Kind::Part(Part::IndexDesignator { index: index.tree });
    part(arena, kind, first, index.height, rest, next)
}

/// Designators up to the parenthesis.
#[tactic(auto, using(crate::proofs::ListSteps::paths))]
#[cycle(read)]
fn read_path<'a>(
    arena: &'a Arena,
    tokens: &'a [Token],
    names: &mut TypeNames,
    room: u32,
    next: &mut u32,
) -> Result<ReadList<'a>, ExprFault>
    requires positive { 0 < room }
    requires ids { next.old + 16 * length tokens.now < 2 ^ 32 }
    ensures found { GivesList result (steps.read_path (read (room - 1)) names.old.now (length (symbols_of tokens.now)) (symbols_of tokens.now)) }
    ensures stands { OverPath result next.old next.new tokens.now }
    ensures names { AsBefore names.new names.old }
    ensures ids { Spends next.old next.new (length tokens.now) (left_by_list result) }
{
    let mut all = Vec::new(arena);
    let mut highest = 0;
    let mut rest = tokens;
    let mut fuel = tokens.len();
    while fuel != 0 {
        if let Some(end) = after_sign(Punctuator::CloseParen, rest) {
            return Ok(ReadList {
                trees: list_of(all),
                rest: end,
                height: highest,
            });
        }
        fuel -= 1;
        let designator = read_designator(arena, rest, names, room, next)?;
        highest = designator.height.max(highest);
        all.push(*designator.tree)?;
        rest = designator.rest;
    }
    Err(ExprFault::NoTree)
}

/// What follows `__builtin_va_arg`, of which `first` is the place.
#[cycle(read)]
fn read_va_arg<'a>(
    arena: &'a Arena,
    first: Place,
    tokens: &'a [Token],
    names: &mut TypeNames,
    room: u32,
    next: &mut u32,
) -> Result<Read<'a>, ExprFault>
    requires positive { 0 < room }
    requires ids { next.old + 16 * length tokens.now < 2 ^ 32 }
    ensures found { Gives result (steps.read_va_arg (read (room - 1)) room names.old.now (symbols_of tokens.now)) }
    ensures stands { (ts : List Token) → IsFirst first ts → Passes (Reserved words.BuiltinVaArg) ts tokens.now → Over result next.old next.new ts }
    ensures names { AsBefore names.new names.old }
    ensures ids { Spends next.old next.new (length tokens.now) (left result) }
{
    let Some(inside) = after_sign(Punctuator::OpenParen, tokens) else {
        return Err(ExprFault::NoTree);
    };
    let list = expression_in_front(arena, ASSIGNMENT_LEVEL, inside, names, room - 1, next)?;
    let Some(rest) = after_sign(Punctuator::Comma, list.rest) else {
        return Err(ExprFault::NoTree);
    };
    let of = type_name_in_front(arena, rest, names, room - 1, next)?;
    let Some(end) = after_sign(Punctuator::CloseParen, of.rest) else {
        return Err(ExprFault::NoTree);
    };
    va_arg_of(arena, first, list, of, end, room, next)
}

/// What follows `__builtin_offsetof`, of which `first` is the place.
#[cycle(read)]
fn read_offsetof<'a>(
    arena: &'a Arena,
    first: Place,
    tokens: &'a [Token],
    names: &mut TypeNames,
    room: u32,
    next: &mut u32,
) -> Result<Read<'a>, ExprFault>
    requires positive { 0 < room }
    requires ids { next.old + 16 * length tokens.now < 2 ^ 32 }
    ensures found { Gives result (steps.read_offsetof (read (room - 1)) room names.old.now (symbols_of tokens.now)) }
    ensures stands { (ts : List Token) → IsFirst first ts → Passes (Reserved words.BuiltinOffsetof) ts tokens.now → Over result next.old next.new ts }
    ensures names { AsBefore names.new names.old }
    ensures ids { Spends next.old next.new (length tokens.now) (left result) }
{
    let Some(inside) = after_sign(Punctuator::OpenParen, tokens) else {
        return Err(ExprFault::NoTree);
    };
    let of = type_name_in_front(arena, inside, names, room - 1, next)?;
    let Some(rest) = after_sign(Punctuator::Comma, of.rest) else {
        return Err(ExprFault::NoTree);
    };
    let Some((member, rest)) = take_word(rest) else {
        return Err(ExprFault::NoTree);
    };
    let path = read_path(arena, rest, names, room, next)?;
    offsetof_of(arena, first, of, member, path, room, next)
}

/// An expression in parentheses.
#[cycle(read)]
fn read_paren<'a>(
    arena: &'a Arena,
    tokens: &'a [Token],
    names: &mut TypeNames,
    room: u32,
    next: &mut u32,
) -> Result<Read<'a>, ExprFault>
    requires positive { 0 < room }
    requires ids { next.old + 16 * length tokens.now < 2 ^ 32 }
    ensures found { Gives result (steps.read_paren (read (room - 1)) room names.old.now (symbols_of tokens.now)) }
    ensures stands { Over result next.old next.new tokens.now }
    ensures names { AsBefore names.new names.old }
    ensures ids { Spends next.old next.new (length tokens.now) (left result) }
{
    let Some(inside) = after_sign(Punctuator::OpenParen, tokens) else {
        return Err(ExprFault::NoTree);
    };
    let inner = expression_in_front(arena, COMMA_LEVEL, inside, names, room - 1, next)?;
    let Some(rest) = after_sign(Punctuator::CloseParen, inner.rest) else {
        return Err(ExprFault::NoTree);
    };
    let kind = Kind::Primary(Primary::Paren { inner: inner.tree });
    node(
        arena,
        kind,
        place_of(tokens),
        inner.height,
        rest,
        room,
        next,
    )
}

/// A name that is no type here, a constant, string literals, an expression in parentheses, or a built-in form.
#[tactic(auto, using(crate::proofs::Steps::runs))]
#[cycle(read)]
pub(crate) fn read_primary<'a>(
    arena: &'a Arena,
    tokens: &'a [Token],
    names: &mut TypeNames,
    room: u32,
    next: &mut u32,
) -> Result<Read<'a>, ExprFault>
    requires positive { 0 < room }
    requires ids { next.old + 16 * length tokens.now < 2 ^ 32 }
    ensures found { Gives result (steps.read_primary (read (room - 1)) room names.old.now (symbols_of tokens.now)) }
    ensures stands { Over result next.old next.new tokens.now }
    ensures names { AsBefore names.new names.old }
    ensures ids { Spends next.old next.new (length tokens.now) (left result) }
{
    match tokens {
        [] => Err(ExprFault::NoTree),
        [front, rest @ ..] => {
            let first = front.place;
            match front.kind {
                TokenKind::Word(_) => {
                    if names.is_type(front.name) {
                        return Err(ExprFault::NoTree);
                    }
                    let kind = Kind::Primary(Primary::Ident { name: front });
                    node(arena, kind, first, 0, rest, room, next)
                }
                TokenKind::Int { .. } | TokenKind::Float(_) | TokenKind::Char { .. } => {
                    let kind = Kind::Primary(Primary::Constant { token: front });
                    node(arena, kind, first, 0, rest, room, next)
                }
                TokenKind::Str { .. } => read_strings(arena, first, tokens, room, next),
                TokenKind::Punct(_) => read_paren(arena, tokens, names, room, next),
                TokenKind::Keyword(word) => match word {
                    Keyword::BuiltinVaArg => read_va_arg(arena, first, rest, names, room, next),
                    Keyword::BuiltinOffsetof => {
                        read_offsetof(arena, first, rest, names, room, next)
                    }
                    _ => Err(ExprFault::NoTree),
                },
            }
        }
    }
}
