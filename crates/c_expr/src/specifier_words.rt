//! The words of specifiers, and which of them may stand together (ISO 9899:1990, 6.5.1, 6.5.2, 6.5.3).

ghost use Rattle.std.specs.Prelude.{◌≡◌, ◌++◌, cond, option_to_list, IfOk};
ghost use Rattle.c_tree.specs.Forget.{view, view_all};
ghost use Rattle.c_tree.specs.Symbol.{symbol_of, symbols_of};
ghost use Rattle.c_grammar.specs.Symbols.{begins};
ghost use Rattle.c_grammar.specs.Specifiers.{is_storage, is_type_word, is_specifier, begins_tag, goes_on, begins_specifiers, types, type_words_of, other_types_of, storages_of, inlines_of, type_words, other_types, storages, inlines, is_one_type, are_allowed, fit};
ghost use Rattle.c_expr.specs.SpecifierPlaces.{place_of};

use bumpalo::collections::into_bump_slice;
use c_grammar::TypeNames;
use c_tree::{Arena, Keyword, Kind, Part, Token, TokenKind, Tree};
use std::alloc::AllocError;
use type_values::is_basic;

/// Where specifiers stand, which decides what words they may have.
#[derive(Clone, Copy, Debug, PartialEq, Eq)]
pub enum SpecifierPlace {
    /// In a type name (6.5.5): no storage word, and no `inline`.
    InTypeName,
    /// In a parameter (6.5.4.3): at most `register`, and no `inline`.
    InParam,
    /// In a declaration (6.5): at most one storage word, and maybe `inline`.
    InDeclaration,
}

/// Whether it says how something is stored (6.5.1).
fn is_storage(word: Keyword) -> bool
    ensures { result ≡ is_storage word }
{
    match word {
        Keyword::Typedef | Keyword::Extern | Keyword::Static | Keyword::Auto | Keyword::Register =>
            true,
        _ => false,
    }
}

/// Whether it is a word of basic types (6.5.2).
pub fn is_type_word(word: Keyword) -> bool
    ensures { result ≡ is_type_word word }
{
    match word {
        Keyword::Void
        | Keyword::Char
        | Keyword::Short
        | Keyword::Int
        | Keyword::Long
        | Keyword::Float
        | Keyword::Double
        | Keyword::Signed
        | Keyword::Unsigned
        | Keyword::Bool
        | Keyword::Int128
        | Keyword::Float32
        | Keyword::Float32x
        | Keyword::Float64
        | Keyword::Float64x
        | Keyword::Float128
        | Keyword::GnuFloat128
        | Keyword::BuiltinVaList => true,
        _ => false,
    }
}

/// Whether the token is one more specifier behind others, of which `typed` says whether they have a type.
fn is_specifier(names: &TypeNames, typed: bool, token: &Token) -> bool
    ensures { result ≡ is_specifier names.now.now typed (symbol_of token.now) }
{
    match token.kind {
        TokenKind::Word(_) => !typed && names.is_type(token.name),
        TokenKind::Keyword(word) => match word {
            Keyword::Inline | Keyword::Const | Keyword::Volatile | Keyword::Restrict => true,
            _ => is_storage(word) || is_type_word(word),
        },
        _ => false,
    }
}

/// Whether a specifier of a structure, union or enumeration begins with the token.
pub fn begins_tag(token: &Token) -> bool
    ensures { result ≡ begins_tag (symbol_of token.now) }
{
    match token.kind {
        TokenKind::Keyword(word) => match word {
            Keyword::Struct | Keyword::Union | Keyword::Enum => true,
            _ => false,
        },
        _ => false,
    }
}

/// Whether the token goes on with specifiers.
pub fn goes_on(names: &TypeNames, typed: bool, token: &Token) -> bool
    ensures { result ≡ goes_on names.now.now typed (symbol_of token.now) }
{
    is_specifier(names, typed, token) || begins_tag(token)
}

/// Whether specifiers stand in front.
pub fn begins_specifiers(names: &TypeNames, tokens: &[Token]) -> bool
    ensures { result ≡ begins (begins_specifiers names.now.now) (symbols_of tokens.now) }
{
    match tokens {
        [] => false,
        [front, ..] => goes_on(names, false, front),
    }
}

/// Whether the specifier is a type, or a word of one.
pub fn says_type(tree: &Tree) -> bool
    ensures { result ≡ types (view tree.now) }
{
    match &tree.kind {
        Kind::Part(part) => match part {
            Part::SpecWord { word } => match word.kind {
                TokenKind::Word(_) => true,
                TokenKind::Keyword(word) => is_type_word(word),
                _ => false,
            },
            _ => false,
        },
        Kind::Specifier(_) => true,
        _ => false,
    }
}

/// The word of a basic type that the specifier is.
fn type_word_of(item: &Tree) -> Option<Keyword>
    ensures { option_to_list result ≡ type_words_of (view item.now) }
{
    match &item.kind {
        Kind::Part(part) => match part {
            Part::SpecWord { word } => match word.kind {
                TokenKind::Keyword(word) => if is_type_word(word) { Some(word) } else { None },
                _ => None,
            },
            _ => None,
        },
        _ => None,
    }
}

/// The storage word that the specifier is.
fn storage_of(item: &Tree) -> Option<Keyword>
    ensures { option_to_list result ≡ storages_of (view item.now) }
{
    match &item.kind {
        Kind::Part(part) => match part {
            Part::SpecWord { word } => match word.kind {
                TokenKind::Keyword(word) => if is_storage(word) { Some(word) } else { None },
                _ => None,
            },
            _ => None,
        },
        _ => None,
    }
}

/// Whether the specifier is a type by itself: a name, or a structure, union or enumeration.
fn is_other_type(item: &Tree) -> bool
    ensures { cond result 1 0 ≡ other_types_of (view item.now) }
{
    match &item.kind {
        Kind::Part(part) => match part {
            Part::SpecWord { word } => match word.kind {
                TokenKind::Word(_) => true,
                _ => false,
            },
            _ => false,
        },
        Kind::Specifier(_) => true,
        _ => false,
    }
}

/// Whether the specifier is `inline`.
fn is_inline(item: &Tree) -> bool
    ensures { result ≡ inlines_of (view item.now) }
{
    match &item.kind {
        Kind::Part(part) => match part {
            Part::SpecWord { word } => match word.kind {
                TokenKind::Keyword(Keyword::Inline) => true,
                _ => false,
            },
            _ => false,
        },
        _ => false,
    }
}

/// Adds the word, if there is one.
fn add<'a>(words: &mut Vec<Keyword, &'a Arena>, word: Option<Keyword>) -> Result<(), AllocError>
    ensures { IfOk result (λ _. words.new.items ≡ words.old.items ++ option_to_list word) }
{
    match word {
        Some(word) => {
            words.push(word)?;
            Ok(())
        }
        None => Ok(()),
    }
}

/// The words of basic types among the specifiers.
fn type_words<'a>(arena: &'a Arena, items: &[Tree]) -> Result<&'a [Keyword], AllocError>
    ensures { IfOk result (λ words. words.now ≡ type_words (view_all items.now)) }
{
    let mut words = Vec::new(arena);
    for item in items {
        add(&mut words, type_word_of(item))?;
    }
    Ok(into_bump_slice(words))
}

/// The storage words among the specifiers.
fn storages<'a>(arena: &'a Arena, items: &[Tree]) -> Result<&'a [Keyword], AllocError>
    ensures { IfOk result (λ words. words.now ≡ storages (view_all items.now)) }
{
    let mut words = Vec::new(arena);
    for item in items {
        add(&mut words, storage_of(item))?;
    }
    Ok(into_bump_slice(words))
}

/// How many of the specifiers are types by themselves.
fn other_types(items: &[Tree]) -> usize
    ensures { result ≡ other_types (view_all items.now) }
{
    let mut count = 0;
    for item in items {
        count += usize::from(is_other_type(item));
    }
    count
}

/// Whether `inline` is among the specifiers.
fn inlines(items: &[Tree]) -> bool
    ensures { result ≡ inlines (view_all items.now) }
{
    for item in items {
        if is_inline(item) {
            return true;
        }
    }
    false
}

/// Whether these words of basic types and as many other types are exactly one type.
fn is_one_type(words: &[Keyword], others: usize) -> bool
    ensures { result ≡ is_one_type words.now others }
{
    if others == 0 {
        return is_basic(words);
    }
    match words {
        [] => others == 1,
        _ => false,
    }
}

/// Whether specifiers there may have these storage words.
fn are_allowed(place: SpecifierPlace, words: &[Keyword]) -> bool
    ensures { result ≡ are_allowed (place_of place) words.now }
{
    match words {
        [] => true,
        [word] => match place {
            SpecifierPlace::InTypeName => false,
            SpecifierPlace::InParam => match word {
                Keyword::Register => true,
                _ => false,
            },
            SpecifierPlace::InDeclaration => true,
        },
        _ => false,
    }
}

/// Whether these may be all specifiers there.
pub fn fit<'a>(arena: &'a Arena, place: SpecifierPlace, items: &[Tree]) -> Result<bool, AllocError>
    ensures { IfOk result (λ fits. fits ≡ fit (place_of place) (view_all items.now)) }
{
    let words = type_words(arena, items)?;
    let storages = storages(arena, items)?;
    let may_inline = match place {
        SpecifierPlace::InDeclaration => true,
        _ => false,
    };
    Ok(
        is_one_type(words, other_types(items))
            && are_allowed(place, storages)
            && (may_inline || !inlines(items)),
    )
}
