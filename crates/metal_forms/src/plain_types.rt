//! Type names in patterns: those that a hole may have, which are words of a basic type or a tag, and stars.

ghost use Rattle.std.specs.Prelude.{◌≡◌};
ghost use Rattle.c_tree.specs.declared.punctuator.Punctuator.TheVariants as marks;
ghost use Rattle.c_tree.specs.Symbol.{symbol_of, symbols_of};
ghost use Rattle.c_grammar.specs.Symbols.{is_sign};
ghost use Rattle.c_tree.specs.Forget.{view, maybe_view, list_view, primary_view, operation_view, initializer_view};
ghost use Rattle.metal_grammar.specs.Patterns.{is_plain_word, are_plain_words, are_stars, is_plain_declarator, is_plain_type, has_plain_types, primary_has_plain_types, operation_has_plain_types, initializer_has_plain_types, all_have_plain_types, path_has_plain_types, designator_has_plain_types};
ghost use Rattle.metal_written.specs.TypeWords.{are_plain_pointers, are_plain_specs};

use crate::types::is_type_word;
use c_tree::{
    Declarator, Initializer, Kind, Operation, Part, Primary, Punctuator, Specifier, Token,
    TokenKind, Tree, Trees,
};

/// Whether the specifier is a word of basic types, or a tag.
fn is_plain_word(item: &Tree) -> bool
    ensures { result ≡ is_plain_word (view item.now) }
{
    match &item.kind {
        Kind::Part(part) => match part {
            Part::SpecWord { word } => match word.kind {
                TokenKind::Keyword(word) => is_type_word(word),
                _ => false,
            },
            _ => false,
        },
        Kind::Specifier(specifier) => match specifier {
            Specifier::StructTag { .. } => true,
            _ => false,
        },
        _ => false,
    }
}

#[tactic(auto, using(metal_written::proofs::Nodes::lists))]
fn are_plain_words(items: &Trees) -> bool
    ensures { result ≡ are_plain_words (list_view items.now) }
{
    for item in items.all {
        if !is_plain_word(item) {
            return false;
        }
    }
    true
}

/// Whether the token is a star.
fn is_star(token: &Token) -> bool
    ensures { result ≡ is_sign marks.Star (symbol_of token.now) }
{
    match token.kind {
        TokenKind::Punct(sign) => sign as u8 == Punctuator::Star as u8,
        _ => false,
    }
}

#[tactic(auto, using(metal_written::proofs::Nodes::tokens))]
fn are_stars(tokens: &[Token]) -> bool
    ensures { result ≡ are_stars (symbols_of tokens.now) }
{
    for token in tokens {
        if !is_star(token) {
            return false;
        }
    }
    true
}

/// Whether these are stars alone, with nothing behind.
#[tactic(auto, using(metal_written::proofs::Nodes::list_out))]
fn are_plain_pointers(pointers: &[Token], suffixes: &Trees) -> bool
    ensures { result ≡ are_plain_pointers (symbols_of pointers.now) (list_view suffixes.now) }
{
    match suffixes.all {
        [] => are_stars(pointers),
        [_, ..] => false,
    }
}

/// Whether there is no declarator, or one of stars alone.
#[tactic(auto, using(crate::proofs::InTypeNames::unnamed))]
fn is_plain_declarator(declarator: Option<&Tree>) -> bool
    ensures { result ≡ is_plain_declarator (maybe_view declarator.entry) }
{
    let Some(tree) = declarator else {
        return true;
    };
    match &tree.kind {
        Kind::Declarator(declarator) => match declarator {
            Declarator::Unnamed { pointers, suffixes } => are_plain_pointers(pointers, suffixes),
            _ => false,
        },
        _ => false,
    }
}

/// Whether these are specifiers of plain words.
#[tactic(auto, using(metal_written::proofs::Nodes::list_out))]
fn are_plain_specs(specs: &Tree) -> bool
    ensures { result ≡ are_plain_specs (view specs.now) }
{
    match &specs.kind {
        Kind::Specifier(specifier) => match specifier {
            Specifier::Specs { items } => are_plain_words(items),
            _ => false,
        },
        _ => false,
    }
}

/// Whether the type name is plain.
fn is_plain_type(tree: &Tree) -> bool
    ensures { result ≡ is_plain_type (view tree.now) }
{
    match &tree.kind {
        Kind::Specifier(specifier) => match specifier {
            Specifier::TypeName { specs, declarator } => are_plain_specs(specs)
                && is_plain_declarator(*declarator),
            _ => false,
        },
        _ => false,
    }
}

/// Whether each type name in an expression is plain.
#[cycle(plain)]
#[tactic(auto, using(metal_written::proofs::Nodes::lists))]
pub(crate) fn has_plain_types(tree: &Tree) -> bool
    ensures { result ≡ has_plain_types (view tree.now) }
{
    match &tree.kind {
        Kind::Primary(kind) => primary_has_plain_types(kind),
        Kind::Operation(kind) => operation_has_plain_types(kind),
        Kind::Initializer(kind) => initializer_has_plain_types(kind),
        _ => true,
    }
}

#[cycle(plain)]
#[tactic(auto, using(metal_written::proofs::Nodes::lists))]
fn primary_has_plain_types(kind: &Primary) -> bool
    ensures { result ≡ primary_has_plain_types (primary_view kind.now) }
{
    match kind {
        Primary::Paren { inner } => has_plain_types(inner),
        Primary::VaArg { list, of } => has_plain_types(list) && is_plain_type(of),
        Primary::Offsetof { of, path, .. } => is_plain_type(of) && path_has_plain_types(path),
        Primary::Hole { .. } => false,
        Primary::Ident { .. } | Primary::Constant { .. } | Primary::StrConst { .. } => true,
    }
}

#[cycle(plain)]
#[tactic(auto, using(metal_written::proofs::Nodes::lists))]
fn operation_has_plain_types(kind: &Operation) -> bool
    ensures { result ≡ operation_has_plain_types (operation_view kind.now) }
{
    match kind {
        Operation::Index { array, index } => has_plain_types(array) && has_plain_types(index),
        Operation::Call {
            callee,
            arguments,
            ..
        } => has_plain_types(callee) && all_have_plain_types(arguments),
        Operation::Member { operand, .. }
        | Operation::Arrow { operand, .. }
        | Operation::Unary { operand, .. } => has_plain_types(operand),
        Operation::CompoundLit { of, braces } => is_plain_type(of) && has_plain_types(braces),
        Operation::SizeofType { of } => is_plain_type(of),
        Operation::Cast { to, operand } => is_plain_type(to) && has_plain_types(operand),
        Operation::Binary { left, right, .. } | Operation::Assign { left, right, .. } =>
            has_plain_types(left) && has_plain_types(right),
        Operation::Cond {
            condition,
            then,
            otherwise,
        } => has_plain_types(condition) && has_plain_types(then) && has_plain_types(otherwise),
    }
}

#[cycle(plain)]
#[tactic(auto, using(metal_written::proofs::Nodes::lists))]
fn initializer_has_plain_types(kind: &Initializer) -> bool
    ensures { result ≡ initializer_has_plain_types (initializer_view kind.now) }
{
    match kind {
        Initializer::Braces { elements, .. } => all_have_plain_types(elements),
        Initializer::Designated {
            designators,
            initial,
        } => path_has_plain_types(designators) && has_plain_types(initial),
        _ => true,
    }
}

#[cycle(plain)]
#[tactic(auto, using(metal_written::proofs::Nodes::lists))]
fn all_have_plain_types(trees: &Trees) -> bool
    ensures { result ≡ all_have_plain_types (list_view trees.now) }
{
    for tree in trees.all {
        if !has_plain_types(tree) {
            return false;
        }
    }
    true
}

#[cycle(plain)]
#[tactic(auto, using(metal_written::proofs::Nodes::lists))]
fn path_has_plain_types(path: &Trees) -> bool
    ensures { result ≡ path_has_plain_types (list_view path.now) }
{
    for designator in path.all {
        if !designator_has_plain_types(designator) {
            return false;
        }
    }
    true
}

#[cycle(plain)]
#[tactic(auto, using(metal_written::proofs::Nodes::lists))]
fn designator_has_plain_types(tree: &Tree) -> bool
    ensures { result ≡ designator_has_plain_types (view tree.now) }
{
    match &tree.kind {
        Kind::Part(part) => match part {
            Part::IndexDesignator { index } => has_plain_types(index),
            _ => true,
        },
        _ => true,
    }
}
