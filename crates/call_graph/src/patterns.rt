//! The names that the patterns of a checker call.

ghost use Rattle.std.specs.Prelude.{◌≡◌, map};
ghost use Rattle.std.specs.List.{list_any};
ghost use Rattle.c_tree.specs.Forget.{view, maybe_view, list_view, primary_view, operation_view, initializer_view, specifier_view, declarator_view, part_view};
ghost use Rattle.c_tree.specs.Symbol.{symbol_of};
ghost use Rattle.call_graph.specs.Callees.{is_word, is_name, calls, calls_maybe, any_calls, calls_in_primary, calls_in_operation, calls_in_initializer, calls_in_specifier, calls_in_declarator, calls_in_part};
ghost use Rattle.call_graph.specs.Followed.{item_calls, items_call, rule_calls, machine_calls};
ghost use Rattle.metal_tree.specs.Views.{item_view, items_view, rule_view};
ghost use Rattle.metal_tree.specs.Whole.{machine_view};

use c_tree::{
    Declarator, Initializer, Kind, Operation, Part, Primary, Specifier, Token, TokenKind, Tree,
    Trees,
};
use metal_tree::{Alternative, Item, Machine, Rule};

// Whether a token is this name.
fn is_word(token: &Token, name: u32) -> bool
    ensures { result ≡ is_word name (symbol_of token.now) }
{
    match token.kind {
        TokenKind::Word(_) => token.name == name,
        _ => false,
    }
}

// Whether a tree is this name, by itself or in parentheses.
fn is_name(tree: &Tree, name: u32) -> bool
    ensures { result ≡ is_name name (view tree.now) }
{
    match &tree.kind {
        Kind::Primary(Primary::Ident { name: token }) => is_word(token, name),
        Kind::Primary(Primary::Paren { inner }) => is_name(inner, name),
        _ => false,
    }
}

// Whether this name is called in a tree.
#[cycle(calls)]
fn calls(tree: &Tree, name: u32) -> bool
    ensures { result ≡ calls name (view tree.now) }
{
    match &tree.kind {
        Kind::Primary(kind) => calls_in_primary(kind, name),
        Kind::Operation(kind) => calls_in_operation(kind, name),
        Kind::Initializer(kind) => calls_in_initializer(kind, name),
        Kind::Specifier(kind) => calls_in_specifier(kind, name),
        Kind::Declarator(kind) => calls_in_declarator(kind, name),
        Kind::Part(kind) => calls_in_part(kind, name),
        Kind::Outer(_) | Kind::Statement(_) | Kind::Iteration(_) | Kind::Jump(_) => false,
    }
}

#[cycle(calls)]
fn calls_in_primary(kind: &Primary, name: u32) -> bool
    ensures { result ≡ calls_in_primary name (primary_view kind.now) }
{
    match kind {
        Primary::Ident { .. }
        | Primary::Constant { .. }
        | Primary::StrConst { .. }
        | Primary::Hole { .. } => false,
        Primary::Paren { inner } => calls(inner, name),
        Primary::VaArg { list, of } => calls(list, name) || calls(of, name),
        Primary::Offsetof { of, path, .. } => calls(of, name) || any_calls(path, name),
    }
}

#[cycle(calls)]
fn calls_in_operation(kind: &Operation, name: u32) -> bool
    ensures { result ≡ calls_in_operation name (operation_view kind.now) }
{
    match kind {
        Operation::Index { array, index } => calls(array, name) || calls(index, name),
        Operation::Call {
            callee,
            arguments,
            ..
        } => is_name(callee, name) || calls(callee, name) || any_calls(arguments, name),
        Operation::Member { operand, .. }
        | Operation::Arrow { operand, .. }
        | Operation::Unary { operand, .. } => calls(operand, name),
        Operation::CompoundLit { of, braces } => calls(of, name) || calls(braces, name),
        Operation::SizeofType { of } => calls(of, name),
        Operation::Cast { to, operand } => calls(to, name) || calls(operand, name),
        Operation::Binary { left, right, .. } | Operation::Assign { left, right, .. } => calls(
            left, name,
        ) || calls(right, name),
        Operation::Cond {
            condition,
            then,
            otherwise,
        } => calls(condition, name) || calls(then, name) || calls(otherwise, name),
    }
}

#[cycle(calls)]
fn calls_in_initializer(kind: &Initializer, name: u32) -> bool
    ensures { result ≡ calls_in_initializer name (initializer_view kind.now) }
{
    match kind {
        Initializer::Init {
            name: declared,
            declarator,
            initial,
        } => calls(declared, name) || calls(declarator, name) || calls(initial, name),
        Initializer::Braces { elements, .. } => any_calls(elements, name),
        Initializer::Designated {
            designators,
            initial,
        } => any_calls(designators, name) || calls(initial, name),
    }
}

#[cycle(calls)]
fn calls_in_specifier(kind: &Specifier, name: u32) -> bool
    ensures { result ≡ calls_in_specifier name (specifier_view kind.now) }
{
    match kind {
        Specifier::TypeName { specs, declarator } | Specifier::Param { specs, declarator } => calls(
            specs, name,
        ) || calls_maybe(*declarator, name),
        Specifier::Specs { items } => any_calls(items, name),
        Specifier::StructTag { .. } | Specifier::EnumTag { .. } => false,
        Specifier::StructBody { members, .. } => any_calls(members, name),
        Specifier::EnumBody { enumerators, .. } => any_calls(enumerators, name),
        Specifier::StructDeclaration { specs, declarators } => {
            calls(specs, name) || any_calls(declarators, name)
        }
        Specifier::BitField { declarator, width } => {
            calls_maybe(*declarator, name) || calls(width, name)
        }
    }
}

#[cycle(calls)]
fn calls_in_declarator(kind: &Declarator, name: u32) -> bool
    ensures { result ≡ calls_in_declarator name (declarator_view kind.now) }
{
    match kind {
        Declarator::Named { suffixes, .. } | Declarator::Unnamed { suffixes, .. } => {
            any_calls(suffixes, name)
        }
        Declarator::Nested {
            inner,
            suffixes,
            ..
        } => calls(inner, name) || any_calls(suffixes, name),
    }
}

#[cycle(calls)]
fn calls_in_part(kind: &Part, name: u32) -> bool
    ensures { result ≡ calls_in_part name (part_view kind.now) }
{
    match kind {
        Part::SpecWord { .. } | Part::VoidParams | Part::MemberDesignator { .. } => false,
        Part::ArrayBound { bound, .. } => calls_maybe(*bound, name),
        Part::Params { params, .. } => any_calls(params, name),
        Part::Enumerator { value, .. } => calls_maybe(*value, name),
        Part::IndexDesignator { index } => calls(index, name),
    }
}

#[cycle(calls)]
fn calls_maybe(tree: Option<&Tree>, name: u32) -> bool
    ensures { result ≡ calls_maybe name (maybe_view tree.entry) }
{
    match tree {
        None => false,
        Some(tree) => calls(tree, name),
    }
}

#[cycle(calls)]
fn any_calls(trees: &Trees, name: u32) -> bool
    ensures { result ≡ any_calls name (list_view trees.now) }
{
    for tree in trees.all {
        if calls(tree, name) {
            return true;
        }
    }
    false
}

// Whether an item is a base pattern that calls this name.
fn item_calls(item: &Item, name: u32) -> bool
    ensures { result ≡ item_calls name (item_view item.now) }
{
    match item {
        Item::Base(tree) => calls(tree, name),
        Item::Call(_) | Item::EndOfPath => false,
    }
}

// Whether one of the items of an alternative does.
fn alternative_calls(alternative: &Alternative, name: u32) -> bool
    ensures { result ≡ items_call name (items_view alternative.now) }
{
    for item in alternative.items {
        if item_calls(item, name) {
            return true;
        }
    }
    false
}

// Whether one of the alternatives of a rule does.
fn rule_calls(rule: &Rule, name: u32) -> bool
    ensures { result ≡ rule_calls name (rule_view rule.now) }
{
    for alternative in rule.pattern.alternatives {
        if alternative_calls(alternative, name) {
            return true;
        }
    }
    false
}

/// Whether this name stands in callee position in a base pattern of a checker. The work is that of going over all its patterns.
pub(crate) fn machine_calls(machine: &Machine, name: u32) -> bool
    ensures { result ≡ machine_calls name (machine_view machine.now) }
{
    for rule in machine.rules {
        if rule_calls(rule, name) {
            return true;
        }
    }
    false
}
