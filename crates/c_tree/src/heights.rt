//! The height of a tree.

ghost use Rattle.std.specs.Prelude.{◌≡◌, ◌<◌, ◌^◌};
ghost use Rattle.c_tree.specs.Forget.{view, maybe_view, list_view, primary_view, operation_view, initializer_view, specifier_view, declarator_view, part_view, outer_view, statement_view, iteration_view, jump_view};
ghost use Rattle.c_tree.specs.Height.{height_of, height_maybe, height_in, primary_height, operation_height, initializer_height, specifier_height, declarator_height, part_height, outer_height, statement_height, iteration_height, jump_height};

use crate::declaration::{Declarator, Initializer, Outer, Part, Specifier};
use crate::expression::{Operation, Primary};
use crate::statement::{Iteration, Jump, Statement};
use crate::tree::{Kind, Tree, Trees};

/// The height of a tree: a leaf has 1, a node one more than its highest child.
#[cycle(height)]
pub fn height(tree: &Tree) -> u32
    requires { height_of (view tree.now) < 2 ^ 32 }
    ensures { result ≡ height_of (view tree.now) }
{
    match &tree.kind {
        Kind::Primary(kind) => height_of_primary(kind),
        Kind::Operation(kind) => height_of_operation(kind),
        Kind::Initializer(kind) => height_of_initializer(kind),
        Kind::Specifier(kind) => height_of_specifier(kind),
        Kind::Declarator(kind) => height_of_declarator(kind),
        Kind::Part(kind) => height_of_part(kind),
        Kind::Outer(kind) => height_of_outer(kind),
        Kind::Statement(kind) => height_of_statement(kind),
        Kind::Iteration(kind) => height_of_iteration(kind),
        Kind::Jump(kind) => height_of_jump(kind),
    }
}

#[cycle(height)]
fn height_of_primary(kind: &Primary) -> u32
    requires { primary_height (primary_view kind.now) < 2 ^ 32 }
    ensures { result ≡ primary_height (primary_view kind.now) }
{
    match kind {
        Primary::Ident { .. }
        | Primary::Constant { .. }
        | Primary::StrConst { .. }
        | Primary::Hole { .. } => 1,
        Primary::Paren { inner } => height(inner) + 1,
        Primary::VaArg { list, of } => height(list).max(height(of)) + 1,
        Primary::Offsetof { of, path, .. } => height(of).max(highest(path)) + 1,
    }
}

#[cycle(height)]
fn height_of_operation(kind: &Operation) -> u32
    requires { operation_height (operation_view kind.now) < 2 ^ 32 }
    ensures { result ≡ operation_height (operation_view kind.now) }
{
    match kind {
        Operation::Index { array, index } => height(array).max(height(index)) + 1,
        Operation::Call {
            callee,
            arguments,
            ..
        } => height(callee).max(highest(arguments)) + 1,
        Operation::Member { operand, .. }
        | Operation::Arrow { operand, .. }
        | Operation::Unary { operand, .. } => height(operand) + 1,
        Operation::CompoundLit { of, braces } => height(of).max(height(braces)) + 1,
        Operation::SizeofType { of } => height(of) + 1,
        Operation::Cast { to, operand } => height(to).max(height(operand)) + 1,
        Operation::Binary { left, right, .. } | Operation::Assign { left, right, .. } => height(
            left,
        ).max(height(right))
            + 1,
        Operation::Cond {
            condition,
            then,
            otherwise,
        } => height(condition).max(height(then)).max(height(otherwise)) + 1,
    }
}

#[cycle(height)]
fn height_of_initializer(kind: &Initializer) -> u32
    requires { initializer_height (initializer_view kind.now) < 2 ^ 32 }
    ensures { result ≡ initializer_height (initializer_view kind.now) }
{
    match kind {
        Initializer::Init {
            name,
            declarator,
            initial,
        } => height(name).max(height(declarator)).max(height(initial)) + 1,
        Initializer::Braces { elements, .. } => highest(elements) + 1,
        Initializer::Designated {
            designators,
            initial,
        } => highest(designators).max(height(initial)) + 1,
    }
}

#[cycle(height)]
fn height_of_specifier(kind: &Specifier) -> u32
    requires { specifier_height (specifier_view kind.now) < 2 ^ 32 }
    ensures { result ≡ specifier_height (specifier_view kind.now) }
{
    match kind {
        Specifier::TypeName { specs, declarator } | Specifier::Param { specs, declarator } =>
            height(specs).max(height_of_optional(*declarator)) + 1,
        Specifier::Specs { items } => highest(items) + 1,
        Specifier::StructTag { .. } | Specifier::EnumTag { .. } => 1,
        Specifier::StructBody { members, .. } => highest(members) + 1,
        Specifier::EnumBody { enumerators, .. } => highest(enumerators) + 1,
        Specifier::StructDeclaration { specs, declarators } => height(specs).max(highest(
            declarators,
        )) + 1,
        Specifier::BitField { declarator, width } => height_of_optional(*declarator).max(height(
            width,
        )) + 1,
    }
}

#[cycle(height)]
fn height_of_declarator(kind: &Declarator) -> u32
    requires { declarator_height (declarator_view kind.now) < 2 ^ 32 }
    ensures { result ≡ declarator_height (declarator_view kind.now) }
{
    match kind {
        Declarator::Named { suffixes, .. } | Declarator::Unnamed { suffixes, .. } => highest(
            suffixes,
        ) + 1,
        Declarator::Nested {
            inner,
            suffixes,
            ..
        } => height(inner).max(highest(suffixes)) + 1,
    }
}

#[cycle(height)]
fn height_of_part(kind: &Part) -> u32
    requires { part_height (part_view kind.now) < 2 ^ 32 }
    ensures { result ≡ part_height (part_view kind.now) }
{
    match kind {
        Part::SpecWord { .. } | Part::VoidParams | Part::MemberDesignator { .. } => 0,
        Part::ArrayBound { bound, .. } => height_of_optional(*bound),
        Part::Params { params, .. } => highest(params),
        Part::Enumerator { value, .. } => height_of_optional(*value),
        Part::IndexDesignator { index } => height(index),
    }
}

#[cycle(height)]
fn height_of_outer(kind: &Outer) -> u32
    requires { outer_height (outer_view kind.now) < 2 ^ 32 }
    ensures { result ≡ outer_height (outer_view kind.now) }
{
    match kind {
        Outer::Declaration { specs, declarators } => height(specs).max(highest(declarators)) + 1,
        Outer::Function {
            specs,
            declarator,
            body,
        } => height(specs).max(height(declarator)).max(height(body)) + 1,
        Outer::Empty => 1,
    }
}

#[cycle(height)]
fn height_of_statement(kind: &Statement) -> u32
    requires { statement_height (statement_view kind.now) < 2 ^ 32 }
    ensures { result ≡ statement_height (statement_view kind.now) }
{
    match kind {
        Statement::Block { items } => highest(items) + 1,
        Statement::ExprStmt { value } => height_of_optional(*value) + 1,
        Statement::If {
            condition,
            then,
            otherwise,
        } => height(condition)
            .max(height(then))
            .max(height_of_optional(*otherwise))
            + 1,
        Statement::Switch { value, body } | Statement::Case { value, body } => height(value).max(
            height(body),
        ) + 1,
        Statement::Default { body } | Statement::Label { body, .. } => height(body) + 1,
    }
}

#[cycle(height)]
fn height_of_iteration(kind: &Iteration) -> u32
    requires { iteration_height (iteration_view kind.now) < 2 ^ 32 }
    ensures { result ≡ iteration_height (iteration_view kind.now) }
{
    match kind {
        Iteration::While { condition, body } => height(condition).max(height(body)) + 1,
        Iteration::Do { body, condition } => height(body).max(height(condition)) + 1,
        Iteration::For {
            first,
            condition,
            step,
            body,
        } => height_of_optional(*first)
            .max(height_of_optional(*condition))
            .max(height_of_optional(*step))
            .max(height(body))
            + 1,
        Iteration::ForDeclaration {
            declaration,
            condition,
            step,
            body,
        } => height(declaration)
            .max(height_of_optional(*condition))
            .max(height_of_optional(*step))
            .max(height(body))
            + 1,
    }
}

#[cycle(height)]
fn height_of_jump(kind: &Jump) -> u32
    requires { jump_height (jump_view kind.now) < 2 ^ 32 }
    ensures { result ≡ jump_height (jump_view kind.now) }
{
    match kind {
        Jump::Goto { .. } | Jump::Continue | Jump::Break => 1,
        Jump::Return { value } => height_of_optional(*value) + 1,
    }
}

/// The height of a tree, or 0 for none.
#[cycle(height)]
fn height_of_optional(tree: Option<&Tree>) -> u32
    requires { height_maybe (maybe_view tree) < 2 ^ 32 }
    ensures { result ≡ height_maybe (maybe_view tree.entry) }
{
    match tree {
        None => 0,
        Some(tree) => height(tree),
    }
}

/// The height of the highest of these trees, or 0.
#[cycle(height)]
fn highest(trees: &Trees) -> u32
    requires { height_in (list_view trees.now) < 2 ^ 32 }
    ensures { result ≡ height_in (list_view trees.now) }
{
    let mut most = 0u32;
    for tree in trees.all {
        most = most.max(height(tree));
    }
    most
}
