//! The tokens of a tree among those from its first one on.

ghost use Rattle.std.specs.Prelude.{◌≡◌, length, take};
ghost use Rattle.c_tree.specs.Phrase.{◌⨾◌, sign};
ghost use Rattle.c_tree.specs.declared.punctuator.Punctuator.TheVariants.{OpenParen, CloseParen};
ghost use Rattle.c_tree.specs.Forget.{view, maybe_view, list_view, primary_view, operation_view, initializer_view, specifier_view, declarator_view, part_view, outer_view, statement_view, iteration_view, jump_view};
ghost use Rattle.c_tree.specs.Tokens.{tokens_of, phrase_of, maybe_phrase, assigned_phrase, else_phrase, row_phrase, list_phrase, unary_phrase, primary_phrase, operation_phrase, initializer_phrase, specifier_phrase, declarator_phrase, part_phrase, outer_phrase, statement_phrase, iteration_phrase, jump_phrase};
ghost use Rattle.c_tree.specs.PassedTokens.Behind.{behind};

use crate::declaration::{Declarator, Initializer, Outer, Part, Specifier};
use crate::expression::{Operation, Primary};
use crate::operator::UnaryOp;
use crate::passed_tokens::passed::{
    behind_all, behind_comma_if, behind_ellipsis_if, behind_one, behind_tag,
};
use crate::statement::{Iteration, Jump, Statement};
use crate::token::Token;
use crate::tree::{Kind, Tree, Trees};

/// As many of these tokens as the line of the grammar of a tree has. They are the tree's own where these are the tokens of its
/// file from its first one on.
pub fn tree_tokens<'t>(tree: &Tree, tokens: &'t [Token]) -> &'t [Token]
    ensures { result.now ≡ take (length (tokens_of (view tree.now))) tokens.now }
{
    let rest = behind_tree(tree, tokens);
    &tokens[..tokens.len() - rest.len()]
}

/// What is left behind the tokens of a tree.
#[cycle(behind)]
fn behind_tree<'t>(tree: &Tree, tokens: &'t [Token]) -> &'t [Token]
    ensures { result.now ≡ behind (phrase_of (view tree.now)) tokens.now }
{
    match &tree.kind {
        Kind::Primary(kind) => behind_primary(kind, tokens),
        Kind::Operation(kind) => behind_operation(kind, tokens),
        Kind::Initializer(kind) => behind_initializer(kind, tokens),
        Kind::Specifier(kind) => behind_specifier(kind, tokens),
        Kind::Declarator(kind) => behind_declarator(kind, tokens),
        Kind::Part(kind) => behind_part(kind, tokens),
        Kind::Outer(kind) => behind_outer(kind, tokens),
        Kind::Statement(kind) => behind_statement(kind, tokens),
        Kind::Iteration(kind) => behind_iteration(kind, tokens),
        Kind::Jump(kind) => behind_jump(kind, tokens),
    }
}

#[cycle(behind)]
fn behind_primary<'t>(kind: &Primary, tokens: &'t [Token]) -> &'t [Token]
    ensures { result.now ≡ behind (primary_phrase (primary_view kind.now)) tokens.now }
{
    match kind {
        Primary::Ident { .. } => behind_one(tokens),
        Primary::Constant { .. } => behind_one(tokens),
        Primary::StrConst { literals } => behind_all(literals, tokens),
        Primary::Paren { inner } => behind_parenthesized(inner, tokens),
        Primary::VaArg { list, of } => {
            let rest = behind_one(tokens);
            let rest = behind_one(rest);
            let rest = behind_tree(list, rest);
            let rest = behind_one(rest);
            let rest = behind_tree(of, rest);
            behind_one(rest)
        }
        Primary::Offsetof { of, path, .. } => {
            let rest = behind_one(tokens);
            let rest = behind_one(rest);
            let rest = behind_tree(of, rest);
            let rest = behind_one(rest);
            let rest = behind_one(rest);
            let rest = behind_row(path, rest);
            behind_one(rest)
        }
        Primary::Hole { .. } => tokens,
    }
}

#[cycle(behind)]
fn behind_operation<'t>(kind: &Operation, tokens: &'t [Token]) -> &'t [Token]
    ensures { result.now ≡ behind (operation_phrase (operation_view kind.now)) tokens.now }
{
    match kind {
        Operation::Index { array, index } => {
            let rest = behind_tree(array, tokens);
            let rest = behind_one(rest);
            let rest = behind_tree(index, rest);
            behind_one(rest)
        }
        Operation::Call {
            callee,
            arguments,
            ..
        } => {
            let rest = behind_tree(callee, tokens);
            let rest = behind_one(rest);
            let rest = behind_list(arguments, rest);
            behind_one(rest)
        }
        Operation::Member { operand, .. } => {
            let rest = behind_tree(operand, tokens);
            let rest = behind_one(rest);
            behind_one(rest)
        }
        Operation::Arrow { operand, .. } => {
            let rest = behind_tree(operand, tokens);
            let rest = behind_one(rest);
            behind_one(rest)
        }
        Operation::CompoundLit { of, braces } => {
            let rest = behind_parenthesized(of, tokens);
            behind_tree(braces, rest)
        }
        Operation::Unary { op, operand } => behind_unary(*op, operand, tokens),
        Operation::SizeofType { of } => {
            let rest = behind_one(tokens);
            behind_parenthesized(of, rest)
        }
        Operation::Cast { to, operand } => {
            let rest = behind_parenthesized(to, tokens);
            behind_tree(operand, rest)
        }
        Operation::Binary { left, right, .. } => {
            let rest = behind_tree(left, tokens);
            let rest = behind_one(rest);
            behind_tree(right, rest)
        }
        Operation::Cond {
            condition,
            then,
            otherwise,
        } => {
            let rest = behind_tree(condition, tokens);
            let rest = behind_one(rest);
            let rest = behind_tree(then, rest);
            let rest = behind_one(rest);
            behind_tree(otherwise, rest)
        }
        Operation::Assign { left, right, .. } => {
            let rest = behind_tree(left, tokens);
            let rest = behind_one(rest);
            behind_tree(right, rest)
        }
    }
}

#[cycle(behind)]
fn behind_initializer<'t>(kind: &Initializer, tokens: &'t [Token]) -> &'t [Token]
    ensures { result.now ≡ behind (initializer_phrase (initializer_view kind.now)) tokens.now }
{
    match kind {
        Initializer::Init {
            declarator,
            initial,
            ..
        } => {
            let rest = behind_tree(declarator, tokens);
            let rest = behind_one(rest);
            behind_tree(initial, rest)
        }
        Initializer::Braces { elements, comma } => {
            let rest = behind_one(tokens);
            let rest = behind_list(elements, rest);
            let rest = behind_comma_if(*comma, rest);
            behind_one(rest)
        }
        Initializer::Designated {
            designators,
            initial,
        } => {
            let rest = behind_row(designators, tokens);
            let rest = behind_one(rest);
            behind_tree(initial, rest)
        }
    }
}

#[cycle(behind)]
fn behind_specifier<'t>(kind: &Specifier, tokens: &'t [Token]) -> &'t [Token]
    ensures { result.now ≡ behind (specifier_phrase (specifier_view kind.now)) tokens.now }
{
    match kind {
        Specifier::TypeName { specs, declarator } | Specifier::Param { specs, declarator } => {
            let rest = behind_tree(specs, tokens);
            behind_optional(*declarator, rest)
        }
        Specifier::Specs { items } => behind_row(items, tokens),
        Specifier::StructTag { .. } => {
            let rest = behind_one(tokens);
            behind_one(rest)
        }
        Specifier::StructBody { tag, members, .. } => {
            let rest = behind_one(tokens);
            let rest = behind_tag(*tag, rest);
            let rest = behind_one(rest);
            let rest = behind_row(members, rest);
            behind_one(rest)
        }
        Specifier::EnumTag { .. } => {
            let rest = behind_one(tokens);
            behind_one(rest)
        }
        Specifier::EnumBody {
            tag,
            enumerators,
            comma,
        } => {
            let rest = behind_one(tokens);
            let rest = behind_tag(*tag, rest);
            let rest = behind_one(rest);
            let rest = behind_list(enumerators, rest);
            let rest = behind_comma_if(*comma, rest);
            behind_one(rest)
        }
        Specifier::StructDeclaration { specs, declarators } => {
            let rest = behind_tree(specs, tokens);
            let rest = behind_list(declarators, rest);
            behind_one(rest)
        }
        Specifier::BitField { declarator, width } => {
            let rest = behind_optional(*declarator, tokens);
            let rest = behind_one(rest);
            behind_tree(width, rest)
        }
    }
}

#[cycle(behind)]
fn behind_declarator<'t>(kind: &Declarator, tokens: &'t [Token]) -> &'t [Token]
    ensures { result.now ≡ behind (declarator_phrase (declarator_view kind.now)) tokens.now }
{
    match kind {
        Declarator::Named {
            pointers,
            suffixes,
            ..
        } => {
            let rest = behind_all(pointers, tokens);
            let rest = behind_one(rest);
            behind_row(suffixes, rest)
        }
        Declarator::Nested {
            pointers,
            inner,
            suffixes,
        } => {
            let rest = behind_all(pointers, tokens);
            let rest = behind_parenthesized(inner, rest);
            behind_row(suffixes, rest)
        }
        Declarator::Unnamed { pointers, suffixes } => {
            let rest = behind_all(pointers, tokens);
            behind_row(suffixes, rest)
        }
    }
}

#[cycle(behind)]
fn behind_part<'t>(kind: &Part, tokens: &'t [Token]) -> &'t [Token]
    ensures { result.now ≡ behind (part_phrase (part_view kind.now)) tokens.now }
{
    match kind {
        Part::SpecWord { .. } => behind_one(tokens),
        Part::ArrayBound { words, bound } => {
            let rest = behind_one(tokens);
            let rest = behind_all(words, rest);
            let rest = behind_optional(*bound, rest);
            behind_one(rest)
        }
        Part::VoidParams => {
            let rest = behind_one(tokens);
            let rest = behind_one(rest);
            behind_one(rest)
        }
        Part::Params { params, variadic } => {
            let rest = behind_one(tokens);
            let rest = behind_list(params, rest);
            let rest = behind_ellipsis_if(*variadic, rest);
            behind_one(rest)
        }
        Part::Enumerator { value, .. } => {
            let rest = behind_one(tokens);
            behind_assigned(*value, rest)
        }
        Part::MemberDesignator { .. } => {
            let rest = behind_one(tokens);
            behind_one(rest)
        }
        Part::IndexDesignator { index } => {
            let rest = behind_one(tokens);
            let rest = behind_tree(index, rest);
            behind_one(rest)
        }
    }
}

#[cycle(behind)]
fn behind_outer<'t>(kind: &Outer, tokens: &'t [Token]) -> &'t [Token]
    ensures { result.now ≡ behind (outer_phrase (outer_view kind.now)) tokens.now }
{
    match kind {
        Outer::Declaration { specs, declarators } => {
            let rest = behind_tree(specs, tokens);
            let rest = behind_list(declarators, rest);
            behind_one(rest)
        }
        Outer::Function {
            specs,
            declarator,
            body,
        } => {
            let rest = behind_tree(specs, tokens);
            let rest = behind_tree(declarator, rest);
            behind_tree(body, rest)
        }
        Outer::Empty => behind_one(tokens),
    }
}

#[cycle(behind)]
fn behind_statement<'t>(kind: &Statement, tokens: &'t [Token]) -> &'t [Token]
    ensures { result.now ≡ behind (statement_phrase (statement_view kind.now)) tokens.now }
{
    match kind {
        Statement::Block { items } => {
            let rest = behind_one(tokens);
            let rest = behind_row(items, rest);
            behind_one(rest)
        }
        Statement::ExprStmt { value } => {
            let rest = behind_optional(*value, tokens);
            behind_one(rest)
        }
        Statement::If {
            condition,
            then,
            otherwise,
        } => {
            let rest = behind_one(tokens);
            let rest = behind_parenthesized(condition, rest);
            let rest = behind_tree(then, rest);
            behind_else(*otherwise, rest)
        }
        Statement::Switch { value, body } => {
            let rest = behind_one(tokens);
            let rest = behind_parenthesized(value, rest);
            behind_tree(body, rest)
        }
        Statement::Case { value, body } => {
            let rest = behind_one(tokens);
            let rest = behind_tree(value, rest);
            let rest = behind_one(rest);
            behind_tree(body, rest)
        }
        Statement::Default { body } => {
            let rest = behind_one(tokens);
            let rest = behind_one(rest);
            behind_tree(body, rest)
        }
        Statement::Label { body, .. } => {
            let rest = behind_one(tokens);
            let rest = behind_one(rest);
            behind_tree(body, rest)
        }
    }
}

#[cycle(behind)]
fn behind_iteration<'t>(kind: &Iteration, tokens: &'t [Token]) -> &'t [Token]
    ensures { result.now ≡ behind (iteration_phrase (iteration_view kind.now)) tokens.now }
{
    match kind {
        Iteration::While { condition, body } => {
            let rest = behind_one(tokens);
            let rest = behind_parenthesized(condition, rest);
            behind_tree(body, rest)
        }
        Iteration::Do { body, condition } => {
            let rest = behind_one(tokens);
            let rest = behind_tree(body, rest);
            let rest = behind_one(rest);
            let rest = behind_parenthesized(condition, rest);
            behind_one(rest)
        }
        Iteration::For {
            first,
            condition,
            step,
            body,
        } => {
            let rest = behind_one(tokens);
            let rest = behind_one(rest);
            let rest = behind_optional(*first, rest);
            let rest = behind_one(rest);
            let rest = behind_optional(*condition, rest);
            let rest = behind_one(rest);
            let rest = behind_optional(*step, rest);
            let rest = behind_one(rest);
            behind_tree(body, rest)
        }
        Iteration::ForDeclaration {
            declaration,
            condition,
            step,
            body,
        } => {
            let rest = behind_one(tokens);
            let rest = behind_one(rest);
            let rest = behind_tree(declaration, rest);
            let rest = behind_optional(*condition, rest);
            let rest = behind_one(rest);
            let rest = behind_optional(*step, rest);
            let rest = behind_one(rest);
            behind_tree(body, rest)
        }
    }
}

#[cycle(behind)]
fn behind_jump<'t>(kind: &Jump, tokens: &'t [Token]) -> &'t [Token]
    ensures { result.now ≡ behind (jump_phrase (jump_view kind.now)) tokens.now }
{
    match kind {
        Jump::Goto { .. } => {
            let rest = behind_one(tokens);
            let rest = behind_one(rest);
            behind_one(rest)
        }
        Jump::Continue => {
            let rest = behind_one(tokens);
            behind_one(rest)
        }
        Jump::Break => {
            let rest = behind_one(tokens);
            behind_one(rest)
        }
        Jump::Return { value } => {
            let rest = behind_one(tokens);
            let rest = behind_optional(*value, rest);
            behind_one(rest)
        }
    }
}

/// What follows an operator and its operand.
#[cycle(behind)]
fn behind_unary<'t>(op: UnaryOp, operand: &Tree, tokens: &'t [Token]) -> &'t [Token]
    ensures { result.now ≡ behind (unary_phrase op (phrase_of (view operand.now))) tokens.now }
{
    match op {
        UnaryOp::PostInc => behind_one(behind_tree(operand, tokens)),
        UnaryOp::PostDec => behind_one(behind_tree(operand, tokens)),
        UnaryOp::PreInc => behind_tree(operand, behind_one(tokens)),
        UnaryOp::PreDec => behind_tree(operand, behind_one(tokens)),
        UnaryOp::AddressOf => behind_tree(operand, behind_one(tokens)),
        UnaryOp::Deref => behind_tree(operand, behind_one(tokens)),
        UnaryOp::Plus => behind_tree(operand, behind_one(tokens)),
        UnaryOp::Minus => behind_tree(operand, behind_one(tokens)),
        UnaryOp::BitNot => behind_tree(operand, behind_one(tokens)),
        UnaryOp::Not => behind_tree(operand, behind_one(tokens)),
        UnaryOp::Sizeof => behind_tree(operand, behind_one(tokens)),
    }
}

/// What follows a tree in parentheses.
#[cycle(behind)]
fn behind_parenthesized<'t>(tree: &Tree, tokens: &'t [Token]) -> &'t [Token]
    ensures { result.now ≡ behind (sign OpenParen ⨾ phrase_of (view tree.now) ⨾ sign CloseParen) tokens.now }
{
    let rest = behind_one(tokens);
    let rest = behind_tree(tree, rest);
    behind_one(rest)
}

/// What follows a tree, where there is one.
#[cycle(behind)]
fn behind_optional<'t>(tree: Option<&Tree>, tokens: &'t [Token]) -> &'t [Token]
    ensures { result.now ≡ behind (maybe_phrase (maybe_view tree.entry)) tokens.now }
{
    match tree {
        None => tokens,
        Some(tree) => behind_tree(tree, tokens),
    }
}

/// What follows `= tree`, where there is one.
#[cycle(behind)]
fn behind_assigned<'t>(tree: Option<&Tree>, tokens: &'t [Token]) -> &'t [Token]
    ensures { result.now ≡ behind (assigned_phrase (maybe_view tree.entry)) tokens.now }
{
    match tree {
        None => tokens,
        Some(tree) => behind_tree(tree, behind_one(tokens)),
    }
}

/// What follows `else tree`, where there is one.
#[cycle(behind)]
fn behind_else<'t>(tree: Option<&Tree>, tokens: &'t [Token]) -> &'t [Token]
    ensures { result.now ≡ behind (else_phrase (maybe_view tree.entry)) tokens.now }
{
    match tree {
        None => tokens,
        Some(tree) => behind_tree(tree, behind_one(tokens)),
    }
}

/// What follows trees one after the other.
#[cycle(behind)]
fn behind_row<'t>(trees: &Trees, tokens: &'t [Token]) -> &'t [Token]
    ensures { result.now ≡ behind (row_phrase (list_view trees.now)) tokens.now }
{
    let mut rest = tokens;
    for tree in trees.all {
        rest = behind_tree(tree, rest);
    }
    rest
}

/// What follows trees with commas between.
#[cycle(behind)]
fn behind_list<'t>(trees: &Trees, tokens: &'t [Token]) -> &'t [Token]
    ensures { result.now ≡ behind (list_phrase (list_view trees.now)) tokens.now }
{
    let mut rest = tokens;
    let mut is_first = true;
    for tree in trees.all {
        if !is_first {
            rest = behind_one(rest);
        }
        rest = behind_tree(tree, rest);
        is_first = false;
    }
    rest
}
