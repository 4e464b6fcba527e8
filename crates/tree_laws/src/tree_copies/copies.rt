//! Trees copied into another arena.

ghost use Rattle.std.specs.Prelude.{◌≡◌, IfOk};
ghost use Rattle.c_tree.specs.Node as nodes;
ghost use Rattle.c_tree.specs.Views.{maybe_token, node_of, shape_of, option_node, nodes_of, primary_shape, operation_shape, initializer_shape, specifier_shape, declarator_shape, part_shape, outer_shape, statement_shape, iteration_shape, jump_shape};

use bumpalo::collections::into_bump_slice;
use c_tree::{
    Arena, Declarator, Initializer, Iteration, Jump, Kind, Operation, Outer, Part, Primary,
    Specifier, Statement, Token, Tree, Trees,
};
use std::alloc::AllocError;

/// An equal tree in the second arena, with the same ids and places. Its tokens are copied too.
#[cycle(copy)]
pub fn copy_tree<'b>(arena: &'b Arena, tree: &Tree) -> Result<&'b Tree<'b>, AllocError>
    ensures { IfOk result (λ copy. node_of copy.now ≡ node_of tree.now) }
{
    let copy = copy_node(arena, tree)?;
    Ok(arena.try_alloc(copy)?)
}

/// An equal node, whose children are in the second arena.
#[cycle(copy)]
fn copy_node<'b>(arena: &'b Arena, tree: &Tree) -> Result<Tree<'b>, AllocError>
    ensures { IfOk result (λ copy. node_of copy ≡ node_of tree.now) }
{
    let kind = copy_kind(arena, &tree.kind)?;
    Ok(Tree {
        id: tree.id,
        first: tree.first,
        kind,
    })
}

#[cycle(copy)]
fn copy_kind<'b>(arena: &'b Arena, kind: &Kind) -> Result<Kind<'b>, AllocError>
    ensures { IfOk result (λ copy. shape_of copy ≡ shape_of kind.now) }
{
    match kind {
        Kind::Primary(kind) => copy_primary(arena, kind),
        Kind::Operation(kind) => copy_operation(arena, kind),
        Kind::Initializer(kind) => copy_initializer(arena, kind),
        Kind::Specifier(kind) => copy_specifier(arena, kind),
        Kind::Declarator(kind) => copy_declarator(arena, kind),
        Kind::Part(kind) => copy_part(arena, kind),
        Kind::Outer(kind) => copy_outer(arena, kind),
        Kind::Statement(kind) => copy_statement(arena, kind),
        Kind::Iteration(kind) => copy_iteration(arena, kind),
        Kind::Jump(kind) => copy_jump(arena, kind),
    }
}

#[cycle(copy)]
fn copy_primary<'b>(arena: &'b Arena, kind: &Primary) -> Result<Kind<'b>, AllocError>
    ensures { IfOk result (λ copy. shape_of copy ≡ nodes.Primary (primary_shape kind.now)) }
{
    match kind {
        Primary::Ident { name } => Ok(Kind::Primary(Primary::Ident {
            name: copy_token(arena, name)?,
        })),
        Primary::Constant { token } => Ok(Kind::Primary(Primary::Constant {
            token: copy_token(arena, token)?,
        })),
        Primary::StrConst { literals } => Ok(Kind::Primary(Primary::StrConst {
            literals: copy_tokens(arena, literals)?,
        })),
        Primary::Paren { inner } => Ok(Kind::Primary(Primary::Paren {
            inner: copy_tree(arena, inner)?,
        })),
        Primary::VaArg { list, of } => Ok(Kind::Primary(Primary::VaArg {
            list: copy_tree(arena, list)?,
            of: copy_tree(arena, of)?,
        })),
        Primary::Offsetof { of, member, path } => Ok(Kind::Primary(Primary::Offsetof {
            of: copy_tree(arena, of)?,
            member: copy_token(arena, member)?,
            path: copy_list(arena, path)?,
        })),
        Primary::Hole { number } => Ok(Kind::Primary(Primary::Hole { number: *number })),
    }
}

#[cycle(copy)]
fn copy_operation<'b>(arena: &'b Arena, kind: &Operation) -> Result<Kind<'b>, AllocError>
    ensures { IfOk result (λ copy. shape_of copy ≡ nodes.Operation (operation_shape kind.now)) }
{
    match kind {
        Operation::Index { array, index } => Ok(Kind::Operation(Operation::Index {
            array: copy_tree(arena, array)?,
            index: copy_tree(arena, index)?,
        })),
        Operation::Call {
            callee,
            open,
            arguments,
        } => Ok(Kind::Operation(Operation::Call {
            callee: copy_tree(arena, callee)?,
            open: *open,
            arguments: copy_list(arena, arguments)?,
        })),
        Operation::Member { operand, member } => Ok(Kind::Operation(Operation::Member {
            operand: copy_tree(arena, operand)?,
            member: copy_token(arena, member)?,
        })),
        Operation::Arrow { operand, member } => Ok(Kind::Operation(Operation::Arrow {
            operand: copy_tree(arena, operand)?,
            member: copy_token(arena, member)?,
        })),
        Operation::CompoundLit { of, braces } => Ok(Kind::Operation(Operation::CompoundLit {
            of: copy_tree(arena, of)?,
            braces: copy_tree(arena, braces)?,
        })),
        Operation::Unary { op, operand } => Ok(Kind::Operation(Operation::Unary {
            op: *op,
            operand: copy_tree(arena, operand)?,
        })),
        Operation::SizeofType { of } => Ok(Kind::Operation(Operation::SizeofType {
            of: copy_tree(arena, of)?,
        })),
        Operation::Cast { to, operand } => Ok(Kind::Operation(Operation::Cast {
            to: copy_tree(arena, to)?,
            operand: copy_tree(arena, operand)?,
        })),
        Operation::Binary { op, left, right } => Ok(Kind::Operation(Operation::Binary {
            op: *op,
            left: copy_tree(arena, left)?,
            right: copy_tree(arena, right)?,
        })),
        Operation::Cond {
            condition,
            then,
            otherwise,
        } => Ok(Kind::Operation(Operation::Cond {
            condition: copy_tree(arena, condition)?,
            then: copy_tree(arena, then)?,
            otherwise: copy_tree(arena, otherwise)?,
        })),
        Operation::Assign { op, left, right } => Ok(Kind::Operation(Operation::Assign {
            op: *op,
            left: copy_tree(arena, left)?,
            right: copy_tree(arena, right)?,
        })),
    }
}

#[cycle(copy)]
fn copy_initializer<'b>(arena: &'b Arena, kind: &Initializer) -> Result<Kind<'b>, AllocError>
    ensures { IfOk result (λ copy. shape_of copy ≡ nodes.Initializer (initializer_shape kind.now)) }
{
    match kind {
        Initializer::Init {
            name,
            declarator,
            initial,
        } => Ok(Kind::Initializer(Initializer::Init {
            name: copy_tree(arena, name)?,
            declarator: copy_tree(arena, declarator)?,
            initial: copy_tree(arena, initial)?,
        })),
        Initializer::Braces { elements, comma } => Ok(Kind::Initializer(Initializer::Braces {
            elements: copy_list(arena, elements)?,
            comma: *comma,
        })),
        Initializer::Designated {
            designators,
            initial,
        } => Ok(Kind::Initializer(Initializer::Designated {
            designators: copy_list(arena, designators)?,
            initial: copy_tree(arena, initial)?,
        })),
    }
}

#[cycle(copy)]
fn copy_specifier<'b>(arena: &'b Arena, kind: &Specifier) -> Result<Kind<'b>, AllocError>
    ensures { IfOk result (λ copy. shape_of copy ≡ nodes.Specifier (specifier_shape kind.now)) }
{
    match kind {
        Specifier::TypeName { specs, declarator } => Ok(Kind::Specifier(Specifier::TypeName {
            specs: copy_tree(arena, specs)?,
            declarator: copy_optional(arena, *declarator)?,
        })),
        Specifier::Specs { items } => Ok(Kind::Specifier(Specifier::Specs {
            items: copy_list(arena, items)?,
        })),
        Specifier::StructTag { which, tag } => Ok(Kind::Specifier(Specifier::StructTag {
            which: *which,
            tag: copy_token(arena, tag)?,
        })),
        Specifier::StructBody {
            which,
            tag,
            members,
        } => Ok(Kind::Specifier(Specifier::StructBody {
            which: *which,
            tag: copy_tag(arena, *tag)?,
            members: copy_list(arena, members)?,
        })),
        Specifier::EnumTag { tag } => Ok(Kind::Specifier(Specifier::EnumTag {
            tag: copy_token(arena, tag)?,
        })),
        Specifier::EnumBody {
            tag,
            enumerators,
            comma,
        } => Ok(Kind::Specifier(Specifier::EnumBody {
            tag: copy_tag(arena, *tag)?,
            enumerators: copy_list(arena, enumerators)?,
            comma: *comma,
        })),
        Specifier::StructDeclaration { specs, declarators } => Ok(Kind::Specifier(
            Specifier::StructDeclaration {
                specs: copy_tree(arena, specs)?,
                declarators: copy_list(arena, declarators)?,
            },
        )),
        Specifier::BitField { declarator, width } => Ok(Kind::Specifier(Specifier::BitField {
            declarator: copy_optional(arena, *declarator)?,
            width: copy_tree(arena, width)?,
        })),
        Specifier::Param { specs, declarator } => Ok(Kind::Specifier(Specifier::Param {
            specs: copy_tree(arena, specs)?,
            declarator: copy_optional(arena, *declarator)?,
        })),
    }
}

#[cycle(copy)]
fn copy_declarator<'b>(arena: &'b Arena, kind: &Declarator) -> Result<Kind<'b>, AllocError>
    ensures { IfOk result (λ copy. shape_of copy ≡ nodes.Declarator (declarator_shape kind.now)) }
{
    match kind {
        Declarator::Named {
            pointers,
            name,
            suffixes,
        } => Ok(Kind::Declarator(Declarator::Named {
            pointers: copy_tokens(arena, pointers)?,
            name: copy_token(arena, name)?,
            suffixes: copy_list(arena, suffixes)?,
        })),
        Declarator::Nested {
            pointers,
            inner,
            suffixes,
        } => Ok(Kind::Declarator(Declarator::Nested {
            pointers: copy_tokens(arena, pointers)?,
            inner: copy_tree(arena, inner)?,
            suffixes: copy_list(arena, suffixes)?,
        })),
        Declarator::Unnamed { pointers, suffixes } => Ok(Kind::Declarator(Declarator::Unnamed {
            pointers: copy_tokens(arena, pointers)?,
            suffixes: copy_list(arena, suffixes)?,
        })),
    }
}

#[cycle(copy)]
fn copy_part<'b>(arena: &'b Arena, kind: &Part) -> Result<Kind<'b>, AllocError>
    ensures { IfOk result (λ copy. shape_of copy ≡ nodes.Part (part_shape kind.now)) }
{
    match kind {
        Part::SpecWord { word } => Ok(Kind::Part(Part::SpecWord {
            word: copy_token(arena, word)?,
        })),
        Part::ArrayBound { words, bound } => Ok(Kind::Part(Part::ArrayBound {
            words: copy_tokens(arena, words)?,
            bound: copy_optional(arena, *bound)?,
        })),
        Part::VoidParams => Ok(Kind::Part(Part::VoidParams)),
        Part::Params { params, variadic } => Ok(Kind::Part(Part::Params {
            params: copy_list(arena, params)?,
            variadic: *variadic,
        })),
        Part::Enumerator { name, value } => Ok(Kind::Part(Part::Enumerator {
            name: copy_token(arena, name)?,
            value: copy_optional(arena, *value)?,
        })),
        Part::MemberDesignator { member } => Ok(Kind::Part(Part::MemberDesignator {
            member: copy_token(arena, member)?,
        })),
        Part::IndexDesignator { index } => Ok(Kind::Part(Part::IndexDesignator {
            index: copy_tree(arena, index)?,
        })),
    }
}

#[cycle(copy)]
fn copy_outer<'b>(arena: &'b Arena, kind: &Outer) -> Result<Kind<'b>, AllocError>
    ensures { IfOk result (λ copy. shape_of copy ≡ nodes.Outer (outer_shape kind.now)) }
{
    match kind {
        Outer::Declaration { specs, declarators } => Ok(Kind::Outer(Outer::Declaration {
            specs: copy_tree(arena, specs)?,
            declarators: copy_list(arena, declarators)?,
        })),
        Outer::Function {
            specs,
            declarator,
            body,
        } => Ok(Kind::Outer(Outer::Function {
            specs: copy_tree(arena, specs)?,
            declarator: copy_tree(arena, declarator)?,
            body: copy_tree(arena, body)?,
        })),
        Outer::Empty => Ok(Kind::Outer(Outer::Empty)),
    }
}

#[cycle(copy)]
fn copy_statement<'b>(arena: &'b Arena, kind: &Statement) -> Result<Kind<'b>, AllocError>
    ensures { IfOk result (λ copy. shape_of copy ≡ nodes.Statement (statement_shape kind.now)) }
{
    match kind {
        Statement::Block { items } => Ok(Kind::Statement(Statement::Block {
            items: copy_list(arena, items)?,
        })),
        Statement::ExprStmt { value } => Ok(Kind::Statement(Statement::ExprStmt {
            value: copy_optional(arena, *value)?,
        })),
        Statement::If {
            condition,
            then,
            otherwise,
        } => Ok(Kind::Statement(Statement::If {
            condition: copy_tree(arena, condition)?,
            then: copy_tree(arena, then)?,
            otherwise: copy_optional(arena, *otherwise)?,
        })),
        Statement::Switch { value, body } => Ok(Kind::Statement(Statement::Switch {
            value: copy_tree(arena, value)?,
            body: copy_tree(arena, body)?,
        })),
        Statement::Case { value, body } => Ok(Kind::Statement(Statement::Case {
            value: copy_tree(arena, value)?,
            body: copy_tree(arena, body)?,
        })),
        Statement::Default { body } => Ok(Kind::Statement(Statement::Default {
            body: copy_tree(arena, body)?,
        })),
        Statement::Label { label, body } => Ok(Kind::Statement(Statement::Label {
            label: copy_token(arena, label)?,
            body: copy_tree(arena, body)?,
        })),
    }
}

#[cycle(copy)]
fn copy_iteration<'b>(arena: &'b Arena, kind: &Iteration) -> Result<Kind<'b>, AllocError>
    ensures { IfOk result (λ copy. shape_of copy ≡ nodes.Iteration (iteration_shape kind.now)) }
{
    match kind {
        Iteration::While { condition, body } => Ok(Kind::Iteration(Iteration::While {
            condition: copy_tree(arena, condition)?,
            body: copy_tree(arena, body)?,
        })),
        Iteration::Do { body, condition } => Ok(Kind::Iteration(Iteration::Do {
            body: copy_tree(arena, body)?,
            condition: copy_tree(arena, condition)?,
        })),
        Iteration::For {
            first,
            condition,
            step,
            body,
        } => Ok(Kind::Iteration(Iteration::For {
            first: copy_optional(arena, *first)?,
            condition: copy_optional(arena, *condition)?,
            step: copy_optional(arena, *step)?,
            body: copy_tree(arena, body)?,
        })),
        Iteration::ForDeclaration {
            declaration,
            condition,
            step,
            body,
        } => Ok(Kind::Iteration(Iteration::ForDeclaration {
            declaration: copy_tree(arena, declaration)?,
            condition: copy_optional(arena, *condition)?,
            step: copy_optional(arena, *step)?,
            body: copy_tree(arena, body)?,
        })),
    }
}

#[cycle(copy)]
fn copy_jump<'b>(arena: &'b Arena, kind: &Jump) -> Result<Kind<'b>, AllocError>
    ensures { IfOk result (λ copy. shape_of copy ≡ nodes.Jump (jump_shape kind.now)) }
{
    match kind {
        Jump::Goto { label } => Ok(Kind::Jump(Jump::Goto {
            label: copy_token(arena, label)?,
        })),
        Jump::Continue => Ok(Kind::Jump(Jump::Continue)),
        Jump::Break => Ok(Kind::Jump(Jump::Break)),
        Jump::Return { value } => Ok(Kind::Jump(Jump::Return {
            value: copy_optional(arena, *value)?,
        })),
    }
}

#[cycle(copy)]
fn copy_optional<'b>(
    arena: &'b Arena,
    tree: Option<&Tree>,
) -> Result<Option<&'b Tree<'b>>, AllocError>
    ensures { IfOk result (λ copy. option_node copy ≡ option_node tree.entry) }
{
    match tree {
        None => Ok(None),
        Some(tree) => Ok(Some(copy_tree(arena, tree)?)),
    }
}

/// Equal nodes side by side in the second arena.
#[cycle(copy)]
#[tactic(auto, using(c_tree::proofs::Rows::nodes_out))]
fn copy_list<'b>(arena: &'b Arena, trees: &Trees) -> Result<Trees<'b>, AllocError>
    ensures { IfOk result (λ copy. nodes_of copy ≡ nodes_of trees.now) }
{
    let mut all = Vec::new(arena);
    for tree in trees.all {
        let copy = copy_node(arena, tree)?;
        all.push(copy)?;
    }
    Ok(Trees {
        all: into_bump_slice(all),
    })
}

fn copy_token<'b>(arena: &'b Arena, token: &Token) -> Result<&'b Token, AllocError>
    ensures { IfOk result (λ copy. copy.now ≡ token.now) }
{
    Ok(arena.try_alloc(*token)?)
}

fn copy_tokens<'b>(arena: &'b Arena, tokens: &[Token]) -> Result<&'b [Token], AllocError>
    ensures { IfOk result (λ copy. copy.now ≡ tokens.now) }
{
    Ok(arena.try_alloc_slice_copy(tokens)?)
}

fn copy_tag<'b>(arena: &'b Arena, tag: Option<&Token>) -> Result<Option<&'b Token>, AllocError>
    ensures { IfOk result (λ copy. maybe_token copy ≡ maybe_token tag.entry) }
{
    match tag {
        None => Ok(None),
        Some(token) => Ok(Some(copy_token(arena, token)?)),
    }
}
