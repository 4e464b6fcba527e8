//! The tokens of a tree.

ghost use Rattle.std.specs.Prelude.{◌≡◌, ◌↔◌, IsTrue};
ghost use Rattle.c_tree.specs.Symbol.{symbols_of};
ghost use Rattle.c_tree.specs.Phrase.{◌⨾◌, sign};
ghost use Rattle.c_tree.specs.declared.punctuator.Punctuator.TheVariants.{OpenParen, CloseParen};
ghost use Rattle.c_tree.specs.Forget.{view, maybe_view, list_view, primary_view, operation_view, initializer_view, specifier_view, declarator_view, part_view, outer_view, statement_view, iteration_view, jump_view};
ghost use Rattle.c_tree.specs.Tokens.{tokens_of, phrase_of, maybe_phrase, assigned_phrase, else_phrase, row_phrase, list_phrase, unary_phrase, primary_phrase, operation_phrase, initializer_phrase, specifier_phrase, declarator_phrase, part_phrase, outer_phrase, statement_phrase, iteration_phrase, jump_phrase};
ghost use Rattle.tree_laws.specs.Ways.After.{after_phrase, rest_of};

use crate::tree_yields::leading::{
    after_comma_if, after_ellipsis_if, after_keyword, after_sign, after_tag, after_token,
    after_tokens,
};
use c_tree::{
    Declarator, Initializer, Iteration, Jump, Keyword, Kind, Operation, Outer, Part, Primary,
    Punctuator, Specifier, Statement, Token, Tree, Trees, UnaryOp,
};

/// Whether these are the tokens of a tree: those of its line of the grammar, in order. A hole has none.
pub fn yields(tree: &Tree, tokens: &[Token]) -> bool
    ensures { IsTrue result ↔ (symbols_of tokens.now ≡ tokens_of (view tree.now)) }
{
    match after_tree(tree, Some(tokens)) {
        None => false,
        Some(rest) => rest.is_empty(),
    }
}

/// What follows the tokens of a tree, if they stand in front. Where others stood before, nothing is left, and nothing follows.
#[cycle(after)]
fn after_tree<'t>(tree: &Tree, tokens: Option<&'t [Token]>) -> Option<&'t [Token]>
    ensures { rest_of result ≡ after_phrase (phrase_of (view tree.now)) (rest_of tokens.entry) }
{
    match &tree.kind {
        Kind::Primary(kind) => after_primary(kind, tokens),
        Kind::Operation(kind) => after_operation(kind, tokens),
        Kind::Initializer(kind) => after_initializer(kind, tokens),
        Kind::Specifier(kind) => after_specifier(kind, tokens),
        Kind::Declarator(kind) => after_declarator(kind, tokens),
        Kind::Part(kind) => after_part(kind, tokens),
        Kind::Outer(kind) => after_outer(kind, tokens),
        Kind::Statement(kind) => after_statement(kind, tokens),
        Kind::Iteration(kind) => after_iteration(kind, tokens),
        Kind::Jump(kind) => after_jump(kind, tokens),
    }
}

#[cycle(after)]
fn after_primary<'t>(kind: &Primary, tokens: Option<&'t [Token]>) -> Option<&'t [Token]>
    ensures { rest_of result ≡ after_phrase (primary_phrase (primary_view kind.now)) (rest_of tokens.entry) }
{
    match kind {
        Primary::Ident { name } => after_token(name, tokens),
        Primary::Constant { token } => after_token(token, tokens),
        Primary::StrConst { literals } => after_tokens(literals, tokens),
        Primary::Paren { inner } => after_parenthesized(inner, tokens),
        Primary::VaArg { list, of } => {
            let rest = after_keyword(Keyword::BuiltinVaArg, tokens);
            let rest = after_sign(Punctuator::OpenParen, rest);
            let rest = after_tree(list, rest);
            let rest = after_sign(Punctuator::Comma, rest);
            let rest = after_tree(of, rest);
            after_sign(Punctuator::CloseParen, rest)
        }
        Primary::Offsetof { of, member, path } => {
            let rest = after_keyword(Keyword::BuiltinOffsetof, tokens);
            let rest = after_sign(Punctuator::OpenParen, rest);
            let rest = after_tree(of, rest);
            let rest = after_sign(Punctuator::Comma, rest);
            let rest = after_token(member, rest);
            let rest = after_row(path, rest);
            after_sign(Punctuator::CloseParen, rest)
        }
        Primary::Hole { .. } => tokens,
    }
}

#[cycle(after)]
fn after_operation<'t>(kind: &Operation, tokens: Option<&'t [Token]>) -> Option<&'t [Token]>
    ensures { rest_of result ≡ after_phrase (operation_phrase (operation_view kind.now)) (rest_of tokens.entry) }
{
    match kind {
        Operation::Index { array, index } => {
            let rest = after_tree(array, tokens);
            let rest = after_sign(Punctuator::OpenBracket, rest);
            let rest = after_tree(index, rest);
            after_sign(Punctuator::CloseBracket, rest)
        }
        Operation::Call {
            callee,
            arguments,
            ..
        } => {
            let rest = after_tree(callee, tokens);
            let rest = after_sign(Punctuator::OpenParen, rest);
            let rest = after_list(arguments, rest);
            after_sign(Punctuator::CloseParen, rest)
        }
        Operation::Member { operand, member } => {
            let rest = after_tree(operand, tokens);
            let rest = after_sign(Punctuator::Dot, rest);
            after_token(member, rest)
        }
        Operation::Arrow { operand, member } => {
            let rest = after_tree(operand, tokens);
            let rest = after_sign(Punctuator::Arrow, rest);
            after_token(member, rest)
        }
        Operation::CompoundLit { of, braces } => {
            let rest = after_parenthesized(of, tokens);
            after_tree(braces, rest)
        }
        Operation::Unary { op, operand } => after_unary(*op, operand, tokens),
        Operation::SizeofType { of } => {
            let rest = after_keyword(Keyword::Sizeof, tokens);
            after_parenthesized(of, rest)
        }
        Operation::Cast { to, operand } => {
            let rest = after_parenthesized(to, tokens);
            after_tree(operand, rest)
        }
        Operation::Binary { op, left, right } => {
            let rest = after_tree(left, tokens);
            let rest = after_sign(op.sign(), rest);
            after_tree(right, rest)
        }
        Operation::Cond {
            condition,
            then,
            otherwise,
        } => {
            let rest = after_tree(condition, tokens);
            let rest = after_sign(Punctuator::Question, rest);
            let rest = after_tree(then, rest);
            let rest = after_sign(Punctuator::Colon, rest);
            after_tree(otherwise, rest)
        }
        Operation::Assign { op, left, right } => {
            let rest = after_tree(left, tokens);
            let rest = after_sign(op.sign(), rest);
            after_tree(right, rest)
        }
    }
}

#[cycle(after)]
fn after_initializer<'t>(kind: &Initializer, tokens: Option<&'t [Token]>) -> Option<&'t [Token]>
    ensures { rest_of result ≡ after_phrase (initializer_phrase (initializer_view kind.now)) (rest_of tokens.entry) }
{
    match kind {
        Initializer::Init {
            declarator,
            initial,
            ..
        } => {
            let rest = after_tree(declarator, tokens);
            let rest = after_sign(Punctuator::Assign, rest);
            after_tree(initial, rest)
        }
        Initializer::Braces { elements, comma } => {
            let rest = after_sign(Punctuator::OpenBrace, tokens);
            let rest = after_list(elements, rest);
            let rest = after_comma_if(*comma, rest);
            after_sign(Punctuator::CloseBrace, rest)
        }
        Initializer::Designated {
            designators,
            initial,
        } => {
            let rest = after_row(designators, tokens);
            let rest = after_sign(Punctuator::Assign, rest);
            after_tree(initial, rest)
        }
    }
}

#[cycle(after)]
fn after_specifier<'t>(kind: &Specifier, tokens: Option<&'t [Token]>) -> Option<&'t [Token]>
    ensures { rest_of result ≡ after_phrase (specifier_phrase (specifier_view kind.now)) (rest_of tokens.entry) }
{
    match kind {
        Specifier::TypeName { specs, declarator } | Specifier::Param { specs, declarator } => {
            let rest = after_tree(specs, tokens);
            after_optional(*declarator, rest)
        }
        Specifier::Specs { items } => after_row(items, tokens),
        Specifier::StructTag { which, tag } => {
            let rest = after_keyword(which.word(), tokens);
            after_token(tag, rest)
        }
        Specifier::StructBody {
            which,
            tag,
            members,
        } => {
            let rest = after_keyword(which.word(), tokens);
            let rest = after_tag(*tag, rest);
            let rest = after_sign(Punctuator::OpenBrace, rest);
            let rest = after_row(members, rest);
            after_sign(Punctuator::CloseBrace, rest)
        }
        Specifier::EnumTag { tag } => {
            let rest = after_keyword(Keyword::Enum, tokens);
            after_token(tag, rest)
        }
        Specifier::EnumBody {
            tag,
            enumerators,
            comma,
        } => {
            let rest = after_keyword(Keyword::Enum, tokens);
            let rest = after_tag(*tag, rest);
            let rest = after_sign(Punctuator::OpenBrace, rest);
            let rest = after_list(enumerators, rest);
            let rest = after_comma_if(*comma, rest);
            after_sign(Punctuator::CloseBrace, rest)
        }
        Specifier::StructDeclaration { specs, declarators } => {
            let rest = after_tree(specs, tokens);
            let rest = after_list(declarators, rest);
            after_sign(Punctuator::Semicolon, rest)
        }
        Specifier::BitField { declarator, width } => {
            let rest = after_ended(*declarator, Punctuator::Colon, tokens);
            after_tree(width, rest)
        }
    }
}

#[cycle(after)]
fn after_declarator<'t>(kind: &Declarator, tokens: Option<&'t [Token]>) -> Option<&'t [Token]>
    ensures { rest_of result ≡ after_phrase (declarator_phrase (declarator_view kind.now)) (rest_of tokens.entry) }
{
    match kind {
        Declarator::Named {
            pointers,
            name,
            suffixes,
        } => {
            let rest = after_tokens(pointers, tokens);
            let rest = after_token(name, rest);
            after_row(suffixes, rest)
        }
        Declarator::Nested {
            pointers,
            inner,
            suffixes,
        } => {
            let rest = after_tokens(pointers, tokens);
            let rest = after_parenthesized(inner, rest);
            after_row(suffixes, rest)
        }
        Declarator::Unnamed { pointers, suffixes } => {
            let rest = after_tokens(pointers, tokens);
            after_row(suffixes, rest)
        }
    }
}

#[cycle(after)]
fn after_part<'t>(kind: &Part, tokens: Option<&'t [Token]>) -> Option<&'t [Token]>
    ensures { rest_of result ≡ after_phrase (part_phrase (part_view kind.now)) (rest_of tokens.entry) }
{
    match kind {
        Part::SpecWord { word } => after_token(word, tokens),
        Part::ArrayBound { words, bound } => {
            let rest = after_sign(Punctuator::OpenBracket, tokens);
            let rest = after_tokens(words, rest);
            after_ended(*bound, Punctuator::CloseBracket, rest)
        }
        Part::VoidParams => {
            let rest = after_sign(Punctuator::OpenParen, tokens);
            let rest = after_keyword(Keyword::Void, rest);
            after_sign(Punctuator::CloseParen, rest)
        }
        Part::Params { params, variadic } => {
            let rest = after_sign(Punctuator::OpenParen, tokens);
            let rest = after_list(params, rest);
            let rest = after_ellipsis_if(*variadic, rest);
            after_sign(Punctuator::CloseParen, rest)
        }
        Part::Enumerator { name, value } => {
            let rest = after_token(name, tokens);
            after_assigned(*value, rest)
        }
        Part::MemberDesignator { member } => {
            let rest = after_sign(Punctuator::Dot, tokens);
            after_token(member, rest)
        }
        Part::IndexDesignator { index } => {
            let rest = after_sign(Punctuator::OpenBracket, tokens);
            let rest = after_tree(index, rest);
            after_sign(Punctuator::CloseBracket, rest)
        }
    }
}

#[cycle(after)]
fn after_outer<'t>(kind: &Outer, tokens: Option<&'t [Token]>) -> Option<&'t [Token]>
    ensures { rest_of result ≡ after_phrase (outer_phrase (outer_view kind.now)) (rest_of tokens.entry) }
{
    match kind {
        Outer::Declaration { specs, declarators } => {
            let rest = after_tree(specs, tokens);
            let rest = after_list(declarators, rest);
            after_sign(Punctuator::Semicolon, rest)
        }
        Outer::Function {
            specs,
            declarator,
            body,
        } => {
            let rest = after_tree(specs, tokens);
            let rest = after_tree(declarator, rest);
            after_tree(body, rest)
        }
        Outer::Empty => after_sign(Punctuator::Semicolon, tokens),
    }
}

#[cycle(after)]
fn after_statement<'t>(kind: &Statement, tokens: Option<&'t [Token]>) -> Option<&'t [Token]>
    ensures { rest_of result ≡ after_phrase (statement_phrase (statement_view kind.now)) (rest_of tokens.entry) }
{
    match kind {
        Statement::Block { items } => {
            let rest = after_sign(Punctuator::OpenBrace, tokens);
            let rest = after_row(items, rest);
            after_sign(Punctuator::CloseBrace, rest)
        }
        Statement::ExprStmt { value } => after_ended(*value, Punctuator::Semicolon, tokens),
        Statement::If {
            condition,
            then,
            otherwise,
        } => {
            let rest = after_keyword(Keyword::If, tokens);
            let rest = after_parenthesized(condition, rest);
            let rest = after_tree(then, rest);
            after_else(*otherwise, rest)
        }
        Statement::Switch { value, body } => {
            let rest = after_keyword(Keyword::Switch, tokens);
            let rest = after_parenthesized(value, rest);
            after_tree(body, rest)
        }
        Statement::Case { value, body } => {
            let rest = after_keyword(Keyword::Case, tokens);
            let rest = after_tree(value, rest);
            let rest = after_sign(Punctuator::Colon, rest);
            after_tree(body, rest)
        }
        Statement::Default { body } => {
            let rest = after_keyword(Keyword::Default, tokens);
            let rest = after_sign(Punctuator::Colon, rest);
            after_tree(body, rest)
        }
        Statement::Label { label, body } => {
            let rest = after_token(label, tokens);
            let rest = after_sign(Punctuator::Colon, rest);
            after_tree(body, rest)
        }
    }
}

#[cycle(after)]
fn after_iteration<'t>(kind: &Iteration, tokens: Option<&'t [Token]>) -> Option<&'t [Token]>
    ensures { rest_of result ≡ after_phrase (iteration_phrase (iteration_view kind.now)) (rest_of tokens.entry) }
{
    match kind {
        Iteration::While { condition, body } => {
            let rest = after_keyword(Keyword::While, tokens);
            let rest = after_parenthesized(condition, rest);
            after_tree(body, rest)
        }
        Iteration::Do { body, condition } => {
            let rest = after_keyword(Keyword::Do, tokens);
            let rest = after_tree(body, rest);
            let rest = after_keyword(Keyword::While, rest);
            let rest = after_parenthesized(condition, rest);
            after_sign(Punctuator::Semicolon, rest)
        }
        Iteration::For {
            first,
            condition,
            step,
            body,
        } => {
            let rest = after_keyword(Keyword::For, tokens);
            let rest = after_sign(Punctuator::OpenParen, rest);
            let rest = after_ended(*first, Punctuator::Semicolon, rest);
            let rest = after_ended(*condition, Punctuator::Semicolon, rest);
            let rest = after_ended(*step, Punctuator::CloseParen, rest);
            after_tree(body, rest)
        }
        Iteration::ForDeclaration {
            declaration,
            condition,
            step,
            body,
        } => {
            let rest = after_keyword(Keyword::For, tokens);
            let rest = after_sign(Punctuator::OpenParen, rest);
            let rest = after_tree(declaration, rest);
            let rest = after_ended(*condition, Punctuator::Semicolon, rest);
            let rest = after_ended(*step, Punctuator::CloseParen, rest);
            after_tree(body, rest)
        }
    }
}

#[cycle(after)]
fn after_jump<'t>(kind: &Jump, tokens: Option<&'t [Token]>) -> Option<&'t [Token]>
    ensures { rest_of result ≡ after_phrase (jump_phrase (jump_view kind.now)) (rest_of tokens.entry) }
{
    match kind {
        Jump::Goto { label } => {
            let rest = after_keyword(Keyword::Goto, tokens);
            let rest = after_token(label, rest);
            after_sign(Punctuator::Semicolon, rest)
        }
        Jump::Continue => {
            let rest = after_keyword(Keyword::Continue, tokens);
            after_sign(Punctuator::Semicolon, rest)
        }
        Jump::Break => {
            let rest = after_keyword(Keyword::Break, tokens);
            after_sign(Punctuator::Semicolon, rest)
        }
        Jump::Return { value } => {
            let rest = after_keyword(Keyword::Return, tokens);
            after_ended(*value, Punctuator::Semicolon, rest)
        }
    }
}

/// What follows an operator and its operand.
#[cycle(after)]
fn after_unary<'t>(op: UnaryOp, operand: &Tree, tokens: Option<&'t [Token]>) -> Option<&'t [Token]>
    ensures { rest_of result ≡ after_phrase (unary_phrase op (phrase_of (view operand.now))) (rest_of tokens.entry) }
{
    match op {
        UnaryOp::PostInc => after_sign(Punctuator::Increment, after_tree(operand, tokens)),
        UnaryOp::PostDec => after_sign(Punctuator::Decrement, after_tree(operand, tokens)),
        UnaryOp::PreInc => after_tree(operand, after_sign(Punctuator::Increment, tokens)),
        UnaryOp::PreDec => after_tree(operand, after_sign(Punctuator::Decrement, tokens)),
        UnaryOp::AddressOf => after_tree(operand, after_sign(Punctuator::Ampersand, tokens)),
        UnaryOp::Deref => after_tree(operand, after_sign(Punctuator::Star, tokens)),
        UnaryOp::Plus => after_tree(operand, after_sign(Punctuator::Plus, tokens)),
        UnaryOp::Minus => after_tree(operand, after_sign(Punctuator::Minus, tokens)),
        UnaryOp::BitNot => after_tree(operand, after_sign(Punctuator::Tilde, tokens)),
        UnaryOp::Not => after_tree(operand, after_sign(Punctuator::Exclamation, tokens)),
        UnaryOp::Sizeof => after_tree(operand, after_keyword(Keyword::Sizeof, tokens)),
    }
}

/// What follows a tree in parentheses.
#[cycle(after)]
fn after_parenthesized<'t>(tree: &Tree, tokens: Option<&'t [Token]>) -> Option<&'t [Token]>
    ensures { rest_of result ≡ after_phrase (sign OpenParen ⨾ phrase_of (view tree.now) ⨾ sign CloseParen) (rest_of tokens.entry) }
{
    let rest = after_sign(Punctuator::OpenParen, tokens);
    let rest = after_tree(tree, rest);
    after_sign(Punctuator::CloseParen, rest)
}

/// What follows a tree, where there is one.
#[cycle(after)]
fn after_optional<'t>(tree: Option<&Tree>, tokens: Option<&'t [Token]>) -> Option<&'t [Token]>
    ensures { rest_of result ≡ after_phrase (maybe_phrase (maybe_view tree.entry)) (rest_of tokens.entry) }
{
    match tree {
        None => tokens,
        Some(tree) => after_tree(tree, tokens),
    }
}

/// What follows a tree, where there is one, and this punctuator behind it.
#[cycle(after)]
fn after_ended<'t>(
    tree: Option<&Tree>,
    end: Punctuator,
    tokens: Option<&'t [Token]>,
) -> Option<&'t [Token]>
    ensures { rest_of result ≡ after_phrase (maybe_phrase (maybe_view tree.entry) ⨾ sign end) (rest_of tokens.entry) }
{
    match tree {
        None => after_sign(end, tokens),
        Some(tree) => after_sign(end, after_tree(tree, tokens)),
    }
}

/// What follows `= tree`, where there is one.
#[cycle(after)]
fn after_assigned<'t>(tree: Option<&Tree>, tokens: Option<&'t [Token]>) -> Option<&'t [Token]>
    ensures { rest_of result ≡ after_phrase (assigned_phrase (maybe_view tree.entry)) (rest_of tokens.entry) }
{
    match tree {
        None => tokens,
        Some(tree) => after_tree(tree, after_sign(Punctuator::Assign, tokens)),
    }
}

/// What follows `else tree`, where there is one.
#[cycle(after)]
fn after_else<'t>(tree: Option<&Tree>, tokens: Option<&'t [Token]>) -> Option<&'t [Token]>
    ensures { rest_of result ≡ after_phrase (else_phrase (maybe_view tree.entry)) (rest_of tokens.entry) }
{
    match tree {
        None => tokens,
        Some(tree) => after_tree(tree, after_keyword(Keyword::Else, tokens)),
    }
}

/// What follows trees one after the other.
#[cycle(after)]
#[tactic(auto, using(c_tree::proofs::Rows::nodes_out))]
fn after_row<'t>(trees: &Trees, tokens: Option<&'t [Token]>) -> Option<&'t [Token]>
    ensures { rest_of result ≡ after_phrase (row_phrase (list_view trees.now)) (rest_of tokens.entry) }
{
    let mut rest = tokens;
    for tree in trees.all {
        rest = after_tree(tree, rest);
    }
    rest
}

/// What follows trees with commas between.
#[cycle(after)]
#[tactic(auto, using(c_tree::proofs::Rows::nodes_out))]
fn after_list<'t>(trees: &Trees, tokens: Option<&'t [Token]>) -> Option<&'t [Token]>
    ensures { rest_of result ≡ after_phrase (list_phrase (list_view trees.now)) (rest_of tokens.entry) }
{
    let mut rest = tokens;
    let mut is_first = true;
    for tree in trees.all {
        if !is_first {
            rest = after_sign(Punctuator::Comma, rest);
        }
        rest = after_tree(tree, rest);
        is_first = false;
    }
    rest
}
