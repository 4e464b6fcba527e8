//! The head of a tree and its parts.

ghost use Rattle.std.specs.Prelude.{◌≡◌};
ghost use Rattle.c_tree.specs.Forget.{view, primary_view, operation_view, initializer_view, specifier_view, declarator_view, part_view, outer_view, statement_view, iteration_view, jump_view};
ghost use Rattle.tree_laws.specs.TreeEquality.Levels.{level_view, level_of, primary_level, operation_level, initializer_level, specifier_level, declarator_level, part_level, outer_level, statement_level, iteration_level, jump_level};

use crate::tree_equality::heads::{Branches, Form, Head, Level, Words};
use c_tree::{
    Declarator, Initializer, Iteration, Jump, Kind, Operation, Outer, Part, Primary, Specifier,
    Statement, Tree,
};

// Primary expressions (ISO 9899:1990, 6.3.1).
fn primary<'a>(kind: &Primary<'a>) -> Level<'a>
    ensures { level_view result ≡ primary_level (primary_view kind.now) }
{
    match *kind {
        Primary::Ident { name } => Level {
            head: Head::Plain(Form::Ident),
            words: Words::Single(Some(name)),
            branches: Branches::Two(None, None),
        },
        Primary::Constant { token } => Level {
            head: Head::Plain(Form::Constant),
            words: Words::Value(token),
            branches: Branches::Two(None, None),
        },
        Primary::StrConst { literals } => Level {
            head: Head::Plain(Form::StrConst),
            words: Words::Several(literals),
            branches: Branches::Two(None, None),
        },
        Primary::Paren { inner } => Level {
            head: Head::Plain(Form::Paren),
            words: Words::Single(None),
            branches: Branches::Two(Some(inner), None),
        },
        Primary::VaArg { list, of } => Level {
            head: Head::Plain(Form::VaArg),
            words: Words::Single(None),
            branches: Branches::Two(Some(list), Some(of)),
        },
        Primary::Offsetof { of, member, path } => Level {
            head: Head::Plain(Form::Offsetof),
            words: Words::Single(Some(member)),
            branches: Branches::Listed(Some(of), path),
        },
        Primary::Hole { number } => Level {
            head: Head::Hole(number),
            words: Words::Single(None),
            branches: Branches::Two(None, None),
        },
    }
}

// Operators on operands (6.3.2 to 6.3.17).
fn operation<'a>(kind: &Operation<'a>) -> Level<'a>
    ensures { level_view result ≡ operation_level (operation_view kind.now) }
{
    match *kind {
        Operation::Index { array, index } => Level {
            head: Head::Plain(Form::Index),
            words: Words::Single(None),
            branches: Branches::Two(Some(array), Some(index)),
        },
        Operation::Call {
            callee,
            arguments,
            ..
        } => Level {
            head: Head::Plain(Form::Call),
            words: Words::Single(None),
            branches: Branches::Listed(Some(callee), arguments),
        },
        Operation::Member { operand, member } => Level {
            head: Head::Plain(Form::Member),
            words: Words::Single(Some(member)),
            branches: Branches::Two(Some(operand), None),
        },
        Operation::Arrow { operand, member } => Level {
            head: Head::Plain(Form::Arrow),
            words: Words::Single(Some(member)),
            branches: Branches::Two(Some(operand), None),
        },
        Operation::CompoundLit { of, braces } => Level {
            head: Head::Plain(Form::CompoundLit),
            words: Words::Single(None),
            branches: Branches::Two(Some(of), Some(braces)),
        },
        Operation::Unary { op, operand } => Level {
            head: Head::Unary(op),
            words: Words::Single(None),
            branches: Branches::Two(Some(operand), None),
        },
        Operation::SizeofType { of } => Level {
            head: Head::Plain(Form::SizeofType),
            words: Words::Single(None),
            branches: Branches::Two(Some(of), None),
        },
        Operation::Cast { to, operand } => Level {
            head: Head::Plain(Form::Cast),
            words: Words::Single(None),
            branches: Branches::Two(Some(to), Some(operand)),
        },
        Operation::Binary { op, left, right } => Level {
            head: Head::Binary(op),
            words: Words::Single(None),
            branches: Branches::Two(Some(left), Some(right)),
        },
        Operation::Cond {
            condition,
            then,
            otherwise,
        } => Level {
            head: Head::Plain(Form::Cond),
            words: Words::Single(None),
            branches: Branches::Four(Some(condition), Some(then), Some(otherwise), None),
        },
        Operation::Assign { op, left, right } => Level {
            head: Head::Assign(op),
            words: Words::Single(None),
            branches: Branches::Two(Some(left), Some(right)),
        },
    }
}

// Initializers (6.5.7).
fn initializer<'a>(kind: &Initializer<'a>) -> Level<'a>
    ensures { level_view result ≡ initializer_level (initializer_view kind.now) }
{
    match *kind {
        Initializer::Init {
            name,
            declarator,
            initial,
        } => Level {
            head: Head::Plain(Form::Init),
            words: Words::Single(None),
            branches: Branches::Four(Some(name), Some(declarator), Some(initial), None),
        },
        Initializer::Braces { elements, comma } => Level {
            head: Head::Braces(comma),
            words: Words::Single(None),
            branches: Branches::Listed(None, elements),
        },
        Initializer::Designated {
            designators,
            initial,
        } => Level {
            head: Head::Plain(Form::Designated),
            words: Words::Single(None),
            branches: Branches::Listed(Some(initial), designators),
        },
    }
}

// Type names (6.5.5), specifiers (6.5, 6.5.2) and members (6.5.2.1).
fn specifier<'a>(kind: &Specifier<'a>) -> Level<'a>
    ensures { level_view result ≡ specifier_level (specifier_view kind.now) }
{
    match *kind {
        Specifier::TypeName { specs, declarator } => Level {
            head: Head::Plain(Form::TypeName),
            words: Words::Single(None),
            branches: Branches::Two(Some(specs), declarator),
        },
        Specifier::Specs { items } => Level {
            head: Head::Plain(Form::Specs),
            words: Words::Single(None),
            branches: Branches::Listed(None, items),
        },
        Specifier::StructTag { which, tag } => Level {
            head: Head::StructTag(which),
            words: Words::Single(Some(tag)),
            branches: Branches::Two(None, None),
        },
        Specifier::StructBody {
            which,
            tag,
            members,
        } => Level {
            head: Head::StructBody(which),
            words: Words::Single(tag),
            branches: Branches::Listed(None, members),
        },
        Specifier::EnumTag { tag } => Level {
            head: Head::Plain(Form::EnumTag),
            words: Words::Single(Some(tag)),
            branches: Branches::Two(None, None),
        },
        Specifier::EnumBody {
            tag,
            enumerators,
            comma,
        } => Level {
            head: Head::EnumBody(comma),
            words: Words::Single(tag),
            branches: Branches::Listed(None, enumerators),
        },
        Specifier::StructDeclaration { specs, declarators } => Level {
            head: Head::Plain(Form::StructDeclaration),
            words: Words::Single(None),
            branches: Branches::Listed(Some(specs), declarators),
        },
        Specifier::BitField { declarator, width } => Level {
            head: Head::Plain(Form::BitField),
            words: Words::Single(None),
            branches: Branches::Two(declarator, Some(width)),
        },
        Specifier::Param { specs, declarator } => Level {
            head: Head::Plain(Form::Param),
            words: Words::Single(None),
            branches: Branches::Two(Some(specs), declarator),
        },
    }
}

// Declarators (6.5.4) and abstract ones (6.5.5).
fn declarator<'a>(kind: &Declarator<'a>) -> Level<'a>
    ensures { level_view result ≡ declarator_level (declarator_view kind.now) }
{
    match *kind {
        Declarator::Named {
            pointers,
            name,
            suffixes,
        } => Level {
            head: Head::Plain(Form::Named),
            words: Words::Declared(pointers, Some(name)),
            branches: Branches::Listed(None, suffixes),
        },
        Declarator::Nested {
            pointers,
            inner,
            suffixes,
        } => Level {
            head: Head::Plain(Form::Nested),
            words: Words::Declared(pointers, None),
            branches: Branches::Listed(Some(inner), suffixes),
        },
        Declarator::Unnamed { pointers, suffixes } => Level {
            head: Head::Plain(Form::Unnamed),
            words: Words::Declared(pointers, None),
            branches: Branches::Listed(None, suffixes),
        },
    }
}

// Parts of specifiers, declarators and designators.
fn part<'a>(kind: &Part<'a>) -> Level<'a>
    ensures { level_view result ≡ part_level (part_view kind.now) }
{
    match *kind {
        Part::SpecWord { word } => Level {
            head: Head::Plain(Form::SpecWord),
            words: Words::Single(Some(word)),
            branches: Branches::Two(None, None),
        },
        Part::ArrayBound { words, bound } => Level {
            head: Head::Plain(Form::ArrayBound),
            words: Words::Several(words),
            branches: Branches::Two(bound, None),
        },
        Part::VoidParams => Level {
            head: Head::Plain(Form::VoidParams),
            words: Words::Single(None),
            branches: Branches::Two(None, None),
        },
        Part::Params { params, variadic } => Level {
            head: Head::Params(variadic),
            words: Words::Single(None),
            branches: Branches::Listed(None, params),
        },
        Part::Enumerator { name, value } => Level {
            head: Head::Plain(Form::Enumerator),
            words: Words::Single(Some(name)),
            branches: Branches::Two(value, None),
        },
        Part::MemberDesignator { member } => Level {
            head: Head::Plain(Form::MemberDesignator),
            words: Words::Single(Some(member)),
            branches: Branches::Two(None, None),
        },
        Part::IndexDesignator { index } => Level {
            head: Head::Plain(Form::IndexDesignator),
            words: Words::Single(None),
            branches: Branches::Two(Some(index), None),
        },
    }
}

// External definitions (6.7), and declarations in blocks.
fn outer<'a>(kind: &Outer<'a>) -> Level<'a>
    ensures { level_view result ≡ outer_level (outer_view kind.now) }
{
    match *kind {
        Outer::Declaration { specs, declarators } => Level {
            head: Head::Plain(Form::Declaration),
            words: Words::Single(None),
            branches: Branches::Listed(Some(specs), declarators),
        },
        Outer::Function {
            specs,
            declarator,
            body,
        } => Level {
            head: Head::Plain(Form::Function),
            words: Words::Single(None),
            branches: Branches::Four(Some(specs), Some(declarator), Some(body), None),
        },
        Outer::Empty => Level {
            head: Head::Plain(Form::Empty),
            words: Words::Single(None),
            branches: Branches::Two(None, None),
        },
    }
}

// Statements (6.6.1 to 6.6.4).
fn statement<'a>(kind: &Statement<'a>) -> Level<'a>
    ensures { level_view result ≡ statement_level (statement_view kind.now) }
{
    match *kind {
        Statement::Block { items } => Level {
            head: Head::Plain(Form::Block),
            words: Words::Single(None),
            branches: Branches::Listed(None, items),
        },
        Statement::ExprStmt { value } => Level {
            head: Head::Plain(Form::ExprStmt),
            words: Words::Single(None),
            branches: Branches::Two(value, None),
        },
        Statement::If {
            condition,
            then,
            otherwise,
        } => Level {
            head: Head::Plain(Form::If),
            words: Words::Single(None),
            branches: Branches::Four(Some(condition), Some(then), otherwise, None),
        },
        Statement::Switch { value, body } => Level {
            head: Head::Plain(Form::Switch),
            words: Words::Single(None),
            branches: Branches::Two(Some(value), Some(body)),
        },
        Statement::Case { value, body } => Level {
            head: Head::Plain(Form::Case),
            words: Words::Single(None),
            branches: Branches::Two(Some(value), Some(body)),
        },
        Statement::Default { body } => Level {
            head: Head::Plain(Form::Default),
            words: Words::Single(None),
            branches: Branches::Two(Some(body), None),
        },
        Statement::Label { label, body } => Level {
            head: Head::Plain(Form::Label),
            words: Words::Single(Some(label)),
            branches: Branches::Two(Some(body), None),
        },
    }
}

// Iteration statements (6.6.5).
fn iteration<'a>(kind: &Iteration<'a>) -> Level<'a>
    ensures { level_view result ≡ iteration_level (iteration_view kind.now) }
{
    match *kind {
        Iteration::While { condition, body } => Level {
            head: Head::Plain(Form::While),
            words: Words::Single(None),
            branches: Branches::Two(Some(condition), Some(body)),
        },
        Iteration::Do { body, condition } => Level {
            head: Head::Plain(Form::Do),
            words: Words::Single(None),
            branches: Branches::Two(Some(body), Some(condition)),
        },
        Iteration::For {
            first,
            condition,
            step,
            body,
        } => Level {
            head: Head::Plain(Form::For),
            words: Words::Single(None),
            branches: Branches::Four(first, condition, step, Some(body)),
        },
        Iteration::ForDeclaration {
            declaration,
            condition,
            step,
            body,
        } => Level {
            head: Head::Plain(Form::ForDeclaration),
            words: Words::Single(None),
            branches: Branches::Four(Some(declaration), condition, step, Some(body)),
        },
    }
}

// Jump statements (6.6.6).
fn jump<'a>(kind: &Jump<'a>) -> Level<'a>
    ensures { level_view result ≡ jump_level (jump_view kind.now) }
{
    match *kind {
        Jump::Goto { label } => Level {
            head: Head::Plain(Form::Goto),
            words: Words::Single(Some(label)),
            branches: Branches::Two(None, None),
        },
        Jump::Continue => Level {
            head: Head::Plain(Form::Continue),
            words: Words::Single(None),
            branches: Branches::Two(None, None),
        },
        Jump::Break => Level {
            head: Head::Plain(Form::Break),
            words: Words::Single(None),
            branches: Branches::Two(None, None),
        },
        Jump::Return { value } => Level {
            head: Head::Plain(Form::Return),
            words: Words::Single(None),
            branches: Branches::Two(value, None),
        },
    }
}

/// The level of a tree as it is written.
pub fn level<'a>(tree: &Tree<'a>) -> Level<'a>
    ensures { level_view result ≡ level_of (view tree.now) }
{
    match &tree.kind {
        Kind::Primary(kind) => primary(kind),
        Kind::Operation(kind) => operation(kind),
        Kind::Initializer(kind) => initializer(kind),
        Kind::Specifier(kind) => specifier(kind),
        Kind::Declarator(kind) => declarator(kind),
        Kind::Part(kind) => part(kind),
        Kind::Outer(kind) => outer(kind),
        Kind::Statement(kind) => statement(kind),
        Kind::Iteration(kind) => iteration(kind),
        Kind::Jump(kind) => jump(kind),
    }
}
