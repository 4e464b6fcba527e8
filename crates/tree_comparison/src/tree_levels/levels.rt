//! The level of a subject.

ghost use Rattle.std.specs.Prelude.{◌≡◌, [], Some};
ghost use Rattle.c_objects.specs.Facts.{Facts, type_in};
ghost use Rattle.c_tree.specs.Views.{node_of, primary_shape, operation_shape, initializer_shape, part_shape};
ghost use Rattle.type_values.specs.Types.{ctype_of};
ghost use Rattle.tree_comparison.specs.TreeLevels.Levels.{leaf_head, opened, level_opened, primary_opened};
ghost use Rattle.hole_matching.specs.Subjects.{inner, is_braced, head_of, parts_of, token_head, operation_head, operation_parts, initializer_head, initializer_parts, part_head, part_parts};
ghost use Rattle.objects.specs.Units.{facts_in};
ghost use Rattle.c_tree.specs.PathSubjects.Subjects.{Tree as TreeSubject};
ghost use Rattle.c_tree.specs.PathSubjects.Values.{subject_of};

use crate::tree_levels::heads::{Front, Leaf, Level, One, Two};
use c_tree::{
    AssignOp, Initializer, Kind, Operation, Part, Primary, Specifier, Subject, Token, TokenKind,
    Tree, UnaryOp,
};
use type_values::Ty;
use typed_unit::TypedUnit;

/// Whether a tree is an initializer in braces.
pub fn is_braced(tree: &Tree) -> bool
    ensures { result ≡ is_braced (node_of tree.now) }
{
    match &tree.kind {
        Kind::Initializer(Initializer::Braces { .. }) => true,
        _ => false,
    }
}

/// The type of a tree of a unit, and `Void` for anything of which nothing is kept.
#[tactic(auto, using(objects::proofs::Cells::cells))]
pub fn type_of<'a>(unit: &TypedUnit<'a>, tree: &Tree) -> Ty<'a>
    ensures { ctype_of result ≡ type_in (facts_in unit.now) (node_of tree.now) }
{
    *unit.ty(tree)
}

/// A constant: an integer by its value (ISO 9899:1990, 6.1.3.2), another by its spelling.
pub fn constant<'a>(token: &Token) -> Leaf<'a>
    ensures { (u : Facts) → leaf_head u result ≡ token_head token.now.kind token.now.name }
{
    match token.kind {
        TokenKind::Int { value, .. } => Leaf::Integer(value),
        _ => Leaf::Spelled(token.name),
    }
}

// Operators on operands (6.3.2 to 6.3.17).
fn operation<'a>(kind: &Operation<'a>) -> Level<'a>
    ensures { (u : Facts) → level_opened u result ≡ opened (Some (operation_head (operation_shape kind.now))) (operation_parts (operation_shape kind.now)) }
{
    match *kind {
        Operation::Index { array, index } => Level::Two(Two::Index, array, index),
        Operation::Call {
            callee,
            arguments,
            ..
        } => Level::Front(Front::Call, callee, arguments),
        Operation::Member { operand, member } => {
            Level::One(One::Member(member.name), Subject::Tree(operand))
        },
        Operation::Arrow { operand, member } => {
            Level::One(One::Member(member.name), Subject::DerefOf(operand))
        },
        Operation::CompoundLit { of, braces } => Level::Two(Two::CompoundLit, of, braces),
        Operation::Unary { op, operand } => Level::One(One::Unary(op), Subject::Tree(operand)),
        Operation::SizeofType { of } => Level::One(One::SizeofType, Subject::Tree(of)),
        Operation::Cast { to, operand } => Level::Two(Two::Cast, to, operand),
        Operation::Binary { op, left, right } => Level::Two(Two::Binary(op), left, right),
        Operation::Cond {
            condition,
            then,
            otherwise,
        } => Level::Cond(condition, then, otherwise),
        Operation::Assign { op, left, right } => Level::Two(Two::Assign(op), left, right),
    }
}

// Initializers (6.5.7).
fn initializer<'a>(kind: &Initializer<'a>) -> Level<'a>
    ensures { (u : Facts) → level_opened u result ≡ opened (initializer_head (initializer_shape kind.now)) (initializer_parts (initializer_shape kind.now)) }
{
    match *kind {
        Initializer::Init { name, initial, .. } => {
            if is_braced(initial) {
                Level::Other
            } else {
                Level::Two(Two::Assign(AssignOp::Plain), name, initial)
            }
        }
        Initializer::Braces { elements, .. } => Level::Braces(elements),
        Initializer::Designated {
            designators,
            initial,
        } => Level::Designated(designators, initial),
    }
}

// Designators.
fn part<'a>(kind: &Part<'a>) -> Level<'a>
    ensures { (u : Facts) → level_opened u result ≡ opened (part_head (part_shape kind.now)) (part_parts (part_shape kind.now)) }
{
    match *kind {
        Part::MemberDesignator { member } => Level::Leaf(Leaf::MemberDesignator(member.name)),
        Part::IndexDesignator { index } => Level::One(One::IndexDesignator, Subject::Tree(index)),
        _ => Level::Other,
    }
}

// The level of a tree.
#[cycle(level)]
fn tree_level<'a>(unit: &TypedUnit<'a>, tree: &Tree<'a>) -> Level<'a>
    ensures { level_opened (facts_in unit.now) result ≡ opened (head_of (facts_in unit.now) (inner (TreeSubject (node_of tree.now)))) (parts_of (inner (TreeSubject (node_of tree.now)))) }
{
    match &tree.kind {
        Kind::Primary(kind) => primary_level(unit, kind),
        Kind::Operation(kind) => operation(kind),
        Kind::Initializer(kind) => initializer(kind),
        Kind::Specifier(Specifier::TypeName { .. }) => {
            Level::Leaf(Leaf::TypeName(type_of(unit, tree)))
        }
        Kind::Part(kind) => part(kind),
        _ => Level::Other,
    }
}

// That of a primary expression (6.3.1); parentheses are seen through.
#[cycle(level)]
fn primary_level<'a>(unit: &TypedUnit<'a>, kind: &Primary<'a>) -> Level<'a>
    ensures { level_opened (facts_in unit.now) result ≡ primary_opened (facts_in unit.now) (primary_shape kind.now) }
{
    match *kind {
        Primary::Ident { name } => Level::Leaf(Leaf::Identifier(name.name)),
        Primary::Constant { token } => Level::Leaf(constant(token)),
        Primary::StrConst { literals } => Level::Leaf(Leaf::Strings(literals)),
        Primary::Paren { inner } => tree_level(unit, inner),
        Primary::VaArg { list, of } => Level::Two(Two::VaArg, list, of),
        Primary::Offsetof { of, member, path } => {
            Level::Front(Front::Offsetof(member.name), of, path)
        }
        Primary::Hole { .. } => Level::Other,
    }
}

/// The level of a subject of a unit.
pub fn level_of<'a>(unit: &TypedUnit<'a>, subject: Subject<'a>) -> Level<'a>
    ensures { level_opened (facts_in unit.now) result ≡ opened (head_of (facts_in unit.now) (inner (subject_of subject.entry))) (parts_of (inner (subject_of subject.entry))) }
{
    match subject {
        Subject::Tree(tree) => tree_level(unit, tree),
        Subject::DerefOf(pointer) => {
            Level::One(One::Unary(UnaryOp::Deref), Subject::Tree(pointer))
        },
    }
}
