//! The calls in expressions and in initial values (ISO 9899:1990, 6.3, 6.5.7), by their kinds.

ghost use Rattle.std.specs.Prelude.{◌≡◌, ◌++◌, [], ◌∷◌, OnOk};
ghost use Rattle.c_tree.specs.Views.{node_of, nodes_of, option_node, primary_shape, operation_shape, initializer_shape};
ghost use Rattle.root_functions.specs.CallSites.Calls.{nodes_at, with_expression, with_primary, with_operation, unless_sizeof, with_initializer, with_all, with_maybe};

use crate::call_sites::calls::Calls;
use c_tree::{Initializer, Kind, Operation, Primary, Tree, Trees, UnaryOp};
use std::alloc::AllocError;

impl<'a> Calls<'a> {
    /// Adds the calls in an expression or an initial value. A tree that is neither has none.
    #[cycle(expressions)]
    pub(crate) fn expression(&mut self, tree: &'a Tree<'a>) -> Result<(), AllocError>
        ensures { OnOk result (nodes_at self.new.found.items ≡ with_expression (nodes_at self.old.found.items) (node_of tree.now)) }
    {
        match &tree.kind {
            Kind::Primary(kind) => self.primary(kind),
            Kind::Operation(kind) => self.operation(tree, kind),
            Kind::Initializer(kind) => self.initializer(kind),
            Kind::Specifier(_)
            | Kind::Declarator(_)
            | Kind::Part(_)
            | Kind::Outer(_)
            | Kind::Statement(_)
            | Kind::Iteration(_)
            | Kind::Jump(_) => Ok(()),
        }
    }

    /// Those in a primary expression (6.3.1).
    #[cycle(expressions)]
    fn primary(&mut self, kind: &Primary<'a>) -> Result<(), AllocError>
        ensures { OnOk result (nodes_at self.new.found.items ≡ with_primary (nodes_at self.old.found.items) (primary_shape kind.now)) }
    {
        match kind {
            Primary::Paren { inner } => self.expression(inner),
            Primary::VaArg { list, .. } => self.expression(list),
            Primary::Ident { .. }
            | Primary::Constant { .. }
            | Primary::StrConst { .. }
            | Primary::Offsetof { .. }
            | Primary::Hole { .. } => Ok(()),
        }
    }

    /// Those in the operands of an operator (6.3.2 to 6.3.17), and the tree itself if it is a call.
    #[cycle(expressions)]
    fn operation(&mut self, tree: &'a Tree<'a>, kind: &Operation<'a>) -> Result<(), AllocError>
        ensures { OnOk result (nodes_at self.new.found.items ≡ with_operation (nodes_at self.old.found.items) (node_of tree.now) (operation_shape kind.now)) }
    {
        match kind {
            Operation::Index { array, index } => self.both(array, index),
            Operation::Call {
                callee,
                arguments,
                ..
            } => self.call(tree, callee, arguments),
            Operation::Member { operand, .. }
            | Operation::Arrow { operand, .. }
            | Operation::Cast { operand, .. } => self.expression(operand),
            Operation::CompoundLit { braces, .. } => self.expression(braces),
            Operation::Unary { op, operand } => self.unary(*op, operand),
            Operation::SizeofType { .. } => Ok(()),
            Operation::Binary { left, right, .. } | Operation::Assign { left, right, .. } =>
                self.both(left, right),
            Operation::Cond {
                condition,
                then,
                otherwise,
            } => self.choice(condition, then, otherwise),
        }
    }

    /// Those in a call, and then the call itself (6.3.2.2).
    #[cycle(expressions)]
    fn call(
        &mut self,
        tree: &'a Tree<'a>,
        callee: &'a Tree<'a>,
        arguments: &Trees<'a>,
    ) -> Result<(), AllocError>
        ensures { OnOk result (nodes_at self.new.found.items ≡ with_all (with_expression (nodes_at self.old.found.items) (node_of callee.now)) (nodes_of arguments.now) ++ (node_of tree.now ∷ [])) }
    {
        self.expression(callee)?;
        self.all(arguments)?;
        self.add(tree)?;
        Ok(())
    }

    /// Those in the operand of an operator before or behind it. That of `sizeof` isn't evaluated (6.3.3.4).
    #[cycle(expressions)]
    fn unary(&mut self, op: UnaryOp, operand: &'a Tree<'a>) -> Result<(), AllocError>
        ensures { OnOk result (nodes_at self.new.found.items ≡ unless_sizeof op (nodes_at self.old.found.items) (with_expression (nodes_at self.old.found.items) (node_of operand.now))) }
    {
        match op {
            UnaryOp::Sizeof => Ok(()),
            UnaryOp::PostInc
            | UnaryOp::PostDec
            | UnaryOp::PreInc
            | UnaryOp::PreDec
            | UnaryOp::AddressOf
            | UnaryOp::Deref
            | UnaryOp::Plus
            | UnaryOp::Minus
            | UnaryOp::BitNot
            | UnaryOp::Not => self.expression(operand),
        }
    }

    /// Those in two operands, the left one first.
    #[cycle(expressions)]
    fn both(&mut self, left: &'a Tree<'a>, right: &'a Tree<'a>) -> Result<(), AllocError>
        ensures { OnOk result (nodes_at self.new.found.items ≡ with_expression (with_expression (nodes_at self.old.found.items) (node_of left.now)) (node_of right.now)) }
    {
        self.expression(left)?;
        self.expression(right)?;
        Ok(())
    }

    /// Those in `condition ? then : otherwise` (6.3.15).
    #[cycle(expressions)]
    fn choice(
        &mut self,
        condition: &'a Tree<'a>,
        then: &'a Tree<'a>,
        otherwise: &'a Tree<'a>,
    ) -> Result<(), AllocError>
        ensures { OnOk result (nodes_at self.new.found.items ≡ with_expression (with_expression (with_expression (nodes_at self.old.found.items) (node_of condition.now)) (node_of then.now)) (node_of otherwise.now)) }
    {
        self.expression(condition)?;
        self.expression(then)?;
        self.expression(otherwise)?;
        Ok(())
    }

    /// Those in an initial value (6.5.7).
    #[cycle(expressions)]
    fn initializer(&mut self, kind: &Initializer<'a>) -> Result<(), AllocError>
        ensures { OnOk result (nodes_at self.new.found.items ≡ with_initializer (nodes_at self.old.found.items) (initializer_shape kind.now)) }
    {
        match kind {
            Initializer::Init { initial, .. } | Initializer::Designated { initial, .. } =>
                self.expression(initial),
            Initializer::Braces { elements, .. } => self.all(elements),
        }
    }

    /// Those in trees, in order.
    #[cycle(expressions)]
    fn all(&mut self, trees: &Trees<'a>) -> Result<(), AllocError>
        ensures { OnOk result (nodes_at self.new.found.items ≡ with_all (nodes_at self.old.found.items) (nodes_of trees.now)) }
    {
        for tree in trees.all {
            self.expression(tree)?;
        }
        Ok(())
    }

    /// Those in an expression that may be left out.
    pub(crate) fn maybe(&mut self, tree: Option<&'a Tree<'a>>) -> Result<(), AllocError>
        ensures { OnOk result (nodes_at self.new.found.items ≡ with_maybe (nodes_at self.old.found.items) (option_node tree.entry)) }
    {
        match tree {
            None => Ok(()),
            Some(tree) => self.expression(tree),
        }
    }
}
