//! The calls in statements (ISO 9899:1990, 6.6), whether control comes to them or not.

ghost use Rattle.std.specs.Prelude.{◌≡◌, OnOk};
ghost use Rattle.c_tree.specs.Views.{node_of, nodes_of, option_node, statement_shape, iteration_shape, jump_shape};
ghost use Rattle.root_functions.specs.CallSites.Calls.{nodes_at, with_expression, with_maybe, with_statement, with_plain, with_iteration, with_jump, with_else, with_items};

use crate::call_sites::calls::Calls;
use c_tree::{Iteration, Jump, Kind, Statement, Tree, Trees};
use flow_graph::Facts;
use std::alloc::AllocError;

impl<'a> Calls<'a> {
    /// Adds the calls in a statement or a declaration.
    #[cycle(statements)]
    pub(crate) fn statement<F: Facts>(
        &mut self,
        facts: &F,
        tree: &'a Tree<'a>,
    ) -> Result<(), AllocError>
        ensures { OnOk result (nodes_at self.new.found.items ≡ with_statement (F.known facts.now) (nodes_at self.old.found.items) (node_of tree.now)) }
    {
        match &tree.kind {
            Kind::Statement(kind) => self.plain_statement(facts, kind),
            Kind::Iteration(kind) => self.iteration(facts, kind),
            Kind::Jump(kind) => self.jump(kind),
            Kind::Outer(kind) => self.outer(facts, kind),
            Kind::Primary(_)
            | Kind::Operation(_)
            | Kind::Initializer(_)
            | Kind::Specifier(_)
            | Kind::Declarator(_)
            | Kind::Part(_) => Ok(()),
        }
    }

    /// Those in a labeled, compound, expression or selection statement (6.6.1 to 6.6.4). The value of a `case` is a constant.
    #[cycle(statements)]
    fn plain_statement<F: Facts>(
        &mut self,
        facts: &F,
        kind: &Statement<'a>,
    ) -> Result<(), AllocError>
        ensures { OnOk result (nodes_at self.new.found.items ≡ with_plain (F.known facts.now) (nodes_at self.old.found.items) (statement_shape kind.now)) }
    {
        match kind {
            Statement::Block { items } => self.items(facts, items),
            Statement::ExprStmt { value } => self.maybe(*value),
            Statement::If {
                condition,
                then,
                otherwise,
            } => {
                self.after(facts, condition, then)?;
                self.else_part(facts, *otherwise)?;
                Ok(())
            }
            Statement::Switch { value, body } => self.after(facts, value, body),
            Statement::Case { body, .. }
            | Statement::Default { body }
            | Statement::Label { body, .. } => self.statement(facts, body),
        }
    }

    /// Those in an expression, and then in a statement.
    #[cycle(statements)]
    fn after<F: Facts>(
        &mut self,
        facts: &F,
        value: &'a Tree<'a>,
        body: &'a Tree<'a>,
    ) -> Result<(), AllocError>
        ensures { OnOk result (nodes_at self.new.found.items ≡ with_statement (F.known facts.now) (with_expression (nodes_at self.old.found.items) (node_of value.now)) (node_of body.now)) }
    {
        self.expression(value)?;
        self.statement(facts, body)?;
        Ok(())
    }

    /// Those in the statement behind `else` (6.6.4.1), which may be left out.
    #[cycle(statements)]
    fn else_part<F: Facts>(
        &mut self,
        facts: &F,
        tree: Option<&'a Tree<'a>>,
    ) -> Result<(), AllocError>
        ensures { OnOk result (nodes_at self.new.found.items ≡ with_else (F.known facts.now) (nodes_at self.old.found.items) (option_node tree.entry)) }
    {
        match tree {
            None => Ok(()),
            Some(tree) => self.statement(facts, tree),
        }
    }

    /// Those in the declarations and statements of a block, in order (6.6.2).
    #[cycle(statements)]
    fn items<F: Facts>(&mut self, facts: &F, trees: &Trees<'a>) -> Result<(), AllocError>
        ensures { OnOk result (nodes_at self.new.found.items ≡ with_items (F.known facts.now) (nodes_at self.old.found.items) (nodes_of trees.now)) }
    {
        for tree in trees.all {
            self.statement(facts, tree)?;
        }
        Ok(())
    }

    /// Those in a loop (6.6.5).
    #[cycle(statements)]
    fn iteration<F: Facts>(&mut self, facts: &F, kind: &Iteration<'a>) -> Result<(), AllocError>
        ensures { OnOk result (nodes_at self.new.found.items ≡ with_iteration (F.known facts.now) (nodes_at self.old.found.items) (iteration_shape kind.now)) }
    {
        match kind {
            Iteration::While { condition, body } => self.after(facts, condition, body),
            Iteration::Do { body, condition } => {
                self.statement(facts, body)?;
                self.expression(condition)?;
                Ok(())
            }
            Iteration::For {
                first,
                condition,
                step,
                body,
            } => {
                self.maybe(*first)?;
                self.turn(facts, *condition, *step, body)?;
                Ok(())
            }
            Iteration::ForDeclaration {
                declaration,
                condition,
                step,
                body,
            } => {
                self.declaration(facts, declaration)?;
                self.turn(facts, *condition, *step, body)?;
                Ok(())
            }
        }
    }

    /// Those in a `for` but for its first part (6.6.5.3).
    #[cycle(statements)]
    fn turn<F: Facts>(
        &mut self,
        facts: &F,
        condition: Option<&'a Tree<'a>>,
        step: Option<&'a Tree<'a>>,
        body: &'a Tree<'a>,
    ) -> Result<(), AllocError>
        ensures { OnOk result (nodes_at self.new.found.items ≡ with_statement (F.known facts.now) (with_maybe (with_maybe (nodes_at self.old.found.items) (option_node condition.entry)) (option_node step.entry)) (node_of body.now)) }
    {
        self.maybe(condition)?;
        self.maybe(step)?;
        self.statement(facts, body)?;
        Ok(())
    }

    /// Those in the value of a `return` (6.6.6.4).
    fn jump(&mut self, kind: &Jump<'a>) -> Result<(), AllocError>
        ensures { OnOk result (nodes_at self.new.found.items ≡ with_jump (nodes_at self.old.found.items) (jump_shape kind.now)) }
    {
        match kind {
            Jump::Return { value } => self.maybe(*value),
            Jump::Goto { .. } | Jump::Continue | Jump::Break => Ok(()),
        }
    }
}
