//! The blocks of expressions and of initial values (ISO 9899:1990, 6.3, 6.5.7), by their kinds.

ghost use Rattle.std.specs.Prelude.{◌≡◌, IfOk};
ghost use Rattle.c_tree.specs.Views.{node_of, nodes_of, option_node, primary_shape, operation_shape, initializer_shape};
ghost use Rattle.flow_graph.specs.CPaths.Events.{dereferenced};
ghost use Rattle.flow_graph.specs.CPaths.Forms.{Plain, done, operand, item};
ghost use Rattle.flow_graph.specs.CPaths.TreeForms.{itself, call_itself, form_of, primary_form, operation_form, initializer_form, operands};
ghost use Rattle.flow_graph.specs.CPaths.TreeFlow.{maybe_row};
ghost use Rattle.flow_graph.specs.CPaths.Building.{form_blocks, row_blocks};
ghost use Rattle.flow_graph.specs.Values.{drafts_of, way_of, made};

use crate::builder::Builder;
use crate::draft::Way;
use crate::event::Event;
use crate::facts::Facts;
use c_tree::{Initializer, Kind, Operation, Primary, Subject, Tree, Trees};
use std::alloc::AllocError;

impl<'a> Builder<'a> {
    /// The block in which an expression begins that leads this way. A tree that is no expression gives nothing.
    #[cycle(expressions)]
    pub(crate) fn expression<F: Facts>(
        &mut self,
        facts: &F,
        tree: &'a Tree<'a>,
        way: Way,
    ) -> Result<u32, AllocError>
        ensures { IfOk result (λ b. made self.new.drafts.items b ≡ form_blocks (form_of (F.known facts.now) (node_of tree.now)) (way_of way) (drafts_of self.old.drafts.items)) }
    {
        match &tree.kind {
            Kind::Primary(kind) => self.primary(facts, tree, kind, way),
            Kind::Operation(kind) => self.operation(facts, tree, kind, way),
            Kind::Initializer(kind) => self.initializer(facts, tree, kind, way),
            Kind::Specifier(_)
            | Kind::Declarator(_)
            | Kind::Part(_)
            | Kind::Outer(_)
            | Kind::Statement(_)
            | Kind::Iteration(_)
            | Kind::Jump(_) => self.split(tree, way),
        }
    }

    /// A primary expression (6.3.1). Parentheses are their inside.
    #[cycle(expressions)]
    fn primary<F: Facts>(
        &mut self,
        facts: &F,
        tree: &'a Tree<'a>,
        kind: &Primary<'a>,
        way: Way,
    ) -> Result<u32, AllocError>
        ensures { IfOk result (λ b. made self.new.drafts.items b ≡ form_blocks (primary_form (F.known facts.now) (node_of tree.now) (primary_shape kind.now)) (way_of way) (drafts_of self.old.drafts.items)) }
    {
        match kind {
            Primary::Paren { inner } => self.expression(facts, inner, way),
            Primary::VaArg { list, .. } => self.with_operand(facts, tree, list, way),
            Primary::Ident { .. }
            | Primary::Constant { .. }
            | Primary::StrConst { .. }
            | Primary::Offsetof { .. }
            | Primary::Hole { .. } => self.leaf(tree, way),
        }
    }

    /// An operator with its operands (6.3.2 to 6.3.17).
    #[cycle(expressions)]
    fn operation<F: Facts>(
        &mut self,
        facts: &F,
        tree: &'a Tree<'a>,
        kind: &Operation<'a>,
        way: Way,
    ) -> Result<u32, AllocError>
        ensures { IfOk result (λ b. made self.new.drafts.items b ≡ form_blocks (operation_form (F.known facts.now) (node_of tree.now) (operation_shape kind.now)) (way_of way) (drafts_of self.old.drafts.items)) }
    {
        match kind {
            Operation::Index { array, index } => self.with_operands(facts, tree, array, index, way),
            Operation::Call {
                callee,
                arguments,
                ..
            } => self.call(facts, tree, callee, arguments, way),
            Operation::Arrow { operand, .. } => self.arrow(facts, tree, operand, way),
            Operation::Member { operand, .. } | Operation::Cast { operand, .. } =>
                self.with_operand(facts, tree, operand, way),
            Operation::CompoundLit { braces, .. } => self.with_operand(facts, tree, braces, way),
            Operation::Unary { op, operand } => self.unary(facts, tree, *op, operand, way),
            Operation::SizeofType { .. } => self.leaf(tree, way),
            Operation::Binary { op, left, right } => self.binary(
                facts, tree, *op, left, right, way,
            ),
            Operation::Cond {
                condition,
                then,
                otherwise,
            } => self.choice(facts, tree, condition, then, otherwise, way),
            Operation::Assign { left, right, .. } => self.with_operands(
                facts, tree, left, right, way,
            ),
        }
    }

    /// `callee(arguments)`: the callee, the arguments in order, and the call itself (6.3.2.2).
    #[tactic(auto, using(crate::proofs::Backwards::operands_split))]
    #[cycle(expressions)]
    fn call<F: Facts>(
        &mut self,
        facts: &F,
        tree: &'a Tree<'a>,
        callee: &'a Tree<'a>,
        arguments: &Trees<'a>,
        way: Way,
    ) -> Result<u32, AllocError>
        ensures { IfOk result (λ b. made self.new.drafts.items b ≡ form_blocks (Plain (node_of tree.now) (operand (form_of (F.known facts.now) (node_of callee.now)) (operands (F.known facts.now) (nodes_of arguments.now) (call_itself ((F.known facts.now).has_body (node_of tree.now)) (node_of tree.now))))) (way_of way) (drafts_of self.old.drafts.items)) }
    {
        let after = self.split(tree, way)?;
        let node = self.call_itself(facts.has_body(tree), tree, after)?;
        let first = self.operands(facts, arguments, node)?;
        let b = self.expression(facts, callee, Way::To(first))?;
        Ok(b)
    }

    /// `inner->member`: the operand, the `*inner` that is read out of it, and the tree itself (6.3.2.3).
    #[cycle(expressions)]
    fn arrow<F: Facts>(
        &mut self,
        facts: &F,
        tree: &'a Tree<'a>,
        inner: &'a Tree<'a>,
        way: Way,
    ) -> Result<u32, AllocError>
        ensures { IfOk result (λ b. made self.new.drafts.items b ≡ form_blocks (Plain (node_of tree.now) (operand (form_of (F.known facts.now) (node_of inner.now)) (item (dereferenced (node_of inner.now)) (itself (node_of tree.now))))) (way_of way) (drafts_of self.old.drafts.items)) }
    {
        let after = self.split(tree, way)?;
        let node = self.itself(tree, after)?;
        let read = self.lead(Event::Node(Subject::DerefOf(inner)), node)?;
        let b = self.expression(facts, inner, Way::To(read))?;
        Ok(b)
    }

    /// An initial value (6.5.7): that of a name has an event of its own, and braces have none.
    #[cycle(expressions)]
    fn initializer<F: Facts>(
        &mut self,
        facts: &F,
        tree: &'a Tree<'a>,
        kind: &Initializer<'a>,
        way: Way,
    ) -> Result<u32, AllocError>
        ensures { IfOk result (λ b. made self.new.drafts.items b ≡ form_blocks (initializer_form (F.known facts.now) (node_of tree.now) (initializer_shape kind.now)) (way_of way) (drafts_of self.old.drafts.items)) }
    {
        match kind {
            Initializer::Init { initial, .. } => self.with_operand(facts, tree, initial, way),
            Initializer::Braces { elements, .. } => {
                let after = self.split(tree, way)?;
                let b = self.operands(facts, elements, after)?;
                Ok(b)
            }
            Initializer::Designated { initial, .. } => self.expression(facts, initial, way),
        }
    }

    /// Trees in order, each for its value.
    #[tactic(auto, using(crate::proofs::Steps::steps))]
    #[cycle(expressions)]
    fn operands<F: Facts>(
        &mut self,
        facts: &F,
        trees: &Trees<'a>,
        next: u32,
    ) -> Result<u32, AllocError>
        ensures { IfOk result (λ b. made self.new.drafts.items b ≡ row_blocks (operands (F.known facts.now) (nodes_of trees.now) done) next (drafts_of self.old.drafts.items)) }
    {
        let all = trees.all;
        let mut first = next;
        let mut left = all.len();
        while left > 0 {
            left -= 1;
            first = self.expression(facts, &all[left], Way::To(first))?;
        }
        Ok(first)
    }

    /// An expression that may be left out, for its value.
    pub(crate) fn maybe_value<F: Facts>(
        &mut self,
        facts: &F,
        tree: Option<&'a Tree<'a>>,
        next: u32,
    ) -> Result<u32, AllocError>
        ensures { IfOk result (λ b. made self.new.drafts.items b ≡ row_blocks (maybe_row (F.known facts.now) (option_node tree.entry)) next (drafts_of self.old.drafts.items)) }
    {
        match tree {
            None => Ok(next),
            Some(tree) => {
                let b = self.expression(facts, tree, Way::To(next))?;
                Ok(b)
            }
        }
    }
}
