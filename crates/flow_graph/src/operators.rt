//! Operators that are conditions of their operands, or decide whether an operand is evaluated (ISO 9899:1990, 6.3.3.3, 6.3.9,
//! 6.3.13 to 6.3.15, 6.3.17), and all others.

ghost use Rattle.std.specs.Prelude.{◌≡◌, IfOk};
ghost use Rattle.c_tree.specs.Views.{node_of};
ghost use Rattle.flow_graph.specs.CPaths.Forms.{Plain, Inverts, Keeps, Both, Any, Chooses, Follows, operand};
ghost use Rattle.flow_graph.specs.CPaths.TreeForms.{is_zero, itself, unary_form, binary_form, form_of};
ghost use Rattle.flow_graph.specs.CPaths.Building.{form_blocks};
ghost use Rattle.flow_graph.specs.Values.{drafts_of, way_of, made};
ghost use Rattle.flow_graph.specs.Chosen.{chosen_blocks};

use crate::builder::Builder;
use crate::draft::Way;
use crate::facts::Facts;
use crate::zero::is_zero;
use c_tree::{BinaryOp, Tree, UnaryOp};
use std::alloc::AllocError;

impl<'a> Builder<'a> {
    /// A tree with no operand that is evaluated.
    pub(crate) fn leaf(&mut self, tree: &'a Tree<'a>, way: Way) -> Result<u32, AllocError>
        ensures { IfOk result (λ b. made self.new.drafts.items b ≡ form_blocks (Plain (node_of tree.now) (itself (node_of tree.now))) (way_of way) (drafts_of self.old.drafts.items)) }
    {
        let after = self.split(tree, way)?;
        let b = self.itself(tree, after)?;
        Ok(b)
    }

    /// A tree behind its one operand.
    #[cycle(expressions)]
    pub(crate) fn with_operand<F: Facts>(
        &mut self,
        facts: &F,
        tree: &'a Tree<'a>,
        inner: &'a Tree<'a>,
        way: Way,
    ) -> Result<u32, AllocError>
        ensures { IfOk result (λ b. made self.new.drafts.items b ≡ form_blocks (Plain (node_of tree.now) (operand (form_of (F.known facts.now) (node_of inner.now)) (itself (node_of tree.now)))) (way_of way) (drafts_of self.old.drafts.items)) }
    {
        let after = self.split(tree, way)?;
        let node = self.itself(tree, after)?;
        let b = self.expression(facts, inner, Way::To(node))?;
        Ok(b)
    }

    /// A tree behind its two operands, the left one first.
    #[cycle(expressions)]
    pub(crate) fn with_operands<F: Facts>(
        &mut self,
        facts: &F,
        tree: &'a Tree<'a>,
        left: &'a Tree<'a>,
        right: &'a Tree<'a>,
        way: Way,
    ) -> Result<u32, AllocError>
        ensures { IfOk result (λ b. made self.new.drafts.items b ≡ form_blocks (Plain (node_of tree.now) (operand (form_of (F.known facts.now) (node_of left.now)) (operand (form_of (F.known facts.now) (node_of right.now)) (itself (node_of tree.now))))) (way_of way) (drafts_of self.old.drafts.items)) }
    {
        let after = self.split(tree, way)?;
        let node = self.itself(tree, after)?;
        let second = self.expression(facts, right, Way::To(node))?;
        let b = self.expression(facts, left, Way::To(second))?;
        Ok(b)
    }

    /// `!inner`: as a condition, the operand with the other truth (6.3.3.3).
    #[cycle(expressions)]
    fn negated<F: Facts>(
        &mut self,
        facts: &F,
        tree: &'a Tree<'a>,
        inner: &'a Tree<'a>,
        way: Way,
    ) -> Result<u32, AllocError>
        ensures { IfOk result (λ b. made self.new.drafts.items b ≡ form_blocks (Inverts (form_of (F.known facts.now) (node_of inner.now)) (itself (node_of tree.now))) (way_of way) (drafts_of self.old.drafts.items)) }
    {
        match way {
            Way::To(next) => {
                let node = self.itself(tree, next)?;
                let b = self.expression(facts, inner, Way::To(node))?;
                Ok(b)
            }
            Way::ToEither { .. } => {
                let b = self.expression(facts, inner, way.turned())?;
                Ok(b)
            }
        }
    }

    /// A tree with an operator before or behind its operand.
    #[cycle(expressions)]
    pub(crate) fn unary<F: Facts>(
        &mut self,
        facts: &F,
        tree: &'a Tree<'a>,
        op: UnaryOp,
        inner: &'a Tree<'a>,
        way: Way,
    ) -> Result<u32, AllocError>
        ensures { IfOk result (λ b. made self.new.drafts.items b ≡ form_blocks (unary_form (node_of tree.now) op (form_of (F.known facts.now) (node_of inner.now))) (way_of way) (drafts_of self.old.drafts.items)) }
    {
        match op {
            UnaryOp::Not => self.negated(facts, tree, inner, way),
            UnaryOp::Sizeof => self.leaf(tree, way),
            UnaryOp::PostInc
            | UnaryOp::PostDec
            | UnaryOp::PreInc
            | UnaryOp::PreDec
            | UnaryOp::AddressOf
            | UnaryOp::Deref
            | UnaryOp::Plus
            | UnaryOp::Minus
            | UnaryOp::BitNot => self.with_operand(facts, tree, inner, way),
        }
    }

    /// `left == 0`: as a condition, the left operand with the other truth (6.3.9). `zero` is the right operand.
    #[cycle(expressions)]
    fn equal_to_zero<F: Facts>(
        &mut self,
        facts: &F,
        tree: &'a Tree<'a>,
        left: &'a Tree<'a>,
        zero: &'a Tree<'a>,
        way: Way,
    ) -> Result<u32, AllocError>
        ensures { IfOk result (λ b. made self.new.drafts.items b ≡ form_blocks (Inverts (form_of (F.known facts.now) (node_of left.now)) (operand (form_of (F.known facts.now) (node_of zero.now)) (itself (node_of tree.now)))) (way_of way) (drafts_of self.old.drafts.items)) }
    {
        match way {
            Way::To(_) => {
                let b = self.with_operands(facts, tree, left, zero, way)?;
                Ok(b)
            }
            Way::ToEither { .. } => {
                let b = self.expression(facts, left, way.turned())?;
                Ok(b)
            }
        }
    }

    /// `left != 0`: as a condition, the left operand (6.3.9). `zero` is the right operand.
    #[cycle(expressions)]
    fn unequal_to_zero<F: Facts>(
        &mut self,
        facts: &F,
        tree: &'a Tree<'a>,
        left: &'a Tree<'a>,
        zero: &'a Tree<'a>,
        way: Way,
    ) -> Result<u32, AllocError>
        ensures { IfOk result (λ b. made self.new.drafts.items b ≡ form_blocks (Keeps (form_of (F.known facts.now) (node_of left.now)) (operand (form_of (F.known facts.now) (node_of zero.now)) (itself (node_of tree.now)))) (way_of way) (drafts_of self.old.drafts.items)) }
    {
        match way {
            Way::To(_) => {
                let b = self.with_operands(facts, tree, left, zero, way)?;
                Ok(b)
            }
            Way::ToEither { .. } => {
                let b = self.expression(facts, left, way)?;
                Ok(b)
            }
        }
    }

    /// `left && right`: the right operand is evaluated where the left one holds (6.3.13).
    #[cycle(expressions)]
    fn both<F: Facts>(
        &mut self,
        facts: &F,
        tree: &'a Tree<'a>,
        left: &'a Tree<'a>,
        right: &'a Tree<'a>,
        way: Way,
    ) -> Result<u32, AllocError>
        ensures { IfOk result (λ b. made self.new.drafts.items b ≡ form_blocks (Both (form_of (F.known facts.now) (node_of left.now)) (form_of (F.known facts.now) (node_of right.now)) (itself (node_of tree.now))) (way_of way) (drafts_of self.old.drafts.items)) }
    {
        match way {
            Way::To(next) => {
                let node = self.itself(tree, next)?;
                let second = self.expression(
                    facts,
                    right,
                    Way::ToEither {
                        holds: node,
                        fails: node,
                    },
                )?;
                let b = self.expression(
                    facts,
                    left,
                    Way::ToEither {
                        holds: second,
                        fails: node,
                    },
                )?;
                Ok(b)
            }
            Way::ToEither { fails, .. } => {
                let second = self.expression(facts, right, way)?;
                let b = self.expression(
                    facts,
                    left,
                    Way::ToEither {
                        holds: second,
                        fails,
                    },
                )?;
                Ok(b)
            }
        }
    }

    /// `left || right`: the right operand is evaluated where the left one fails (6.3.14).
    #[cycle(expressions)]
    fn any<F: Facts>(
        &mut self,
        facts: &F,
        tree: &'a Tree<'a>,
        left: &'a Tree<'a>,
        right: &'a Tree<'a>,
        way: Way,
    ) -> Result<u32, AllocError>
        ensures { IfOk result (λ b. made self.new.drafts.items b ≡ form_blocks (Any (form_of (F.known facts.now) (node_of left.now)) (form_of (F.known facts.now) (node_of right.now)) (itself (node_of tree.now))) (way_of way) (drafts_of self.old.drafts.items)) }
    {
        match way {
            Way::To(next) => {
                let node = self.itself(tree, next)?;
                let second = self.expression(
                    facts,
                    right,
                    Way::ToEither {
                        holds: node,
                        fails: node,
                    },
                )?;
                let b = self.expression(
                    facts,
                    left,
                    Way::ToEither {
                        holds: node,
                        fails: second,
                    },
                )?;
                Ok(b)
            }
            Way::ToEither { holds, .. } => {
                let second = self.expression(facts, right, way)?;
                let b = self.expression(
                    facts,
                    left,
                    Way::ToEither {
                        holds,
                        fails: second,
                    },
                )?;
                Ok(b)
            }
        }
    }

    /// `left, right`: as a condition, the right operand behind the left one (6.3.17).
    #[cycle(expressions)]
    fn sequence<F: Facts>(
        &mut self,
        facts: &F,
        tree: &'a Tree<'a>,
        left: &'a Tree<'a>,
        right: &'a Tree<'a>,
        way: Way,
    ) -> Result<u32, AllocError>
        ensures { IfOk result (λ b. made self.new.drafts.items b ≡ form_blocks (Follows (form_of (F.known facts.now) (node_of left.now)) (form_of (F.known facts.now) (node_of right.now)) (itself (node_of tree.now))) (way_of way) (drafts_of self.old.drafts.items)) }
    {
        match way {
            Way::To(_) => {
                let b = self.with_operands(facts, tree, left, right, way)?;
                Ok(b)
            }
            Way::ToEither { .. } => {
                let second = self.expression(facts, right, way)?;
                let b = self.expression(facts, left, Way::To(second))?;
                Ok(b)
            }
        }
    }

    /// A tree with an operator between its operands.
    #[cycle(expressions)]
    pub(crate) fn binary<F: Facts>(
        &mut self,
        facts: &F,
        tree: &'a Tree<'a>,
        op: BinaryOp,
        left: &'a Tree<'a>,
        right: &'a Tree<'a>,
        way: Way,
    ) -> Result<u32, AllocError>
        ensures { IfOk result (λ b. made self.new.drafts.items b ≡ form_blocks (binary_form (node_of tree.now) op (is_zero (node_of right.now)) (form_of (F.known facts.now) (node_of left.now)) (form_of (F.known facts.now) (node_of right.now))) (way_of way) (drafts_of self.old.drafts.items)) }
    {
        match op {
            BinaryOp::LogAnd => self.both(facts, tree, left, right, way),
            BinaryOp::LogOr => self.any(facts, tree, left, right, way),
            BinaryOp::Comma => self.sequence(facts, tree, left, right, way),
            BinaryOp::Equal => {
                if is_zero(right) {
                    self.equal_to_zero(facts, tree, left, right, way)
                } else {
                    self.with_operands(facts, tree, left, right, way)
                }
            }
            BinaryOp::NotEqual => {
                if is_zero(right) {
                    self.unequal_to_zero(facts, tree, left, right, way)
                } else {
                    self.with_operands(facts, tree, left, right, way)
                }
            }
            BinaryOp::Multiply
            | BinaryOp::Divide
            | BinaryOp::Remainder
            | BinaryOp::Add
            | BinaryOp::Subtract
            | BinaryOp::ShiftLeft
            | BinaryOp::ShiftRight
            | BinaryOp::Less
            | BinaryOp::Greater
            | BinaryOp::LessEqual
            | BinaryOp::GreaterEqual
            | BinaryOp::BitAnd
            | BinaryOp::BitXor
            | BinaryOp::BitOr => self.with_operands(facts, tree, left, right, way),
        }
    }

    /// `condition ? then : otherwise`: one of the last two is evaluated (6.3.15).
    #[cycle(expressions)]
    pub(crate) fn choice<F: Facts>(
        &mut self,
        facts: &F,
        tree: &'a Tree<'a>,
        condition: &'a Tree<'a>,
        then: &'a Tree<'a>,
        otherwise: &'a Tree<'a>,
        way: Way,
    ) -> Result<u32, AllocError>
        ensures { IfOk result (λ b. made self.new.drafts.items b ≡ form_blocks (Chooses (form_of (F.known facts.now) (node_of condition.now)) (form_of (F.known facts.now) (node_of then.now)) (form_of (F.known facts.now) (node_of otherwise.now)) (itself (node_of tree.now))) (way_of way) (drafts_of self.old.drafts.items)) }
    {
        match way {
            Way::To(next) => {
                let node = self.itself(tree, next)?;
                let b = self.choose(facts, condition, then, otherwise, Way::To(node))?;
                Ok(b)
            }
            Way::ToEither { .. } => {
                let b = self.choose(facts, condition, then, otherwise, way)?;
                Ok(b)
            }
        }
    }

    /// The operands of a choice, either of the last two leading on this way.
    #[cycle(expressions)]
    fn choose<F: Facts>(
        &mut self,
        facts: &F,
        condition: &'a Tree<'a>,
        then: &'a Tree<'a>,
        otherwise: &'a Tree<'a>,
        way: Way,
    ) -> Result<u32, AllocError>
        ensures { IfOk result (λ b. made self.new.drafts.items b ≡ chosen_blocks (form_of (F.known facts.now) (node_of condition.now)) (form_of (F.known facts.now) (node_of then.now)) (form_of (F.known facts.now) (node_of otherwise.now)) (way_of way) (drafts_of self.old.drafts.items)) }
    {
        let holds = self.expression(facts, then, way)?;
        let fails = self.expression(facts, otherwise, way)?;
        let b = self.expression(facts, condition, Way::ToEither { holds, fails })?;
        Ok(b)
    }
}
