//! The blocks of statements (ISO 9899:1990, 6.6).

ghost use Rattle.std.specs.Prelude.{◌≡◌, ◌<◌, [], length, IfOk, OnOk};
ghost use Rattle.c_tree.specs.Views.{node_of, nodes_of, option_node, statement_shape, iteration_shape, jump_shape};
ghost use Rattle.flow_graph.specs.CPaths.Forms.{done, operand};
ghost use Rattle.flow_graph.specs.CPaths.Flow.{Switch, While, Do, For};
ghost use Rattle.flow_graph.specs.CPaths.TreeForms.{form_of};
ghost use Rattle.flow_graph.specs.CPaths.TreeFlow.{maybe_row, maybe_form, flow_of, statement_flow, iteration_flow, jump_flow, maybe_flow, flows_of};
ghost use Rattle.flow_graph.specs.CPaths.Building.{test_blocks, simple};
ghost use Rattle.flow_graph.specs.Values.{drafts_of, made};
ghost use Rattle.flow_graph.specs.Statements.{IsPlaced, blocks_ahead, rows_ahead};

use crate::builder::Builder;
use crate::draft::{DraftEnd, Way};
use crate::facts::Facts;
use crate::graph::End;
use crate::labels::{Entry, Labels};
use crate::switches::complete;
use c_tree::{Iteration, Jump, Kind, Place, Statement, Tree, Trees};
use std::alloc::{AllocError, Global};

/// Where a statement leads.
#[derive(Clone, Copy)]
pub(crate) struct Ahead {
    /// At its end.
    pub(crate) next: u32,
    /// By `break` (6.6.6.3).
    pub(crate) at_break: u32,
    /// By `continue` (6.6.6.2).
    pub(crate) at_continue: u32,
}

/// The blocks of a loop that begins with its condition, or with its body.
#[derive(Clone, Copy)]
struct Turn {
    // Where its condition is evaluated.
    head: u32,
    // Where its body begins.
    inside: u32,
}

/// The blocks and the labels of a body, while they are built.
#[derive(Drop)]
pub(crate) struct BodyBuilder<'a> {
    pub(crate) blocks: Builder<'a>,
    pub(crate) labels: Labels,
}

impl<'a> Builder<'a> {
    /// The head of a loop leads to its condition, and that into the body or on. Without a condition it leads into the body.
    fn test<F: Facts>(
        &mut self,
        facts: &F,
        condition: Option<&'a Tree<'a>>,
        turn: Turn,
        next: u32,
    ) -> Result<(), AllocError>
        requires { turn.head < length self.old.drafts.items }
        ensures { OnOk result (drafts_of self.new.drafts.items ≡ test_blocks (maybe_form (F.known facts.now) (option_node condition.entry)) turn.inside next turn.head (drafts_of self.old.drafts.items)) }
    {
        match condition {
            None => self.fill(turn.head, turn.inside),
            Some(condition) => {
                let first = self.expression(
                    facts,
                    condition,
                    Way::ToEither {
                        holds: turn.inside,
                        fails: next,
                    },
                )?;
                self.fill(turn.head, first)
            }
        }
    }

    /// A jump (6.6.6), whose first word stands at this place.
    fn jump<F: Facts>(
        &mut self,
        facts: &F,
        function: Place,
        place: Place,
        kind: &Jump<'a>,
        ahead: Ahead,
    ) -> Result<u32, AllocError>
        ensures { IfOk result (λ b. simple (made self.new.drafts.items b) ≡ blocks_ahead (jump_flow (F.known facts.now) function place (jump_shape kind.now)) ahead (drafts_of self.old.drafts.items)) }
    {
        match kind {
            Jump::Goto { label } => self.silent(DraftEnd::Label(label.name)),
            Jump::Continue => Ok(ahead.at_continue),
            Jump::Break => Ok(ahead.at_break),
            Jump::Return { value } => {
                let exit = self.exit(function, place)?;
                let b = self.maybe_value(facts, *value, exit)?;
                Ok(b)
            }
        }
    }
}

impl<'a> BodyBuilder<'a> {
    /// No blocks and no labels.
    pub(crate) fn new(alloc: Global) -> BodyBuilder<'a>
        ensures blocks { result.blocks.drafts.items ≡ [] }
        ensures labels { result.labels ≡ [] }
    {
        BodyBuilder {
            blocks: Builder::new(alloc),
            labels: Labels::new(alloc),
        }
    }

    /// The block in which a statement or a declaration begins. Its labels for the innermost `switch` are put behind `cases`.
    #[cycle(statements)]
    pub(crate) fn statement<F: Facts>(
        &mut self,
        facts: &F,
        function: Place,
        tree: &'a Tree<'a>,
        ahead: Ahead,
        cases: &mut Vec<u32>,
    ) -> Result<u32, AllocError>
        ensures { IfOk result (λ b. IsPlaced self.old self.new cases.old.items cases.new.items b (blocks_ahead (flow_of (F.known facts.now) function (node_of tree.now)) ahead (drafts_of self.old.blocks.drafts.items))) }
    {
        match &tree.kind {
            Kind::Statement(kind) => self.plain_statement(facts, function, kind, ahead, cases),
            Kind::Iteration(kind) => self.iteration(facts, function, kind, ahead, cases),
            Kind::Jump(kind) => {
                let b = self.blocks.jump(facts, function, tree.first, kind, ahead)?;
                Ok(b)
            }
            Kind::Outer(kind) => {
                let b = self.blocks.outer(facts, kind, ahead.next)?;
                Ok(b)
            }
            Kind::Primary(_)
            | Kind::Operation(_)
            | Kind::Initializer(_)
            | Kind::Specifier(_)
            | Kind::Declarator(_)
            | Kind::Part(_) => Ok(ahead.next),
        }
    }

    /// A labeled, compound, expression or selection statement (6.6.1 to 6.6.4).
    #[cycle(statements)]
    fn plain_statement<F: Facts>(
        &mut self,
        facts: &F,
        function: Place,
        kind: &Statement<'a>,
        ahead: Ahead,
        cases: &mut Vec<u32>,
    ) -> Result<u32, AllocError>
        ensures { IfOk result (λ b. IsPlaced self.old self.new cases.old.items cases.new.items b (blocks_ahead (statement_flow (F.known facts.now) function (statement_shape kind.now)) ahead (drafts_of self.old.blocks.drafts.items))) }
    {
        match kind {
            Statement::Block { items } => self.items(facts, function, items, ahead, cases),
            Statement::ExprStmt { value } => {
                let b = self.blocks.maybe_value(facts, *value, ahead.next)?;
                Ok(b)
            }
            Statement::If {
                condition,
                then,
                otherwise,
            } => {
                let fails = self.maybe_statement(facts, function, *otherwise, ahead, cases)?;
                let holds = self.statement(facts, function, then, ahead, cases)?;
                let b = self
                    .blocks
                    .expression(facts, condition, Way::ToEither { holds, fails })?;
                Ok(b)
            }
            Statement::Switch { value, body } => {
                let b = self.switch(facts, function, value, body, ahead)?;
                Ok(b)
            }
            Statement::Case { body, .. } | Statement::Default { body } => {
                let b = self.statement(facts, function, body, ahead, cases)?;
                cases.push(b)?;
                Ok(b)
            }
            Statement::Label { label, body } => {
                let b = self.statement(facts, function, body, ahead, cases)?;
                self.labels.add(Entry {
                    label: label.name,
                    block: b,
                })?;
                Ok(b)
            }
        }
    }

    /// A statement that may be left out: that behind `else` (6.6.4.1).
    #[cycle(statements)]
    fn maybe_statement<F: Facts>(
        &mut self,
        facts: &F,
        function: Place,
        tree: Option<&'a Tree<'a>>,
        ahead: Ahead,
        cases: &mut Vec<u32>,
    ) -> Result<u32, AllocError>
        ensures { IfOk result (λ b. IsPlaced self.old self.new cases.old.items cases.new.items b (blocks_ahead (maybe_flow (F.known facts.now) function (option_node tree.entry)) ahead (drafts_of self.old.blocks.drafts.items))) }
    {
        match tree {
            None => Ok(ahead.next),
            Some(tree) => self.statement(facts, function, tree, ahead, cases),
        }
    }

    /// The declarations and statements of a block, in order (6.6.2).
    #[tactic(auto, using(crate::proofs::Steps::steps))]
    #[cycle(statements)]
    fn items<F: Facts>(
        &mut self,
        facts: &F,
        function: Place,
        trees: &Trees<'a>,
        ahead: Ahead,
        cases: &mut Vec<u32>,
    ) -> Result<u32, AllocError>
        ensures { IfOk result (λ b. IsPlaced self.old self.new cases.old.items cases.new.items b (rows_ahead (flows_of (F.known facts.now) function (nodes_of trees.now)) ahead (drafts_of self.old.blocks.drafts.items))) }
    {
        let all = trees.all;
        let mut first = ahead.next;
        let mut left = all.len();
        while left > 0 {
            left -= 1;
            let behind = Ahead {
                next: first,
                at_break: ahead.at_break,
                at_continue: ahead.at_continue,
            };
            first = self.statement(facts, function, &all[left], behind, cases)?;
        }
        Ok(first)
    }

    /// `switch (value) body` (6.6.4.2). What `break` leads to stands behind it.
    #[cycle(statements)]
    fn switch<F: Facts>(
        &mut self,
        facts: &F,
        function: Place,
        value: &'a Tree<'a>,
        body: &'a Tree<'a>,
        ahead: Ahead,
    ) -> Result<u32, AllocError>
        ensures { IfOk result (λ b. IsPlaced self.old self.new [] [] b (blocks_ahead (Switch (operand (form_of (F.known facts.now) (node_of value.now)) done) (flow_of (F.known facts.now) function (node_of body.now))) ahead (drafts_of self.old.blocks.drafts.items))) }
    {
        let inside = Ahead {
            next: ahead.next,
            at_break: ahead.next,
            at_continue: ahead.at_continue,
        };
        let mut targets = Vec::new(self.blocks.alloc);
        let _ = self.statement(facts, function, body, inside, &mut targets)?;
        complete(&mut targets, body, ahead.next)?;
        let choice = self.blocks.silent(DraftEnd::Known(End::Goto(targets)))?;
        let b = self.blocks.expression(facts, value, Way::To(choice))?;
        Ok(b)
    }

    /// A loop (6.6.5).
    #[cycle(statements)]
    fn iteration<F: Facts>(
        &mut self,
        facts: &F,
        function: Place,
        kind: &Iteration<'a>,
        ahead: Ahead,
        cases: &mut Vec<u32>,
    ) -> Result<u32, AllocError>
        ensures { IfOk result (λ b. IsPlaced self.old self.new cases.old.items cases.new.items b (blocks_ahead (iteration_flow (F.known facts.now) function (iteration_shape kind.now)) ahead (drafts_of self.old.blocks.drafts.items))) }
    {
        match kind {
            Iteration::While { condition, body } => {
                let turn = self.turn(facts, function, condition, body, ahead, cases)?;
                Ok(turn.head)
            }
            Iteration::Do { body, condition } => {
                let turn = self.turn(facts, function, condition, body, ahead, cases)?;
                Ok(turn.inside)
            }
            Iteration::For {
                first,
                condition,
                step,
                body,
            } => {
                let head = self.for_turn(facts, function, *condition, *step, body, ahead, cases)?;
                let b = self.blocks.maybe_value(facts, *first, head)?;
                Ok(b)
            }
            Iteration::ForDeclaration {
                declaration,
                condition,
                step,
                body,
            } => {
                let head = self.for_turn(facts, function, *condition, *step, body, ahead, cases)?;
                let b = self.blocks.declaration(facts, declaration, head)?;
                Ok(b)
            }
        }
    }

    /// A `while` or a `do` (6.6.5.1, 6.6.5.2), which begin at its head or inside. What `continue` leads to is the condition.
    #[cycle(statements)]
    fn turn<F: Facts>(
        &mut self,
        facts: &F,
        function: Place,
        condition: &'a Tree<'a>,
        body: &'a Tree<'a>,
        ahead: Ahead,
        cases: &mut Vec<u32>,
    ) -> Result<Turn, AllocError>
        ensures at_head { IfOk result (λ turn. IsPlaced self.old self.new cases.old.items cases.new.items turn.head (blocks_ahead (While (form_of (F.known facts.now) (node_of condition.now)) (flow_of (F.known facts.now) function (node_of body.now))) ahead (drafts_of self.old.blocks.drafts.items))) }
        ensures inside { IfOk result (λ turn. IsPlaced self.old self.new cases.old.items cases.new.items turn.inside (blocks_ahead (Do (flow_of (F.known facts.now) function (node_of body.now)) (form_of (F.known facts.now) (node_of condition.now))) ahead (drafts_of self.old.blocks.drafts.items))) }
    {
        let head = self.blocks.reserve()?;
        let around = Ahead {
            next: head,
            at_break: ahead.next,
            at_continue: head,
        };
        let inside = self.statement(facts, function, body, around, cases)?;
        let turn = Turn { head, inside };
        self.blocks.test(facts, Some(condition), turn, ahead.next)?;
        Ok(turn)
    }

    /// A `for` but for its first part (6.6.5.3). What `continue` leads to is its last expression.
    #[cycle(statements)]
    fn for_turn<F: Facts>(
        &mut self,
        facts: &F,
        function: Place,
        condition: Option<&'a Tree<'a>>,
        step: Option<&'a Tree<'a>>,
        body: &'a Tree<'a>,
        ahead: Ahead,
        cases: &mut Vec<u32>,
    ) -> Result<u32, AllocError>
        ensures { IfOk result (λ b. IsPlaced self.old self.new cases.old.items cases.new.items b (blocks_ahead (For done (maybe_form (F.known facts.now) (option_node condition.entry)) (maybe_row (F.known facts.now) (option_node step.entry)) (flow_of (F.known facts.now) function (node_of body.now))) ahead (drafts_of self.old.blocks.drafts.items))) }
    {
        let head = self.blocks.reserve()?;
        let last = self.blocks.maybe_value(facts, step, head)?;
        let around = Ahead {
            next: last,
            at_break: ahead.next,
            at_continue: last,
        };
        let inside = self.statement(facts, function, body, around, cases)?;
        self.blocks
            .test(facts, condition, Turn { head, inside }, ahead.next)?;
        Ok(head)
    }
}
