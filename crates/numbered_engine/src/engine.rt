//! The engine: one edge after the other, each block entered through its summary.

ghost use Rattle.std.specs.Prelude.{◌≡◌, ◌↔◌, ◌+◌, ◌-◌, ◌^◌, min, length, ℕ, List, Bool, false, true, IfOk, Contains, None, Some, []};
ghost use Rattle.block_summary.specs.Kept.{IsRight};
ghost use Rattle.least_set.specs.Logs.{IsExactly, IsOnce};
ghost use Rattle.numbered_engine.specs.Counted.{counted};
ghost use Rattle.numbered_engine.specs.Program.{block_of, ends_in, function_at, is_own_frame};
ghost use Rattle.numbered_engine.specs.Held.{AreRight, GoesOn, WaitsOn, counted_on, first_of, fresh, held_at, is_held};
ghost use Rattle.numbered_engine.specs.Rules.{FollowsFrom, IsDerived, LeadsTo, WaitsAt};
ghost use Rattle.numbered_engine.specs.Waiting.{ended, woken};
ghost use Rattle.numbered_engine.specs.Tables.{own_in, rows_in};
ghost use Rattle.numbered_engine.specs.declared.edges.NumberedContext.{NumberedContext as Context};
ghost use Rattle.numbered_engine.specs.declared.edges.NumberedEdge.{NumberedEdge as Edge};
ghost use Rattle.row_flows.specs.Concerns.{all_calm};
ghost use Rattle.row_flows.specs.declared.rows.EventRow.{EventRow};

use crate::edge_log::EdgeLog;
use crate::edges::{NumberedContext, NumberedEdge, NumberedWaiter};
use crate::following::led;
use crate::held::{HeldContext, ended_at, held_at, passed_by};
use crate::program::{Block, FunctionRows, ProgramRows, block_of, call_at, function_at};
use crate::waiting::{ended, waiting, woken};
use block_summary::{BlockSummary, Entered};
use indexmap::IndexMap;
use least_set::{CachingRules, Entered as Given, least_in};
use mx_base::Steps;
use row_flows::NumberedTuple;
use std::alloc::{AllocError, Global};

/// A program with what was worked out for its blocks.
#[derive(Drop)]
pub struct NumberedEngine<'p, L> {
    pub(crate) program: &'p ProgramRows,
    pub(crate) summary: BlockSummary,
    // contexts that are passed by, since an earlier run worked them off
    held: IndexMap<NumberedContext, HeldContext>,
    steps: Steps<L>,
    ghost right: { ∥ IsRight (rows_in program.now) (own_in program.now) summary ∥₁ },
}

// Whether a frame that was entered so is a root's own.
pub(crate) fn is_own_frame(function: &FunctionRows, entry: NumberedTuple) -> bool
    ensures { result ≡ is_own_frame function.now entry }
{
    function.is_root && entry.global == 0 && entry.state == 0
}

// The tuples at the end of an edge's block.
fn tuples_at_end<L>(
    summary: &mut BlockSummary,
    steps: &mut Steps<L>,
    alloc: Global,
    function: &FunctionRows,
    block: &Block,
    edge: &NumberedEdge,
) -> Result<Vec<NumberedTuple>, AllocError>
    ensures ticks { steps.new.count ≡ counted steps.old.count }
    ensures right { (rows_of : ℕ → ℕ → List EventRow) (own_of : ℕ → List Bool) → rows_of edge.now.context.function edge.now.block ≡ block.now.rows.rows.items → own_of edge.now.context.function ≡ function.now.own.items → IsRight rows_of own_of summary.old → IsRight rows_of own_of summary.new }
    ensures tuples { IfOk result (λ ts. (rows_of : ℕ → ℕ → List EventRow) (own_of : ℕ → List Bool) → rows_of edge.now.context.function edge.now.block ≡ block.now.rows.rows.items → own_of edge.now.context.function ≡ function.now.own.items → IsRight rows_of own_of summary.old → IsExactly ts.items (Contains (ends_in function.now block.now edge.now.context.entry edge.now.tuple))) }
{
    let entered = Entered {
        function: edge.context.function,
        block: edge.block,
        tuple: edge.tuple,
        is_root: is_own_frame(function, edge.context.entry),
    };
    let exits = summary.enter(alloc, &block.rows, function.own.as_slice(), entered, steps)?;
    exits.tuples_of(alloc, edge.tuple)
}

// The tuples at the end of an edge's block in a program, by a summary that is known to be right for it.
fn tuples_in<L>(
    summary: &mut BlockSummary,
    steps: &mut Steps<L>,
    alloc: Global,
    program: &ProgramRows,
    function: &FunctionRows,
    block: &Block,
    edge: &NumberedEdge,
) -> Result<Vec<NumberedTuple>, AllocError>
    requires function { function_at program.now edge.now.context.function ≡ Some function.now }
    requires block { block_of function.now edge.now.block ≡ Some block.now }
    requires known { ∥ IsRight (rows_in program.now) (own_in program.now) summary.now ∥₁ }
    ensures ticks { steps.new.count ≡ counted steps.old.count }
    ensures right { ∥ IsRight (rows_in program.now) (own_in program.now) summary.new ∥₁ }
    ensures tuples { IfOk result (λ ts. IsExactly ts.items (Contains (ends_in function.now block.now edge.now.context.entry edge.now.tuple))) }
{
    tuples_at_end(summary, steps, alloc, function, block, edge)
}

// What an edge gives that has these tuples at the end of its block.
fn given_by(
    alloc: Global,
    program: &ProgramRows,
    function: &FunctionRows,
    block: &Block,
    edge: &NumberedEdge,
    tuples: &[NumberedTuple],
) -> Result<Given<NumberedEdge, NumberedContext, NumberedWaiter>, AllocError>
    requires function { function_at program.now edge.now.context.function ≡ Some function.now }
    requires block { block_of function.now edge.now.block ≡ Some block.now }
    requires tuples { IsExactly tuples.now (Contains (ends_in function.now block.now edge.now.context.entry edge.now.tuple)) }
    ensures goes { IfOk result (λ v. IsExactly v.next.items (LeadsTo program.now edge.now)) }
    ensures waits { IfOk result (λ v. IsExactly v.waits.items (λ w. WaitsAt program.now edge.now w.on w.waiter)) }
    ensures ends { IfOk result (λ v. v.end ≡ ended program.now edge.now) }
{
    let next = led(alloc, edge.context, &block.ending, tuples)?;
    let waits = waiting(alloc, edge, &block.ending, tuples)?;
    let end = ended(edge, &block.ending);
    Ok(Given { next, waits, end })
}

// What an edge gives whose block leaves its object calm: its tuple stands at the end, and no other does.
fn given_calmly(
    alloc: Global,
    program: &ProgramRows,
    function: &FunctionRows,
    block: &Block,
    edge: &NumberedEdge,
) -> Result<Given<NumberedEdge, NumberedContext, NumberedWaiter>, AllocError>
    requires function { function_at program.now edge.now.context.function ≡ Some function.now }
    requires block { block_of function.now edge.now.block ≡ Some block.now }
    requires calm { all_calm edge.now.tuple.object block.now.rows.rows.items ≡ true }
    ensures goes { IfOk result (λ v. IsExactly v.next.items (LeadsTo program.now edge.now)) }
    ensures waits { IfOk result (λ v. IsExactly v.waits.items (λ w. WaitsAt program.now edge.now w.on w.waiter)) }
    ensures ends { IfOk result (λ v. v.end ≡ ended program.now edge.now) }
{
    given_by(alloc, program, function, block, edge, &[edge.tuple])
}

// What an edge gives that is none of the program.
fn nothing(alloc: Global) -> Given<NumberedEdge, NumberedContext, NumberedWaiter>
    ensures next { result.next.items ≡ [] }
    ensures waits { result.waits.items ≡ [] }
    ensures end { result.end ≡ None }
{
    Given {
        next: Vec::new(alloc),
        waits: Vec::new(alloc),
        end: None,
    }
}

// What an edge gives. One that is none of the program is counted too.
fn given<L>(
    summary: &mut BlockSummary,
    steps: &mut Steps<L>,
    alloc: Global,
    program: &ProgramRows,
    edge: &NumberedEdge,
) -> Result<Given<NumberedEdge, NumberedContext, NumberedWaiter>, AllocError>
    requires known { ∥ IsRight (rows_in program.now) (own_in program.now) summary.now ∥₁ }
    ensures ticks { steps.new.count ≡ counted steps.old.count }
    ensures right { ∥ IsRight (rows_in program.now) (own_in program.now) summary.new ∥₁ }
    ensures goes { IfOk result (λ v. IsExactly v.next.items (LeadsTo program.now edge.now)) }
    ensures waits { IfOk result (λ v. IsExactly v.waits.items (λ w. WaitsAt program.now edge.now w.on w.waiter)) }
    ensures ends { IfOk result (λ v. v.end ≡ ended program.now edge.now) }
{
    let Some(function) = function_at(program, edge.context.function) else {
        steps.tick();
        return Ok(nothing(alloc));
    };
    let Some(block) = block_of(function, edge.block) else {
        steps.tick();
        return Ok(nothing(alloc));
    };
    if block.rows.leaves_calm(edge.tuple.object) {
        steps.tick();
        return given_calmly(alloc, program, function, block, edge);
    }
    let tuples = tuples_in(summary, steps, alloc, program, function, block, edge)?;
    given_by(alloc, program, function, block, edge, tuples.as_slice())
}

// What an edge of a held context gives. It isn't counted.
fn given_held(
    alloc: Global,
    program: &ProgramRows,
    held: &IndexMap<NumberedContext, HeldContext>,
    context: &HeldContext,
    edge: &NumberedEdge,
) -> Result<Given<NumberedEdge, NumberedContext, NumberedWaiter>, AllocError>
    requires held { held_at held.now.entries edge.now.context ≡ Some context.now }
    ensures goes { IfOk result (λ v. IsExactly v.next.items (GoesOn program.now held.now.entries edge.now)) }
    ensures waits { IfOk result (λ v. IsExactly v.waits.items (λ w. WaitsOn program.now held.now.entries edge.now w.on w.waiter)) }
    ensures ends { IfOk result (λ v. v.end ≡ ended program.now edge.now) }
{
    Ok(Given {
        next: passed_by(alloc, edge, context)?,
        waits: Vec::new(alloc),
        end: ended_at(program, edge),
    })
}

// What an edge gives in a run that passes held contexts by.
fn given_on<L>(
    summary: &mut BlockSummary,
    steps: &mut Steps<L>,
    alloc: Global,
    program: &ProgramRows,
    held: &IndexMap<NumberedContext, HeldContext>,
    edge: &NumberedEdge,
) -> Result<Given<NumberedEdge, NumberedContext, NumberedWaiter>, AllocError>
    requires known { ∥ IsRight (rows_in program.now) (own_in program.now) summary.now ∥₁ }
    ensures ticks { steps.new.count ≡ counted_on held.now.entries edge.now steps.old.count }
    ensures right { ∥ IsRight (rows_in program.now) (own_in program.now) summary.new ∥₁ }
    ensures goes { IfOk result (λ v. IsExactly v.next.items (GoesOn program.now held.now.entries edge.now)) }
    ensures waits { IfOk result (λ v. IsExactly v.waits.items (λ w. WaitsOn program.now held.now.entries edge.now w.on w.waiter)) }
    ensures ends { IfOk result (λ v. v.end ≡ ended program.now edge.now) }
{
    match held_at(held, edge.context) {
        Some(context) => given_held(alloc, program, held, context, edge),
        None => given(summary, steps, alloc, program, edge),
    }
}

// What a waiter and an end give.
fn woken_in(
    alloc: Global,
    program: &ProgramRows,
    waiter: &NumberedWaiter,
    end: &NumberedEdge,
) -> Result<Vec<NumberedEdge>, AllocError>
    ensures { IfOk result (λ list. list.items ≡ woken program.now waiter.now end.now) }
{
    match call_at(program, waiter.context.function, waiter.block) {
        Some(call) => woken(alloc, waiter, end.tuple, call),
        None => Ok(Vec::new(alloc)),
    }
}

impl<'p, L> NumberedEngine<'p, L> {
    /// An engine that has worked out nothing yet, and counts from nothing.
    pub fn new(alloc: Global, program: &'p ProgramRows) -> Self
        ensures { result.program.now ≡ program.now }
    {
        Self::counting(alloc, program, Steps::new())
    }

    /// An engine that has worked out nothing yet, and goes on with this count of steps.
    pub fn counting(alloc: Global, program: &'p ProgramRows, steps: Steps<L>) -> Self
        ensures program { result.program.now ≡ program.now }
        ensures steps { result.steps.count ≡ steps.count }
    {
        NumberedEngine {
            program,
            summary: BlockSummary::new(alloc),
            held: IndexMap::new(alloc),
            steps,
        }
    }

    /// The count of steps: one for each block that was entered.
    pub fn into_steps(self) -> Steps<L>
        ensures { result.count ≡ self.entry.steps.count }
    {
        self.steps
    }
}

impl<L> CachingRules for NumberedEngine<'_, L> {
    ghost use Rattle.numbered_engine.specs.Held.{GoesOn, WaitsOn, counted_on};
    ghost use Rattle.numbered_engine.specs.Rules.{Begins, IsEndOf, IsWoken};

    type Member = NumberedEdge;

    type Context = NumberedContext;

    type Waiter = NumberedWaiter;

    type Source = (ProgramRows, IndexMap<NumberedContext, HeldContext>);

    ghost source = { λ e. (e.program.now, e.held) };

    ghost asked = { λ e. e.steps.count };

    ghost counting = { λ s e n. counted_on s.1.entries e n };

    ghost base = { λ s. Begins s.0 };

    ghost goes = { λ s. GoesOn s.0 s.1.entries };

    ghost waits = { λ s. WaitsOn s.0 s.1.entries };

    ghost ends = { λ s. IsEndOf s.0 };

    ghost wakes = { λ s. IsWoken s.0 };

    fn begin(&self, alloc: Global) -> Result<Vec<NumberedEdge>, AllocError> {
        self.program.begun.as_slice().to_vec(alloc)
    }

    fn enter(
        &mut self,
        alloc: Global,
        member: &NumberedEdge,
    ) -> Result<Given<NumberedEdge, NumberedContext, NumberedWaiter>, AllocError> {
        given_on(
            &mut self.summary,
            &mut self.steps,
            alloc,
            self.program,
            &self.held,
            member,
        )
    }

    fn wake(
        &self,
        alloc: Global,
        waiter: &NumberedWaiter,
        end: &NumberedEdge,
    ) -> Result<Vec<NumberedEdge>, AllocError> {
        woken_in(alloc, self.program, waiter, end)
    }
}

/// The edges of a program where some contexts are held, which are passed by: of a held context the first edge, if its frame begins, and then its
/// ends and the first edges of its calls, as they are held; of any other each edge that follows, and nothing else. Where what is held is right, as
/// of an earlier run over the same tables, the edges of the others are just what `tabulate` finds of them. Their blocks were entered once: the steps
/// of the engine rise by their number.
pub fn resume<L>(
    alloc: Global,
    engine: &mut NumberedEngine<L>,
    held: IndexMap<NumberedContext, HeldContext>,
) -> Result<EdgeLog, AllocError>
    ensures same { engine.new.program.now ≡ engine.old.program.now }
    ensures fresh { IfOk result (λ log. AreRight engine.old.program.now held.entries → (e : Edge) → is_held held.entries e.context ≡ false → Contains log.keys e ↔ IsDerived engine.old.program.now e) }
    ensures begun { IfOk result (λ log. AreRight engine.old.program.now held.entries → (k : Context) → Contains log.keys (first_of k) ↔ IsDerived engine.old.program.now (first_of k)) }
    ensures only { IfOk result (λ log. AreRight engine.old.program.now held.entries → (e : Edge) → Contains log.keys e → IsDerived engine.old.program.now e) }
    ensures once { IfOk result (λ log. IsOnce log.keys) }
    ensures steps { IfOk result (λ log. engine.new.steps.count ≡ min (engine.old.steps.count + length (fresh held.entries log.keys)) (2 ^ 64 - 1)) }
{
    let _before = engine.steps.count();
    engine.held = held;
    let log = least_in(alloc, engine, EdgeLog::new(alloc))?;
    Ok(log)
}

/// The edges of a program: what follows by the rules of tabulation, each once, and nothing else. The block of each was entered once: the steps of
/// the engine rise by their number.
pub fn tabulate<L>(alloc: Global, engine: &mut NumberedEngine<L>) -> Result<EdgeLog, AllocError>
    ensures same { engine.new.program.now ≡ engine.old.program.now }
    ensures closed { IfOk result (λ log. (e : Edge) → FollowsFrom engine.old.program.now log.keys e → Contains log.keys e) }
    ensures only { IfOk result (λ log. (e : Edge) → Contains log.keys e → IsDerived engine.old.program.now e) }
    ensures once { IfOk result (λ log. IsOnce log.keys) }
    ensures steps { IfOk result (λ log. engine.new.steps.count ≡ min (engine.old.steps.count + length log.keys) (2 ^ 64 - 1)) }
{
    let log = resume(alloc, engine, IndexMap::new(alloc))?;
    Ok(log)
}
