//! The driver of rules of one and of two premises.

ghost use Rattle.std.specs.Prelude.{◌≡◌, ℕ, ◌<◌, [], IfOk, Contains, Some, length, slice_get};
ghost use Rattle.least_set.specs.Logs.{Adds, BeginsWith, InOrder, IsExactly, IsOnce, SomeGives};
ghost use Rattle.least_set.specs.Indexes.{at, AllBelow, Extends};
ghost use Rattle.least_set.specs.Counts.{counted_by};
ghost use Rattle.least_set.specs.TwoPremises.{Answers, Enters, Follows, Kept, Least, Met, Processed};

use crate::indexes::{list_at, push_at};
use crate::logs::{Log, add_all};
use crate::two_premises::{CachingRules, Entered, Wait};
use indexmap::{IndexMap, IndexSet};
use std::alloc::{AllocError, Global};

/// What a waiter and an end give.
fn woken<R: CachingRules, L: Log<R::Member>>(
    alloc: Global,
    rules: &R,
    log: &L,
    waiter: &R::Waiter,
    end: usize,
) -> Result<Vec<R::Member>, AllocError>
    requires { end < length (L.keys log.now) }
    ensures { IfOk result (λ v. IsExactly v.items (Met (R.wakes (R.source rules.now)) (L.keys log.now) waiter.now end)) }
{
    let found = log.get(end);
    rules.wake(alloc, waiter, found.member())
}

/// Adds what a waiter and an end give.
fn combine<R: CachingRules, L: Log<R::Member>>(
    alloc: Global,
    rules: &R,
    log: &mut L,
    waiter: &R::Waiter,
    end: usize,
) -> Result<(), AllocError>
    requires { end < length (L.keys log.old) }
    ensures { IfOk result (λ _. Adds (Met (R.wakes (R.source rules.now)) (L.keys log.old) waiter.now end) (L.keys log.old) (L.keys log.new)) }
{
    let found = woken(alloc, rules, log, waiter, end)?;
    add_all(log, found)?;
    Ok(())
}

/// Adds what a new waiter and the ends known give.
fn answer<R: CachingRules, L: Log<R::Member>>(
    alloc: Global,
    rules: &R,
    log: &mut L,
    waiter: &R::Waiter,
    ends: &[usize],
) -> Result<(), AllocError>
    requires { (j : ℕ) → Contains ends.now j → j < length (L.keys log.old) }
    ensures { IfOk result (λ _. Adds (SomeGives (Met (R.wakes (R.source rules.now)) (L.keys log.old) waiter.now) ends.now) (L.keys log.old) (L.keys log.new)) }
{
    for end in ends {
        combine(alloc, rules, log, waiter, *end)?;
    }
    Ok(())
}

/// Adds what those who wait and a new end give.
fn wake_all<R: CachingRules, L: Log<R::Member>>(
    alloc: Global,
    rules: &R,
    log: &mut L,
    waiters: &[R::Waiter],
    end: usize,
) -> Result<(), AllocError>
    requires { end < length (L.keys log.old) }
    ensures { IfOk result (λ _. Adds (SomeGives (λ w. Met (R.wakes (R.source rules.now)) (L.keys log.old) w end) waiters.now) (L.keys log.old) (L.keys log.new)) }
{
    for waiter in waiters {
        combine(alloc, rules, log, waiter, end)?;
    }
    Ok(())
}

/// Answers new waiters from the ends known, and keeps them for those to come.
fn join<R: CachingRules, L: Log<R::Member>>(
    alloc: Global,
    rules: &R,
    log: &mut L,
    waiting: &mut IndexMap<R::Context, Vec<R::Waiter>>,
    ended: &IndexMap<R::Context, Vec<usize>>,
    waits: Vec<Wait<R::Context, R::Waiter>>,
) -> Result<(), AllocError>
    requires { AllBelow (length (L.keys log.old)) (at R.Context.eq ended.now) }
    ensures log { IfOk result (λ _. Adds (Answers (R.wakes (R.source rules.now)) (L.keys log.old) (at R.Context.eq ended.now) waits.items) (L.keys log.old) (L.keys log.new)) }
    ensures waiting { IfOk result (λ _. Extends (Kept waits.items) (at R.Context.eq waiting.old) (at R.Context.eq waiting.new)) }
{
    for wait in waits {
        let Wait { on, waiter } = wait;
        answer(alloc, rules, log, &waiter, list_at(ended, &on))?;
        push_at(alloc, waiting, on, waiter)?;
    }
    Ok(())
}

/// What the member at a place of the log gives by itself.
fn enter_at<R: CachingRules, L: Log<R::Member>>(
    alloc: Global,
    rules: &mut R,
    log: &L,
    place: usize,
) -> Result<Entered<R::Member, R::Context, R::Waiter>, AllocError>
    requires { place < length (L.keys log.now) }
    ensures same { R.source rules.new ≡ R.source rules.old }
    ensures asked { (e : R.Member) → slice_get (L.keys log.now) place ≡ Some e → R.asked rules.new ≡ R.counting (R.source rules.old) e (R.asked rules.old) }
    ensures enters { IfOk result (λ v. (e : R.Member) × (slice_get (L.keys log.now) place ≡ Some e) × Enters (R.goes (R.source rules.old)) (R.waits (R.source rules.old)) (R.ends (R.source rules.old)) e v) }
{
    let found = log.get(place);
    rules.enter(alloc, found.member())
}

/// Works off the member at a place of the log.
fn process<R: CachingRules, L: Log<R::Member>>(
    alloc: Global,
    rules: &mut R,
    log: &mut L,
    waiting: &mut IndexMap<R::Context, Vec<R::Waiter>>,
    ended: &mut IndexMap<R::Context, Vec<usize>>,
    place: usize,
) -> Result<(), AllocError>
    requires inside { place < length (L.keys log.old) }
    requires below { AllBelow (length (L.keys log.old)) (at R.Context.eq ended.old) }
    ensures same { R.source rules.new ≡ R.source rules.old }
    ensures asked { (e : R.Member) → slice_get (L.keys log.old) place ≡ Some e → R.asked rules.new ≡ R.counting (R.source rules.old) e (R.asked rules.old) }
    ensures done { IfOk result (λ _. (e : R.Member) × (slice_get (L.keys log.old) place ≡ Some e) × Processed (R.goes (R.source rules.old)) (R.waits (R.source rules.old)) (R.ends (R.source rules.old)) (R.wakes (R.source rules.old)) place e (L.keys log.old) (L.keys log.new) (at R.Context.eq waiting.old) (at R.Context.eq waiting.new) (at R.Context.eq ended.old) (at R.Context.eq ended.new)) }
{
    let entered = enter_at(alloc, rules, log, place)?;
    let Entered { next, waits, end } = entered;
    add_all(log, next)?;
    join(alloc, rules, log, waiting, ended, waits)?;
    if let Some(context) = end {
        wake_all(alloc, rules, log, list_at(waiting, &context), place)?;
        push_at(alloc, ended, context, place)?;
    }
    Ok(())
}

/// The least set under rules that keep what they have computed, in a log that the caller gives: that of `least`, for what
/// the rules are of. Each of its members was asked once what it gives by itself.
pub fn least_in<R: CachingRules, L: Log<R::Member>>(
    alloc: Global,
    rules: &mut R,
    mut log: L,
) -> Result<L, AllocError>
    requires { L.keys log ≡ [] }
    ensures same { R.source rules.new ≡ R.source rules.old }
    ensures closed { IfOk result (λ log. (c : R.Member) → Follows (R.base (R.source rules.old)) (R.goes (R.source rules.old)) (R.waits (R.source rules.old)) (R.ends (R.source rules.old)) (R.wakes (R.source rules.old)) (L.keys log) c → Contains (L.keys log) c) }
    ensures only { IfOk result (λ log. (c : R.Member) → Contains (L.keys log) c → Least (R.base (R.source rules.old)) (R.goes (R.source rules.old)) (R.waits (R.source rules.old)) (R.ends (R.source rules.old)) (R.wakes (R.source rules.old)) c) }
    ensures order { IfOk result (λ log. InOrder (Follows (R.base (R.source rules.old)) (R.goes (R.source rules.old)) (R.waits (R.source rules.old)) (R.ends (R.source rules.old)) (R.wakes (R.source rules.old))) (L.keys log)) }
    ensures first { IfOk result (λ log. BeginsWith (R.base (R.source rules.old)) (L.keys log)) }
    ensures once { IfOk result (λ log. IsOnce (L.keys log)) }
    ensures asked { IfOk result (λ log. R.asked rules.new ≡ counted_by (R.counting (R.source rules.old)) (L.keys log) (R.asked rules.old)) }
{
    let mut waiting = IndexMap::new(alloc);
    let mut ended = IndexMap::new(alloc);
    add_all(&mut log, rules.begin(alloc)?)?;
    let mut i = 0;
    while i < log.len() {
        process(alloc, rules, &mut log, &mut waiting, &mut ended, i)?;
        i += 1;
    }
    Ok(log)
}

/// The least set under rules that keep what they have computed: that of `least`, for what the rules are of. Each of its
/// members was asked once what it gives by itself.
pub fn least_caching<R: CachingRules>(
    alloc: Global,
    rules: &mut R,
) -> Result<IndexSet<R::Member>, AllocError>
    ensures same { R.source rules.new ≡ R.source rules.old }
    ensures closed { IfOk result (λ log. (c : R.Member) → Follows (R.base (R.source rules.old)) (R.goes (R.source rules.old)) (R.waits (R.source rules.old)) (R.ends (R.source rules.old)) (R.wakes (R.source rules.old)) log.keys c → Contains log.keys c) }
    ensures only { IfOk result (λ log. (c : R.Member) → Contains log.keys c → Least (R.base (R.source rules.old)) (R.goes (R.source rules.old)) (R.waits (R.source rules.old)) (R.ends (R.source rules.old)) (R.wakes (R.source rules.old)) c) }
    ensures order { IfOk result (λ log. InOrder (Follows (R.base (R.source rules.old)) (R.goes (R.source rules.old)) (R.waits (R.source rules.old)) (R.ends (R.source rules.old)) (R.wakes (R.source rules.old))) log.keys) }
    ensures first { IfOk result (λ log. BeginsWith (R.base (R.source rules.old)) log.keys) }
    ensures once { IfOk result (λ log. IsOnce log.keys) }
    ensures asked { IfOk result (λ log. R.asked rules.new ≡ counted_by (R.counting (R.source rules.old)) log.keys (R.asked rules.old)) }
{
    least_in(alloc, rules, IndexSet::new(alloc))
}
