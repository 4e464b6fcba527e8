//! Rules of one and of two premises.

ghost use Rattle.std.specs.Prelude.{◌≡◌, ◌↔◌, ℕ, IfOk, Contains, Some};
ghost use Rattle.least_set.specs.Logs.{BeginsWith, InOrder, IsExactly, IsOnce};
ghost use Rattle.least_set.specs.TwoPremises.{Follows, Least};

use crate::driver::least_caching;
use crate::keys::Key;
use indexmap::IndexSet;
use std::alloc::{AllocError, Global};

/// Somebody who waits for the ends of a context.
#[derive(Drop)]
pub struct Wait<K, W> {
    /// The context.
    pub on: K,
    /// What is needed to go on at an end of it.
    pub waiter: W,
}

/// What a member gives by itself.
#[derive(Drop)]
pub struct Entered<M, K, W> {
    /// What follows from it alone.
    pub next: Vec<M>,
    /// Who waits because of it.
    pub waits: Vec<Wait<K, W>>,
    /// The context of which it is an end.
    pub end: Option<K>,
}

/// Rules of one and of two premises.
pub trait Rules {
    /// What the set is of.
    type Member: Key;

    /// Where waiters and ends meet.
    type Context: Key;

    /// All that is needed to go on at an end of the context that is waited for.
    type Waiter: Drop;

    // what is there from the beginning
    ghost base: { Self → Self.Member → Type 0 };

    // from a member follows another
    ghost goes: { Self → Self.Member → Self.Member → Type 0 };

    // for a member somebody waits at a context
    ghost waits: { Self → Self.Member → Self.Context → Self.Waiter → Type 0 };

    // a member is an end of a context
    ghost ends: { Self → Self.Member → Self.Context → Type 0 };

    // from a waiter, and an end of the context that it waits at, follows a member
    ghost wakes: { Self → Self.Waiter → Self.Member → Self.Member → Type 0 };

    /// The members of the base. The log begins with them.
    fn begin(&self, alloc: Global) -> Result<Vec<Self::Member>, AllocError>
        ensures exact { IfOk result (λ v. IsExactly v.items (base self.now)) };

    /// What a member gives by itself. It is asked once for each member.
    fn enter(
        &self,
        alloc: Global,
        member: &Self::Member,
    ) -> Result<Entered<Self::Member, Self::Context, Self::Waiter>, AllocError>
        ensures goes { IfOk result (λ v. IsExactly v.next.items (goes self.now member.now)) }
        ensures waits { IfOk result (λ v. IsExactly v.waits.items (λ w. waits self.now member.now w.on w.waiter)) }
        ensures ends { IfOk result (λ v. (k : _) → (v.end ≡ Some k) ↔ ends self.now member.now k) };

    /// What a waiter and an end of the context that it waits at give together. It is asked once for each two that meet.
    fn wake(
        &self,
        alloc: Global,
        waiter: &Self::Waiter,
        end: &Self::Member,
    ) -> Result<Vec<Self::Member>, AllocError>
        ensures exact { IfOk result (λ v. IsExactly v.items (wakes self.now waiter.now end.now)) };
}

/// Rules of one and of two premises that keep what they have computed, as a cache does. They are as `Rules`, and what they
/// keep changes nothing that follows.
pub trait CachingRules {
    /// What the set is of.
    type Member: Key;

    /// Where waiters and ends meet.
    type Context: Key;

    /// All that is needed to go on at an end of the context that is waited for.
    type Waiter: Drop;

    /// What the rules are of: all that the members below speak of.
    type Source;

    // it stays as it is while the rules keep more
    ghost source: { Self → Self.Source };

    // how many members were asked, as far as the rules count them
    ghost asked: { Self → ℕ };

    // that number when one more was asked, this member
    ghost counting: { Self.Source → Self.Member → ℕ → ℕ };

    // what is there from the beginning
    ghost base: { Self.Source → Self.Member → Type 0 };

    // from a member follows another
    ghost goes: { Self.Source → Self.Member → Self.Member → Type 0 };

    // for a member somebody waits at a context
    ghost waits: { Self.Source → Self.Member → Self.Context → Self.Waiter → Type 0 };

    // a member is an end of a context
    ghost ends: { Self.Source → Self.Member → Self.Context → Type 0 };

    // from a waiter, and an end of the context that it waits at, follows a member
    ghost wakes: { Self.Source → Self.Waiter → Self.Member → Self.Member → Type 0 };

    /// The members of the base. The log begins with them.
    fn begin(&self, alloc: Global) -> Result<Vec<Self::Member>, AllocError>
        ensures exact { IfOk result (λ v. IsExactly v.items (base (source self.now))) };

    /// What a member gives by itself. It is asked once for each member.
    fn enter(
        &mut self,
        alloc: Global,
        member: &Self::Member,
    ) -> Result<Entered<Self::Member, Self::Context, Self::Waiter>, AllocError>
        ensures same { source self.new ≡ source self.old }
        ensures asked { asked self.new ≡ counting (source self.old) member.now (asked self.old) }
        ensures goes { IfOk result (λ v. IsExactly v.next.items (goes (source self.old) member.now)) }
        ensures waits { IfOk result (λ v. IsExactly v.waits.items (λ w. waits (source self.old) member.now w.on w.waiter)) }
        ensures ends { IfOk result (λ v. (k : _) → (v.end ≡ Some k) ↔ ends (source self.old) member.now k) };

    /// What a waiter and an end of the context that it waits at give together. It is asked once for each two that meet.
    fn wake(
        &self,
        alloc: Global,
        waiter: &Self::Waiter,
        end: &Self::Member,
    ) -> Result<Vec<Self::Member>, AllocError>
        ensures exact { IfOk result (λ v. IsExactly v.items (wakes (source self.now) waiter.now end.now)) };
}

/// Rules that keep nothing.
#[derive(Drop)]
struct Plain<'a, R>(&'a R);

impl<R: Rules> CachingRules for Plain<'_, R> {
    type Member = R::Member;

    type Context = R::Context;

    type Waiter = R::Waiter;

    type Source = R;

    ghost source = { λ p. p.0.now };

    ghost asked = { λ p. 0 };

    ghost counting = { λ r m n. n };

    ghost base = { R.base };

    ghost goes = { R.goes };

    ghost waits = { R.waits };

    ghost ends = { R.ends };

    ghost wakes = { R.wakes };

    fn begin(&self, alloc: Global) -> Result<Vec<R::Member>, AllocError> {
        self.0.begin(alloc)
    }

    fn enter(
        &mut self,
        alloc: Global,
        member: &R::Member,
    ) -> Result<Entered<R::Member, R::Context, R::Waiter>, AllocError> {
        self.0.enter(alloc, member)
    }

    fn wake(
        &self,
        alloc: Global,
        waiter: &R::Waiter,
        end: &R::Member,
    ) -> Result<Vec<R::Member>, AllocError> {
        self.0.wake(alloc, waiter, end)
    }
}

/// The least set that has the base and whatever follows from one or two members, each member once. It has no end where the
/// rules give ever new members; then memory runs out, which is the only error.
///
/// A member's index says when it was found: the base comes first, then what follows as the first member is worked off,
/// and so on. So each member outside the base follows from such as stand before it. As a member is worked off, first come
/// those that follow from it alone, then those that its waiters get from the ends known, then those that it gives as an end
/// to those who wait.
pub fn least<R: Rules>(alloc: Global, rules: &R) -> Result<IndexSet<R::Member>, AllocError>
    ensures closed { IfOk result (λ log. (c : R.Member) → Follows (R.base rules.now) (R.goes rules.now) (R.waits rules.now) (R.ends rules.now) (R.wakes rules.now) log.keys c → Contains log.keys c) }
    ensures only { IfOk result (λ log. (c : R.Member) → Contains log.keys c → Least (R.base rules.now) (R.goes rules.now) (R.waits rules.now) (R.ends rules.now) (R.wakes rules.now) c) }
    ensures order { IfOk result (λ log. InOrder (Follows (R.base rules.now) (R.goes rules.now) (R.waits rules.now) (R.ends rules.now) (R.wakes rules.now)) log.keys) }
    ensures first { IfOk result (λ log. BeginsWith (R.base rules.now) log.keys) }
    ensures once { IfOk result (λ log. IsOnce log.keys) }
{
    least_caching(alloc, &mut Plain(rules))
}
