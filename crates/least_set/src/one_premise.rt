//! The least set under rules of one premise.

ghost use Rattle.std.specs.Prelude.{◌≡◌, IfOk, Contains};
ghost use Rattle.least_set.specs.Logs.{BeginsWith, InOrder, IsExactly, IsOnce};
ghost use Rattle.least_set.specs.OnePremise.{Follows, Least};

use crate::keys::Key;
use crate::logs::add_all;
use indexmap::IndexSet;
use std::alloc::{AllocError, Global};

/// Rules of one premise: what the set begins with, and what follows from a member.
pub trait Steps {
    /// What the set is of.
    type Member: Key;

    // what is there from the beginning
    ghost base: { Self → Self.Member → Type 0 };

    // from a member follows another
    ghost goes: { Self → Self.Member → Self.Member → Type 0 };

    /// The members of the base. The log begins with them.
    fn begin(&self, alloc: Global) -> Result<Vec<Self::Member>, AllocError>
        ensures exact { IfOk result (λ v. IsExactly v.items (base self.now)) };

    /// The members that follow from this one.
    fn next(&self, alloc: Global, member: &Self::Member) -> Result<Vec<Self::Member>, AllocError>
        ensures exact { IfOk result (λ v. IsExactly v.items (goes self.now member.now)) };
}

/// The least set that has the base and whatever follows from a member, each member once. It has no end where the rules
/// give ever new members; then memory runs out, which is the only error.
///
/// A member's index says when it was found: the base comes first, then what follows from the first member, then what
/// follows from the second one, and so on. So each member outside the base follows from one that stands before it.
pub fn closure<S: Steps>(alloc: Global, steps: &S) -> Result<IndexSet<S::Member>, AllocError>
    ensures closed { IfOk result (λ log. (c : S.Member) → Follows (S.base steps.now) (S.goes steps.now) log.keys c → Contains log.keys c) }
    ensures only { IfOk result (λ log. (c : S.Member) → Contains log.keys c → Least (S.base steps.now) (S.goes steps.now) c) }
    ensures order { IfOk result (λ log. InOrder (Follows (S.base steps.now) (S.goes steps.now)) log.keys) }
    ensures first { IfOk result (λ log. BeginsWith (S.base steps.now) log.keys) }
    ensures once { IfOk result (λ log. IsOnce log.keys) }
{
    let mut log: IndexSet<S::Member> = IndexSet::new(alloc);
    add_all(&mut log, steps.begin(alloc)?)?;
    let mut i = 0;
    while i < log.len() {
        let found = steps.next(alloc, &log.as_slice()[i])?;
        add_all(&mut log, found)?;
        i += 1;
    }
    Ok(log)
}
