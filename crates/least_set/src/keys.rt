//! Values that are one value where `==` says so.

ghost use Rattle.std.specs.Prelude.{◌≡◌, true};

use std::hash::Hash;

/// Values that are one value where `==` says so, as a derived `==` does. Members and contexts are found by it.
pub trait Key: Eq + Hash + Drop {
    ghost same: { (x y : Self) → Self.PartialEq.eq x y ≡ true → x ≡ y };
}

impl Key for u32 {
    ghost use Rattle.std.proofs.lemmas.Bool.{eqb-true};

    ghost same = { eqb-true };
}

impl Key for usize {
    ghost use Rattle.std.proofs.lemmas.Bool.{eqb-true};

    ghost same = { eqb-true };
}

impl<A: Key, B: Key> Key for (A, B) {
    ghost use Rattle.least_set.specs.Ways.Same.{same_pair};

    ghost same = { same_pair A.PartialEq.eq B.PartialEq.eq A.same B.same };
}

impl<A: Key> Key for Option<A> {
    ghost use Rattle.least_set.specs.Ways.Same.{same_option};

    ghost same = { same_option A.PartialEq.eq A.same };
}
