//! Two small instances: what a graph with cycles reaches, and calls that are matched with returns.

ghost use Rattle.std.specs.Prelude.{◌≡◌, ◌⊎◌, ◌+◌, ◌-◌, ◌^◌, min, IfOk, nat_eq, true};
ghost use Rattle.std.specs.List.{list_any};
ghost use Rattle.least_set.specs.Logs.{IsExactly, SomeGives};

use least_set::{CachingRules, Entered, Key, Rules, Steps, Wait, closure, least, least_caching};
use std::alloc::{AllocError, Global};
use std::test::Fail;

/// Edges between numbers, and the number to begin with.
#[derive(Drop)]
struct Graph<'a> {
    edges: &'a [(u32, u32)],
    start: u32,
}

/// The numbers to which the edges lead from this one.
fn targets(alloc: Global, edges: &[(u32, u32)], from: u32) -> Result<Vec<u32>, AllocError>
    ensures { IfOk result (λ v. IsExactly v.items (SomeGives (λ e c. (e.0 ≡ from) × (e.1 ≡ c)) edges.now)) }
{
    let mut found = Vec::new(alloc);
    for edge in edges {
        if edge.0 == from {
            found.push(edge.1)?;
        }
    }
    Ok(found)
}

impl Steps for Graph<'_> {
    type Member = u32;

    ghost base = { λ g c. g.start ≡ c };

    ghost goes = { λ g a. SomeGives (λ e c. (e.0 ≡ a) × (e.1 ≡ c)) g.edges.now };

    fn begin(&self, alloc: Global) -> Result<Vec<u32>, AllocError> {
        Ok(vec![in alloc; self.start]?)
    }

    fn next(&self, alloc: Global, member: &u32) -> Result<Vec<u32>, AllocError> {
        targets(alloc, self.edges, *member)
    }
}

/// A place in a function that was entered at a node. It is no `Copy`, as members that own something aren't.
#[derive(Drop, Debug, PartialEq, Eq, Hash)]
struct Point {
    entry: u32,
    node: u32,
}

impl Key for Point {
    ghost use Rattle.std.proofs.Common.{rules};
    ghost use Rattle.std.proofs.lemmas.Grind.{common_steps};

    ghost same = { Prim.search (rules, common_steps) };
}

/// From a node another function is entered, and its end goes back to a third node.
#[derive(Clone, Copy)]
struct Call {
    at: u32,
    entry: u32,
    back: u32,
}

/// Functions as one graph.
#[derive(Drop)]
struct Program<'a> {
    start: u32,
    edges: &'a [(u32, u32)],
    calls: &'a [Call],
    ends: &'a [u32],
}

/// The points to which the edges lead from this one.
fn moved(alloc: Global, edges: &[(u32, u32)], at: &Point) -> Result<Vec<Point>, AllocError>
    ensures { IfOk result (λ v. IsExactly v.items (SomeGives (λ e c. (e.0 ≡ at.now.node) × (record { entry = at.now.entry; node = e.1 } ≡ c)) edges.now)) }
{
    let mut found = Vec::new(alloc);
    for edge in edges {
        if edge.0 == at.node {
            found.push(Point {
                entry: at.entry,
                node: edge.1,
            })?;
        }
    }
    Ok(found)
}

/// The functions that are entered from a node.
fn called(alloc: Global, calls: &[Call], node: u32) -> Result<Vec<Point>, AllocError>
    ensures { IfOk result (λ v. IsExactly v.items (SomeGives (λ k c. (k.at ≡ node) × (record { entry = k.entry; node = k.entry } ≡ c)) calls.now)) }
{
    let mut found = Vec::new(alloc);
    for call in calls {
        if call.at == node {
            found.push(Point {
                entry: call.entry,
                node: call.entry,
            })?;
        }
    }
    Ok(found)
}

/// Where to go on once they end.
fn waited(alloc: Global, calls: &[Call], at: &Point) -> Result<Vec<Wait<u32, Point>>, AllocError>
    ensures { IfOk result (λ v. IsExactly v.items (SomeGives (λ k w. (k.at ≡ at.now.node) × (record { on = k.entry; waiter = record { entry = at.now.entry; node = k.back } } ≡ w)) calls.now)) }
{
    let mut found = Vec::new(alloc);
    for call in calls {
        if call.at == at.node {
            found.push(Wait {
                on: call.entry,
                waiter: Point {
                    entry: at.entry,
                    node: call.back,
                },
            })?;
        }
    }
    Ok(found)
}

impl Rules for Program<'_> {
    ghost use Rattle.std.specs.Prelude.{ℕ};
    ghost use Rattle.least_set.specs.declared.two_premises.Wait.{Wait as Waits};
    ghost use Rattle.outside_tests.specs.declared.least_sets.Point.{Point as Place};

    type Member = Point;

    type Context = u32;

    type Waiter = Point;

    ghost base = { λ p c. record { entry = p.start; node = p.start } ≡ c };

    ghost goes = { λ p a c. SomeGives (λ e c. (e.0 ≡ a.node) × (record { entry = a.entry; node = e.1 } ≡ c)) p.edges.now c
        ⊎ SomeGives (λ k c. (k.at ≡ a.node) × (record { entry = k.entry; node = k.entry } ≡ c)) p.calls.now c };

    ghost waits = { λ p a k w. SomeGives {M = Waits ℕ Place} (λ k w. (k.at ≡ a.node) × (record { on = k.entry; waiter = record { entry = a.entry; node = k.back } } ≡ w)) p.calls.now (record { on = k; waiter = w }) };

    ghost ends = { λ p b k. (list_any (λ y. nat_eq y b.node) p.ends.now ≡ true) × (b.entry ≡ k) };

    ghost wakes = { λ p w b c. w ≡ c };

    fn begin(&self, alloc: Global) -> Result<Vec<Point>, AllocError> {
        let start = Point {
            entry: self.start,
            node: self.start,
        };
        Ok(vec![in alloc; start]?)
    }

    fn enter(
        &self,
        alloc: Global,
        member: &Point,
    ) -> Result<Entered<Point, u32, Point>, AllocError> {
        let mut next = moved(alloc, self.edges, member)?;
        let mut others = called(alloc, self.calls, member.node)?;
        next.append(&mut others)?;
        let waits = waited(alloc, self.calls, member)?;
        let end = if self.ends.contains(&member.node) {
            Some(member.entry)
        } else {
            None
        };
        Ok(Entered { next, waits, end })
    }

    fn wake(&self, alloc: Global, waiter: &Point, _end: &Point) -> Result<Vec<Point>, AllocError> {
        let next = Point {
            entry: waiter.entry,
            node: waiter.node,
        };
        Ok(vec![in alloc; next]?)
    }
}

/// The same rules, which keep how often they were asked.
#[derive(Drop)]
struct Counted<'a> {
    program: Program<'a>,
    asked: usize,
}

impl<'a> CachingRules for Counted<'a> {
    type Member = Point;

    type Context = u32;

    type Waiter = Point;

    type Source = Program<'a>;

    ghost source = { λ c. c.program };

    ghost asked = { λ c. c.asked };

    ghost counting = { λ s m n. min (n + 1) (2 ^ 64 - 1) };

    ghost base = { ⟦<Program<'a> as Rules>⟧.base };

    ghost goes = { ⟦<Program<'a> as Rules>⟧.goes };

    ghost waits = { ⟦<Program<'a> as Rules>⟧.waits };

    ghost ends = { ⟦<Program<'a> as Rules>⟧.ends };

    ghost wakes = { ⟦<Program<'a> as Rules>⟧.wakes };

    fn begin(&self, alloc: Global) -> Result<Vec<Point>, AllocError> {
        self.program.begin(alloc)
    }

    fn enter(
        &mut self,
        alloc: Global,
        member: &Point,
    ) -> Result<Entered<Point, u32, Point>, AllocError> {
        self.asked = self.asked.saturating_add(1);
        self.program.enter(alloc, member)
    }

    fn wake(&self, alloc: Global, waiter: &Point, end: &Point) -> Result<Vec<Point>, AllocError> {
        self.program.wake(alloc, waiter, end)
    }
}

#[test]
fn reaches_each_number_once(rt: HostRuntime) -> Result<(), Fail> {
    let graph = Graph {
        edges: &[
            (1, 2),
            (1, 3),
            (2, 4),
            (3, 4),
            (4, 1),
            (4, 4),
            (5, 1),
            (3, 6),
        ],
        start: 1,
    };
    let log = closure(rt.alloc(), &graph)?;
    assert_eq!(rt; log.as_slice(), [1, 2, 3, 4, 6].as_slice());
    Ok(())
}

const CALLS: &[Call] = &[
    Call {
        at: 1,
        entry: 10,
        back: 2,
    },
    Call {
        at: 3,
        entry: 10,
        back: 4,
    },
    Call {
        at: 5,
        entry: 10,
        back: 6,
    },
    Call {
        at: 11,
        entry: 10,
        back: 12,
    },
];

/// The function at 1 calls the one at 10 from 1 and from 3, and never comes to 5. The one at 10 calls itself from 11.
fn two_functions() -> Program<'static> {
    Program {
        start: 1,
        edges: &[(2, 3), (10, 11), (10, 13), (12, 13)],
        calls: CALLS,
        ends: &[13],
    }
}

/// Entries and nodes, in the order in which they are found.
const EXPECTED: [Point; 8] = [
    Point { entry: 1, node: 1 },
    Point {
        entry: 10,
        node: 10,
    },
    Point {
        entry: 10,
        node: 11,
    },
    Point {
        entry: 10,
        node: 13,
    },
    Point { entry: 1, node: 2 },
    Point {
        entry: 10,
        node: 12,
    },
    Point { entry: 1, node: 3 },
    Point { entry: 1, node: 4 },
];

#[test]
fn returns_to_the_calls_that_were_made(rt: HostRuntime) -> Result<(), Fail> {
    let log = least(rt.alloc(), &two_functions())?;
    assert_eq!(rt; log.as_slice(), EXPECTED.as_slice());
    Ok(())
}

#[test]
fn asks_once_for_each_member(rt: HostRuntime) -> Result<(), Fail> {
    let mut rules = Counted {
        program: two_functions(),
        asked: 0,
    };
    let log = least_caching(rt.alloc(), &mut rules)?;
    assert_eq!(rt; log.as_slice(), EXPECTED.as_slice());
    assert_eq!(rt; rules.asked, 8);
    Ok(())
}
