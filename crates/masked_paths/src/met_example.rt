// What a rule from a global state binds in a block, found by a walk over its events with the state carried along. The rule is that of
// `specs/MetWalk.antt`: behind a call of kmalloc, and there alone, it binds what is assigned.

ghost use Rattle.std.specs.Prelude.{◌≡◌, ◌↔◌, IsTrue, true};
ghost use Rattle.masked_paths.specs.Met.{BoundAmong};
ghost use Rattle.masked_paths.specs.MetWalk.{allocations, global_of, rule_binds};

/// What happens in `q = x; kmalloc(n); p = x; free(p)`.
#[derive(Clone, Copy)]
pub enum Event {
    AssignQ,
    /// a call of kmalloc
    Allocate,
    AssignP,
    /// a call of free with p
    Free,
}

/// A pointer of the function.
#[derive(Clone, Copy)]
pub enum Pointer {
    P,
    Q,
}

/// The global state.
#[derive(Clone, Copy)]
pub enum Global {
    Start,
    /// right behind a call of kmalloc
    Got,
}

/// The global state behind an event.
pub fn behind(event: Event) -> Global
    ensures { result ≡ global_of event }
{
    match event {
        Event::Allocate => Global::Got,
        Event::AssignQ | Event::AssignP | Event::Free => Global::Start,
    }
}

/// Whether the rule gives the pointer a state at an event before which the global state is this.
pub fn binds(event: Event, global: Global, pointer: Pointer) -> bool
    ensures { result ≡ rule_binds event global pointer }
{
    match (global, event, pointer) {
        (Global::Got, Event::AssignQ, Pointer::Q) => true,
        (Global::Got, Event::AssignP, Pointer::P) => true,
        _ => false,
    }
}

/// Whether the rule gives the pointer a state at some of the events, with this global state before the first.
pub fn binds_among(events: &[Event], first: Global, pointer: Pointer) -> bool
    ensures { IsTrue result ↔ BoundAmong allocations tt true events.now first pointer }
{
    let mut global = first;
    for event in events {
        if binds(*event, global, pointer) {
            return true;
        }
        global = behind(*event);
    }
    false
}
