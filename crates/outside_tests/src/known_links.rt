//! Two callers of one function: what one hands in goes back to that one alone, and what begins inside goes back to both.

use known_search::Known;
use listed_links::{Move, Passed, Returned, known_in};
use std::test::Fail;

/// Functions 0 and 1 call function 2, which frees an object of its own (32) and hands it out. Object 30 is its formal, and 31 is behind
/// that. Function 0 frees what it hands in (10), and function 1 (20) doesn't.
const PASSED: &[Passed] = &[
    Passed {
        call: 0,
        caller: 0,
        from: 10,
        callee: 2,
        to: 30,
    },
    Passed {
        call: 1,
        caller: 1,
        from: 20,
        callee: 2,
        to: 30,
    },
];

fn returned(call: usize, from: u32, caller: u32, to: u32) -> Returned {
    Returned {
        call,
        callee: 2,
        from,
        caller,
        to,
    }
}

fn known(function: u32, from: Option<u32>, object: u32) -> Known<u32> {
    Known {
        function,
        from,
        object,
    }
}

#[test]
fn returns_go_to_those_who_handed_in(rt: HostRuntime) -> Result<(), Fail> {
    let bound = &[(0, 10), (2, 32)];
    let moves = &[Move {
        function: 2,
        from: 30,
        to: 31,
    }];
    let back = [
        returned(0, 30, 0, 10),
        returned(0, 31, 0, 11),
        returned(0, 32, 0, 12),
        returned(1, 30, 1, 20),
        returned(1, 31, 1, 21),
        returned(1, 32, 1, 22),
    ];
    let variables = &[
        0, 0, 0, 0, 0, 0, 0, 0, 0, 0, 1, 1, 2, 0, 0, 0, 0, 0, 0, 0, 3, 3, 4, 0, 0, 0, 0, 0, 0, 0,
        5, 5, 6,
    ];
    let found = known_in(rt.alloc(), bound, moves, PASSED, back.as_slice(), variables)?;
    let expected = [
        known(0, None, 10),
        known(2, None, 32),
        known(2, Some(30), 30),
        known(2, Some(30), 31),
        known(0, None, 11),
        known(0, None, 12),
        known(1, None, 22),
    ];
    for one in expected.as_slice() {
        assert!(rt; found.contains(one));
    }
    assert_eq!(rt; found.len(), 7);
    Ok(())
}
