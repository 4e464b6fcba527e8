//! What is expected, in functions of their own: what an assertion prints would make the proof of each test longer.

use std::process::Abort;

/// This holds of what is named.
pub fn expect(rt: &impl Abort, holds: bool, of: &str) {
    assert!(rt; holds, "{of}");
}
