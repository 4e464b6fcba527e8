// The checker: what it sees of a program, its states and its reports. Its rules are in `specs/Checker.antt`.

/// A variable of the program that holds a lock.
#[derive(Clone, Copy, Debug, PartialEq, Eq)]
pub enum Variable {
    /// The formal `x` of `walk`.
    WalkFormal,
    /// The local `l` of `walk`.
    WalkLocal,
    /// The formal `p` of `start`.
    StartFormal,
    /// The formal `y` of `help`.
    HelpFormal,
}

/// What happens in a function.
#[derive(Clone, Copy, Debug, PartialEq, Eq)]
pub enum Event {
    /// `lock(v)`
    Lock(Variable),
    /// `unlock(v)`
    Unlock(Variable),
    /// `l = x` in `walk`
    Copy,
    /// `cli()`, which turns interrupts off
    Disable,
    /// the exit of a frame
    Leave,
}

/// The state of a lock, where it is known.
#[derive(Clone, Copy, Debug, PartialEq, Eq)]
pub enum LockState {
    Locked,
    Unlocked,
}

/// The global state: whether interrupts are on.
#[derive(Clone, Copy, Debug, PartialEq, Eq)]
pub enum Interrupts {
    Enabled,
    Disabled,
}

/// What the checker reports.
#[derive(Clone, Copy, Debug, PartialEq, Eq)]
pub enum Report {
    /// a lock that is held is taken again
    DoubleLock(Variable),
    /// a lock that was let go is let go again
    DoubleUnlock(Variable),
    /// a lock is held at the end of a frame
    StillLocked(Variable),
    /// interrupts are off at the end of a root
    StillDisabled,
}
