// The program, in C:
//
//     void walk(int *x) { int *l; lock(x); l = x; if (*x) walk(x); else cli(); unlock(l); }
//     void help(int *y) { lock(y); }
//     void start(int *p) { help(p); help(p); }
//
// Its blocks and edges are in `specs/Program.antt`. `walk` and `start` are its roots.

/// A function of the program.
#[derive(Clone, Copy, Debug, PartialEq, Eq)]
pub enum Function {
    Walk,
    Start,
    Help,
}

/// A call of the program.
#[derive(Clone, Copy, Debug, PartialEq, Eq)]
pub enum CallSite {
    /// `walk(x)` in `walk`
    WalkAgain,
    /// the first `help(p)` in `start`
    FirstHelp,
    /// the second one
    SecondHelp,
}

/// A block of a function.
#[derive(Clone, Copy, Debug, PartialEq, Eq)]
pub enum Block {
    Entry,
    /// the branch of `walk` that calls it again
    Calling,
    /// its other branch
    Otherwise,
    /// between the two calls of `start`
    Between,
    /// behind the last call, or the branches
    After,
    Exit,
}
