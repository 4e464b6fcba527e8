// Steps of an engine over the program, each on one tuple. Their contracts speak of paths and path edges.

ghost use Rattle.std.specs.Prelude.{◌≡◌, ◌≢◌, ◌↔◌, IsTrue, IfSome, IsSome, IsNone, Some, None};
ghost use Rattle.path_theory.specs.Facts.{HasObject};
ghost use Rattle.path_examples.specs.declared.checker.Variable.{Variable};
ghost use Rattle.path_examples.specs.declared.checker.Event.TheVariants.{Leave};
ghost use Rattle.path_examples.specs.declared.checker.Interrupts.{Interrupts};
ghost use Rattle.path_examples.specs.declared.checker.Report.TheVariants.{StillLocked};
ghost use Rattle.path_examples.specs.declared.program.Function.{Function};
ghost use Rattle.path_examples.specs.Checker.{locks, out_of, is_asked};
ghost use Rattle.path_examples.specs.Program.{followed, IsRoot};
ghost use Rattle.path_examples.specs.Steps.{ReturnsTo, GoesBehind, HandsBack, EndsWith, BeginsOwnFrame};

use crate::checker::{Interrupts, LockState, Variable};
use crate::program::{Block, CallSite, Function};

/// The global state beside one variable with its state, `None` where that is unknown.
#[derive(Clone, Copy, Debug, PartialEq, Eq)]
pub struct Tuple {
    pub interrupts: Interrupts,
    pub variable: Variable,
    pub state: Option<LockState>,
}

/// The block at whose head a frame goes on once its call at this site returns.
pub fn block_behind(site: CallSite) -> Block
    ensures { ReturnsTo site result }
{
    match site {
        CallSite::WalkAgain => Block::After,
        CallSite::FirstHelp => Block::Between,
        CallSite::SecondHelp => Block::After,
    }
}

/// The tuple of a saved variable behind a call, from that at the call and from the global state with which the callee ends,
/// `None` where it doesn't end: then the frame doesn't go on.
pub fn around_call(site: CallSite, at_call: Tuple, end: Option<Interrupts>) -> Option<Tuple>
    requires is_saved { out_of site at_call.variable ≡ None }
    requires callee { EndsWith site at_call.interrupts end }
    ensures behind { IfSome result (λ t. GoesBehind site at_call.interrupts (HasObject at_call.variable at_call.state)
        t.interrupts (HasObject t.variable t.state)) }
    ensures end { IfSome result (λ t. end ≡ Some t.interrupts) }
    ensures saved { IfSome result (λ t. (t.variable ≡ at_call.variable) × (t.state ≡ at_call.state)) }
    ensures goes_on { IsSome end → IsSome result }
{
    match end {
        Some(interrupts) => Some(Tuple {
            interrupts,
            variable: at_call.variable,
            state: at_call.state,
        }),
        None => None,
    }
}

/// The caller's tuple to which a call at this site hands back that of the callee's end, `None` where it hands back nothing
/// of this variable.
pub fn handed_back(site: CallSite, end: Tuple) -> Option<Tuple>
    ensures behind { IfSome result (λ t. HandsBack site end.interrupts (HasObject end.variable end.state)
        t.interrupts (HasObject t.variable t.state)) }
    ensures global { IfSome result (λ t. t.interrupts ≡ end.interrupts) }
    ensures object { IfSome result (λ t. (out_of site t.variable ≡ Some end.variable) × (t.state ≡ end.state)) }
    ensures nothing { IsNone result → (o : Variable) → out_of site o ≢ Some end.variable }
{
    let variable = match (site, end.variable) {
        (CallSite::WalkAgain, Variable::WalkFormal) => Variable::WalkFormal,
        (CallSite::FirstHelp, Variable::HelpFormal) => Variable::StartFormal,
        (CallSite::SecondHelp, Variable::HelpFormal) => Variable::StartFormal,
        _ => return None,
    };
    Some(Tuple {
        interrupts: end.interrupts,
        variable,
        state: end.state,
    })
}

fn is_root(function: Function) -> bool
    ensures { IsTrue result ↔ IsRoot function }
{
    match function {
        Function::Walk | Function::Start => true,
        Function::Help => false,
    }
}

/// Whether a root's own frame begins with this tuple of one of the function's variables, so that the context is followed
/// there and not in a called frame.
pub fn begins_own_frame(function: Function, entry: Tuple) -> bool
    requires own { followed function entry.variable }
    ensures { IsTrue result ↔ BeginsOwnFrame function entry.interrupts entry.variable entry.state }
{
    match (entry.interrupts, entry.state) {
        (Interrupts::Enabled, None) => is_root(function),
        (Interrupts::Enabled, Some(_)) => false,
        (Interrupts::Disabled, _) => false,
    }
}

// Whether the end of a frame asks this variable.
fn is_asked(is_root: bool, variable: Variable) -> bool
    ensures { result ≡ is_asked is_root variable }
{
    match variable {
        Variable::WalkLocal => true,
        _ => is_root,
    }
}

/// Whether the end of a frame gives the report that this variable is still locked.
pub fn still_locked(is_root: bool, variable: Variable, state: Option<LockState>) -> bool
    ensures reports { IsTrue result → (f : Function) (g : Interrupts)
        → locks.Fires Leave f is_root g variable state (StillLocked variable) }
    ensures otherwise { (f : Function) (g : Interrupts) → locks.Fires Leave f is_root g variable state (StillLocked variable)
        → IsTrue result }
{
    match state {
        Some(LockState::Locked) => is_asked(is_root, variable),
        Some(LockState::Unlocked) => false,
        None => false,
    }
}
