// The theorem of the theory at this instance, and a report that is computed. Neither function does anything.

ghost use Rattle.std.specs.Prelude.{◌≡◌, ◌↔◌, Some};
ghost use Rattle.path_theory.specs.Actions.{fold};
ghost use Rattle.path_theory.specs.FlatPaths.{IsPath};
ghost use Rattle.path_theory.specs.Merged.{Kinds};
ghost use Rattle.path_examples.specs.declared.checker.Variable.TheVariants.{WalkFormal, WalkLocal};
ghost use Rattle.path_examples.specs.declared.checker.Interrupts.TheVariants.{Disabled};
ghost use Rattle.path_examples.specs.declared.checker.LockState.TheVariants.{Locked};
ghost use Rattle.path_examples.specs.declared.checker.Report.{Report};
ghost use Rattle.path_examples.specs.declared.checker.Report.TheVariants.{DoubleLock};
ghost use Rattle.path_examples.specs.declared.program.Function.TheVariants.{Walk};
ghost use Rattle.path_examples.specs.Checker.{locks};
ghost use Rattle.path_examples.specs.Program.{graphs, program};
ghost use Rattle.path_examples.specs.Log.{IsReported, IsShown, back_from_second};

/// The least log of entries shows exactly the reports of the program's paths.
pub fn log_is_exact()
    ensures { (kinds : Kinds locks graphs) (r : Report) → IsShown kinds r ↔ IsReported r }
{}

/// A path through two frames of `walk` takes a lock twice. Behind the inner frame interrupts are off, the lock is held, and
/// so is that of the local, which was saved.
pub fn reports_by_computation()
    ensures reported { IsReported (DoubleLock WalkFormal) }
    ensures path { IsPath locks program Walk back_from_second }
    ensures global { (fold locks Walk back_from_second).global ≡ Disabled }
    ensures handed_back { (fold locks Walk back_from_second).top.map WalkFormal ≡ Some Locked }
    ensures saved { (fold locks Walk back_from_second).top.map WalkLocal ≡ Some Locked }
{}
