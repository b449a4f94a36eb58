//! What is true of each application.

ghost use Rattle.std.specs.Prelude.{◌≡◌, ℕ, None};
ghost use Rattle.sj_apps.specs.Application.{statements_for, IsSized};
ghost use Rattle.sj_apps.specs.declared.application.Application.{Application};
ghost use Rattle.sj_lower.specs.Limits.{late_limit};

/// The job of an application has neither too many cells nor too many tasks, at any size and by any number of workers. So it is
/// never refused.
pub fn applications_are_within_limits()
    ensures { (a : Application) (workers : ℕ) → IsSized a
        → late_limit workers (statements_for a) ≡ None }
{}
