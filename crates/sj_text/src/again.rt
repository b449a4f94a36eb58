//! Reading a job's canonical text.

ghost use Rattle.std.specs.Prelude.{◌≡◌, ◌≤◌, Bool, Ok, length};
ghost use Rattle.sj_codelet.specs.declared.kernel.Kernel.{Kernel};
ghost use Rattle.sj_meaning.specs.Job.{Job};
ghost use Rattle.sj_job.specs.Reading.{job_of, text_limit};
ghost use Rattle.sj_meaning.specs.Settings.{SettingsAreInRange};
ghost use Rattle.sj_meaning.specs.State.{start};
ghost use Rattle.sj_job.specs.Well.{IsWell};
ghost use Rattle.sj_text.specs.Again.{said_again};
ghost use Rattle.sj_text.specs.Text.{text_of_job};

/// A job such as `read` gives is read again from its canonical text, as long as that isn't over the limit: the same settings,
/// all of them said, and the same statements, in lines that are numbered anew.
pub fn read_again()
    ensures { (has : Kernel → Bool) (j : Job)
        → SettingsAreInRange j.settings → IsWell has 0 start j.statements
        → length (text_of_job j) ≤ text_limit
        → job_of has (text_of_job j) ≡ Ok (said_again j) }
{}
