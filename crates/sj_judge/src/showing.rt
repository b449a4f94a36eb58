//! A job shown: its lowered program, or its canonical text.

ghost use Rattle.std.specs.Prelude.{◌≡◌, ◌<◌, ◌≤◌, ◌^◌, ◌∷◌, [], All, IfErr, IfOk, length};
ghost use Rattle.sj_job.specs.Reading.{IsReadRefusal, job_of};
ghost use Rattle.sj_minplus.specs.Has.{library_has};
ghost use Rattle.sj_ready.specs.Input.{work_in, HasJob};
ghost use Rattle.sj_ready.specs.Ready.{IsUnready};
ghost use Rattle.sj_words.specs.Options.{OptionsAreInRange};
ghost use Rattle.sj_judge.specs.Judged.{work_asked_for};
ghost use Rattle.sj_judge.specs.Shown.{IsProgramText, IsTextOfJob};

use crate::judging::one_disk;
use sj_job::read::read;
use sj_job::reason::ReadRefusal;
use sj_meaning::job::Job;
use sj_minplus::library::Library;
use sj_ready::input::Input;
use sj_ready::ready::ready_job;
use sj_ready::unready::Unready;
use sj_show::program::program_text;
use sj_text::text::job_text;
use sj_words::Options;
use std::alloc::Global;

/// The same for disks of these sizes. The cost of reading, of lowering, and of the text.
fn program_on(
    alloc: Global,
    options: &Options,
    disks: Vec<u64>,
    job: Input,
) -> Result<Vec<u8>, Unready>
    requires options { OptionsAreInRange options.now }
    requires few { length disks.items ≤ 16 }
    requires small { All (λ n. n ≤ 2 ^ 40) disks.items }
    requires job { HasJob library_has job }
    ensures shown { IfOk result (λ text. IsProgramText
        (work_in library_has options.now disks.items job) text.items) }
    ensures cause { IfErr result (IsUnready
        (work_in library_has options.now disks.items job)) }
{
    let ready = ready_job(alloc, job, options, disks, &Library)?;
    let text = program_text(alloc, &ready.program)?;
    Ok(text)
}

/// The text of the program to which a job is lowered, on the machine that words ask for, else the job, with one disk of this
/// size. The cost of reading, of lowering, and of the text. The job's text is dropped as soon as it is read.
///
/// # Errors
///
/// Why the job can't be run: the first reason.
pub fn program_shown(
    alloc: Global,
    options: &Options,
    swap: u64,
    job: Input,
) -> Result<Vec<u8>, Unready>
    requires options { OptionsAreInRange options.now }
    requires swap { swap ≤ 2 ^ 40 }
    requires job { HasJob library_has job }
    ensures shown { IfOk result (λ text.
        IsProgramText (work_asked_for options.now swap job) text.items) }
    ensures cause { IfErr result (IsUnready (work_asked_for options.now swap job)) }
{
    let disks = one_disk(alloc, swap)?;
    program_on(alloc, options, disks, job)
}

/// The canonical text of the job that a text says. Linear in both, but that codelets are looked up in the table.
///
/// # Errors
///
/// The first bad line with the first reason against it, or that an allocation was refused.
pub fn job_shown(alloc: Global, job: &[u8]) -> Result<Vec<u8>, ReadRefusal>
    ensures shown { IfOk result (λ text. IsTextOfJob job.now text.items) }
    ensures cause { IfErr result (λ why. IsReadRefusal why (job_of library_has job.now)) }
{
    let job = read(alloc, job, &Library)?;
    let text = job_text(alloc, &job);
    let_go(job);
    Ok(text?)
}

/// Drops a job, whose fields are many, so that no other function does. Linear in what they hold.
fn let_go(_: Job) {}
