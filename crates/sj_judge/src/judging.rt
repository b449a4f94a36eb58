//! Whether a text is the trace of a run that another text asks for.

ghost use Rattle.std.specs.Prelude.{◌≡◌, ◌<◌, ◌≤◌, ◌^◌, ◌∷◌, ℕ, [], All, IfErr, IfOk, IsOk, List, length};
ghost use Rattle.sj_base.specs.declared.trace.Event.{Event};
ghost use Rattle.sj_minplus.specs.Has.{library_has};
ghost use Rattle.sj_ready.specs.Input.{work_in, HasJob};
ghost use Rattle.sj_ready.specs.Work.{Work, WorkOrRefusal};
ghost use Rattle.sj_trace.specs.Reading.{IsTextOf};
ghost use Rattle.sj_words.specs.Options.{OptionsAreInRange};
ghost use Rattle.sj_judge.specs.Judged.{CanBeRun, RefusalHasCause, IsWantOfMemory, TraceIsWhole, work_asked_for};

use crate::refusal::JudgeRefusal;
use sj_base::memory::OutOfMemory;
use sj_base::trace::Trace;
use sj_check::check::check;
use sj_minplus::library::Library;
use sj_ready::input::Input;
use sj_ready::ready::ready_job;
use sj_trace::read::read_trace;
use sj_words::Options;
use std::alloc::Global;

/// The sizes of one disk alone.
pub fn one_disk(alloc: Global, swap: u64) -> Result<Vec<u64>, OutOfMemory>
    ensures { IfOk result (λ disks. disks.items ≡ swap ∷ []) }
{
    Ok(vec![in alloc; swap]?)
}

/// The events whose lines a text has. Linear in it.
fn events_of(alloc: Global, text: &[u8]) -> Result<Trace, JudgeRefusal>
    ensures short { IsOk result → length text.now < 2 ^ 32 }
    ensures written { IfOk result (λ trace. IsTextOf text.now trace.events) }
    ensures cause { IfErr result (λ why. (asked : WorkOrRefusal) → (w : Work) →
        CanBeRun asked w → RefusalHasCause asked text.now why) }
    ensures reads_back { (events : List Event) → IsTextOf text.now events →
        IfOk result (λ trace. trace.events ≡ events) }
    ensures refuses_no_trace { (events : List Event) → IsTextOf text.now events →
        length text.now < 2 ^ 32 → IfErr result IsWantOfMemory }
{
    if text.len() > u32::MAX as usize {
        return Err(JudgeRefusal::TooLong);
    }
    let trace = read_trace(alloc, text)?;
    Ok(trace)
}

/// The same of disks of these sizes. The cost of reading both texts, of lowering, and of the check.
fn judged_on(
    alloc: Global,
    options: &Options,
    disks: Vec<u64>,
    job: Input,
    trace: &[u8],
) -> Result<(), JudgeRefusal>
    requires options { OptionsAreInRange options.now }
    requires few { length disks.items ≤ 16 }
    requires small { All (λ n. n ≤ 2 ^ 40) disks.items }
    requires job { HasJob library_has job }
    ensures whole { IsOk result →
        TraceIsWhole (work_in library_has options.now disks.items job) trace.now }
    ensures cause { IfErr result
        (RefusalHasCause (work_in library_has options.now disks.items job) trace.now) }
    ensures complete { TraceIsWhole
        (work_in library_has options.now disks.items job) trace.now →
        IfErr result IsWantOfMemory }
{
    let ready = ready_job(alloc, job, options, disks, &Library)?;
    let events = events_of(alloc, trace)?;
    check(alloc, ready.program, ready.machine, &events)?;
    Ok(())
}

/// Whether a trace is legal and complete for the program of a job, on the machine that words ask for, else the job, with one disk
/// of this size. The cost of reading both, of lowering, and of the check. The job's text is dropped as soon as it is read.
///
/// # Errors
///
/// Why the job can't be run; why the trace isn't read; what is wrong with it. In this order, and of each the first reason.
pub fn judged(
    alloc: Global,
    options: &Options,
    swap: u64,
    job: Input,
    trace: &[u8],
) -> Result<(), JudgeRefusal>
    requires options { OptionsAreInRange options.now }
    requires swap { swap ≤ 2 ^ 40 }
    requires job { HasJob library_has job }

    // Ok means that the trace is one of the job, and that nothing is missing.
    ensures legal_and_complete { IsOk result →
        TraceIsWhole (work_asked_for options.now swap job) trace.now }

    // Each other answer has its cause, but want of memory.
    ensures cause { IfErr result (RefusalHasCause (work_asked_for options.now swap job) trace.now) }

    // A trace that is whole is found to be so, unless memory runs out.
    ensures complete { TraceIsWhole (work_asked_for options.now swap job) trace.now →
        IfErr result IsWantOfMemory }
{
    let disks = one_disk(alloc, swap)?;
    judged_on(alloc, options, disks, job, trace)
}
