//! The call that the program makes: words, source, sinks, disks and gate in, the outcome out.

ghost use Rattle.std.specs.Prelude.{◌≡◌, ◌≤◌, ◌^◌, [], false, Some, length, map, option_map};
ghost use Rattle.sj_edge.specs.Sizes.{AreWithin};
ghost use Rattle.sj_engine.specs.Outcome.{AllDisksTell};
ghost use Rattle.sj_job.specs.Reading.{job_of};
ghost use Rattle.sj_ready.specs.Input.{work_in, HasJob};
ghost use Rattle.sj_ready.specs.Ready.{HasOwnCodelets};
ghost use Rattle.sj_ready.specs.Work.{asked_by, said_by};
ghost use Rattle.sj_words.specs.Options.{OptionsAreInRange, options as options_of};
ghost use Rattle.sj_words.specs.Spelling.{texts};
ghost use Rattle.sj_top.specs.Answers.{AnsweredText, LeavesDisks, WritesText};
ghost use Rattle.sj_top.specs.Device.{devices, in_use, seen};
ghost use Rattle.sj_top.specs.Report.{status_line, TakesLine};
ghost use Rattle.sj_top.specs.Solving.{Solves, TakesAnswer};
ghost use Rattle.sj_top.specs.Top.{Answers, ComeBack, WhatIsDueComes, StatusHasCause, IsNotRefused, IsSilent, Prints, TakesText, WritesNothing};
ghost use Rattle.sj_top.specs.Work.{asked_through, reads_source, told, Told};

use crate::report::report;
use crate::running::{Run, run_input};
use crate::sink_text::write_text;
use crate::source_text::{Unread, read_source};
use crate::status::Status;
use sj_base::trace::Trace;
use sj_codelet::set::Codelets;
use sj_edge::disk::Disk;
use sj_edge::gate::Gate;
use sj_edge::sink::Sink;
use sj_edge::source::Source;
use sj_minplus::library::Library;
use sj_ready::input::Input;
use sj_words::{Options, WordsRefusal, read_words};
use std::alloc::Global;
use std::sync::Wait;
use std::thread::Threads;

/// A disk of any kind.
pub type AnyDisk = Box<dyn Disk + Send>;

/// How a job ended, the trace of its run, and the disks that were handed in.
#[derive(Drop)]
pub struct Outcome<D> {
    pub status: Status,
    pub trace: Trace,
    pub disks: Vec<D>,
}

/// Writes what a job prints.
fn write_printed<O: Sink>(out: &mut O, text: &[u8]) -> Status
    ensures written { WritesText text.now result
        (seen O.taken O.faults out.old) (seen O.taken O.faults out.new) }
    ensures not_called_for_nothing { text.now ≡ [] → out.new ≡ out.old }
{
    match write_text(out, text) {
        Ok(()) => Status::Done,
        Err(_) => Status::SinkFault,
    }
}

/// Runs a job text, or the job of an application, and writes what it prints.
fn answer_input<O: Sink, C: Codelets, G: Gate, D: Disk + Send, R: Threads + Wait + Sync>(
    rt: &R,
    alloc: Global,
    input: Input,
    options: &Options,
    out: &mut O,
    disks: Vec<D>,
    codelets: &C,
    gate: &G,
) -> Outcome<D>
    requires own { HasOwnCodelets C.has }
    requires input { HasJob C.has input }
    requires options { OptionsAreInRange options.now }
    requires few { length disks.items ≤ 16 }
    requires small { AreWithin D.size (2 ^ 40) disks.items }
    ensures answered { AnsweredText
        (work_in C.has options.now (map D.size disks.items) input)
        (AllDisksTell D.held disks.items) result.status
        (seen O.taken O.faults out.old) (seen O.taken O.faults out.new) result.trace.events }
    ensures disks { LeavesDisks D.Disk
        (work_in C.has options.now (map D.size disks.items) input)
        result.status result.trace.events disks.items result.disks.items }
    ensures out_stays { IsSilent
        (Told (work_in C.has options.now (map D.size disks.items) input)) result.status →
        out.new ≡ out.old }
{
    let Run { text, trace, disks } = run_input(rt, alloc, input, options, disks, codelets, gate);
    match text {
        Ok(printed) => Outcome {
            status: write_printed(out, &printed),
            trace,
            disks,
        },
        Err(stop) => Outcome {
            status: stop.status(),
            trace,
            disks,
        },
    }
}

/// An answer to a job that wasn't read.
fn unread<D: Drop>(alloc: Global, status: Status, disks: Vec<D>) -> Outcome<D>
    ensures status { result.status ≡ status }
    ensures trace { result.trace.events ≡ [] }
    ensures disks { result.disks ≡ disks }
{
    Outcome {
        status,
        trace: Trace::empty(alloc),
        disks,
    }
}

/// Runs the job text of a source and writes what it prints.
fn run_source<S, O, C, G, D, R>(
    rt: &R,
    alloc: Global,
    options: &Options,
    source: &mut S,
    out: &mut O,
    disks: Vec<D>,
    codelets: &C,
    gate: &G,
) -> Outcome<D>
where
    S: Source,
    O: Sink,
    C: Codelets,
    G: Gate,
    D: Disk + Send,
    R: Threads + Wait + Sync,
    requires own { HasOwnCodelets C.has }
    requires options { OptionsAreInRange options.now }
    requires few { length disks.items ≤ 16 }
    requires small { AreWithin D.size (2 ^ 40) disks.items }
    ensures printed { AllDisksTell D.held disks.items → TakesText
        (told (option_map (said_by options.now (map D.size disks.items))
        (option_map (job_of C.has) (S.left source.old))))
        result.status (seen O.taken O.faults out.old) (seen O.taken O.faults out.new)
        result.trace.events }
    ensures answered { StatusHasCause
        (told (option_map (asked_by options.now (map D.size disks.items))
        (option_map (job_of C.has) (S.left source.old))))
        (devices S.Source O.Sink D.Disk source.old out.old disks.items)
        (devices S.Source O.Sink D.Disk source.new out.new result.disks.items)
        result.trace.events result.status }
    ensures out_stays { IsSilent
        (told (option_map (asked_by options.now (map D.size disks.items))
        (option_map (job_of C.has) (S.left source.old))))
        result.status → out.new ≡ out.old }
    ensures disks_come_back { ComeBack D.Disk disks.items result.disks.items result.status }
{
    match read_source(alloc, source) {
        Ok(text) => answer_input(
            rt,
            alloc,
            Input::Text(text),
            options,
            out,
            disks,
            codelets,
            gate,
        ),
        Err(Unread::Fault) => unread(alloc, Status::SourceFault, disks),
        Err(Unread::OutOfMemory) => unread(alloc, Status::OutOfMemory, disks),
    }
}

/// Runs the job that options ask for, which is read where they ask for no application, and writes what it prints.
fn answer_options<S, O, G, D, R>(
    rt: &R,
    alloc: Global,
    options: &Options,
    source: &mut S,
    out: &mut O,
    disks: Vec<D>,
    gate: &G,
) -> Outcome<D>
where
    S: Source,
    O: Sink,
    G: Gate,
    D: Disk + Send,
    R: Threads + Wait + Sync,
    requires options { OptionsAreInRange options.now }
    requires few { length disks.items ≤ 16 }
    requires small { AreWithin D.size (2 ^ 40) disks.items }
    ensures printed { AllDisksTell D.held disks.items → TakesText
        (asked_through (λ o. said_by o (map D.size disks.items)) (Some options.now)
        (S.left source.old))
        result.status (seen O.taken O.faults out.old) (seen O.taken O.faults out.new)
        result.trace.events }
    ensures answered { StatusHasCause
        (asked_through (λ o. asked_by o (map D.size disks.items)) (Some options.now)
        (S.left source.old))
        (in_use (reads_source (Some options.now))
        (devices S.Source O.Sink D.Disk source.old out.old disks.items))
        (in_use (reads_source (Some options.now))
        (devices S.Source O.Sink D.Disk source.new out.new result.disks.items))
        result.trace.events result.status }
    ensures solved { AllDisksTell D.held disks.items → TakesAnswer (Some options.now)
        result.status (seen O.taken O.faults out.old) (seen O.taken O.faults out.new)
        result.trace.events }
    ensures reads_nothing { reads_source (Some options.now) ≡ false → source.new ≡ source.old }
    ensures refuses_no_application { reads_source (Some options.now) ≡ false →
        IsNotRefused result.status }
    ensures out_stays { IsSilent
        (asked_through (λ o. asked_by o (map D.size disks.items)) (Some options.now)
        (S.left source.old))
        result.status → out.new ≡ out.old }
    ensures disks_come_back { ComeBack D.Disk disks.items result.disks.items result.status }
{
    match options.application {
        Some(application) => answer_input(
            rt,
            alloc,
            Input::Generated(application),
            options,
            out,
            disks,
            &Library,
            gate,
        ),
        None => run_source(rt, alloc, options, source, out, disks, &Library, gate),
    }
}

/// The answer to a job with these words.
fn answer_words<S, O, G, D, R>(
    rt: &R,
    alloc: Global,
    words: &[String],
    source: &mut S,
    out: &mut O,
    disks: Vec<D>,
    gate: &G,
) -> Outcome<D>
where
    S: Source,
    O: Sink,
    G: Gate,
    D: Disk + Send,
    R: Threads + Wait + Sync,
    requires few { length disks.items ≤ 16 }
    requires small { AreWithin D.size (2 ^ 40) disks.items }
    ensures printed { Prints (texts words.now)
        (devices S.Source O.Sink D.Disk source.old out.old disks.items)
        (devices S.Source O.Sink D.Disk source.new out.new result.disks.items)
        result.status result.trace.events }
    ensures answered { Answers (texts words.now)
        (devices S.Source O.Sink D.Disk source.old out.old disks.items)
        (devices S.Source O.Sink D.Disk source.new out.new result.disks.items)
        result.status result.trace.events }
    ensures solved { Solves (texts words.now)
        (devices S.Source O.Sink D.Disk source.old out.old disks.items)
        (devices S.Source O.Sink D.Disk source.new out.new result.disks.items)
        result.status result.trace.events }
    ensures reads_nothing { reads_source (options_of (texts words.now)) ≡ false →
        source.new ≡ source.old }
    ensures refuses_no_application { reads_source (options_of (texts words.now)) ≡ false →
        IsNotRefused result.status }
    ensures out_stays { WritesNothing (texts words.now)
        (devices S.Source O.Sink D.Disk source.old out.old disks.items) result.status →
        out.new ≡ out.old }
    ensures disks_come_back { ComeBack D.Disk disks.items result.disks.items result.status }
{
    match read_words(alloc, words) {
        Ok(options) => answer_options(rt, alloc, &options, source, out, disks, gate),
        Err(WordsRefusal::Unaccepted) => unread(alloc, Status::Usage, disks),
        Err(WordsRefusal::OutOfMemory) => unread(alloc, Status::OutOfMemory, disks),
    }
}

/// Runs a job: reads its text from the source, or generates that of the application that the words ask for, runs its tasks on the
/// workers and nodes that the words or the job ask for, evicts to the disks what doesn't fit, and writes the arrays that it
/// prints to `out`, as if its tasks had run one after another on plain arrays. Where that ends otherwise, one line goes to `err`.
/// The disks come back in their order. `words` are those of the command line behind the program's name. The gate is called before
/// the first task, and before and after each kernel; no clause sees what it does.
///
/// Workers are threads; the call returns when all have ended. The cost is that of reading, running and printing: linear in the
/// text and in the elements that tasks touch, but for the look-up of names. Memory is a few times the text, the nodes' sizes, and
/// the trace: at most three events a task and five an operand. No clause bounds time or memory.
pub fn starjob<S, O, E, G, D, R>(
    rt: &R,
    alloc: Global,
    words: &[String],
    source: &mut S,
    out: &mut O,
    err: &mut E,
    disks: Vec<D>,
    gate: &G,
) -> Outcome<D>
where
    S: Source,
    O: Sink,
    E: Sink,
    G: Gate,
    D: Disk + Send,
    R: Threads + Wait + Sync,
    requires few_disks { length disks.items ≤ 16 }
    requires small_disks { AreWithin D.size (2 ^ 40) disks.items }

    // `devices .. old` are source, out and disks as the call found them, `devices .. new` as it left them.
    //
    // Where the job is done and all disks tell, `out` took the text of what its statements print when they run one after another
    // on plain arrays, or its summary, and behind it that of the trace where it is asked for, whatever workers, nodes and policy
    // are asked for, and however the workers' turns fell; a front of it where `out` failed.
    ensures printed { Prints (texts words.now)
        (devices S.Source O.Sink D.Disk source.old out.old disks.items)
        (devices S.Source O.Sink D.Disk source.new out.new result.disks.items)
        result.status result.trace.events }

    // Where the words ask for an application, that is the text of its answer: the product of the two matrices, or the lengths of
    // shortest walks.
    ensures solved { Solves (texts words.now)
        (devices S.Source O.Sink D.Disk source.old out.old disks.items)
        (devices S.Source O.Sink D.Disk source.new out.new result.disks.items)
        result.status result.trace.events }

    // Each status that comes has its cause: in the words, the job or the disks' sizes, or in a device that failed in this call.
    // Want of memory alone needs none.
    ensures status_has_its_cause { Answers (texts words.now)
        (devices S.Source O.Sink D.Disk source.old out.old disks.items)
        (devices S.Source O.Sink D.Disk source.new out.new result.disks.items)
        result.status result.trace.events }

    // Each status that is due comes, unless memory runs out: Usage where the words aren't accepted; Refused, TooLarge or
    // SwapTooSmall where that is so of the job, and the source doesn't fail; Done where none of these is, and nothing fails;
    // SourceFault and SinkFault where the device's count of faults is greater than it was.
    ensures due_status_comes { WhatIsDueComes (texts words.now)
        (devices S.Source O.Sink D.Disk source.old out.old disks.items)
        (devices S.Source O.Sink D.Disk source.new out.new result.disks.items) result.status }

    // No text is read where the words ask for none: where they aren't accepted, or ask for an application.
    ensures reads_nothing { reads_source (options_of (texts words.now)) ≡ false →
        source.new ≡ source.old }

    // Nor is any text refused then: the job of an application is within the limits at every size.
    ensures refuses_no_application { reads_source (options_of (texts words.now)) ≡ false →
        IsNotRefused result.status }

    // `out` is as it was at every end but Done and SinkFault, and there too where there is nothing to write.
    ensures out_stays { WritesNothing (texts words.now)
        (devices S.Source O.Sink D.Disk source.old out.old disks.items) result.status →
        out.new ≡ out.old }

    // `err` takes the status's line, or a front of it where `err` fails; and nothing where the job is done.
    ensures err_takes_the_line { TakesLine
        (seen E.taken E.faults err.old) (seen E.taken E.faults err.new)
        (status_line result.status) }

    // The disks come back in their order, no count lower; and each as it was at Usage, Refused, TooLarge, SwapTooSmall and
    // SourceFault, which come before the run.
    ensures disks_come_back { ComeBack D.Disk disks.items result.disks.items result.status }
{
    let outcome = answer_words(rt, alloc, words, source, out, disks, gate);
    report(outcome.status, err);
    outcome
}
