//! The run of a job, and the text that it gives.

ghost use Rattle.std.specs.Prelude.{◌≡◌, ◌≤◌, ◌^◌, ◌++◌, [], Err, IfOk, length, map, if◌then◌else◌};
ghost use Rattle.sj_edge.specs.Sizes.{AreWithin};
ghost use Rattle.sj_trace.specs.Text.{text_of as text_of_trace};
ghost use Rattle.sj_words.specs.Options.{OptionsAreInRange};
ghost use Rattle.sj_top.specs.Answers.{LeavesDisks, RunsWork, status_of};
ghost use Rattle.sj_engine.specs.Outcome.{AllDisksTell};
ghost use Rattle.sj_top.specs.Gathering.{AreGrouped, HandedOver, ShowsRun};
ghost use Rattle.sj_ready.specs.Input.{work_in, HasJob};
ghost use Rattle.sj_ready.specs.Ready.{HasOwnCodelets, IsReady};
ghost use Rattle.sj_ready.specs.Work.{WorkOrRefusal};

use crate::gathering::text_of;
use crate::stop::Stop;
use sj_base::memory::OutOfMemory;
use sj_base::program::Program;
use sj_base::trace::Trace;
use sj_board::delivered::Delivered;
use sj_codelet::set::Codelets;
use sj_core::laws::finishes;
use sj_edge::disk::{Disk, sizes_of};
use sj_edge::gate::Gate;
use sj_engine::engine::{RunOutcome, run};
use sj_meaning::roots::Roots;
use sj_ready::input::Input;
use sj_ready::ready::{ReadyJob, ready_job};
use sj_trace::text::text as text_of_trace;
use sj_words::Options;
use std::alloc::Global;
use std::sync::{Arc, Wait};
use std::thread::Threads;

/// The text that a job prints, or why there is none; the events of its run; and the disks.
#[derive(Drop)]
pub struct Run<D> {
    pub text: Result<Vec<u8>, Stop>,
    pub trace: Trace,
    pub disks: Vec<D>,
}

/// A run that ended before its first event.
fn nothing_run<D: Drop>(alloc: Global, stop: Stop, disks: Vec<D>) -> Run<D>
    ensures text { result.text ≡ Err stop }
    ensures trace { result.trace.events ≡ [] }
    ensures disks { result.disks ≡ disks }
{
    Run {
        text: Err(stop),
        trace: Trace::empty(alloc),
        disks,
    }
}

/// A program to be run, and to be looked at afterwards.
fn shared(program: &Arc<Program>) -> Result<Arc<Program>, OutOfMemory>
    ensures { IfOk result (λ p. p.value ≡ program.now.value) }
{
    Ok(program.clone()?)
}

/// The text of what a run handed over, or its summary, and the text of its trace, each where it is asked for. Linear in both.
fn shown(
    alloc: Global,
    roots: &Roots,
    program: &Program,
    delivered: &Delivered,
    trace: &Trace,
    shows_summary: bool,
    shows_trace: bool,
) -> Result<Vec<u8>, OutOfMemory>
    requires handed { HandedOver program.now delivered.now.pairs }
    requires grouped { AreGrouped roots.now program.now }
    ensures { IfOk result (λ text. ShowsRun shows_summary roots.now program.now delivered.now.pairs
        (if shows_trace then text_of_trace trace.now.events else []) text.items) }
{
    let mut text = text_of(alloc, roots, program, delivered, shows_summary)?;
    if shows_trace {
        let events = text_of_trace(alloc, trace)?;
        text.extend_from_slice(&events)?;
    }
    Ok(text)
}

/// Runs what was made ready. The cost of the run, and of the text.
fn run_ready<C: Codelets, G: Gate, D: Disk + Send, R: Threads + Wait + Sync>(
    rt: &R,
    alloc: Global,
    ready: ReadyJob,
    disks: Vec<D>,
    codelets: &C,
    gate: &G,
) -> Run<D>
    requires ready { (asked : WorkOrRefusal) × IsReady C.has asked ready }
    requires disks { ready.machine.disks ≡ map D.size disks.items }
    ensures runs { (asked : WorkOrRefusal) → IsReady C.has asked ready →
        RunsWork asked (AllDisksTell D.held disks.items) result.text result.trace.events }
    ensures disks { (asked : WorkOrRefusal) → IsReady C.has asked ready →
        LeavesDisks D.Disk asked (status_of result.text)
        result.trace.events disks.items result.disks.items }
{
    finishes();
    let Ok(shared) = shared(&ready.program) else {
        return nothing_run(alloc, Stop::OutOfMemory, disks);
    };
    let (footprints, machine) = (ready.footprints, ready.machine);
    let RunOutcome {
        result,
        delivered,
        trace,
        disks,
    } = run(
        rt, alloc, shared, footprints, machine, disks, codelets, gate,
    );
    if let Err(fault) = result {
        return Run {
            text: Err(Stop::Broken(fault)),
            trace,
            disks,
        };
    }
    match shown(
        alloc,
        &ready.roots,
        &ready.program,
        &delivered,
        &trace,
        ready.shows_summary,
        ready.shows_trace,
    ) {
        Ok(text) => Run {
            text: Ok(text),
            trace,
            disks,
        },
        Err(_) => Run {
            text: Err(Stop::OutOfMemory),
            trace,
            disks,
        },
    }
}

/// Runs a job text, or the job of an application, on the machine that words ask for, else its settings, with these disks. The
/// cost of reading, lowering and running it, and of the text; the workers go on side by side.
pub fn run_input<C: Codelets, G: Gate, D: Disk + Send, R: Threads + Wait + Sync>(
    rt: &R,
    alloc: Global,
    input: Input,
    options: &Options,
    disks: Vec<D>,
    codelets: &C,
    gate: &G,
) -> Run<D>
    requires own { HasOwnCodelets C.has }
    requires input { HasJob C.has input }
    requires options { OptionsAreInRange options.now }
    requires few { length disks.items ≤ 16 }
    requires small { AreWithin D.size (2 ^ 40) disks.items }
    ensures runs { RunsWork (work_in C.has options.now (map D.size disks.items) input)
        (AllDisksTell D.held disks.items) result.text result.trace.events }
    ensures disks { LeavesDisks D.Disk
        (work_in C.has options.now (map D.size disks.items) input)
        (status_of result.text) result.trace.events disks.items result.disks.items }
{
    let Ok(sizes) = sizes_of(alloc, &disks) else {
        return nothing_run(alloc, Stop::OutOfMemory, disks);
    };
    match ready_job(alloc, input, options, sizes, codelets) {
        Ok(ready) => run_ready(rt, alloc, ready, disks, codelets, gate),
        Err(unready) => nothing_run(alloc, Stop::Unready(unready), disks),
    }
}
