//! Runs of job texts on disks of any kind.

ghost use Rattle.std.specs.Prelude.{◌≡◌, ◌≤◌, ◌^◌, IfOk, length, map};
ghost use Rattle.sj_edge.specs.Sizes.{AreWithin};
ghost use Rattle.sj_ready.specs.Input.{HasJob};
ghost use Rattle.sj_ready.specs.Ready.{HasOwnCodelets, IsReady};
ghost use Rattle.sj_ready.specs.Work.{WorkOrRefusal};
ghost use Rattle.sj_words.specs.Options.{OptionsAreInRange};

use sj_base::memory::OutOfMemory;
use sj_codelet::set::Codelets;
use sj_edge::disk::{Disk, sizes_of};
use sj_edge::gate::Gate;
use sj_engine::engine::{RunOutcome, run};
use sj_ready::input::Input;
use sj_ready::ready::{ReadyJob, ready_job};
use sj_words::{Options, read_words};
use std::alloc::Global;
use std::sync::Wait;
use std::test::Fail;
use std::thread::Threads;

/// The disks of a run that has one.
pub fn one<D: Disk>(alloc: Global, disk: D) -> Result<Vec<D>, OutOfMemory>
    requires { D.size disk ≤ 2 ^ 40 }
    ensures count { IfOk result (λ disks. length disks.items ≡ 1) }
    ensures small { IfOk result (λ disks. AreWithin D.size (2 ^ 40) disks.items) }
{
    let mut disks = Vec::new(alloc);
    disks.push(disk)?;
    Ok(disks)
}

/// The disks of a run that has two.
pub fn two<D: Disk>(alloc: Global, first: D, second: D) -> Result<Vec<D>, OutOfMemory>
    requires first { D.size first ≤ 2 ^ 40 }
    requires second { D.size second ≤ 2 ^ 40 }
    ensures count { IfOk result (λ disks. length disks.items ≡ 2) }
    ensures small { IfOk result (λ disks. AreWithin D.size (2 ^ 40) disks.items) }
{
    let mut disks = one(alloc, first)?;
    disks.push(second)?;
    Ok(disks)
}

/// Runs what was made ready.
fn run_ready<C: Codelets, G: Gate, D: Disk + Send, R: Threads + Wait + Sync>(
    rt: &R,
    alloc: Global,
    ready: ReadyJob,
    disks: Vec<D>,
    codelets: &C,
    gate: &G,
) -> RunOutcome<D>
    requires ready { (asked : WorkOrRefusal) × IsReady C.has asked ready }
    requires disks { ready.machine.disks ≡ map D.size disks.items }
{
    let ReadyJob {
        program,
        footprints,
        machine,
        ..
    } = ready;
    run(
        rt, alloc, program, footprints, machine, disks, codelets, gate,
    )
}

/// Runs a job on the machine that options ask for, else its settings, with these disks.
fn run_input<C: Codelets, G: Gate, D: Disk + Send, R: Threads + Wait + Sync>(
    rt: &R,
    alloc: Global,
    input: Input,
    options: &Options,
    disks: Vec<D>,
    codelets: &C,
    gate: &G,
) -> Result<RunOutcome<D>, Fail>
    requires own { HasOwnCodelets C.has }
    requires input { HasJob C.has input }
    requires options { OptionsAreInRange options.now }
    requires few { length disks.items ≤ 16 }
    requires small { AreWithin D.size (2 ^ 40) disks.items }
{
    let Ok(sizes) = sizes_of(alloc, &disks) else {
        return Err(Fail::new("no memory"));
    };
    match ready_job(alloc, input, options, sizes, codelets) {
        Ok(ready) => Ok(run_ready(rt, alloc, ready, disks, codelets, gate)),
        Err(unready) => Err(Fail::from(unready)),
    }
}

/// Runs a job text on the machine that its settings ask for, with these disks.
pub fn run_text<C: Codelets, G: Gate, D: Disk + Send, R: Threads + Wait + Sync>(
    rt: &R,
    alloc: Global,
    text: &str,
    disks: Vec<D>,
    codelets: &C,
    gate: &G,
) -> Result<RunOutcome<D>, Fail>
    requires own { HasOwnCodelets C.has }
    requires few { length disks.items ≤ 16 }
    requires small { AreWithin D.size (2 ^ 40) disks.items }
{
    let options = read_words(alloc, &[])?;
    let input = Input::Text(text.as_bytes().to_vec(alloc)?);
    run_input(rt, alloc, input, &options, disks, codelets, gate)
}
