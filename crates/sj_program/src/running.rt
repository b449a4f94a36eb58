//! A run with what a process has: a swap disk as the words wish for, a terminal's line, and an exit code.

ghost use Rattle.std.specs.Prelude.{◌≡◌, ◌≤◌, ◌^◌, ◌∷◌, [], length, IfOk, IfSome, IsSome, Some};
ghost use Rattle.sj_edge.specs.Sizes.{AreWithin};
ghost use Rattle.sj_program.specs.Ending.{EndsAsWished, EndsByAStatus, EndsWithoutADisk, IsCodeOf};
ghost use Rattle.sj_top.specs.Device.{devices, seen};
ghost use Rattle.sj_top.specs.Report.{status_line, TakesLine};
ghost use Rattle.sj_words.specs.Machine.{swap_by};
ghost use Rattle.sj_words.specs.Spelling.{texts};

use crate::remark::{no_swap, remark, write_remark};
use crate::swap::open_swap;
use crate::tally::{RunTally, TallyDisk, TallyGate};
use crate::watch::{ErasingSink, Watch};
use sj_base::ids::DiskNo;
use sj_edge::disk::Disk;
use sj_edge::file_disk::FileDisk;
use sj_edge::memory_disk::MemDisk;
use sj_edge::sink::Sink;
use sj_edge::source::Source;
use sj_edge::sure::SureSink;
use sj_top::report::report;
use sj_top::status::Status;
use sj_top::top::starjob;
use sj_words::{SwapWish, swap_wish};
use std::alloc::Global;
use std::fs::File;
use std::io::{self, Error, ErrorKind};
use std::process::ExitCode;
use std::rt::{Clock, Files};
use std::sync::{Arc, Wait};
use std::thread;
use std::thread::{JoinHandle, Threads};

/// The most bytes that a disk may have.
const LARGEST_DISK: u64 = 1_099_511_627_776;

/// With which code the process is to end, and the output that it wrote to.
#[derive(Drop)]
pub struct Ended<O> {
    pub code: ExitCode,
    pub out: O,
}

/// Ends with the status's line and code.
fn end_with<E: Sink>(status: Status, err: &mut E) -> ExitCode
    ensures ends_with_its_code { IsCodeOf status result }
    ensures err_takes_its_line { TakesLine
        (seen E.taken E.faults err.old) (seen E.taken E.faults err.new) (status_line status) }
{
    report(status, err);
    ExitCode::from(status.code())
}

/// Ends where memory runs out before the job is begun.
pub fn end_without_memory<E: Sink>(err: &mut E) -> ExitCode
    ensures ends_with_its_code { IsCodeOf Status.OutOfMemory result }
    ensures err_takes_its_line { TakesLine (seen E.taken E.faults err.old)
        (seen E.taken E.faults err.new) (status_line Status.OutOfMemory) }
{
    end_with(Status::OutOfMemory, err)
}

/// The same, with the output as it was.
fn ended_without_memory<O, E: Sink>(out: O, err: &mut E) -> Ended<O>
    ensures ends_with_its_code { IsCodeOf Status.OutOfMemory result.code }
    ensures err_takes_its_line { TakesLine (seen E.taken E.faults err.old)
        (seen E.taken E.faults err.new) (status_line Status.OutOfMemory) }
    ensures out_stays { result.out ≡ out }
{
    let code = end_without_memory(err);
    Ended { code, out }
}

/// Ends where there is no swap disk at a path, and says why.
fn end_without_swap<E: Sink>(alloc: Global, path: &str, error: &Error, err: &mut E) -> ExitCode
    ensures ends_for_want_of_memory_or_of_a_disk { EndsWithoutADisk (Some path.now)
        (seen E.taken E.faults err.old) (seen E.taken E.faults err.new) result }
{
    if error.kind() == ErrorKind::OutOfMemory {
        return end_without_memory(err);
    }
    write_remark(err, no_swap(alloc, path, error));
    end_with(Status::DiskFault { disk: DiskNo(0) }, err)
}

/// Starts the thread that shows the line of a run. Without it the run isn't watched.
fn start_to_show<R>(rt: &R, alloc: Global, watch: &Arc<Watch, Global>) -> Option<JoinHandle<()>>
where
    R: Threads + Wait + Clock + Eprint + Copy + Send + 'static,
{
    let handle = *rt;
    let watch = Arc::try_clone(watch).ok()?;
    thread::spawn(rt, move || watch.show(&handle, alloc)).ok()
}

/// Runs the job of a source with these disks, under a gate. The line of the status is told once the line of the run is off the
/// terminal, and the further line that a person needs goes before it: so the call is given an `err` that keeps nothing.
fn run_on<R, S, O, E, D>(
    rt: &R,
    alloc: Global,
    words: &[String],
    source: &mut S,
    out: &mut O,
    err: &mut E,
    disks: Vec<D>,
    gate: &TallyGate<'_>,
    watch: &Watch,
) -> ExitCode
where
    R: Threads + Wait + Sync + Eprint,
    S: Source,
    O: Sink,
    E: Sink,
    D: Disk + Send,
    requires few_disks { length disks.items ≤ 16 }
    requires small_disks { AreWithin D.size (2 ^ 40) disks.items }
    ensures ends_by_a_status_that_has_its_cause { EndsByAStatus (texts words.now)
        (devices S.Source O.Sink D.Disk source.old out.old disks.items)
        (seen S.left S.faults source.new) (seen O.taken O.faults out.new)
        (seen E.taken E.faults err.old) (seen E.taken E.faults err.new) result }
{
    let mut unheard = SureSink::new();
    let outcome = starjob(rt, alloc, words, source, out, &mut unheard, disks, gate);
    watch.end(rt);
    let cause = watch.cause();
    let further = remark(alloc, words, outcome.status, cause.as_ref());
    write_remark(err, further);
    end_with(outcome.status, err)
}

/// The list of a single disk.
fn one_disk<D: Disk>(alloc: Global, disk: D) -> Option<Vec<D>>
    requires small { D.size disk ≤ 2 ^ 40 }
    ensures alone { IfSome result (λ disks. disks.items ≡ disk ∷ []) }
    ensures is_one { IfSome result (λ disks. length disks.items ≡ 1) }
    ensures is_small { IfSome result (λ disks. AreWithin D.size (2 ^ 40) disks.items) }
{
    let mut disks = Vec::new(alloc);
    disks.push(disk).ok()?;
    Some(disks)
}

/// Runs the job of a source with this swap disk, and shows how far it is where there is a terminal for that.
fn run_with<R, S, O, E, D>(
    rt: &R,
    alloc: Global,
    words: &[String],
    source: &mut S,
    out: O,
    err: &mut E,
    disk: D,
    tally: Arc<RunTally, Global>,
    has_terminal: bool,
) -> Ended<O>
where
    R: Threads + Wait + Sync + Clock + Eprint + Copy + Send + 'static,
    S: Source,
    O: Sink + Drop,
    E: Sink,
    D: Disk + Send,
    ensures ends_by_a_status_that_has_its_cause { EndsByAStatus (texts words.now)
        (devices S.Source O.Sink D.Disk source.old out (disk ∷ []))
        (seen S.left S.faults source.new) (seen O.taken O.faults result.out)
        (seen E.taken E.faults err.old) (seen E.taken E.faults err.new) result.code }
{
    // no words ask for a larger one
    if disk.size() > LARGEST_DISK {
        return ended_without_memory(out, err);
    }
    let Some(disks) = one_disk(alloc, disk) else {
        return ended_without_memory(out, err);
    };
    let Some(watch) = new_watch(alloc, &tally) else {
        return ended_without_memory(out, err);
    };
    let shower = if has_terminal {
        start_to_show(rt, alloc, &watch)
    } else {
        None
    };
    let gate = TallyGate::over(shower.is_some().then_some(&*tally));
    let mut out = ErasingSink::over(rt, &*watch, out);
    let code = run_on(
        rt, alloc, words, source, &mut out, err, disks, &gate, &watch,
    );
    let out = out.into_inner();
    if let Some(shower) = shower {
        shower.join(rt);
    }
    Ended { code, out }
}

/// The line of a run that is counted here.
fn new_watch(alloc: Global, tally: &Arc<RunTally, Global>) -> Option<Arc<Watch, Global>> {
    let tally = Arc::try_clone(tally).ok()?;
    Arc::new(alloc, Watch::over(tally)).ok()
}

/// The counts of a run, for its disk and for its gate.
fn new_tally(alloc: Global) -> Option<(Arc<RunTally, Global>, Arc<RunTally, Global>)> {
    let tally = Arc::new(alloc, RunTally::new()).ok()?;
    let other = Arc::try_clone(&tally).ok()?;
    Some((tally, other))
}

/// A disk in memory whose bytes are counted.
fn memory_disk(
    alloc: Global,
    size: u64,
    counts: Arc<RunTally, Global>,
) -> Option<TallyDisk<MemDisk>>
    ensures size { IfSome result (λ d. ⟦<TallyDisk<MemDisk> as Disk>⟧.size d ≡ size) }
    ensures tells { IfSome result (λ d. IsSome (⟦<TallyDisk<MemDisk> as Disk>⟧.held d)) }
{
    let disk = MemDisk::new(alloc, size, Vec::new(alloc)).ok()?;
    Some(TallyDisk::over(disk, counts))
}

/// A disk in a file at a path, or in a folder there, whose bytes are counted.
fn file_disk<R>(
    rt: &R,
    path: &str,
    size: u64,
    counts: Arc<RunTally, Global>,
) -> io::Result<TallyDisk<FileDisk>>
where
    R: Files<File = File> + Alloc + Clock,
    ensures size { IfOk result (λ d. ⟦<TallyDisk<FileDisk> as Disk>⟧.size d ≡ size) }
{
    let file = open_swap(rt, path, size)?;
    Ok(TallyDisk::over(FileDisk::over(file, size), counts))
}

/// Runs the job of a source with a swap disk in memory of so many bytes, as the words ask for.
fn run_in_memory<R, S, O, E>(
    rt: &R,
    alloc: Global,
    words: &[String],
    source: &mut S,
    out: O,
    err: &mut E,
    size: u64,
    has_terminal: bool,
) -> Ended<O>
where
    R: Files<File = File> + Alloc + Threads + Wait + Sync + Clock + Eprint + Copy + Send + 'static,
    S: Source,
    O: Sink + Drop,
    E: Sink,
    requires size_is_wished { size ≡ (swap_by (texts words.now)).size }
    ensures ends_as_wished { EndsAsWished ⟦<TallyDisk<MemDisk> as Disk>⟧
        ⟦<TallyDisk<FileDisk> as Disk>⟧ (texts words.now)
        (seen S.left S.faults source.old) (seen O.taken O.faults out)
        (seen E.taken E.faults err.old) (seen S.left S.faults source.new)
        (seen O.taken O.faults result.out) (seen E.taken E.faults err.new) result.code }
{
    let Some((tally, counts)) = new_tally(alloc) else {
        return ended_without_memory(out, err);
    };
    let Some(disk) = memory_disk(alloc, size, counts) else {
        return ended_without_memory(out, err);
    };
    run_with(
        rt,
        alloc,
        words,
        source,
        out,
        err,
        disk,
        tally,
        has_terminal,
    )
}

/// Runs the job of a source with a swap disk in a file of so many bytes at a path, as the words ask for.
fn run_in_file<R, S, O, E>(
    rt: &R,
    alloc: Global,
    words: &[String],
    source: &mut S,
    out: O,
    err: &mut E,
    path: &str,
    size: u64,
    has_terminal: bool,
) -> Ended<O>
where
    R: Files<File = File> + Alloc + Threads + Wait + Sync + Clock + Eprint + Copy + Send + 'static,
    S: Source,
    O: Sink + Drop,
    E: Sink,
    requires path_is_wished { Some path.now ≡ (swap_by (texts words.now)).path }
    requires size_is_wished { size ≡ (swap_by (texts words.now)).size }
    ensures ends_as_wished { EndsAsWished ⟦<TallyDisk<MemDisk> as Disk>⟧
        ⟦<TallyDisk<FileDisk> as Disk>⟧ (texts words.now)
        (seen S.left S.faults source.old) (seen O.taken O.faults out)
        (seen E.taken E.faults err.old) (seen S.left S.faults source.new)
        (seen O.taken O.faults result.out) (seen E.taken E.faults err.new) result.code }
{
    let Some((tally, counts)) = new_tally(alloc) else {
        return ended_without_memory(out, err);
    };
    match file_disk(rt, path, size, counts) {
        Ok(disk) => run_with(
            rt,
            alloc,
            words,
            source,
            out,
            err,
            disk,
            tally,
            has_terminal,
        ),
        Err(e) => {
            let code = end_without_swap(alloc, path, &e, err);
            Ended { code, out }
        }
    }
}

/// Runs the job of a source with the swap disk that the words ask for.
pub fn run_words<R, S, O, E>(
    rt: &R,
    alloc: Global,
    words: &[String],
    source: &mut S,
    out: O,
    err: &mut E,
    has_terminal: bool,
) -> Ended<O>
where
    R: Files<File = File> + Alloc + Threads + Wait + Sync + Clock + Eprint + Copy + Send + 'static,
    S: Source,
    O: Sink + Drop,
    E: Sink,
    ensures ends_as_wished { EndsAsWished ⟦<TallyDisk<MemDisk> as Disk>⟧
        ⟦<TallyDisk<FileDisk> as Disk>⟧ (texts words.now)
        (seen S.left S.faults source.old) (seen O.taken O.faults out)
        (seen E.taken E.faults err.old) (seen S.left S.faults source.new)
        (seen O.taken O.faults result.out) (seen E.taken E.faults err.new) result.code }
{
    let Ok(SwapWish { path, size }) = swap_wish(alloc, words) else {
        return ended_without_memory(out, err);
    };
    let Some(path) = path else {
        return run_in_memory(rt, alloc, words, source, out, err, size, has_terminal);
    };
    run_in_file(
        rt,
        alloc,
        words,
        source,
        out,
        err,
        path.as_str(),
        size,
        has_terminal,
    )
}
