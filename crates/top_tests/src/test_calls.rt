//! The calls that the tests of whole jobs make, with devices and disks in memory, and what is answered.

ghost use Rattle.std.specs.Prelude.{◌≡◌, ◌+◌, ◌≤◌, ◌^◌, IfOk, length};
ghost use Rattle.sj_edge.specs.Sizes.{AreWithin};

use sj_base::memory::OutOfMemory;
use sj_edge::disk::{Disk, add_disk};
use sj_edge::gate::{Gate, OpenGate};
use sj_edge::memory_disk::MemDisk;
use sj_edge::memory_sink::MemSink;
use sj_edge::memory_source::MemSource;
use sj_edge::sink::Sink;
use sj_edge::source::Source;
use sj_top::status::Status;
use sj_top::top::{AnyDisk, Outcome, starjob};
use std::alloc::Global;
use std::fmt::Debug;
use std::process::Abort;
use std::sync::Wait;
use std::test::Fail;
use std::thread::Threads;

/// One vector is added to another.
pub const SUM: &str =
    "starjob 1\nvector x 3 values 1 2 3\nvector y 3 values 10 20 30\ntask add x:R y:RW\nprint y\n";

/// The bytes of a disk that takes all blocks of a small job.
pub const DISK: u32 = 1 << 16;

/// The bytes that `out` has room for.
const ROOM: u64 = 1 << 19;

/// How a call ended, and what was written.
#[derive(Drop)]
pub struct Answer<D = AnyDisk> {
    pub outcome: Outcome<D>,
    pub out: MemSink,
    pub err: MemSink,
}

/// Texts for the words of a call.
fn words_of(alloc: Global, words: &[&str]) -> Result<Vec<String>, Fail> {
    let mut texts = Vec::new(alloc);
    for word in words {
        texts.push(String::from_str(alloc, word)?)?;
    }
    Ok(texts)
}

/// The bytes of a text.
pub fn bytes(alloc: Global, text: &str) -> Result<Vec<u8>, Fail> {
    Ok(Vec::from_slice(alloc, text.as_bytes())?)
}

/// The numbers of calls that a device refuses.
pub fn calls(alloc: Global, numbers: &[u64]) -> Result<Vec<u64>, Fail> {
    Ok(Vec::from_slice(alloc, numbers)?)
}

/// The disks of a call that has one.
pub fn one(alloc: Global, disk: AnyDisk) -> Result<Vec<AnyDisk>, OutOfMemory>
    requires { ⟦<AnyDisk as Disk>⟧.size disk ≤ 2 ^ 40 }
    ensures one { IfOk result (λ disks. length disks.items ≡ 1) }
    ensures small { IfOk result (λ disks.
        AreWithin ⟦<AnyDisk as Disk>⟧.size (2 ^ 40) disks.items) }
{
    let mut disks = Vec::new(alloc);
    add_disk(&mut disks, disk)?;
    Ok(disks)
}

/// The same disks, and one more.
pub fn with_one_more(mut disks: Vec<AnyDisk>, disk: AnyDisk) -> Result<Vec<AnyDisk>, OutOfMemory>
    requires small { AreWithin ⟦<AnyDisk as Disk>⟧.size (2 ^ 40) disks.items }
    requires disk { ⟦<AnyDisk as Disk>⟧.size disk ≤ 2 ^ 40 }
    ensures one_more { IfOk result (λ all. length all.items ≡ length disks.items + 1) }
    ensures small { IfOk result (λ all.
        AreWithin ⟦<AnyDisk as Disk>⟧.size (2 ^ 40) all.items) }
{
    add_disk(&mut disks, disk)?;
    Ok(disks)
}

/// The disks of a run that has one, of any kind.
pub fn only<D: Disk>(alloc: Global, disk: D) -> Result<Vec<D>, OutOfMemory>
    requires { D.size disk ≤ 2 ^ 40 }
    ensures one { IfOk result (λ disks. length disks.items ≡ 1) }
    ensures small { IfOk result (λ disks. AreWithin D.size (2 ^ 40) disks.items) }
{
    let mut disks = Vec::new(alloc);
    disks.push(disk)?;
    Ok(disks)
}

/// A disk of so many bytes in memory, which refuses the calls with these numbers.
pub fn memory(alloc: Global, size: u32, refused: &[u64]) -> Result<MemDisk, Fail>
    ensures { IfOk result (λ d. length d.bytes ≤ 2 ^ 40) }
{
    Ok(MemDisk::new(alloc, size as u64, calls(alloc, refused)?)?)
}

/// The disks of a call that has one of so many bytes, which never fails.
pub fn whole(alloc: Global, size: u32) -> Result<Vec<AnyDisk>, Fail>
    ensures one { IfOk result (λ disks. length disks.items ≡ 1) }
    ensures small { IfOk result (λ disks.
        AreWithin ⟦<AnyDisk as Disk>⟧.size (2 ^ 40) disks.items) }
{
    let disk = memory(alloc, size, &[])?;
    Ok(one(alloc, Box::new(alloc, disk)?)?)
}

/// Calls for a small job without words, with one disk.
pub fn call<R: Threads + Wait + Sync, S: Source, O: Sink, E: Sink>(
    rt: &R,
    alloc: Global,
    source: &mut S,
    out: &mut O,
    err: &mut E,
) -> Result<Outcome<AnyDisk>, Fail> {
    let disks = whole(alloc, DISK)?;
    Ok(starjob(rt, alloc, &[], source, out, err, disks, &OpenGate))
}

/// The answer to words and a job text on these disks.
pub fn answer_on<G: Gate, D: Disk + Send, R: Threads + Wait + Sync>(
    rt: &R,
    alloc: Global,
    words: &[&str],
    text: &[u8],
    disks: Vec<D>,
    gate: &G,
) -> Result<Answer<D>, Fail>
    requires few { length disks.items ≤ 16 }
    requires small { AreWithin D.size (2 ^ 40) disks.items }
{
    let words = words_of(alloc, words)?;
    let mut source = MemSource::new(Vec::from_slice(alloc, text)?, Vec::new(alloc));
    let mut out = MemSink::new(alloc, ROOM, Vec::new(alloc))?;
    let mut err = MemSink::new(alloc, 1000, Vec::new(alloc))?;
    let outcome = starjob(
        rt,
        alloc,
        &words,
        &mut source,
        &mut out,
        &mut err,
        disks,
        gate,
    );
    Ok(Answer { outcome, out, err })
}

/// The answer to a small job without words, on one disk.
pub fn answer_to<R: Threads + Wait + Sync>(
    rt: &R,
    alloc: Global,
    text: &[u8],
) -> Result<Answer, Fail> {
    let disks = whole(alloc, DISK)?;
    answer_on(rt, alloc, &[], text, disks, &OpenGate)
}

/// Two values are equal.
pub fn same<R: Abort, T: PartialEq + Debug + Drop>(rt: &R, found: T, wanted: T) {
    assert_eq!(rt; found, wanted);
}

/// A call has ended so, and `out` took this.
pub fn is_answered<D, R: Abort>(
    rt: &R,
    answer: &Answer<D>,
    status: Status,
    out: &str,
    shows: &str,
) {
    assert_eq!(rt; answer.outcome.status, status, "{shows}");
    assert_eq!(rt; answer.out.taken(), out.as_bytes(), "{shows}");
}

/// A job text, and what `out` takes.
pub struct Printing {
    pub shows: &'static str,
    pub text: &'static str,
    pub out: &'static str,
}

/// Each job prints what stands beside it.
pub fn all_print<R: Threads + Wait + Abort + Sync>(
    rt: &R,
    alloc: Global,
    cases: &[Printing],
) -> Result<(), Fail> {
    for case in cases {
        let answer = answer_to(rt, alloc, case.text.as_bytes())?;
        assert_eq!(rt; answer.outcome.status.code(), 0, "{}", case.shows);
        assert_eq!(rt; answer.out.taken(), case.out.as_bytes(), "{}", case.shows);
        assert!(rt; answer.err.taken().is_empty(), "{}", case.shows);
    }
    Ok(())
}

/// A refused job text, and the line that `err` takes.
pub struct Refusal {
    pub shows: &'static str,
    pub text: &'static str,
    pub err: &'static str,
}

/// Each job is refused by the line that stands beside it.
pub fn all_are_refused<R: Threads + Wait + Abort + Sync>(
    rt: &R,
    alloc: Global,
    cases: &[Refusal],
) -> Result<(), Fail> {
    for case in cases {
        let answer = answer_to(rt, alloc, case.text.as_bytes())?;
        assert_eq!(rt; answer.outcome.status.code(), 3, "{}", case.shows);
        assert!(rt; answer.out.taken().is_empty(), "{}", case.shows);
        assert_eq!(rt; answer.err.taken(), case.err.as_bytes(), "{}", case.shows);
    }
    Ok(())
}
