//! The line on `err`.

ghost use Rattle.std.specs.Prelude.{◌≡◌, flat_map, IsErr, OnOk, OnErr};
ghost use Rattle.std.specs.Io.KnownBytes.{Appends};
ghost use Rattle.sj_edge.specs.Faults.{Counts};
ghost use Rattle.sj_top.specs.Device.{seen};
ghost use Rattle.sj_top.specs.Streams.{TakesPrefix};
ghost use Rattle.sj_top.specs.Report.{damage_line, disk_line, limit_name, reason_word, limit_word, status_line, swap_line, too_large_line, TakesLine};

use crate::sink_text::write_text;
use crate::status::Status;
use itoa::Buffer;
use sj_base::ids::{DiskNo, Line};
use sj_disk::header::Header;
use sj_edge::sink::Sink;
use sj_edge::source::Failed;
use sj_job::reason::{LimitKind, Reason};

/// What the program says of its words.
const USAGE: &[u8] =
    b"starjob: usage: starjob [--workers N] [--sched P] [--node BYTES] [--nodes K] [--swap PATH] [--swap-size BYTES] [--trace] [--summary] [--app product|paths --n N --tile T --seed S]\n";

fn limit_name(kind: LimitKind) -> &'static [u8]
    ensures { result.now ≡ limit_name kind }
{
    match kind {
        LimitKind::Text => b"Text",
        LimitKind::Statements => b"Statements",
        LimitKind::Workers => b"Workers",
        LimitKind::Nodes => b"Nodes",
        LimitKind::NodeBytes => b"NodeBytes",
        LimitKind::Names => b"Names",
        LimitKind::Elements => b"Elements",
        LimitKind::Parts => b"Parts",
        LimitKind::Priority => b"Priority",
        LimitKind::Cells => b"Cells",
        LimitKind::Tasks => b"Tasks",
    }
}

fn reason_word(reason: Reason) -> &'static [u8]
    ensures { result.now ≡ reason_word reason }
{
    match reason {
        Reason::Header => b"header",
        Reason::Word => b"word",
        Reason::Number => b"number",
        Reason::UnknownName => b"unknown name",
        Reason::TakenName => b"taken name",
        Reason::UnknownCodelet => b"unknown codelet",
        Reason::OperandCount => b"operand count",
        Reason::Shape => b"shape",
        Reason::Part => b"part",
        Reason::Aliased => b"aliased",
        Reason::NoValue => b"no value",
        Reason::NoReduction => b"no reduction",
        Reason::NotLawful => b"not lawful",
        Reason::MixedOutputs => b"mixed outputs",
        Reason::Limit(_) => b"limit ",
        Reason::EndedName => b"ended name",
    }
}

fn limit_word(reason: Reason) -> &'static [u8]
    ensures { result.now ≡ limit_word reason }
{
    match reason {
        Reason::Limit(kind) => limit_name(kind),
        _ => &[],
    }
}

/// Writes pieces one after another, until one fails.
fn write_pieces<E: Sink>(err: &mut E, pieces: &[&[u8]]) -> Result<(), Failed>
    ensures ok { OnOk result (Appends (E.taken err.old) (E.taken err.new)
        (flat_map (λ p. p.now) pieces.now)) }
    ensures err { OnErr result (TakesPrefix (E.taken err.old) (E.taken err.new)
        (flat_map (λ p. p.now) pieces.now)) }
    ensures counts { Counts (E.faults err.old) (E.faults err.new) (IsErr result) }
{
    match pieces.split_first() {
        Some((first, rest)) => {
            write_text(err, first)?;
            write_pieces(err, rest)
        }
        None => Ok(()),
    }
}

fn write_line<E: Sink>(err: &mut E, line: &[u8])
    ensures { TakesLine (seen E.taken E.faults err.old) (seen E.taken E.faults err.new)
        line.now }
{
    let _ = write_text(err, line);
}

fn write_line_of<E: Sink>(err: &mut E, pieces: &[&[u8]])
    ensures { TakesLine (seen E.taken E.faults err.old) (seen E.taken E.faults err.new)
        (flat_map (λ p. p.now) pieces.now) }
{
    let _ = write_pieces(err, pieces);
}

fn report_refusal<E: Sink>(line: Line, reason: Reason, err: &mut E)
    ensures { TakesLine (seen E.taken E.faults err.old) (seen E.taken E.faults err.new)
        (status_line (Status.Refused line reason)) }
{
    let mut buffer = Buffer::new();
    let number = buffer.format(line.0).as_bytes();
    write_line_of(
        err,
        &[
            b"starjob: line ",
            number,
            b": ",
            reason_word(reason),
            limit_word(reason),
            b"\n",
        ],
    );
}

fn report_too_large<E: Sink>(line: Line, bytes: u64, err: &mut E)
    ensures { TakesLine (seen E.taken E.faults err.old) (seen E.taken E.faults err.new)
        (too_large_line line bytes) }
{
    let mut buffers = (Buffer::new(), Buffer::new());
    let number = buffers.0.format(line.0).as_bytes();
    let bytes = buffers.1.format(bytes).as_bytes();
    write_line_of(
        err,
        &[
            b"starjob: line ",
            number,
            b": task needs ",
            bytes,
            b" bytes on one node\n",
        ],
    );
}

fn report_swap<E: Sink>(needed: u64, have: u64, err: &mut E)
    ensures { TakesLine (seen E.taken E.faults err.old) (seen E.taken E.faults err.new)
        (swap_line needed have) }
{
    let mut buffers = (Buffer::new(), Buffer::new());
    let needed = buffers.0.format(needed).as_bytes();
    let have = buffers.1.format(have).as_bytes();
    write_line_of(
        err,
        &[
            b"starjob: swap needs ",
            needed,
            b" bytes, has ",
            have,
            b"\n",
        ],
    );
}

fn report_disk<E: Sink>(disk: DiskNo, err: &mut E)
    ensures { TakesLine (seen E.taken E.faults err.old) (seen E.taken E.faults err.new)
        (disk_line disk) }
{
    let mut buffer = Buffer::new();
    let number = buffer.format(disk.0).as_bytes();
    write_line_of(err, &[b"starjob: disk ", number, b" failed\n"]);
}

fn report_damage<E: Sink>(disk: DiskNo, want: Header, found: Header, err: &mut E)
    ensures { TakesLine (seen E.taken E.faults err.old) (seen E.taken E.faults err.new)
        (damage_line disk want found) }
{
    let mut number = Buffer::new();
    let mut wanted = (Buffer::new(), Buffer::new(), Buffer::new());
    let mut held = (Buffer::new(), Buffer::new(), Buffer::new());
    write_line_of(
        err,
        &[
            b"starjob: disk ",
            number.format(disk.0).as_bytes(),
            b" damaged: wanted cell ",
            wanted.0.format(want.cell).as_bytes(),
            b" writes ",
            wanted.1.format(want.writes).as_bytes(),
            b" length ",
            wanted.2.format(want.length).as_bytes(),
            b", found cell ",
            held.0.format(found.cell).as_bytes(),
            b" writes ",
            held.1.format(found.writes).as_bytes(),
            b" length ",
            held.2.format(found.length).as_bytes(),
            b"\n",
        ],
    );
}

/// Writes the line for a status, in pieces and without memory. A failing `err` is ignored. Constant time where the sink
/// takes whole pieces.
pub fn report<E: Sink>(status: Status, err: &mut E)
    ensures { TakesLine (seen E.taken E.faults err.old) (seen E.taken E.faults err.new)
        (status_line status) }
{
    match status {
        Status::Done => write_line(err, &[]),
        Status::Usage => write_line(err, USAGE),
        Status::Refused { line, reason } => report_refusal(line, reason, err),
        Status::TooLarge { line, bytes } => report_too_large(line, bytes, err),
        Status::SwapTooSmall { needed, have } => report_swap(needed, have, err),
        Status::DiskFault { disk } => report_disk(disk, err),
        Status::Damaged { disk, want, found } => report_damage(disk, want, found, err),
        Status::SourceFault => write_line(err, b"starjob: reading failed\n"),
        Status::SinkFault => write_line(err, b"starjob: writing failed\n"),
        Status::OutOfMemory => write_line(err, b"starjob: out of memory\n"),
    }
}
