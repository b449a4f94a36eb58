//! Reading a source to its end.

ghost use Rattle.std.specs.Prelude.{◌≡◌, ◌+◌, ◌≤◌, ◌<◌, ◌++◌, List, ℕ, length, take, Bool, IfOk, IfSome};
ghost use Rattle.std.specs.Io.KnownBytes.{Consumes, IsAtEnd};
ghost use Rattle.sj_edge.specs.Faults.{Counts, counted};
ghost use Rattle.sj_codelet.specs.declared.kernel.Kernel.{Kernel};
ghost use Rattle.sj_job.specs.Reading.{job_of};
ghost use Rattle.sj_top.specs.declared.source_text.Unread.TheVariants.{Fault};
ghost use Rattle.sj_top.specs.Device.{seen};
ghost use Rattle.sj_top.specs.Streams.{IsRead, is_source_fault};

use sj_base::memory::OutOfMemory;
use sj_edge::source::Source;
use sj_job::read::TEXT;
use std::alloc::{AllocError, Global};

/// Why a source's text isn't there.
#[derive(Clone, Copy, Debug, PartialEq, Eq)]
pub enum Unread {
    Fault,
    OutOfMemory,
}

impl From<AllocError> for Unread {
    ghost use Rattle.std.specs.Prelude.{◌≡◌};
    ghost use Rattle.sj_top.specs.declared.source_text.Unread.TheVariants.{OutOfMemory};

    ghost from_gives = { λ _ e. e ≡ OutOfMemory };

    fn from(_: AllocError) -> Self {
        Unread::OutOfMemory
    }
}

/// How many bytes are asked for at a time.
const PIECE: usize = 65_536;

/// So many zeros.
fn zeroed(alloc: Global, n: usize) -> Result<Vec<u8>, AllocError>
    ensures { IfOk result (λ piece. length piece.items ≡ n) }
{
    vec![in alloc; 0u8; n]
}

/// Takes a piece more, and says how many bytes.
fn take_piece<S: Source>(
    source: &mut S,
    piece: &mut [u8],
    text: &mut Vec<u8>,
) -> Result<usize, Unread>
    ensures bound { IfOk result (λ n. n ≤ length piece.new) }
    ensures taken { IfOk result (λ n. (text.new.items ≡ text.old.items ++ take n piece.new)
        × Consumes (S.left source.old) (S.left source.new) (take n piece.new)) }
    ensures end { IfOk result (λ n. n ≡ 0 → 0 < length piece.new → IsAtEnd (S.left source.new)) }
    ensures counts { Counts (S.faults source.old) (S.faults source.new) (result ≡ Err Fault) }
    ensures rises_by_one { S.faults source.new
        ≡ counted (S.faults source.old) (is_source_fault result) }
{
    match source.read(piece) {
        Ok(n) => {
            text.extend_from_slice(&piece[..n])?;
            Ok(n)
        }
        Err(_) => Err(Unread::Fault),
    }
}

/// Reads a source to its end, or to one byte past the longest text. Linear in what is read.
pub fn read_source<S: Source>(alloc: Global, source: &mut S) -> Result<Vec<u8>, Unread>
    ensures read { IfOk result
        (λ _. IsRead (seen S.left S.faults source.old) (seen S.left S.faults source.new)) }
    ensures end { IfOk result (λ text. length text.items ≤ TEXT → IsAtEnd (S.left source.new)) }
    ensures job { IfOk result (λ text. (has : Kernel → Bool) →
        IfSome (S.left source.old) (λ whole. job_of has whole ≡ job_of has text.items)) }
    ensures counts { Counts (S.faults source.old) (S.faults source.new) (result ≡ Err Fault) }
    ensures rises_by_one { S.faults source.new
        ≡ counted (S.faults source.old) (is_source_fault result) }
{
    read_pieces(alloc, source)
}

/// The same, but for what the text says.
fn read_pieces<S: Source>(alloc: Global, source: &mut S) -> Result<Vec<u8>, Unread>
    ensures bound { IfOk result (λ text. length text.items ≤ TEXT + 1) }
    ensures taken { IfOk result
        (λ text. Consumes (S.left source.old) (S.left source.new) text.items) }
    ensures end { IfOk result (λ text. length text.items ≤ TEXT → IsAtEnd (S.left source.new)) }
    ensures counts { Counts (S.faults source.old) (S.faults source.new) (result ≡ Err Fault) }
    ensures rises_by_one { S.faults source.new
        ≡ counted (S.faults source.old) (is_source_fault result) }
{
    let mut text = Vec::new(alloc);
    let mut piece = zeroed(alloc, PIECE)?;
    for _turn in 0..TEXT + 1 {
        let room = PIECE.min(TEXT + 1 - text.len());
        if take_piece(source, &mut piece[..room], &mut text)? == 0 {
            break;
        }
    }
    Ok(text)
}
