//! Blocks written to one disk and read from it, in pieces of a buffer on the stack.

ghost use Rattle.std.specs.Prelude.{◌≡◌, ◌+◌, ◌*◌, ◌^◌, ◌<◌, ◌≤◌, ◌++◌, All, FitsSigned, IsSome, OnOk, false, is_err, length};
ghost use Rattle.std.specs.Int.{w64};
ghost use Rattle.sj_edge.specs.Held.{Fills, GivesHeld};
ghost use Rattle.sj_disk.specs.Block.{block_bytes, element_bytes, header_bytes};
ghost use Rattle.sj_disk.specs.Refusals.{is_damage, is_fault, RefusesFor};
ghost use Rattle.sj_disk.specs.Transfers.{Looks, Writes};

use crate::elements::{decode, encode};
use crate::header::{HEADER_BYTES, Header};
use crate::refusal::DiskRefusal;
use sj_base::ids::DiskNo;
use sj_edge::disk::{CheckFault, Disk};
use sj_edge::source::Failed;

/// The bytes of the smallest buffer. A block whose elements have no more has it, since a buffer is cleared before it is used.
const SMALL: usize = 256;

/// Those of the next one.
const MIDDLE: usize = 8_192;

/// Those of a large buffer, through which so much goes at a time that a disk is called seldom.
const LARGE: usize = 32_768;

fn write_piece<D: Disk>(
    disk: &mut D,
    at: u64,
    elements: &[i64],
    buffer: &mut [u8],
) -> Result<(), Failed>
    requires fits_the_buffer { 8 * length elements.now ≤ length buffer.old }
    requires in_range { at + 8 * length elements.now ≤ D.size disk.old }
    ensures { Writes D.size D.faults D.mismatches D.held at (element_bytes elements.now) result
        disk.old disk.new }
{
    let bytes = &mut buffer[..8 * elements.len()];
    encode(elements, bytes);
    disk.write(at, bytes)
}

/// Writes elements from `at` on, so many at a time through the buffer.
fn write_pieces<D: Disk>(
    disk: &mut D,
    at: u64,
    elements: &[i64],
    piece: usize,
    buffer: &mut [u8],
) -> Result<(), Failed>
    requires filled { Fills (D.held disk.old) (D.size disk.old) }
    requires in_range { at + 8 * length elements.now ≤ D.size disk.old }
    requires fits { at + 8 * length elements.now < 2 ^ 64 }
    requires some { 0 < piece }
    requires fits_the_buffer { 8 * piece ≤ length buffer.old }
    ensures { Writes D.size D.faults D.mismatches D.held at (element_bytes elements.now) result
        disk.old disk.new }
{
    let mut start = 0;
    while start < elements.len() {
        let stop = elements.len().min(start + piece);
        write_piece(disk, at + 8 * start as u64, &elements[start..stop], buffer)?;
        start = stop;
    }
    Ok(())
}

/// Writes elements from `at` on, through a buffer of so many bytes.
fn write_through<const BYTES: usize, D: Disk>(
    disk: &mut D,
    at: u64,
    elements: &[i64],
) -> Result<(), Failed>
    requires filled { Fills (D.held disk.old) (D.size disk.old) }
    requires in_range { at + 8 * length elements.now ≤ D.size disk.old }
    requires fits { at + 8 * length elements.now < 2 ^ 64 }
    requires some { 8 ≤ BYTES }
    requires few { BYTES < 2 ^ 63 }
    ensures { Writes D.size D.faults D.mismatches D.held at (element_bytes elements.now) result
        disk.old disk.new }
{
    let mut buffer = [0u8; BYTES];
    write_pieces(disk, at, elements, BYTES / 8, &mut buffer)
}

/// Writes elements from `at` on.
fn write_elements<D: Disk>(disk: &mut D, at: u64, elements: &[i64]) -> Result<(), Failed>
    requires filled { Fills (D.held disk.old) (D.size disk.old) }
    requires in_range { at + 8 * length elements.now ≤ D.size disk.old }
    requires fits { at + 8 * length elements.now < 2 ^ 64 }
    ensures { Writes D.size D.faults D.mismatches D.held at (element_bytes elements.now) result
        disk.old disk.new }
{
    if elements.len() > MIDDLE / 8 {
        write_through::<LARGE, D>(disk, at, elements)
    } else if elements.len() > SMALL / 8 {
        write_through::<MIDDLE, D>(disk, at, elements)
    } else {
        write_through::<SMALL, D>(disk, at, elements)
    }
}

fn write_header<D: Disk>(disk: &mut D, at: u64, header: Header) -> Result<(), Failed>
    requires { at + 24 ≤ D.size disk.old }
    ensures { Writes D.size D.faults D.mismatches D.held at (header_bytes header) result
        disk.old disk.new }
{
    disk.write(at, &header.to_bytes())
}

/// Writes a header and the elements after it. Linear in the elements.
pub fn write_block<D: Disk>(
    disk: &mut D,
    at: u64,
    header: Header,
    elements: &[i64],
) -> Result<(), Failed>
    requires filled { Fills (D.held disk.old) (D.size disk.old) }
    requires in_range { at + block_bytes (length elements.now) ≤ D.size disk.old }
    requires fits { at + block_bytes (length elements.now) < 2 ^ 64 }
    ensures { Writes D.size D.faults D.mismatches D.held at
        (header_bytes header ++ element_bytes elements.now) result disk.old disk.new }
{
    write_header(disk, at, header)?;
    write_elements(disk, at + HEADER_BYTES as u64, elements)
}

fn read_piece<D: Disk>(
    disk: &mut D,
    at: u64,
    elements: &mut [i64],
    buffer: &mut [u8],
) -> Result<(), Failed>
    requires fits_the_buffer { 8 * length elements.old ≤ length buffer.old }
    requires in_range { at + 8 * length elements.old ≤ D.size disk.old }
    ensures looks { Looks D.size D.faults D.mismatches D.held (is_err result) false
        disk.old disk.new }
    ensures gives { OnOk result (GivesHeld (D.held disk.old) at (element_bytes elements.new)) }
    ensures in_range { OnOk result (All (FitsSigned w64) elements.new) }
{
    let bytes = &mut buffer[..8 * elements.len()];
    disk.read(at, bytes)?;
    decode(bytes, elements);
    Ok(())
}

/// Reads the elements from `at` on, so many at a time through the buffer.
fn read_pieces<D: Disk>(
    disk: &mut D,
    at: u64,
    elements: &mut [i64],
    piece: usize,
    buffer: &mut [u8],
) -> Result<(), Failed>
    requires in_range { at + 8 * length elements.old ≤ D.size disk.old }
    requires fits { at + 8 * length elements.old < 2 ^ 64 }
    requires some { 0 < piece }
    requires fits_the_buffer { 8 * piece ≤ length buffer.old }
    ensures looks { Looks D.size D.faults D.mismatches D.held (is_err result) false
        disk.old disk.new }
    ensures gives { OnOk result (GivesHeld (D.held disk.old) at (element_bytes elements.new)) }
    ensures in_range { OnOk result (All (FitsSigned w64) elements.new) }
{
    let mut start = 0;
    while start < elements.len() {
        let stop = elements.len().min(start + piece);
        read_piece(
            disk,
            at + 8 * start as u64,
            &mut elements[start..stop],
            buffer,
        )?;
        start = stop;
    }
    Ok(())
}

/// Reads the elements from `at` on, through a buffer of so many bytes.
fn read_through<const BYTES: usize, D: Disk>(
    disk: &mut D,
    at: u64,
    elements: &mut [i64],
) -> Result<(), Failed>
    requires in_range { at + 8 * length elements.old ≤ D.size disk.old }
    requires fits { at + 8 * length elements.old < 2 ^ 64 }
    requires some { 8 ≤ BYTES }
    requires few { BYTES < 2 ^ 63 }
    ensures looks { Looks D.size D.faults D.mismatches D.held (is_err result) false
        disk.old disk.new }
    ensures gives { OnOk result (GivesHeld (D.held disk.old) at (element_bytes elements.new)) }
    ensures in_range { OnOk result (All (FitsSigned w64) elements.new) }
{
    let mut buffer = [0u8; BYTES];
    read_pieces(disk, at, elements, BYTES / 8, &mut buffer)
}

/// Reads the elements from `at` on.
fn read_elements<D: Disk>(disk: &mut D, at: u64, elements: &mut [i64]) -> Result<(), Failed>
    requires in_range { at + 8 * length elements.old ≤ D.size disk.old }
    requires fits { at + 8 * length elements.old < 2 ^ 64 }
    ensures looks { Looks D.size D.faults D.mismatches D.held (is_err result) false
        disk.old disk.new }
    ensures gives { OnOk result (GivesHeld (D.held disk.old) at (element_bytes elements.new)) }
    ensures in_range { OnOk result (All (FitsSigned w64) elements.new) }
{
    if elements.len() > MIDDLE / 8 {
        read_through::<LARGE, D>(disk, at, elements)
    } else if elements.len() > SMALL / 8 {
        read_through::<MIDDLE, D>(disk, at, elements)
    } else {
        read_through::<SMALL, D>(disk, at, elements)
    }
}

/// Asks the disk whether this header stands at `at`.
fn check_header<D: Disk>(
    disk: &mut D,
    number: DiskNo,
    at: u64,
    want: Header,
) -> Result<(), DiskRefusal>
    requires in_range { at + 24 ≤ D.size disk.old }
    ensures looks { Looks D.size D.faults D.mismatches D.held (is_fault result) (is_damage result)
        disk.old disk.new }
    ensures gives { OnOk result (GivesHeld (D.held disk.old) at (header_bytes want)) }
    ensures refuses { RefusesFor number want result }
    ensures undamaged { IsSome (D.held disk.old) → GivesHeld (D.held disk.old) at
        (header_bytes want) → is_damage result ≡ false }
{
    match disk.check(at, &want.to_bytes()) {
        Ok(()) => Ok(()),
        Err(CheckFault::Failed) => Err(DiskRefusal::DiskFault { disk: number }),
        Err(CheckFault::Differs(found)) => Err(DiskRefusal::Damaged {
            disk: number,
            want,
            found: Header::of_bytes(&found),
        }),
    }
}

/// Checks a header and reads the elements after it. Linear in the elements.
pub fn read_block<D: Disk>(
    disk: &mut D,
    number: DiskNo,
    at: u64,
    want: Header,
    elements: &mut [i64],
) -> Result<(), DiskRefusal>
    requires in_range { at + block_bytes (length elements.old) ≤ D.size disk.old }
    requires fits { at + block_bytes (length elements.old) < 2 ^ 64 }
    ensures looks { Looks D.size D.faults D.mismatches D.held (is_fault result) (is_damage result)
        disk.old disk.new }
    ensures gives { OnOk result (GivesHeld (D.held disk.old) at
        (header_bytes want ++ element_bytes elements.new)) }
    ensures in_range { OnOk result (All (FitsSigned w64) elements.new) }
    ensures refuses { RefusesFor number want result }
    ensures undamaged { IsSome (D.held disk.old) → GivesHeld (D.held disk.old) at
        (header_bytes want) → is_damage result ≡ false }
{
    check_header(disk, number, at, want)?;
    match read_elements(disk, at + HEADER_BYTES as u64, elements) {
        Ok(()) => Ok(()),
        Err(Failed) => Err(DiskRefusal::DiskFault { disk: number }),
    }
}
