//! The summary of an array: one line for all its elements.

ghost use Rattle.std.specs.Prelude.{◌≡◌, ℤ, ◌++◌, ◌∷◌, [], ◌<◌, ◌-◌, ◌^◌, List, Option, Some, None, codes, decimal, length, IfOk, OnOk, option_map};
ghost use Rattle.std.specs.Fmt.{signed_decimal};
ghost use Rattle.sj_apps.specs.Summary.{AreTallied, bound_text, count_of_inf, tallied_line, maximum, minimum, numbers, summary_line, exact_sum};
ghost use Rattle.sj_codelet.specs.Ring.{wrap};

use itoa::Buffer;
use sj_base::memory::OutOfMemory;
use sj_base::tile::{Dims, Tile};
use std::alloc::Global;

/// What is known of the elements gone through. An element `inf` counts alone, and stays out of the rest.
#[derive(Clone, Copy)]
struct SummaryTally {
    infs: u64,
    /// With wrapping.
    sum: i64,
    /// `inf` where there is no number yet.
    lowest: i64,
    /// The least i64 where there is no number yet.
    highest: i64,
}

impl SummaryTally {
    /// Of no element.
    fn of_none() -> SummaryTally
        ensures { AreTallied [] result.infs result.sum result.lowest result.highest }
    {
        SummaryTally {
            infs: 0,
            sum: 0,
            lowest: i64::MAX,
            highest: i64::MIN,
        }
    }

    /// With one element more. Constant time.
    fn with(self, element: i64) -> SummaryTally
        requires { self.infs < 2 ^ 64 - 1 }
        ensures { (xs : List ℤ) → AreTallied xs self.infs self.sum self.lowest self.highest →
            AreTallied (xs ++ element ∷ []) result.infs result.sum result.lowest result.highest }
    {
        if element == i64::MAX {
            return SummaryTally {
                infs: self.infs + 1,
                ..self
            };
        }
        SummaryTally {
            infs: self.infs,
            sum: self.sum.wrapping_add(element),
            lowest: self.lowest.min(element),
            highest: self.highest.max(element),
        }
    }

    /// Of these elements. One pass; no memory.
    fn of(elements: &[i64]) -> SummaryTally
        ensures { AreTallied elements.now result.infs result.sum result.lowest result.highest }
    {
        let mut tally = SummaryTally::of_none();
        for element in elements {
            tally = tally.with(*element);
        }
        tally
    }

    /// The least number, where there is one. Constant time.
    fn least(self) -> Option<i64>
        ensures { (xs : List ℤ) → AreTallied xs self.infs self.sum self.lowest self.highest →
            result ≡ minimum (numbers xs) }
    {
        if self.lowest == i64::MAX {
            None
        } else {
            Some(self.lowest)
        }
    }

    /// The greatest number, where there is one. Constant time.
    fn greatest(self) -> Option<i64>
        ensures { (xs : List ℤ) → AreTallied xs self.infs self.sum self.lowest self.highest →
            result ≡ maximum (numbers xs) }
    {
        if self.lowest == i64::MAX {
            None
        } else {
            Some(self.highest)
        }
    }
}

/// Appends a label and a number in decimal.
fn write_count(text: &mut Vec<u8>, label: &[u8], number: u64) -> Result<(), OutOfMemory>
    ensures { OnOk result (text.new.items ≡ text.old.items ++ label.now ++ decimal number) }
{
    let mut buffer = Buffer::new();
    text.extend_from_slice(label)?;
    text.extend_from_slice(buffer.format(number).as_bytes())?;
    Ok(())
}

/// Appends a label and a number in decimal, or `-` for none.
fn write_bound(text: &mut Vec<u8>, label: &[u8], bound: Option<i64>) -> Result<(), OutOfMemory>
    ensures { OnOk result (text.new.items ≡ text.old.items ++ label.now ++ bound_text bound) }
{
    text.extend_from_slice(label)?;
    match bound {
        Some(number) => {
            let mut buffer = Buffer::new();
            text.extend_from_slice(buffer.format(number).as_bytes())?;
        }
        None => text.push(b'-')?,
    }
    Ok(())
}

/// Appends the line of these values.
fn write_line(
    text: &mut Vec<u8>,
    name: &[u8],
    dims: Dims,
    sum: i64,
    bounds: (Option<i64>, Option<i64>),
    infs: u64,
) -> Result<(), OutOfMemory>
    ensures { OnOk result (text.new.items
        ≡ text.old.items ++ tallied_line name.now dims sum bounds.0 bounds.1 infs) }
{
    text.extend_from_slice(name)?;
    write_count(text, b" ", dims.rows as u64)?;
    write_count(text, b" ", dims.cols as u64)?;
    write_bound(text, b": sum ", Some(sum))?;
    write_bound(text, b" min ", bounds.0)?;
    write_bound(text, b" max ", bounds.1)?;
    write_count(text, b" inf ", infs)?;
    text.push(b'\n')?;
    Ok(())
}

/// Appends an array's summary: `NAME R C: sum S min A max B inf K` and LF. K elements are `inf`; S is the sum of the others, with
/// wrapping, and 0 where there is none; A and B are the least and the greatest of them, or `-`. One pass over the elements; the
/// memory is that of the line.
pub fn write_summary(text: &mut Vec<u8>, name: &[u8], tile: &Tile) -> Result<(), OutOfMemory>
    ensures { OnOk result (text.new.items ≡ text.old.items ++ summary_line name.now tile.now) }
{
    let tally = SummaryTally::of(tile.elements());
    let bounds = (tally.least(), tally.greatest());
    write_line(text, name, tile.dims(), tally.sum, bounds, tally.infs)
}

/// An array's summary, as `write_summary` appends it. One pass over the elements.
pub fn summary(alloc: Global, name: &[u8], tile: &Tile) -> Result<Vec<u8>, OutOfMemory>
    ensures { IfOk result (λ line. line.items ≡ summary_line name.now tile.now) }
{
    let mut line = Vec::new(alloc);
    write_summary(&mut line, name, tile)?;
    Ok(line)
}
