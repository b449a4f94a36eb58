//! The text of the printed arrays, or a line of each.

ghost use Rattle.std.specs.Prelude.{◌≡◌, ◌++◌, ◌∷◌, ◌*◌, if◌then◌else◌, length, flat_map, map, codes, decimal, OnOk};
ghost use Rattle.std.specs.List.{join_with_byte};
ghost use Rattle.sj_apps.specs.Summary.{summary_line};
ghost use Rattle.sj_base.specs.Array.{area, array};
ghost use Rattle.sj_top.specs.Output.{element_text, row_text, printed_rows, block_text};

use itoa::Buffer;
use sj_apps::summary::write_summary;
use sj_base::memory::OutOfMemory;
use sj_base::tile::{Dims, Tile};
use sj_meaning::job::Kind;

/// Appends an element: decimal, or `inf`.
fn write_element(text: &mut Vec<u8>, element: i64) -> Result<(), OutOfMemory>
    ensures { OnOk result (text.new.items ≡ text.old.items ++ element_text element) }
{
    if element == i64::MAX {
        text.extend_from_slice(b"inf")?;
        return Ok(());
    }
    let mut buffer = Buffer::new();
    text.extend_from_slice(buffer.format(element).as_bytes())?;
    Ok(())
}

/// Appends elements, each behind a space. Linear in the text.
fn write_more(text: &mut Vec<u8>, elements: &[i64]) -> Result<(), OutOfMemory>
    ensures { OnOk result (text.new.items
        ≡ text.old.items ++ flat_map (λ e. 32 ∷ element_text e) elements.now) }
{
    for element in elements {
        text.push(b' ')?;
        write_element(text, *element)?;
    }
    Ok(())
}

/// Appends elements separated by one space. Linear in the text.
fn write_elements(text: &mut Vec<u8>, elements: &[i64]) -> Result<(), OutOfMemory>
    ensures { OnOk result (text.new.items
        ≡ text.old.items ++ join_with_byte 32 (map element_text elements.now)) }
{
    match elements.split_first() {
        Some((first, more)) => {
            write_element(text, *first)?;
            write_more(text, more)?;
            Ok(())
        }
        None => Ok(()),
    }
}

/// Appends elements separated by one space, and LF. Linear in the text.
fn write_row(text: &mut Vec<u8>, elements: &[i64]) -> Result<(), OutOfMemory>
    ensures { OnOk result (text.new.items ≡ text.old.items ++ row_text elements.now) }
{
    write_elements(text, elements)?;
    text.push(b'\n')?;
    Ok(())
}

/// Appends the rows of a matrix, a line for each. Linear in the text.
fn write_rows(text: &mut Vec<u8>, dims: Dims, elements: &[i64]) -> Result<(), OutOfMemory>
    requires { length elements.now ≡ area dims }
    ensures { OnOk result (text.new.items
        ≡ text.old.items ++ flat_map row_text (printed_rows (array dims elements.now))) }
{
    let cols = dims.cols as usize;
    for i in 0..dims.rows as usize {
        write_row(text, &elements[i * cols..i * cols + cols])?;
    }
    Ok(())
}

/// Appends a number in decimal.
fn write_number(text: &mut Vec<u8>, number: u32) -> Result<(), OutOfMemory>
    ensures { OnOk result (text.new.items ≡ text.old.items ++ decimal number) }
{
    let mut buffer = Buffer::new();
    text.extend_from_slice(buffer.format(number).as_bytes())?;
    Ok(())
}

/// Appends ` R C:` and LF.
fn write_dims(text: &mut Vec<u8>, dims: Dims) -> Result<(), OutOfMemory>
    ensures { OnOk result (text.new.items ≡ text.old.items
        ++ codes " " ++ decimal dims.rows ++ codes " " ++ decimal dims.cols ++ codes ":\n") }
{
    text.push(b' ')?;
    write_number(text, dims.rows)?;
    text.push(b' ')?;
    write_number(text, dims.cols)?;
    text.extend_from_slice(b":\n")?;
    Ok(())
}

/// Appends the elements of an array: `NAME: ` and those of a vector, `NAME R C:` and the rows of a matrix. Linear in the text.
fn write_array(text: &mut Vec<u8>, name: &[u8], kind: Kind, tile: &Tile) -> Result<(), OutOfMemory>
    ensures { OnOk result (text.new.items ≡ text.old.items ++ block_text kind name.now tile.now) }
{
    text.extend_from_slice(name)?;
    match kind {
        Kind::Vector => {
            text.extend_from_slice(b": ")?;
            write_row(text, tile.elements())
        }
        Kind::Matrix => {
            write_dims(text, tile.dims())?;
            write_rows(text, tile.dims(), tile.elements())
        }
    }
}

/// Appends what is printed of an array: its elements, or one line of them all where a summary is asked for. Linear in the
/// elements and in the text.
pub fn write_printed(
    text: &mut Vec<u8>,
    name: &[u8],
    kind: Kind,
    tile: &Tile,
    summary: bool,
) -> Result<(), OutOfMemory>
    ensures { OnOk result (text.new.items ≡ text.old.items ++ (if summary
        then summary_line name.now tile.now else block_text kind name.now tile.now)) }
{
    if summary {
        write_summary(text, name, tile)
    } else {
        write_array(text, name, kind, tile)
    }
}
