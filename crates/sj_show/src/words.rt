//! Words written behind a text.

ghost use Rattle.std.specs.Prelude.{◌≡◌, ◌++◌, ◌∷◌, decimal, flat_map, map, OnOk};
ghost use Rattle.sj_job.specs.Form.{mode_word};
ghost use Rattle.sj_show.specs.Words.{codelet_name, inner_word, integer_word, kernel_word, word_with};
ghost use Rattle.sj_trace.specs.Text.{word};

use itoa::Buffer;
use sj_base::memory::OutOfMemory;
use sj_base::mode::Mode;
use sj_base::program::Codelet;
use sj_codelet::kernel::Kernel;

/// The word of a mode in a job. Constant time.
pub fn mode_word(mode: Mode) -> &'static [u8]
    ensures { result.now ≡ mode_word mode }
{
    match mode {
        Mode::R => b"R",
        Mode::W => b"W",
        Mode::RW => b"RW",
        Mode::Scratch => b"SCRATCH",
        Mode::Redux => b"REDUX",
        Mode::Commute => b"COMMUTE",
    }
}

/// The name of a codelet that no job calls.
fn inner_word(kernel: Kernel) -> &'static [u8]
    ensures { result.now ≡ inner_word kernel }
{
    match kernel {
        Kernel::Load => b"load",
        Kernel::LoadFill => b"loadfill",
        Kernel::Paste => b"paste",
        Kernel::Deliver => b"deliver",
        Kernel::InitPlus => b"init_plus",
        Kernel::InitLeast => b"init_least",
        _ => &[],
    }
}

/// The name of a codelet: that by which a job calls it, else one of its own. Constant time.
pub fn kernel_word(kernel: Kernel) -> &'static [u8]
    ensures { result.now ≡ kernel_word kernel }
{
    match kernel.name() {
        Some(name) => name,
        None => inner_word(kernel),
    }
}

/// Appends a word, and behind it a number in decimal. Linear in the word, amortised.
pub fn write_numbered(text: &mut Vec<u8>, front: &[u8], number: u64) -> Result<(), OutOfMemory>
    ensures { OnOk result (text.new.items ≡ text.old.items ++ word front.now number) }
{
    let mut buffer = Buffer::new();
    text.extend_from_slice(front)?;
    text.extend_from_slice(buffer.format(number).as_bytes())?;
    Ok(())
}

/// Appends an integer: decimal, or `inf`. Constant time, amortised.
pub fn write_integer(text: &mut Vec<u8>, value: i64) -> Result<(), OutOfMemory>
    ensures { OnOk result (text.new.items ≡ text.old.items ++ integer_word value) }
{
    if value == i64::MAX {
        text.extend_from_slice(b"inf")?;
        return Ok(());
    }
    let mut buffer = Buffer::new();
    text.extend_from_slice(buffer.format(value).as_bytes())?;
    Ok(())
}

/// Appends integers, each behind this byte. Linear in what it writes, amortised.
pub fn write_integers(text: &mut Vec<u8>, before: u8, values: &[i64]) -> Result<(), OutOfMemory>
    ensures { OnOk result (text.new.items
        ≡ text.old.items ++ flat_map (λ z. before ∷ integer_word z) values.now) }
{
    for value in values {
        text.push(before)?;
        write_integer(text, *value)?;
    }
    Ok(())
}

/// Appends a word with arguments: `WORD`, or `WORD(I1,I2,..)`. Linear in what it writes, amortised.
pub fn write_with_arguments(
    text: &mut Vec<u8>,
    name: &[u8],
    args: &[i64],
) -> Result<(), OutOfMemory>
    ensures { OnOk result (text.new.items ≡ text.old.items ++ word_with name.now args.now) }
{
    text.extend_from_slice(name)?;
    match args.split_first() {
        Some((first, more)) => {
            text.push(b'(')?;
            write_integer(text, *first)?;
            write_integers(text, b',', more)?;
            text.push(b')')?;
            Ok(())
        }
        None => Ok(()),
    }
}

/// Appends the word of a codelet with its arguments: its name, or the number of an id that no codelet has. Linear in what it
/// writes, amortised.
pub fn write_codelet(text: &mut Vec<u8>, id: Codelet, args: &[i64]) -> Result<(), OutOfMemory>
    ensures { OnOk result (text.new.items
        ≡ text.old.items ++ word_with (codelet_name id) args.now) }
{
    match Kernel::of(id) {
        Some(kernel) => write_with_arguments(text, kernel_word(kernel), args),
        None => {
            let mut buffer = Buffer::new();
            write_with_arguments(text, buffer.format(id.0).as_bytes(), args)
        }
    }
}
