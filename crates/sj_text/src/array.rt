//! The line of a registration.

ghost use Rattle.std.specs.Prelude.{◌≡◌, ◌++◌, ℕ, List, OnOk};
ghost use Rattle.std.specs.List.{join_with_byte};
ghost use Rattle.sj_meaning.specs.Act.{Register};
ghost use Rattle.sj_job.specs.Grammar.{init_words, parts_words, sized};
ghost use Rattle.sj_meaning.specs.View.{registration};
ghost use Rattle.sj_show.specs.Words.{spaced};
ghost use Rattle.sj_text.specs.Forms.{Plans, init_form, is_whole, pair_under, size_form};
ghost use Rattle.sj_text.specs.Text.{act_line};

use sj_base::memory::OutOfMemory;
use sj_base::tile::Dims;
use sj_meaning::job::{Init, Kind, RootInfo};
use sj_plan::parts::Parts;
use sj_show::words::{write_integer, write_integers, write_numbered};

/// Whether a plan has one part alone, which is the whole array. Constant time.
pub fn is_whole(parts: Parts) -> bool
    ensures { result ≡ is_whole parts }
{
    parts.r == 1 && parts.c == 1
}

/// Appends `vector NAME N` or `matrix NAME R C`, the first words of a line.
fn write_size(text: &mut Vec<u8>, name: &[u8], kind: Kind, dims: Dims) -> Result<(), OutOfMemory>
    ensures { OnOk result ((more : List (List ℕ)) → text.new.items ++ spaced more
        ≡ text.old.items ++ join_with_byte 32 (sized name.now (size_form kind dims) more)) }
{
    match kind {
        Kind::Vector => {
            text.extend_from_slice(b"vector ")?;
            text.extend_from_slice(name)?;
            write_numbered(text, b" ", dims.cols as u64)?;
            Ok(())
        }
        Kind::Matrix => {
            text.extend_from_slice(b"matrix ")?;
            text.extend_from_slice(name)?;
            write_numbered(text, b" ", dims.rows as u64)?;
            write_numbered(text, b" ", dims.cols as u64)?;
            Ok(())
        }
    }
}

/// Appends ` by r c`, where the plan has more than one part.
fn write_parts(text: &mut Vec<u8>, parts: Parts) -> Result<(), OutOfMemory>
    ensures { OnOk result (text.new.items
        ≡ text.old.items ++ spaced (parts_words (pair_under parts (parts.r, parts.c)))) }
{
    if is_whole(parts) {
        return Ok(());
    }
    write_numbered(text, b" by ", parts.r as u64)?;
    write_numbered(text, b" ", parts.c as u64)
}

/// Appends ` values V1 V2 ..`, ` fill A B` or ` none`. Linear in it.
fn write_init(text: &mut Vec<u8>, init: &Init) -> Result<(), OutOfMemory>
    ensures { OnOk result (text.new.items
        ≡ text.old.items ++ spaced (init_words (init_form init.now))) }
{
    match init {
        Init::Values(values) => {
            text.extend_from_slice(b" values")?;
            write_integers(text, b' ', values.items())?;
            Ok(())
        }
        Init::Fill(a, b) => {
            text.extend_from_slice(b" fill ")?;
            write_integer(text, *a)?;
            text.push(b' ')?;
            write_integer(text, *b)
        }
        Init::Nothing => {
            text.extend_from_slice(b" none")?;
            Ok(())
        }
    }
}

/// Appends the line of a registration. Linear in it.
pub fn write_array(
    text: &mut Vec<u8>,
    name: &[u8],
    info: RootInfo,
    init: &Init,
) -> Result<(), OutOfMemory>
    ensures { OnOk result ((plans : Plans) → text.new.items ≡ text.old.items
        ++ act_line plans (Register (registration name.now info init.now))) }
{
    write_size(text, name, info.kind, info.dims)?;
    write_parts(text, info.parts)?;
    write_init(text, init)?;
    text.push(b'\n')?;
    Ok(())
}
