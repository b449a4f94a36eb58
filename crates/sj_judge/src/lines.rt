//! The lines of a text.

ghost use Rattle.std.specs.Prelude.{◌≡◌, [], slice_index_or};
ghost use Rattle.sj_job.specs.Word.{lines};

use sj_job::line::next_line;

/// The line of a text with a number, from 0; nothing where there are fewer. Linear in the text up to its end.
pub fn line(text: &[u8], number: u64) -> &[u8]
    ensures { result.now ≡ slice_index_or (lines text.now) number [] }
{
    let mut rest = text;
    let mut before = number;
    while let Some((line, tail)) = next_line(rest) {
        if before == 0 {
            return line;
        }
        before -= 1;
        rest = tail;
    }
    &[]
}
