//! The one further line that the program may write on standard error, before the status's own.

ghost use Rattle.std.specs.Prelude.{◌≡◌, None, IfOk, false};
ghost use Rattle.sj_top.specs.Device.{seen};
ghost use Rattle.sj_program.specs.Ending.{TakesRemark, has_remark};

use crate::word_at_fault::{Fault, FaultyWord, Value, word_at_fault};
use sj_edge::sink::Sink;
use sj_top::sink_text::write_text;
use sj_top::status::Status;
use sj_words::{SwapWish, swap_wish};
use std::alloc::{AllocError, Global};
use std::fmt;
use std::io::Error;

/// What stands behind the words of a cause that comes from the system.
const BEFORE_THE_NUMBER: &str = " (os error";

/// The most bytes that the words can ask for as the swap disk.
const GREATEST_SWAP: u64 = 1 << 40;

impl fmt::Display for Value {
    fn fmt<W: fmt::Write>(&self, f: &mut fmt::Formatter<W>) -> fmt::Result {
        match *self {
            Value::Number { least, greatest } => {
                write!(f, "is no number from {least} to {greatest}")
            }
            Value::Policy => f.write_str("is none of eager, prio and ws"),
            Value::Path => f.write_str("is no path: it is empty or begins with -"),
            Value::Problem => f.write_str("is none of product and paths"),
        }
    }
}

impl fmt::Display for Fault {
    fn fmt<W: fmt::Write>(&self, f: &mut fmt::Formatter<W>) -> fmt::Result {
        match *self {
            Fault::NoOption => f.write_str("is no option"),
            Fault::Twice => f.write_str("stands twice"),
            Fault::TakesNoValue => f.write_str("takes no value"),
            Fault::NoValue => f.write_str("wants a value behind it"),
            Fault::NotThis(value) => write!(f, "{value}"),
            Fault::WithoutNode => f.write_str("stands only with --node"),
            Fault::WithoutOthers => f.write_str("stands only with --app, --n, --tile and --seed"),
            Fault::AboveN => f.write_str("makes tiles larger than the matrix"),
            Fault::ManyTiles => f.write_str("makes more than 48 tiles in a column"),
        }
    }
}

/// A text on one line: what would end the line, or mean something to a terminal, is `?`.
fn on_one_line(alloc: Global, text: &str) -> Result<String, AllocError> {
    text.chars()
        .map(|c| if c.is_control() { '?' } else { c })
        .collect(alloc)
}

/// The words of an error, without the system's number of it.
fn cause(alloc: Global, error: &Error) -> Result<String, AllocError> {
    let text = format!(in alloc; "{error}")?;
    match text.split_once(BEFORE_THE_NUMBER) {
        Some((cause, _)) => String::from_str(alloc, cause),
        None => Ok(text),
    }
}

/// Why there is no swap disk at a path.
pub fn no_swap(alloc: Global, path: &str, error: &Error) -> Result<Option<String>, AllocError> {
    let path = on_one_line(alloc, path)?;
    let cause = cause(alloc, error)?;
    let line = format!(in alloc; "starjob: swap {path}: {cause}\n")?;
    Ok(Some(line))
}

/// Why a word isn't accepted. An empty word may stand for one that isn't UTF-8.
fn unaccepted(
    alloc: Global,
    number: usize,
    word: &str,
    fault: Fault,
) -> Result<String, AllocError> {
    if word.is_empty() {
        return String::from_str(alloc, "starjob: a word is empty, or isn't UTF-8\n");
    }
    let word = on_one_line(alloc, word)?;
    format!(in alloc; "starjob: word {number}, {word}, {fault}\n")
}

/// The first word that isn't accepted, where there is one.
fn of_words(alloc: Global, words: &[String]) -> Result<Option<String>, AllocError> {
    let Some(FaultyWord { number, fault }) = word_at_fault(words) else {
        return Ok(None);
    };
    let word = words.get(number.saturating_sub(1));
    let word = word.map_or("", |word| word.as_str());
    Ok(Some(unaccepted(alloc, number, word, fault)?))
}

/// Why a call of the swap disk failed: the system's cause, where it told one of a file that the words ask for.
fn of_disk(
    alloc: Global,
    words: &[String],
    cause: Option<&Error>,
) -> Result<Option<String>, AllocError> {
    let Some(error) = cause else {
        return Ok(None);
    };
    let Ok(
        SwapWish {
            path: Some(path),
            ..
        },
    ) = swap_wish(alloc, words)
    else {
        return Ok(None);
    };
    no_swap(alloc, path.as_str(), error)
}

/// What a person needs beside the line of this status: which word isn't accepted and why, the words that would do where the
/// swap disk is too small, and the system's cause where it failed. Of other statuses there is nothing to say.
pub fn remark(
    alloc: Global,
    words: &[String],
    status: Status,
    cause: Option<&Error>,
) -> Result<Option<String>, AllocError>
    ensures nothing { has_remark status ≡ false → IfOk result (λ line. line ≡ None) }
{
    match status {
        Status::Usage => of_words(alloc, words),
        Status::DiskFault { .. } => of_disk(alloc, words, cause),
        Status::SwapTooSmall { needed, .. } if needed <= GREATEST_SWAP => {
            let line = format!(in alloc; "starjob: --swap-size {needed} would do\n")?;
            Ok(Some(line))
        }
        _ => Ok(None),
    }
}

/// Writes a further line, where there is one and was memory for it. A failing `err` is ignored.
pub fn write_remark<E: Sink>(err: &mut E, line: Result<Option<String>, AllocError>)
    ensures takes { TakesRemark (IfOk line (λ line. line ≡ None))
        (seen E.taken E.faults err.old) (seen E.taken E.faults err.new) }
{
    if let Ok(Some(line)) = line {
        let _ = write_text(err, line.as_bytes());
    }
}
