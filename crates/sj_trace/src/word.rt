//! The words of an event's line, read.

ghost use Rattle.std.specs.Prelude.{◌≡◌, ◌+◌, ◌*◌, ◌∷◌, ◌++◌, ◌<◌, ◌≤◌, ◌^◌, ◌⊎◌, [], MatchOption, codes, decimal};
ghost use Rattle.std.specs.Option.{SomeIff};
ghost use Rattle.sj_trace.specs.Reading.{IsParsed, PlaceFits, ended_word, ended_place};

use sj_base::ids::{Cell, DiskNo, Node, Place, Task, Worker};

/// The digit that a byte is.
fn digit(byte: u8) -> Option<u32>
    ensures { MatchOption result ((byte < 48) ⊎ (58 ≤ byte)) (λ d. (d < 10) × (byte ≡ 48 + d)) }
{
    if byte.is_ascii_digit() {
        Some((byte - b'0') as u32)
    } else {
        None
    }
}

/// The number with a digit more; `None` where none of 32 bits is written so.
fn longer(number: u32, digit: u32) -> Option<u32>
    requires { digit < 10 }
    ensures { SomeIff result ((0 < number) × (number * 10 + digit < 2 ^ 32)) (number * 10 + digit) }
{
    if number == 0 {
        return None;
    }
    number.checked_mul(10)?.checked_add(digit)
}

/// The number that a text begins with, where this byte ends it, and what stands behind that. Linear in its digits.
fn number(text: &[u8], end: u8) -> Option<(u32, &[u8])>
    requires { end < 48 }
    ensures { IsParsed (λ n. n < 2 ^ 32) (λ n. decimal n ++ end ∷ []) text.now result }
{
    let (first, mut rest) = text.split_first()?;
    let mut number = digit(*first)?;
    loop {
        let (byte, behind) = rest.split_first()?;
        if *byte == end {
            return Some((number, behind));
        }
        number = longer(number, digit(*byte)?)?;
        rest = behind;
    }
}

/// The same behind a letter.
fn number_behind(text: &[u8], letter: u8, end: u8) -> Option<(u32, &[u8])>
    requires { end < 48 }
    ensures { IsParsed (λ n. n < 2 ^ 32) (ended_word (letter ∷ []) end) text.now result }
{
    let (first, rest) = text.split_first()?;
    if *first == letter {
        number(rest, end)
    } else {
        None
    }
}

/// The same of a byte.
fn byte_behind(text: &[u8], letter: u8, end: u8) -> Option<(u8, &[u8])>
    requires { end < 48 }
    ensures { IsParsed (λ n. n < 2 ^ 8) (ended_word (letter ∷ []) end) text.now result }
{
    let (number, rest) = number_behind(text, letter, end)?;
    if number < 256 {
        Some((number as u8, rest))
    } else {
        None
    }
}

/// The task that the first word names, and what stands behind the space after it. Linear in the word.
pub fn task(text: &[u8]) -> Option<(Task, &[u8])>
    ensures { IsParsed (λ t. t.0 < 2 ^ 32) (λ t. ended_word (codes "t") 32 t.0) text.now result }
{
    let (number, rest) = number_behind(text, b't', b' ')?;
    Some((Task(number), rest))
}

/// The worker that the last word names, and what stands behind the line. Linear in the word.
pub fn worker(text: &[u8]) -> Option<(Worker, &[u8])>
    ensures { IsParsed (λ w. w.0 < 2 ^ 8) (λ w. ended_word (codes "w") 10 w.0) text.now result }
{
    let (number, rest) = byte_behind(text, b'w', b'\n')?;
    Some((Worker(number), rest))
}

/// The cell that the first word names, and what stands behind the space after it. Linear in the word.
pub fn cell(text: &[u8]) -> Option<(Cell, &[u8])>
    ensures { IsParsed (λ c. c.0 < 2 ^ 32) (λ c. ended_word (codes "c") 32 c.0) text.now result }
{
    let (number, rest) = number_behind(text, b'c', b' ')?;
    Some((Cell(number), rest))
}

/// The memory node that a word names, which this byte ends, and what stands behind that. Linear in the word.
pub fn node(text: &[u8], end: u8) -> Option<(Node, &[u8])>
    requires { end < 48 }
    ensures { IsParsed (λ n. n.0 < 2 ^ 8) (λ n. ended_word (codes "n") end n.0) text.now result }
{
    let (number, rest) = byte_behind(text, b'n', end)?;
    Some((Node(number), rest))
}

/// The same of a disk.
fn disk(text: &[u8], end: u8) -> Option<(DiskNo, &[u8])>
    requires { end < 48 }
    ensures { IsParsed (λ d. d.0 < 2 ^ 8) (λ d. ended_word (codes "d") end d.0) text.now result }
{
    let (number, rest) = byte_behind(text, b'd', end)?;
    Some((DiskNo(number), rest))
}

/// The place that a word names, which this byte ends, and what stands behind that. Linear in the word.
pub fn place(text: &[u8], end: u8) -> Option<(Place, &[u8])>
    requires { end < 48 }
    ensures { IsParsed PlaceFits (ended_place end) text.now result }
{
    match node(text, end) {
        Some((node, rest)) => Some((Place::Node(node), rest)),
        None => {
            let (disk, rest) = disk(text, end)?;
            Some((Place::Disk(disk), rest))
        }
    }
}
