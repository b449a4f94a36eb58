//! The lines of a text and the words of a line.

ghost use Rattle.std.specs.Prelude.{◌≡◌, ◌==◌, ◌≤◌, ◌∷◌, ◌++◌, [], length, replicate, not, position, MatchOption, IfSome};
ghost use Rattle.sj_job.specs.Word.{lines, words, is_blank, is_allowed, is_empty, is_skipped, begins_with, CutsOff};
ghost use Rattle.std.specs.List.{list_all, position_or_len};
ghost use Rattle.sj_job.specs.Sentence.{is_header};

use memchr::memchr;
use std::marker::Model;

/// The first line of a text and what follows it, or `None` where there is no line. Linear in the line.
pub fn next_line(text: &[u8]) -> Option<(&[u8], &[u8])>
    ensures { MatchOption result (text.now ≡ [])
        (λ cut. CutsOff lines text.now cut.0.now cut.1.now) }
{
    if text.is_empty() {
        return None;
    }
    let end = first_place(text, b'\n');
    if end == text.len() {
        return Some((text, &[]));
    }
    Some((&text[..end], &text[end + 1..]))
}

/// The place of the first such byte, or the length where there is none. Linear up to it.
pub fn first_place(text: &[u8], byte: u8) -> usize
    ensures place { result ≡ position_or_len (λ b. b == byte) text.now }
    ensures bound { result ≤ length text.now }
{
    memchr(byte, text).unwrap_or(text.len())
}

/// Whether a byte divides words. Constant time.
pub fn is_blank(byte: u8) -> bool
    ensures { result ≡ is_blank byte }
{
    byte == b' ' || byte == b'\t' || byte == b'\r'
}

/// Eight spaces as a number.
const SPACES: u64 = 0x2020_2020_2020_2020;

/// A line without the blanks at its end. Linear in them.
pub fn trimmed(line: &[u8]) -> &[u8]
    ensures words { words result.now ≡ words line.now }
    ensures allowed { list_all is_allowed result.now ≡ list_all is_allowed line.now }
{
    let mut rest = without_eights(line);
    while let Some((last, front)) = rest.split_last() {
        if !is_blank(*last) {
            return rest;
        }
        rest = front;
    }
    rest
}

/// What stands before the last eight bytes of a line, where these are spaces. Constant time.
fn before_eight(line: &[u8]) -> Option<&[u8]>
    ensures { IfSome result (λ front. line.now ≡ front.now ++ replicate 8 32) }
{
    let (front, last) = line.split_last_chunk::<8>()?;
    if u64::from_le_bytes(*last) == SPACES {
        Some(front)
    } else {
        None
    }
}

/// A line without the spaces at its end that stand in eights. Linear in them.
fn without_eights(line: &[u8]) -> &[u8]
    ensures words { words result.now ≡ words line.now }
    ensures allowed { list_all is_allowed result.now ≡ list_all is_allowed line.now }
{
    let mut rest = line;
    while let Some(front) = before_eight(rest) {
        rest = front;
    }
    rest
}

/// Whether every byte of a line is one that a line may have. Linear in it: all are looked at, so that several are at once.
pub fn are_allowed(line: &[u8]) -> bool
    ensures { result ≡ list_all is_allowed line.now }
{
    let mut allowed = true;
    for byte in line {
        allowed &= is_allowed(*byte);
    }
    allowed
}

/// A blank or a visible ASCII character; most are of the first test.
fn is_allowed(byte: u8) -> bool
    ensures { result ≡ is_allowed byte }
{
    (b' ' <= byte && byte < 127) || byte == b'\t' || byte == b'\r'
}

/// The place of the first byte that is no blank. Linear up to it.
fn first_of_word(line: &[u8]) -> Option<usize>
    ensures { result ≡ position (λ b. not (is_blank b)) line.now }
{
    line.iter().position(|b| !is_blank(*b))
}

/// The place of the first blank. Linear up to it.
fn first_blank(line: &[u8]) -> Option<usize>
    ensures { result ≡ position is_blank line.now }
{
    line.iter().position(|b| is_blank(*b))
}

/// The first word of a line and what follows it, or `None` where there is no word. Linear in what it passes.
fn next_word(line: &[u8]) -> Option<(&[u8], &[u8])>
    ensures { MatchOption result (words line.now ≡ [])
        (λ cut. CutsOff words line.now cut.0.now cut.1.now) }
{
    let start = first_of_word(line)?;
    let rest = &line[start..];
    let end = first_blank(rest).unwrap_or(rest.len());
    Some((&rest[..end], &rest[end..]))
}

/// The words of a line, or those behind some of them, in order. Contracts see the list of them.
#[derive(Drop)]
pub struct Words<'a> {
    line: &'a [u8],
}

impl<'a> Model for Words<'a> {
    ghost use Rattle.std.specs.Prelude.{List, ℕ};
    ghost use Rattle.sj_job.specs.Word.{words};

    ghost Value = { List (List ℕ) };

    ghost view = { λ w. words w.line.now };
}

impl<'a> Words<'a> {
    /// The words of a line. Constant time.
    pub fn of(line: &'a [u8]) -> Words<'a>
        ensures { result ≡ words line.now }
    {
        Words { line }
    }

    /// The same words once more. Constant time.
    pub fn again(&self) -> Words<'a>
        ensures { result ≡ self.now }
    {
        Words { line: self.line }
    }

    /// The first word and those behind it, or `None` where there is no word. Linear in what it passes.
    pub fn split_first(&self) -> Option<(&'a [u8], Words<'a>)>
        ensures { MatchOption result (self.now ≡ []) (λ cut. self.now ≡ cut.0.now ∷ cut.1) }
    {
        match next_word(self.line) {
            Some((word, line)) => Some((word, Words { line })),
            None => None,
        }
    }

    /// Room for all of them in a list: two bytes of the line, a blank and another, give at most one. Constant time.
    pub fn room(&self) -> usize
        ensures { length self.now ≤ result }
    {
        self.line.len() / 2 + 1
    }
}

/// Whether a line of these words says nothing: it has none, or it is a comment. Linear up to the end of the first.
pub fn is_skipped(words: &Words<'_>) -> bool
    ensures { result ≡ is_skipped words.now }
{
    match words.split_first() {
        Some((word, _)) => word.first() == Some(&b'#'),
        None => true,
    }
}

/// Whether these words are the header. Linear in the first three.
pub fn is_header(words: &Words<'_>) -> bool
    ensures { result ≡ is_header words.now }
{
    let Some((first, rest)) = words.split_first() else {
        return false;
    };
    let Some((second, rest)) = rest.split_first() else {
        return false;
    };
    match rest.split_first() {
        Some(_) => false,
        None => first == b"starjob".as_slice() && second == b"1".as_slice(),
    }
}
