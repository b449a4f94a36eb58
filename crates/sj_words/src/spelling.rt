//! How the words are spelled.

ghost use Rattle.std.specs.Prelude.{◌≡◌, ◌≤◌, Some, None, map, IfOk, option_map, length};
ghost use Rattle.std.specs.List.{list_any, position_or_len};
ghost use Rattle.std.specs.Str.{bytes_eq};
ghost use Rattle.sj_words.specs.Spelling.{is_flag, is_option, is_equals, around_equals, after_dash, named, is_value, told_alone, texts};
ghost use Rattle.sj_words.specs.Steps.{first_said, said_alone_or, said_names, said_with_next, are_distinct};

use memchr::memchr;
use std::alloc::{AllocError, Global};

fn is_flag(name: &[u8]) -> bool
    ensures { result ≡ is_flag name.now }
{
    name == b"trace".as_slice() || name == b"summary".as_slice()
}

fn is_option(name: &[u8]) -> bool
    ensures { result ≡ is_option name.now }
{
    name == b"workers".as_slice()
        || name == b"sched".as_slice()
        || name == b"node".as_slice()
        || name == b"nodes".as_slice()
        || name == b"swap".as_slice()
        || name == b"swap-size".as_slice()
        || name == b"app".as_slice()
        || name == b"n".as_slice()
        || name == b"tile".as_slice()
        || name == b"seed".as_slice()
}

// The place of the first `=`, or the length where there is none.
fn equals_place(text: &[u8]) -> usize
    ensures place { result ≡ position_or_len is_equals text.now }
    ensures bound { result ≤ length text.now }
{
    memchr(b'=', text).unwrap_or(text.len())
}

fn around_equals(text: &[u8]) -> (&[u8], Option<&[u8]>)
    ensures { (result.0.now, option_map (λ v. v.now) result.1) ≡ around_equals text.now }
{
    let at = equals_place(text);
    if at == text.len() {
        return (text, None);
    }
    (&text[..at], Some(&text[at + 1..]))
}

fn after_dash(text: &[u8]) -> Option<&[u8]>
    ensures { option_map (λ t. t.now) result ≡ after_dash text.now }
{
    match text.split_first() {
        Some((first, rest)) if *first == b'-' => Some(rest),
        _ => None,
    }
}

/// The name of `--name` or `--name=value`, and the value, where there is one. Linear in the word.
fn named(word: &[u8]) -> Option<(&[u8], Option<&[u8]>)>
    ensures { option_map (λ p. (p.0.now, option_map (λ v. v.now) p.1)) result ≡ named word.now }
{
    let text = after_dash(after_dash(word)?)?;
    Some(around_equals(text))
}

fn is_value(text: &[u8]) -> bool
    ensures { result ≡ is_value text.now }
{
    match text.split_first() {
        Some((first, _)) => *first != b'-',
        None => false,
    }
}

// The name of an option whose value is the next word, and the words behind that.
fn said_with_next<'a>(name: &'a [u8], words: &'a [String]) -> Option<(&'a [u8], &'a [String])>
    ensures { option_map (λ p. (p.0.now, texts p.1.now)) result
        ≡ said_with_next (Some (name.now, None)) (texts words.now) }
{
    match words.split_first() {
        Some((value, rest)) => {
            if is_option(name) && is_value(value.as_bytes()) {
                Some((name, rest))
            } else {
                None
            }
        }
        None => None,
    }
}

// The name of what a word says, alone or with the next, and the words behind it.
fn said_by<'a>(word: &'a [u8], rest: &'a [String]) -> Option<(&'a [u8], &'a [String])>
    ensures { option_map (λ p. (p.0.now, texts p.1.now)) result
        ≡ said_alone_or (told_alone (named word.now)) (texts rest.now)
        (said_with_next (named word.now) (texts rest.now)) }
{
    match named(word) {
        Some((name, Some(value))) => {
            if is_option(name) && is_value(value) {
                Some((name, rest))
            } else {
                None
            }
        }
        Some((name, None)) => {
            if is_flag(name) {
                Some((name, rest))
            } else {
                said_with_next(name, rest)
            }
        }
        None => None,
    }
}

/// The name of what the first words say, and the words behind it; none where they say nothing.
fn first_said<'a>(words: &'a [String]) -> Option<(&'a [u8], &'a [String])>
    ensures { option_map (λ p. (p.0.now, texts p.1.now)) result ≡ first_said (texts words.now) }
{
    match words.split_first() {
        Some((word, rest)) => said_by(word.as_bytes(), rest),
        None => None,
    }
}

/// The names of what the words say, or `None` where they aren't spelled right. Linear in the words.
pub fn said_names<'a>(
    alloc: Global,
    words: &'a [String],
) -> Result<Option<Vec<&'a [u8]>>, AllocError>
    ensures { IfOk result
        (λ r. option_map (λ names. map (λ n. n.now) names.items) r ≡ said_names (texts words.now)) }
{
    let mut names = Vec::new(alloc);
    let mut left = words;
    while !left.is_empty() {
        let Some((name, rest)) = first_said(left) else {
            return Ok(None);
        };
        names.push(name)?;
        left = rest;
    }
    Ok(Some(names))
}

fn stands_among(name: &[u8], names: &[&[u8]]) -> bool
    ensures { result ≡ list_any (λ m. bytes_eq name.now m.now) names.now }
{
    names.iter().any(|other| name == *other)
}

/// Whether no name stands twice. Quadratic in the number of different names, of which there are few.
pub fn are_distinct(names: &[&[u8]]) -> bool
    ensures { result ≡ are_distinct (map (λ n. n.now) names.now) }
{
    match names.split_first() {
        Some((name, rest)) => !stands_among(name, rest) && are_distinct(rest),
        None => true,
    }
}
