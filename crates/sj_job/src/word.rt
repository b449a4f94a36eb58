//! Words that are names or numbers.

ghost use Rattle.std.specs.Prelude.{◌≡◌, ◌<◌, ◌^◌, nat_le, IsTrue, IsSomeAnd, if◌then◌else◌};
ghost use Rattle.std.specs.Option.{SomeIff};
ghost use Rattle.std.specs.List.{list_all};
ghost use Rattle.std.specs.Char.{is_ascii_digit};
ghost use Rattle.std.specs.Str.Parse.{digits_value};
ghost use Rattle.sj_job.specs.Word.{is_letter, is_letter_or_digit, is_name, is_digits, count_of, negative, negative_of, integer_of};

use std::str;

fn is_letter(byte: u8) -> bool
    ensures { result ≡ is_letter byte }
{
    byte.is_ascii_alphabetic() || byte == b'_'
}

fn is_letter_or_digit(byte: u8) -> bool
    ensures { result ≡ is_letter_or_digit byte }
{
    is_letter(byte) || byte.is_ascii_digit()
}

fn are_letters_or_digits(bytes: &[u8]) -> bool
    ensures { result ≡ list_all is_letter_or_digit bytes.now }
{
    bytes.iter().all(|b| is_letter_or_digit(*b))
}

/// Whether a word is a name. Linear in it.
pub fn is_name(word: &[u8]) -> bool
    ensures { result ≡ is_name word.now }
{
    match word.split_first() {
        Some((first, rest)) => {
            is_letter(*first) && are_letters_or_digits(rest) && rest.len() <= 30
        }
        None => false,
    }
}

fn are_digits(bytes: &[u8]) -> bool
    ensures { result ≡ list_all is_ascii_digit bytes.now }
{
    bytes.iter().all(|b| b.is_ascii_digit())
}

fn is_digits(word: &[u8]) -> bool
    ensures { result ≡ is_digits word.now }
{
    !word.is_empty() && are_digits(word)
}

/// The number that digits write, where it is below 2^64.
fn value_of(digits: &[u8]) -> Option<u64>
    requires { IsTrue (is_digits digits.now) }
    ensures { SomeIff result (digits_value 10 digits.now < 2 ^ 64) (digits_value 10 digits.now) }
{
    let text = text_of(digits)?;
    text.parse::<u64>().ok()
}

/// Digits as text.
fn text_of(digits: &[u8]) -> Option<&str>
    requires { IsTrue (is_digits digits.now) }
    ensures { IsSomeAnd result (λ text. text.now ≡ digits.now) }
{
    str::from_utf8(digits).ok()
}

/// The count that a word says: digits with a value below 2^63. Linear in it.
pub fn count_of(word: &[u8]) -> Option<u64>
    ensures { result ≡ count_of word.now }
{
    if !is_digits(word) {
        return None;
    }
    match value_of(word) {
        Some(value) if value < 1 << 63 => Some(value),
        _ => None,
    }
}

/// The number that a word with a `-` before its digits says, where it is in i64.
fn negative_of(word: &[u8]) -> Option<i64>
    ensures { result ≡ negative_of word.now }
{
    let (first, digits) = word.split_first()?;
    if *first != b'-' || !is_digits(digits) {
        return None;
    }
    match value_of(digits) {
        Some(value) => negated(value),
        None => None,
    }
}

/// Minus a number, where it is in i64.
fn negated(value: u64) -> Option<i64>
    ensures { result ≡ (if nat_le value (2 ^ 63) then Some (negative value) else None) }
{
    if value == 1 << 63 {
        Some(i64::MIN)
    } else if value < 1 << 63 {
        Some(-(value as i64))
    } else {
        None
    }
}

/// The integer that a word says: `inf`, or digits with at most a `-` before them, with a value in i64. Linear in it.
pub fn integer_of(word: &[u8]) -> Option<i64>
    ensures { result ≡ integer_of word.now }
{
    if word == b"inf".as_slice() {
        return Some(i64::MAX);
    }
    match count_of(word) {
        Some(value) => Some(value as i64),
        None => negative_of(word),
    }
}
