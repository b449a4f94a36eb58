//! The first word of the command line that isn't accepted, and why: for a person to read, beside the usage line.

/// What the word behind an option's name has to be.
#[derive(Clone, Copy, Debug, PartialEq, Eq)]
pub enum Value {
    Number { least: u64, greatest: u64 },
    Policy,
    Path,
    Problem,
}

/// What has to stand behind a name.
#[derive(Clone, Copy, Debug, PartialEq, Eq)]
enum Behind {
    Nothing,
    Value(Value),
}

/// Why a word isn't accepted.
#[derive(Clone, Copy, Debug, PartialEq, Eq)]
pub enum Fault {
    /// It is no name of an option.
    NoOption,
    /// Its name stands before it already.
    Twice,
    /// Its flag has no value.
    TakesNoValue,
    /// Nothing follows, where a value has to.
    NoValue,
    /// It stands in the place of such a value, and is none.
    NotThis(Value),
    /// It stands only with `--node`.
    WithoutNode,
    /// It asks for a part of an application.
    WithoutOthers,
    /// Its tiles are larger than the matrix.
    AboveN,
    /// Its tiles are more than 48 in a column.
    ManyTiles,
}

/// A word by its number, from 1, and what is wrong with it.
#[derive(Clone, Copy, Debug, PartialEq, Eq)]
pub struct FaultyWord {
    pub number: usize,
    pub fault: Fault,
}

fn number(least: u64, greatest: u64) -> Option<Behind> {
    Some(Behind::Value(Value::Number { least, greatest }))
}

/// What has to stand behind a name, where it is one that the usage line has.
fn wanted_behind(name: &str) -> Option<Behind> {
    match name {
        "trace" | "summary" => Some(Behind::Nothing),
        "workers" => number(1, 64),
        "node" => number(8, 1 << 40),
        "nodes" => number(1, 16),
        "swap-size" => number(0, 1 << 40),
        "sched" => Some(Behind::Value(Value::Policy)),
        "swap" => Some(Behind::Value(Value::Path)),
        "app" => Some(Behind::Value(Value::Problem)),
        "n" | "tile" => number(1, 2048),
        "seed" => number(0, 999_999_999),
        _ => None,
    }
}

/// Whether a name asks for an application.
fn is_of_application(name: &str) -> bool {
    matches!(name, "app" | "n" | "tile" | "seed")
}

/// The name that a word says, and the value behind its first `=`.
fn named(word: &str) -> Option<(&str, Option<&str>)> {
    let said = word.strip_prefix("--")?;
    match said.split_once('=') {
        Some((name, value)) => Some((name, Some(value))),
        None => Some((said, None)),
    }
}

/// Whether this word says this name.
fn says(word: &str, name: &str) -> bool {
    named(word).is_some_and(|(said, _)| said == name)
}

fn is_number(text: &str, least: u64, greatest: u64) -> bool {
    let is_spelled = text.len() <= 19 && text.bytes().all(|b| b.is_ascii_digit());
    is_spelled
        && text
            .parse::<u64>()
            .is_ok_and(|n| least <= n && n <= greatest)
}

/// Whether a word is such a value.
fn is_value(text: &str, value: Value) -> bool {
    match value {
        Value::Number { least, greatest } => is_number(text, least, greatest),
        Value::Policy => text == "eager" || text == "prio" || text == "ws",
        Value::Path => !text.is_empty() && !text.starts_with('-'),
        Value::Problem => text == "product" || text == "paths",
    }
}

/// What the word behind this one has to be, where this is the name of an option or of the flag.
fn judge_name(before: &[String], word: &str) -> Result<Option<Value>, Fault> {
    let (name, value) = named(word).ok_or(Fault::NoOption)?;
    let wanted = wanted_behind(name).ok_or(Fault::NoOption)?;
    if before.iter().any(|earlier| says(earlier.as_str(), name)) {
        return Err(Fault::Twice);
    }
    match (wanted, value) {
        (Behind::Nothing, None) => Ok(None),
        (Behind::Nothing, Some(_)) => Err(Fault::TakesNoValue),
        (Behind::Value(kind), None) => Ok(Some(kind)),
        (Behind::Value(kind), Some(value)) => judge_value(value, kind),
    }
}

/// The same where this has to be such a value: behind it stands a name.
fn judge_value(word: &str, wanted: Value) -> Result<Option<Value>, Fault> {
    if is_value(word, wanted) {
        Ok(None)
    } else {
        Err(Fault::NotThis(wanted))
    }
}

/// Whether a word says this name.
fn is_said(words: &[String], name: &str) -> bool {
    words.iter().any(|word| says(word.as_str(), name))
}

/// The word `--nodes`, where no word says `--node`.
fn nodes_without_node(words: &[String]) -> Option<FaultyWord> {
    if words.iter().any(|word| says(word.as_str(), "node")) {
        return None;
    }
    let place = words.iter().position(|word| says(word.as_str(), "nodes"))?;
    Some(FaultyWord {
        number: place.saturating_add(1),
        fault: Fault::WithoutNode,
    })
}

/// The first name of an application's words, where not all four are said.
fn application_in_part(words: &[String]) -> Option<FaultyWord> {
    let is_whole = is_said(words, "app")
        && is_said(words, "n")
        && is_said(words, "tile")
        && is_said(words, "seed");
    if is_whole {
        return None;
    }
    let place = words.iter().position(|word| {
        named(word.as_str()).is_some_and(|(name, _)| is_of_application(name))
    })?;
    Some(FaultyWord {
        number: place.saturating_add(1),
        fault: Fault::WithoutOthers,
    })
}

/// The number that is said with a name.
fn number_said(words: &[String], name: &str) -> Option<u64> {
    let place = words.iter().position(|word| says(word.as_str(), name))?;
    let next = words.get(place.saturating_add(1));
    let next = next.map_or("", |word| word.as_str());
    let (_, value) = named(words.get(place)?.as_str())?;
    value.unwrap_or(next).parse::<u64>().ok()
}

/// The word `--tile`, where its tiles are too large or too many.
fn tile_at_fault(words: &[String]) -> Option<FaultyWord> {
    let n = number_said(words, "n")?;
    let tile = number_said(words, "tile")?;
    let place = words.iter().position(|word| says(word.as_str(), "tile"))?;
    let fault = if tile > n {
        Fault::AboveN
    } else if n > tile.saturating_mul(48) {
        Fault::ManyTiles
    } else {
        return None;
    };
    Some(FaultyWord {
        number: place.saturating_add(1),
        fault,
    })
}

/// The first word that stands beside the wrong ones.
fn ill_matched(words: &[String]) -> Option<FaultyWord> {
    if let Some(faulty) = nodes_without_node(words) {
        return Some(faulty);
    }
    if let Some(faulty) = application_in_part(words) {
        return Some(faulty);
    }
    tile_at_fault(words)
}

/// The first word that isn't accepted, where one is at fault by itself or stands beside the wrong ones. Linear in the words' text
/// for each of them.
pub fn word_at_fault(words: &[String]) -> Option<FaultyWord> {
    let mut awaited = None;
    for (place, word) in words.iter().enumerate() {
        let judged = match awaited {
            Some(value) => judge_value(word.as_str(), value),
            None => judge_name(&words[..place], word.as_str()),
        };
        match judged {
            Ok(next) => awaited = next,
            Err(fault) => {
                return Some(FaultyWord {
                    number: place.saturating_add(1),
                    fault,
                });
            }
        }
    }
    if awaited.is_some() {
        return Some(FaultyWord {
            number: words.len(),
            fault: Fault::NoValue,
        });
    }
    ill_matched(words)
}
