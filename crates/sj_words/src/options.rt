//! What the words ask for.

ghost use Rattle.std.specs.Prelude.{◌≡◌, ◌≤◌, ◌<◌, ℕ, List, Some, None, IfOk, IfErr, IfSome, MatchResult, option_map, ◌^◌, true};
ghost use Rattle.std.specs.Option.{SomeIff};
ghost use Rattle.std.specs.List.{list_all};
ghost use Rattle.std.specs.Char.{is_ascii_digit};
ghost use Rattle.std.specs.Str.Parse.{digits_value};
ghost use Rattle.clap.specs.Words.{found_of};
ghost use Rattle.sj_words.specs.Command.{HoldsGiven};
ghost use Rattle.sj_apps.specs.Application.{IsSized};
ghost use Rattle.sj_words.specs.Options.{OptionsAreInRange, application_asked, asked_for, is_number, number_in, options, policy_named, problem_in, if_given, sized_application, together};
ghost use Rattle.sj_words.specs.Spelling.{texts};

use crate::command::{
    APP, N, NODE, NODES, SCHED, SEED, SUMMARY, SWAP, SWAP_SIZE, TILE, TRACE, WORKERS, matches_of,
};
use crate::path::SwapPath;
use crate::spelling::{are_distinct, said_names};
use clap::ArgMatches;
use sj_apps::application::{Application, MOST_PARTS, Problem};
use sj_apps::product::part_count;
use sj_base::memory::OutOfMemory;
use sj_base::mode::Policy;
use std::alloc::{AllocError, Global};

/// What the words of the command line ask for. What isn't given is left to the job, or to the
/// defaults.
#[derive(Debug, Drop)]
pub struct Options {
    /// How many workers: 1 to 64.
    pub workers: Option<u8>,
    /// Which ready task a worker takes.
    pub policy: Option<Policy>,
    /// The bytes of each memory node: 8 to 2^40.
    pub node: Option<u64>,
    /// How many memory nodes: 1 to 16, and only with their bytes.
    pub nodes: Option<u8>,
    /// The path of the swap file.
    pub swap: Option<SwapPath>,
    /// The bytes of the swap disk: at most 2^40.
    pub swap_size: Option<u64>,
    /// Whether the trace is printed.
    pub trace: bool,
    /// Whether a line is printed of each array in place of its elements.
    pub summary: bool,
    /// The job that is generated, in place of one that is read.
    pub application: Option<Application>,
}

/// Why words weren't read.
#[derive(Clone, Copy, Debug, PartialEq, Eq)]
pub enum WordsRefusal {
    /// The words aren't accepted.
    Unaccepted,
    /// An allocation was refused.
    OutOfMemory,
}

impl From<AllocError> for WordsRefusal {
    ghost use Rattle.std.specs.Prelude.{◌≡◌};
    ghost use Rattle.sj_words.specs.declared.options.WordsRefusal.{WordsRefusal};

    ghost from_gives = { λ _ refusal. refusal ≡ WordsRefusal.OutOfMemory };

    fn from(_: AllocError) -> Self {
        WordsRefusal::OutOfMemory
    }
}

impl From<OutOfMemory> for WordsRefusal {
    ghost use Rattle.std.specs.Prelude.{◌≡◌};
    ghost use Rattle.sj_words.specs.declared.options.WordsRefusal.{WordsRefusal};

    ghost from_gives = { λ _ refusal. refusal ≡ WordsRefusal.OutOfMemory };

    fn from(_: OutOfMemory) -> Self {
        WordsRefusal::OutOfMemory
    }
}

// A value isn't of its option's kind.
#[derive(Drop)]
struct UnreadValue;

impl From<UnreadValue> for WordsRefusal {
    ghost use Rattle.std.specs.Prelude.{◌≡◌};
    ghost use Rattle.sj_words.specs.declared.options.WordsRefusal.{WordsRefusal};

    ghost from_gives = { λ _ refusal. refusal ≡ WordsRefusal.Unaccepted };

    fn from(_: UnreadValue) -> Self {
        WordsRefusal::Unaccepted
    }
}

fn are_digits(bytes: &[u8]) -> bool
    ensures { result ≡ list_all is_ascii_digit bytes.now }
{
    bytes.iter().all(|b| b.is_ascii_digit())
}

fn is_number(text: &str) -> bool
    ensures { result ≡ is_number text.now }
{
    let bytes = text.as_bytes();
    !bytes.is_empty() && bytes.len() <= 19 && are_digits(bytes)
}

// The number that digits write, where it is below 2^64.
fn value_of(digits: &str) -> Option<u64>
    requires { is_number digits.now ≡ true }
    ensures { SomeIff result (digits_value 10 digits.now < 2 ^ 64) (digits_value 10 digits.now) }
{
    digits.parse::<u64>().ok()
}

// The number that a text says, where it lies in the range.
fn number_in(text: &str, least: u64, greatest: u64) -> Option<u64>
    ensures { result ≡ number_in least greatest text.now }
{
    if !is_number(text) {
        return None;
    }
    match value_of(text) {
        Some(number) if least <= number && number <= greatest => Some(number),
        _ => None,
    }
}

fn policy_in(text: &str) -> Option<Policy>
    ensures { result ≡ policy_named text.now }
{
    match text {
        "eager" => Some(Policy::Eager),
        "prio" => Some(Policy::Prio),
        "ws" => Some(Policy::Ws),
        _ => None,
    }
}

// The number of an option, where it is given.
fn number(text: Option<&str>, least: u64, greatest: u64) -> Result<Option<u64>, UnreadValue>
    ensures value { MatchResult result
        (λ n. if_given (number_in least greatest) (option_map (λ t. t.now) text.entry) ≡ Some n)
        (λ _. if_given (number_in least greatest) (option_map (λ t. t.now) text.entry) ≡ None) }
    ensures range { IfOk result (λ n. IfSome n (λ n. (least ≤ n) × (n ≤ greatest))) }
{
    match text {
        Some(text) => match number_in(text, least, greatest) {
            Some(number) => Ok(Some(number)),
            None => Err(UnreadValue),
        },
        None => Ok(None),
    }
}

// The policy, where it is given.
fn policy(text: Option<&str>) -> Result<Option<Policy>, UnreadValue>
    ensures { MatchResult result
        (λ p. if_given policy_named (option_map (λ t. t.now) text.entry) ≡ Some p)
        (λ _. if_given policy_named (option_map (λ t. t.now) text.entry) ≡ None) }
{
    match text {
        Some(text) => match policy_in(text) {
            Some(policy) => Ok(Some(policy)),
            None => Err(UnreadValue),
        },
        None => Ok(None),
    }
}

fn problem_in(text: &str) -> Option<Problem>
    ensures { result ≡ problem_in text.now }
{
    match text {
        "product" => Some(Problem::Product),
        "paths" => Some(Problem::Paths),
        _ => None,
    }
}

// The problem, where it is given.
fn problem(text: Option<&str>) -> Result<Option<Problem>, UnreadValue>
    ensures { MatchResult result
        (λ p. if_given problem_in (option_map (λ t. t.now) text.entry) ≡ Some p)
        (λ _. if_given problem_in (option_map (λ t. t.now) text.entry) ≡ None) }
{
    match text {
        Some(text) => match problem_in(text) {
            Some(problem) => Ok(Some(problem)),
            None => Err(UnreadValue),
        },
        None => Ok(None),
    }
}

// A problem of this size, where no tile is larger than the matrix, and few tiles make a column.
fn sized_application(problem: Problem, n: u64, tile: u64, seed: u64) -> Option<Application>
    requires n { (1 ≤ n) × (n ≤ 2048) }
    requires tile { (1 ≤ tile) × (tile ≤ 2048) }
    requires seed { seed ≤ 999999999 }
    ensures is { result ≡ sized_application problem n tile seed }
    ensures sized { IfSome result IsSized }
{
    let n = n as u32;
    let tile = tile as u32;
    if tile <= n && part_count(n, tile) <= MOST_PARTS {
        Some(Application {
            problem,
            n,
            tile,
            seed,
        })
    } else {
        None
    }
}

// The application, where a problem and its numbers stand together.
fn together(
    problem: Option<Problem>,
    n: Option<u64>,
    tile: Option<u64>,
    seed: Option<u64>,
) -> Result<Option<Application>, UnreadValue>
    requires n { IfSome n (λ n. (1 ≤ n) × (n ≤ 2048)) }
    requires tile { IfSome tile (λ n. (1 ≤ n) × (n ≤ 2048)) }
    requires seed { IfSome seed (λ n. (0 ≤ n) × (n ≤ 999999999)) }
    ensures value { MatchResult result
        (λ a. together problem n tile seed ≡ Some a)
        (λ _. together problem n tile seed ≡ None) }
    ensures sized { IfOk result (λ a. IfSome a IsSized) }
{
    match (problem, n, tile, seed) {
        (None, None, None, None) => Ok(None),
        (Some(problem), Some(n), Some(tile), Some(seed)) => match sized_application(
            problem, n, tile, seed,
        ) {
            Some(application) => Ok(Some(application)),
            None => Err(UnreadValue),
        },
        _ => Err(UnreadValue),
    }
}

// The application that the values that were found ask for.
fn application(matches: &ArgMatches<'_>) -> Result<Option<Application>, UnreadValue>
    ensures ok { IfOk result (λ a. (ps : List (List ℕ × List ℕ)) →
        HoldsGiven (found_of matches.now) ps → application_asked ps ≡ Some a) }
    ensures err { IfErr result (λ _. (ps : List (List ℕ × List ℕ)) →
        HoldsGiven (found_of matches.now) ps → application_asked ps ≡ None) }
    ensures sized { IfOk result (λ a. IfSome a IsSized) }
{
    let problem = problem(matches.get_str(APP))?;
    let n = number(matches.get_str(N), 1, 2048)?;
    let tile = number(matches.get_str(TILE), 1, 2048)?;
    let seed = number(matches.get_str(SEED), 0, 999_999_999)?;
    together(problem, n, tile, seed)
}

// A small number in a byte.
fn small(number: Option<u64>) -> Option<u8>
    requires { IfSome number (λ n. n < 256) }
    ensures { result ≡ number }
{
    match number {
        Some(number) => Some(number as u8),
        None => None,
    }
}

// A copy of a text, where there is one.
fn owned(alloc: Global, text: Option<&str>) -> Result<Option<SwapPath>, AllocError>
    ensures { IfOk result (λ s. s ≡ option_map (λ t. t.now) text.entry) }
{
    match text {
        Some(text) => Ok(Some(SwapPath::of(alloc, text)?)),
        None => Ok(None),
    }
}

// What the values that were found ask for.
fn asked_for(alloc: Global, matches: &ArgMatches<'_>) -> Result<Options, WordsRefusal>
    ensures ok { IfOk result
        (λ o. (ps : List (List ℕ × List ℕ)) → HoldsGiven (found_of matches.now) ps
        → asked_for ps ≡ Some o) }
    ensures unaccepted { IfErr result (λ e. e ≡ WordsRefusal.Unaccepted
        → (ps : List (List ℕ × List ℕ)) → HoldsGiven (found_of matches.now) ps
        → asked_for ps ≡ None) }
    ensures limits { IfOk result OptionsAreInRange }
{
    let workers = number(matches.get_str(WORKERS), 1, 64)?;
    let policy = policy(matches.get_str(SCHED))?;
    let node = number(matches.get_str(NODE), 8, 1 << 40)?;
    let nodes = number(matches.get_str(NODES), 1, 16)?;
    let swap_size = number(matches.get_str(SWAP_SIZE), 0, 1 << 40)?;
    let application = application(matches)?;
    if nodes.is_some() && node.is_none() {
        return Err(WordsRefusal::Unaccepted);
    }
    Ok(Options {
        workers: small(workers),
        policy,
        node,
        nodes: small(nodes),
        swap: owned(alloc, matches.get_str(SWAP))?,
        swap_size,
        trace: matches.get_flag(TRACE),
        summary: matches.get_flag(SUMMARY),
        application,
    })
}

/// What the words after the program's name ask for. Linear in the words, and memory for a few lists
/// of them. The errors are words that aren't accepted, and want of memory.
pub fn read_words(alloc: Global, words: &[String]) -> Result<Options, WordsRefusal>
    ensures ok { IfOk result (λ o. options (texts words.now) ≡ Some o) }
    ensures unaccepted { IfErr result
        (λ e. e ≡ WordsRefusal.Unaccepted → options (texts words.now) ≡ None) }
    ensures limits { IfOk result OptionsAreInRange }
{
    let Some(names) = said_names(alloc, words)? else {
        return Err(WordsRefusal::Unaccepted);
    };
    if !are_distinct(names.as_slice()) {
        return Err(WordsRefusal::Unaccepted);
    }
    let matches = matches_of(alloc, words)?;
    asked_for(alloc, &matches)
}
