//! The command line as `clap` reads it.

ghost use Rattle.std.specs.Prelude.{◌≡◌, ℕ, List, IfOk, Some, true, false};
ghost use Rattle.clap.specs.Words.{app_of, found_of, rule_of, with_rule};
ghost use Rattle.sj_words.specs.Spelling.{AreSpelled, names_said, texts};
ghost use Rattle.sj_words.specs.Command.{HoldsGiven, flag_rule, option_rule, bare_app, with_machine, with_application, with_prints, the_app};

use clap::error::ErrorKind;
use clap::{Arg, ArgAction, ArgMatches, Command};
use sj_base::memory::OutOfMemory;
use std::alloc::{AllocError, Global};

/// The names of the options, as `clap` and the spelling have them.
pub const WORKERS: &str = "workers";

pub const SCHED: &str = "sched";

pub const NODE: &str = "node";

pub const NODES: &str = "nodes";

pub const SWAP: &str = "swap";

pub const SWAP_SIZE: &str = "swap-size";

pub const APP: &str = "app";

pub const N: &str = "n";

pub const TILE: &str = "tile";

pub const SEED: &str = "seed";

pub const TRACE: &str = "trace";

pub const SUMMARY: &str = "summary";

// An option whose value is read as text.
fn option<'a>(alloc: Global, name: &'a str) -> Arg<'a>
    ensures rule { rule_of result ≡ option_rule name.now }
    ensures local { result.global ≡ false }
{
    Arg::new(alloc, name).long(name).action(ArgAction::Set)
}

// A flag.
fn flag<'a>(alloc: Global, name: &'a str) -> Arg<'a>
    ensures rule { rule_of result ≡ flag_rule name.now }
    ensures local { result.global ≡ false }
{
    Arg::new(alloc, name).long(name).action(ArgAction::SetTrue)
}

// The command without arguments. The words don't begin with the program's name.
fn bare_command<'a>(alloc: Global) -> Command<'a>
    ensures { app_of result ≡ bare_app }
{
    Command::new(alloc, "starjob")
        .no_binary_name(true)
        .disable_help_flag(true)
        .disable_version_flag(true)
}

// One option more.
fn with_option<'a>(
    alloc: Global,
    command: Command<'a>,
    name: &'a str,
) -> Result<Command<'a>, AllocError>
    ensures { IfOk result
        (λ c. app_of c ≡ with_rule (app_of command.entry) (option_rule name.now)) }
{
    command.arg(option(alloc, name))
}

// One flag more.
fn with_flag<'a>(
    alloc: Global,
    command: Command<'a>,
    name: &'a str,
) -> Result<Command<'a>, AllocError>
    ensures { IfOk result (λ c. app_of c ≡ with_rule (app_of command.entry) (flag_rule name.now)) }
{
    command.arg(flag(alloc, name))
}

// The options of the machine.
fn with_machine<'a>(alloc: Global, command: Command<'a>) -> Result<Command<'a>, AllocError>
    ensures { IfOk result (λ c. app_of c ≡ with_machine (app_of command.entry)) }
{
    let command = with_option(alloc, command, WORKERS)?;
    let command = with_option(alloc, command, SCHED)?;
    let command = with_option(alloc, command, NODE)?;
    let command = with_option(alloc, command, NODES)?;
    let command = with_option(alloc, command, SWAP)?;
    with_option(alloc, command, SWAP_SIZE)
}

// The options of a job that is generated.
fn with_application<'a>(alloc: Global, command: Command<'a>) -> Result<Command<'a>, AllocError>
    ensures { IfOk result (λ c. app_of c ≡ with_application (app_of command.entry)) }
{
    let command = with_option(alloc, command, APP)?;
    let command = with_option(alloc, command, N)?;
    let command = with_option(alloc, command, TILE)?;
    with_option(alloc, command, SEED)
}

// The flags that say what is printed.
fn with_prints<'a>(alloc: Global, command: Command<'a>) -> Result<Command<'a>, AllocError>
    ensures { IfOk result (λ c. app_of c ≡ with_prints (app_of command.entry)) }
{
    let command = with_flag(alloc, command, TRACE)?;
    with_flag(alloc, command, SUMMARY)
}

// The command.
fn command<'a>(alloc: Global) -> Result<Command<'a>, AllocError>
    ensures { IfOk result (λ c. app_of c ≡ the_app) }
{
    let command = with_machine(alloc, bare_command(alloc))?;
    let command = with_application(alloc, command)?;
    with_prints(alloc, command)
}

/// What the words give, as `clap` matches it. It refuses no words that are spelled right, so the
/// error is want of memory. Linear in the words.
pub fn matches_of<'a>(alloc: Global, words: &'a [String]) -> Result<ArgMatches<'a>, OutOfMemory>
    requires spelled { AreSpelled (texts words.now) }
    ensures { IfOk result (λ m. (ps : List (List ℕ × List ℕ)) → names_said (texts words.now)
        ≡ Some ps
        → HoldsGiven (found_of m) ps) }
{
    let Ok(command) = command(alloc) else {
        return Err(OutOfMemory);
    };
    match command.try_get_matches_from(words) {
        Ok(matches) => Ok(matches),
        Err(error) => match error.kind() {
            ErrorKind::OutOfMemory => Err(OutOfMemory),
            _ => unreachable!(),
        },
    }
}
