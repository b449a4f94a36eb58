//! `trace_check`: reads a job from standard input, where the words ask for no application, and the trace of a run of it from a
//! file, and says whether each event of the trace is legal and all tasks are done after the last.
//!
//! The words before the file's name are those of `starjob`, which ask for the machine of the run. In place of the file's name
//! `--program` has it print the program to which the job is lowered, and `--text` alone the canonical text of the job.
#![tactic(auto)]

mod answering;

ghost use Rattle.std.specs.Prelude.{◌≡◌, IfOk};
ghost use Rattle.sj_minplus.specs.Has.{library_has};
ghost use Rattle.sj_ready.specs.Input.{HasJob};
ghost use Rattle.sj_words.specs.Options.{OptionsAreInRange};
ghost use Rattle.trace_check.specs.Ending.{code_of_check, code_of_outcome, code_of_unready};

use answering::{show_job, show_program};
use sj_check::check::CheckRefusal;
use sj_judge::judging::judged;
use sj_judge::lines::line;
use sj_judge::refusal::JudgeRefusal;
use sj_needs::shortage::Shortage;
use sj_ready::input::Input;
use sj_ready::unready::Unready;
use sj_trace::read::TraceRefusal;
use sj_words::{Options, WordsRefusal, read_words, swap_wish};
use std::alloc::{AllocError, Global};
use std::io::{self, ErrorKind, Read};
use std::process::ExitCode;
use std::{env, fs};

const CHECK_USAGE: &str =
    "usage: trace_check [words of starjob] TRACE < JOB, or --program for TRACE, or --text alone";

/// The words that stand in place of the trace's file.
const PROGRAM_WORD: &str = "--program";

const TEXT_WORD: &str = "--text";

const HELP: &str = "\
Says whether the file TRACE, which has the lines of a trace alone, is a legal run, to its end, of the job on standard input,
on the machine that the job and the words ask for. --program in place of TRACE prints the program to which the job is lowered,
--text alone the job's canonical text. With --app nothing is read from standard input.
Exit codes: 0 legal and complete; 1 an event is illegal, or not all tasks are done; 2 words, job or trace can't be read;
10 out of memory.";

/// What stands behind the words of a cause that comes from the system.
const BEFORE_THE_NUMBER: &str = " (os error";

/// The exit codes: the trace isn't legal or not complete; words, job or trace aren't read; memory ran out.
const BAD: u8 = 1;

const REFUSED: u8 = 2;

const OUT_OF_MEMORY: u8 = 10;

/// Says why nothing was checked.
fn refused(rt: &HostRuntime, why: &str) -> u8
    ensures { result ≡ 2 }
{
    let _ = eprintln!(rt; "{why}");
    REFUSED
}

/// Says that memory ran out.
fn out_of_memory(rt: &HostRuntime) -> u8
    ensures { result ≡ 10 }
{
    let _ = eprintln!(rt; "out of memory");
    OUT_OF_MEMORY
}

/// The words of an error, without the system's number of it.
fn cause(alloc: Global, error: &io::Error) -> Result<String, AllocError> {
    let text = format!(in alloc; "{error}")?;
    match text.split_once(BEFORE_THE_NUMBER) {
        Some((cause, _)) => String::from_str(alloc, cause),
        None => Ok(text),
    }
}

/// Says what can't be read, and the system's cause, unless memory ran out.
fn unread(rt: &HostRuntime, error: &io::Error, what: &str) -> u8 {
    if error.kind() == ErrorKind::OutOfMemory {
        return out_of_memory(rt);
    }
    let Ok(cause) = cause(rt.alloc(), error) else {
        return out_of_memory(rt);
    };
    let _ = eprintln!(rt; "{what} can't be read: {cause}");
    REFUSED
}

/// The words after the program's name, which are all text.
fn words(rt: &HostRuntime) -> io::Result<Vec<String>> {
    let mut words = Vec::new(rt.alloc());
    for word in env::args(rt)?.skip(1) {
        words.push(word).map_err(AllocError::from)?;
    }
    Ok(words)
}

/// Whether a word asks for what `HELP` says.
fn is_call_for_help(word: &str) -> bool {
    word == "--help" || word == "-h"
}

/// All of standard input.
fn input(rt: &HostRuntime) -> io::Result<Vec<u8>> {
    let mut text = Vec::new(rt.alloc());
    rt.stdin().read_to_end(&mut text)?;
    Ok(text)
}

/// The job that options ask for, which is read where they ask for no application.
fn job_for(rt: &HostRuntime, options: &Options) -> io::Result<Input>
    requires { OptionsAreInRange options.now }
    ensures { IfOk result (HasJob library_has) }
{
    match options.application {
        Some(application) => Ok(Input::Generated(application)),
        None => Ok(Input::Text(input(rt)?)),
    }
}

/// Says why the job of a trace can't be run.
fn unready(rt: &HostRuntime, why: Unready) -> u8
    ensures { result ≡ code_of_unready why }
{
    let _ = match why {
        Unready::Refused { line, .. } => eprintln!(rt; "line {} of the job is refused", line.0),
        Unready::Short(Shortage::TooLarge { line, .. }) => {
            eprintln!(rt; "a task of line {} of the job fits no node", line.0)
        }
        Unready::Short(Shortage::SwapTooSmall { .. }) => {
            eprintln!(rt; "the swap disk is too small for the job")
        }
        Unready::Short(Shortage::OutOfMemory) | Unready::OutOfMemory => return out_of_memory(rt),
    };
    REFUSED
}

/// Says what is wrong with the events of a trace that has this text.
fn wrong(rt: &HostRuntime, text: &[u8], why: CheckRefusal) -> u8
    ensures { result ≡ code_of_check why }
{
    let _ = match why {
        CheckRefusal::BadEvent { index } => {
            let event = std::str::from_utf8(line(text, index)).unwrap_or("");
            println!(rt;
                "line {}: {event}: this is no legal step after the events before it",
                index.saturating_add(1)
            )
        }
        CheckRefusal::Unfinished => println!(rt; "legal, but not all tasks are done"),
        CheckRefusal::OutOfMemory => return out_of_memory(rt),
    };
    BAD
}

/// Says what the check of a trace with this text came to.
fn told(rt: &HostRuntime, text: &[u8], outcome: Result<(), JudgeRefusal>) -> u8
    ensures { result ≡ code_of_outcome outcome }
{
    match outcome {
        Ok(()) => {
            let _ = println!(rt; "legal and complete");
            0
        }
        Err(JudgeRefusal::Unready(why)) => unready(rt, why),
        Err(JudgeRefusal::TooLong) => refused(rt, "the trace is too long"),
        Err(JudgeRefusal::Unread(TraceRefusal::BadLine { line })) => {
            let _ = eprintln!(rt; "line {} of the trace is no event", line.0);
            REFUSED
        }
        Err(JudgeRefusal::Wrong(why)) => wrong(rt, text, why),
        Err(JudgeRefusal::Unread(TraceRefusal::OutOfMemory) | JudgeRefusal::OutOfMemory) => {
            out_of_memory(rt)
        }
    }
}

fn main(rt: HostRuntime) -> ExitCode {
    ExitCode::from(answer(&rt))
}

/// Reads a job and shows its text, where no other word stands before.
fn text_alone(rt: &HostRuntime, words: &[String]) -> u8 {
    if !words.is_empty() {
        return refused(rt, CHECK_USAGE);
    }
    match input(rt) {
        Ok(job) => show_job(rt, &job),
        Err(error) => unread(rt, &error, "the job"),
    }
}

/// Reads words, job and trace, and checks; or reads words and a job, and shows it.
fn answer(rt: &HostRuntime) -> u8 {
    let alloc = rt.alloc();
    let mut words = match words(rt) {
        Ok(words) => words,
        Err(error) if error.kind() == ErrorKind::OutOfMemory => return out_of_memory(rt),
        Err(_) => return refused(rt, CHECK_USAGE),
    };
    if words.iter().any(|word| is_call_for_help(word.as_str())) {
        let _ = println!(rt; "{CHECK_USAGE}\n{HELP}");
        return 0;
    }
    let Some(path) = words.pop() else {
        return refused(rt, CHECK_USAGE);
    };
    if path.as_str() == TEXT_WORD {
        return text_alone(rt, &words);
    }
    let options = match read_words(alloc, &words) {
        Ok(options) => options,
        Err(WordsRefusal::Unaccepted) => return refused(rt, CHECK_USAGE),
        Err(WordsRefusal::OutOfMemory) => return out_of_memory(rt),
    };
    let Ok(wish) = swap_wish(alloc, &words) else {
        return out_of_memory(rt);
    };
    let job = match job_for(rt, &options) {
        Ok(job) => job,
        Err(error) => return unread(rt, &error, "the job"),
    };
    if path.as_str() == PROGRAM_WORD {
        return show_program(rt, &options, wish.size, job);
    }
    let text = match fs::read(rt, path.as_str()) {
        Ok(text) => text,
        Err(error) => return unread(rt, &error, "the trace"),
    };
    let outcome = judged(alloc, &options, wish.size, job, &text);
    told(rt, &text, outcome)
}
