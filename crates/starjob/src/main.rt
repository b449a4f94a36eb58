//! `starjob`: reads a job text, runs its tasks, and prints the arrays asked for.
#![tactic(auto)]

use sj_edge::standard::{StdSink, StdSource};
use sj_program::numbers::{STDERR, STDOUT, occupy_streams};
use sj_program::patient::Patient;
use sj_program::room::BoundedSink;
use sj_program::running::{end_without_memory, run_words};
use std::env;
use std::io::{ErrorKind, IsTerminal};
use std::process::ExitCode;

/// The words after the program's name, or `None` where memory runs out. An argument that isn't text stands for a word that
/// isn't accepted, as none is.
fn words(rt: &HostRuntime) -> Option<Vec<String>> {
    let mut words = Vec::new(rt.alloc());
    match env::args(rt) {
        Ok(args) => {
            for word in args.skip(1) {
                words.push(word).ok()?;
            }
        }
        Err(e) if e.kind() == ErrorKind::OutOfMemory => return None,
        Err(_) => words.push(String::new(rt.alloc())).ok()?,
    }
    Some(words)
}

fn main(rt: HostRuntime) -> ExitCode {
    occupy_streams(&rt);
    let has_terminal = rt.stderr().is_terminal();
    let mut source = StdSource::over(Patient::over(&rt, rt.stdin()));
    let out = StdSink::over(Patient::over(&rt, rt.stdout()));
    let out = BoundedSink::over(&rt, STDOUT, out);
    let err = StdSink::over(Patient::over(&rt, rt.stderr()));
    let mut err = BoundedSink::over(&rt, STDERR, err);
    let Some(words) = words(&rt) else {
        return end_without_memory(&mut err);
    };
    let ended = run_words(
        &rt,
        rt.alloc(),
        &words,
        &mut source,
        out,
        &mut err,
        has_terminal,
    );
    ended.code
}
