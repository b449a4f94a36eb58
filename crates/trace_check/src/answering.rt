//! What is said of a job that is shown.

ghost use Rattle.std.specs.Prelude.{◌≤◌, ◌^◌};
ghost use Rattle.sj_minplus.specs.Has.{library_has};
ghost use Rattle.sj_ready.specs.Input.{HasJob};
ghost use Rattle.sj_words.specs.Options.{OptionsAreInRange};

use crate::{REFUSED, out_of_memory, refused, unready};
use sj_job::reason::ReadRefusal;
use sj_judge::showing::{job_shown, program_shown};
use sj_ready::input::Input;
use sj_words::Options;
use std::io::Write;

/// Writes a text to standard output.
fn written(rt: &HostRuntime, text: &[u8]) -> u8 {
    let mut out = rt.stdout();
    if out.write_all(text).is_ok() && out.flush().is_ok() {
        return 0;
    }
    refused(rt, "standard output can't be written")
}

/// Prints the program to which a job is lowered, or says why there is none.
pub fn show_program(rt: &HostRuntime, options: &Options, swap: u64, job: Input) -> u8
    requires options { OptionsAreInRange options.now }
    requires swap { swap ≤ 2 ^ 40 }
    requires job { HasJob library_has job }
{
    match program_shown(rt.alloc(), options, swap, job) {
        Ok(text) => written(rt, &text),
        Err(why) => unready(rt, why),
    }
}

/// Prints the canonical text of a job, or says which line of it is bad.
pub fn show_job(rt: &HostRuntime, job: &[u8]) -> u8 {
    match job_shown(rt.alloc(), job) {
        Ok(text) => written(rt, &text),
        Err(ReadRefusal::Refused { line, .. }) => {
            let _ = eprintln!(rt; "line {} of the job is refused", line.0);
            REFUSED
        }
        Err(ReadRefusal::OutOfMemory) => out_of_memory(rt),
    }
}
