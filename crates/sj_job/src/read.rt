//! Reading a job text.

ghost use Rattle.std.specs.Prelude.{◌≡◌, ◌+◌, ◌≤◌, ◌<◌, ◌^◌, ◌∷◌, ℕ, Bool, List, length, Err, Ok, IfOk, IfErr, IfNone, IfSome, IsTrue, OnOk};
ghost use Rattle.std.specs.Bool.{IsFalse};
ghost use Rattle.sj_codelet.specs.declared.kernel.Kernel.{Kernel};
ghost use Rattle.sj_job.specs.Word.{lines, words};
ghost use Rattle.sj_meaning.specs.State.{start};
ghost use Rattle.sj_job.specs.Names.{HasStandings, scope_in};
ghost use Rattle.sj_job.specs.Verdict.{Skipped, Passes, Begins};
ghost use Rattle.sj_job.specs.Reading.{act_in, front_of, reading, reading_header, reading_settings, refused, with_settings, job_of, verdict_of, IsBad, IsReadRefusal, IsStopped};
ghost use Rattle.sj_job.specs.Progress.{text_with};
ghost use Rattle.sj_job.specs.Submits.{LineDoes, AreRead};
ghost use Rattle.sj_meaning.specs.Settings.{unset, SettingsAreInRange};
ghost use Rattle.sj_meaning.specs.View.{seen_from, statements_of, job_seen, IsNumbered};
ghost use Rattle.sj_job.specs.Well.{IsWell};

use crate::crowd::crowd_complaint;
use crate::line::{Words, are_allowed, is_header, is_skipped, next_line, trimmed};
use crate::names::Names;
use crate::reason::{LimitKind, Objection, ReadRefusal, Reason};
use crate::settings::set;
use crate::spell::{form_of, setting_of};
use crate::submit::submit;
use sj_base::ids::Line;
use sj_base::sequence::Sequence;
use sj_codelet::set::Codelets;
use sj_meaning::job::{Act, Job, Statement};
use sj_meaning::settings::Settings;
use std::alloc::Global;

/// The longest text that is read, in bytes.
pub const TEXT: usize = 67_108_864;

/// The longest line that is taken apart without a look at how many operands and arguments a task in it has, in bytes.
const LONG: usize = 4_096;

/// The reason against a task line that is long, where it has too many operands or arguments for a list of them, or comes before
/// these are counted.
fn long_complaint<C: Codelets>(names: &Names, line: &[u8], codelets: &C) -> Option<Reason>
    requires { HasStandings names.now }
    ensures { IfSome result (λ why. act_in C.has (scope_in names.now) (words line.now) ≡ Err why) }
{
    if line.len() <= LONG {
        return None;
    }
    let words = Words::of(line);
    let (first, rest) = words.split_first()?;
    if first != b"task".as_slice() {
        return None;
    }
    crowd_complaint(names, &rest, codelets)
}

/// What a line does, `None` where it says nothing. Linear in it, but that a codelet is looked up in the table.
fn act_of_line<C: Codelets>(
    alloc: Global,
    names: &mut Names,
    line: &[u8],
    codelets: &C,
) -> Result<Option<Act>, Objection>
    requires counted { HasStandings names.old }
    requires room { names.old.statements + 1 < 2 ^ 64 }
    ensures skips { IfOk result (λ a. IfNone a
        ((names.new ≡ names.old) × (verdict_of C.has (scope_in names.old) line.now ≡ Skipped))) }
    ensures does { IfOk result (λ a. IfSome a (LineDoes C.has names.old line.now names.new)) }
    ensures err { IfErr result (λ e. IsBad e (verdict_of C.has (scope_in names.old) line.now)) }
{
    let line = trimmed(line);
    let words = Words::of(line);
    if is_skipped(&words) {
        return Ok(None);
    }
    if !are_allowed(line) {
        return Err(Objection::Bad(Reason::Word));
    }
    if let Some(why) = long_complaint(names, line, codelets) {
        return Err(Objection::Bad(why));
    }
    let Some(form) = form_of(alloc, &words)? else {
        return Err(Objection::Bad(Reason::Word));
    };
    Ok(Some(submit(alloc, names, &form, codelets)?))
}

/// Reads one line more. Linear in it, but that a codelet is looked up in the table.
fn read_line<C: Codelets>(
    alloc: Global,
    names: &mut Names,
    statements: &mut Vec<Statement>,
    number: u32,
    line: &[u8],
    codelets: &C,
) -> Result<(), ReadRefusal>
    requires { AreRead names.old statements.old.items }
    ensures names { OnOk result (AreRead names.new statements.new.items) }
    ensures ok { OnOk result ((rest : List (List ℕ)) →
        text_with C.has (seen_from names.old.roots 0 statements.old.items) number (line.now ∷ rest)
        ≡ text_with C.has (seen_from names.new.roots 0 statements.new.items) (number + 1) rest) }
    ensures err { IfErr result (λ e. (rest : List (List ℕ)) → IsReadRefusal e
        (text_with C.has (seen_from names.old.roots 0 statements.old.items) number
        (line.now ∷ rest))) }
{
    match act_of_line(alloc, names, line, codelets) {
        Ok(None) => Ok(()),
        Ok(Some(act)) => {
            statements.push(Statement {
                line: Line(number),
                act,
            })?;
            Ok(())
        }
        Err(why) => Err(refused(number, why)),
    }
}

/// The job of these settings and of the lines from a number on. Linear in the lines, but that codelets are looked up in the
/// table.
fn read_statements<C: Codelets>(
    alloc: Global,
    settings: Settings,
    text: &[u8],
    first: u32,
    codelets: &C,
) -> Result<Job, ReadRefusal>
    requires { first + length text.now < 2 ^ 32 }
    ensures settings { IfOk result (λ job. job.settings ≡ settings) }
    ensures ok { IfOk result (λ job.
        reading C.has 0 start first (lines text.now) ≡ Ok (statements_of job)) }
    ensures numbered { IfOk result (λ job. IsNumbered job.roots job.statements) }
    ensures err { IfErr result
        (λ e. IsReadRefusal e (reading C.has 0 start first (lines text.now))) }
{
    let mut names = Names::none(alloc);
    let mut statements = Vec::new(alloc);
    let mut rest = text;
    let mut number = first;
    while let Some((line, tail)) = next_line(rest) {
        read_line(alloc, &mut names, &mut statements, number, line, codelets)?;
        number += 1;
        rest = tail;
    }
    Ok(Job {
        settings,
        roots: names.roots,
        statements: Sequence::of(statements),
    })
}

/// What a line does before the first statement: whether the settings go on behind it. Linear in the line.
fn set_by_line(settings: &mut Settings, line: &[u8]) -> Result<bool, Objection>
    requires { SettingsAreInRange settings.old }
    ensures within { OnOk result (SettingsAreInRange settings.new) }
    ensures passes { IfOk result (λ passes. IsTrue passes →
        front_of settings.old line.now ≡ Passes settings.new) }
    ensures begins { IfOk result (λ passes. IsFalse passes →
        (settings.new ≡ settings.old) × (front_of settings.old line.now ≡ Begins)) }
    ensures err { IfErr result (λ e. IsStopped e (front_of settings.old line.now)) }
{
    let words = Words::of(line);
    if is_skipped(&words) {
        return Ok(true);
    }
    let Some(form) = setting_of(&words) else {
        return Ok(false);
    };
    if !are_allowed(line) {
        return Ok(false);
    }
    set(settings, &form)?;
    Ok(true)
}

/// What the settings lines in front of a text set, what follows them, and the number of the next line. Linear in these lines.
fn read_settings(
    alloc: Global,
    text: &[u8],
    first: u32,
) -> Result<(Settings, &[u8], u32), ReadRefusal>
    requires { first + length text.now < 2 ^ 32 }
    ensures bound { IfOk result (λ r. r.2 + length r.1.now ≤ first + length text.now) }
    ensures within { IfOk result (λ r. SettingsAreInRange r.0) }
    ensures ok { IfOk result (λ r. (has : Kernel → Bool)
        → reading_settings has unset first (lines text.now)
        ≡ with_settings r.0 (reading has 0 start r.2 (lines r.1.now))) }
    ensures err { IfErr result (λ e. (has : Kernel → Bool) →
        IsReadRefusal e (reading_settings has unset first (lines text.now))) }
{
    let mut settings = Settings::none(alloc);
    let mut rest = text;
    let mut number = first;
    while let Some((line, tail)) = next_line(rest) {
        match set_by_line(&mut settings, line) {
            Ok(true) => {
                number += 1;
                rest = tail;
            }
            Ok(false) => return Ok((settings, rest, number)),
            Err(why) => return Err(refused(number, why)),
        }
    }
    Ok((settings, rest, number))
}

/// The refusal of a text at a line.
fn refused(number: u32, why: Objection) -> ReadRefusal
    ensures { result ≡ refused number why }
{
    match why {
        Objection::Bad(reason) => ReadRefusal::Refused {
            line: Line(number),
            reason,
        },
        Objection::OutOfMemory => ReadRefusal::OutOfMemory,
    }
}

/// What follows the header, and the number of the next line. Linear in what stands before it.
fn skip_header(text: &[u8]) -> Result<(&[u8], u32), ReadRefusal>
    requires { length text.now < 2 ^ 31 }
    ensures bound { IfOk result (λ r. r.1 + length r.0.now ≤ 1 + length text.now) }
    ensures ok { IfOk result (λ r. (has : Kernel → Bool) →
        reading_header has 1 (lines text.now) ≡ reading_settings has unset r.1 (lines r.0.now)) }
    ensures err { IfErr result (λ e. (has : Kernel → Bool) →
        IsReadRefusal e (reading_header has 1 (lines text.now))) }
{
    let mut rest = text;
    let mut number = 1;
    while let Some((line, tail)) = next_line(rest) {
        let words = Words::of(line);
        if !is_skipped(&words) {
            if are_allowed(line) && is_header(&words) {
                return Ok((tail, number + 1));
            }
            return Err(ReadRefusal::Refused {
                line: Line(number),
                reason: Reason::Header,
            });
        }
        number += 1;
        rest = tail;
    }
    Err(ReadRefusal::Refused {
        line: Line(number),
        reason: Reason::Header,
    })
}

/// Reads a job text: one pass over it. Each name is looked up once, in time linear in it, and each codelet in the table.
pub fn read<C: Codelets>(alloc: Global, text: &[u8], codelets: &C) -> Result<Job, ReadRefusal>
    ensures ok { IfOk result (λ job. job_of C.has text.now ≡ Ok (job_seen job)) }
    ensures err { IfErr result (λ e. IsReadRefusal e (job_of C.has text.now)) }
    ensures within { IfOk result (λ job. SettingsAreInRange job.settings) }
    ensures well { IfOk result (λ job. IsWell C.has 0 start (statements_of job)) }
    ensures numbered { IfOk result (λ job. IsNumbered job.roots job.statements) }
{
    if text.len() > TEXT {
        return Err(ReadRefusal::Refused {
            line: Line(0),
            reason: Reason::Limit(LimitKind::Text),
        });
    }
    let (rest, number) = skip_header(text)?;
    let (settings, rest, number) = read_settings(alloc, rest, number)?;
    read_statements(alloc, settings, rest, number, codelets)
}
