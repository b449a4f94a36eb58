//! A job as text, in the one form that says all of it.

ghost use Rattle.std.specs.Prelude.{◌≡◌, ◌++◌, IfOk, OnOk};
ghost use Rattle.sj_meaning.specs.View.{IsNumbered, job_seen, seen_from};
ghost use Rattle.sj_text.specs.Forms.{no_plans};
ghost use Rattle.sj_text.specs.Text.{statement_lines, text_of_job};

use crate::act::write_act;
use crate::plans::activate;
use crate::settings::write_settings;
use sj_base::memory::OutOfMemory;
use sj_meaning::job::{Job, Statement};
use sj_meaning::roots::Roots;
use std::alloc::Global;

/// Appends the lines of a job's statements. Linear in them.
fn write_statements(
    alloc: Global,
    text: &mut Vec<u8>,
    roots: &Roots,
    statements: &[Statement],
) -> Result<(), OutOfMemory>
    requires { IsNumbered roots.now statements.now }
    ensures { OnOk result (text.new.items
        ≡ text.old.items ++ statement_lines no_plans (seen_from roots.now 0 statements.now)) }
{
    let mut plans = Vec::new(alloc);
    for statement in statements {
        write_act(text, roots, &plans, &statement.act)?;
        activate(&mut plans, roots, &statement.act)?;
    }
    Ok(())
}

/// The canonical text of a job: the header, the settings, also those that no line sets, and a line for each statement. Numbers
/// stand without leading zeros, and `inf` for the greatest i64; `by` and the index of an operand where the plan has more than
/// one part, and nowhere else; `prio=` where the priority isn't 0. Linear in the job.
pub fn job_text(alloc: Global, job: &Job) -> Result<Vec<u8>, OutOfMemory>
    requires numbered { IsNumbered job.now.roots job.now.statements }
    ensures text { IfOk result (λ text. text.items ≡ text_of_job (job_seen job.now)) }
{
    let mut text = Vec::new(alloc);
    text.extend_from_slice(b"starjob 1\n")?;
    write_settings(&mut text, &job.settings)?;
    write_statements(alloc, &mut text, &job.roots, job.statements.items())?;
    Ok(text)
}
