//! The line of a task.

ghost use Rattle.std.specs.Prelude.{◌≡◌, ◌++◌, ◌∷◌, ◌<◌, ◌≤◌, [], ℕ, List, All, length, map, OnOk};
ghost use Rattle.sj_meaning.specs.Act.{Task};
ghost use Rattle.sj_job.specs.Grammar.{bracketed_word, child_pieces, operand_word, priority_words};
ghost use Rattle.sj_meaning.specs.View.{operand_seen, task_seen};
ghost use Rattle.sj_show.specs.Words.{spaced};
ghost use Rattle.sj_text.specs.Forms.{Plans, operand_form, pair_under, priority_form};
ghost use Rattle.sj_text.specs.Text.{AreCurrent, act_line};

use crate::array::is_whole;
use sj_base::memory::OutOfMemory;
use sj_codelet::kernel::Kernel;
use sj_meaning::job::{Operand, TaskLine};
use sj_meaning::roots::Roots;
use sj_plan::parts::Parts;
use sj_show::words::{mode_word, write_codelet, write_integer, write_numbered};

/// Appends the index of a child, `[i,j]`, to a name, where the plan has more than one part.
fn write_index(text: &mut Vec<u8>, parts: Parts, place: (u32, u32)) -> Result<(), OutOfMemory>
    ensures { OnOk result ((before name : List ℕ) → text.old.items ≡ before ++ name → text.new.items
        ≡ before ++ bracketed_word 91 93 name (child_pieces (pair_under parts place))) }
{
    if is_whole(parts) {
        return Ok(());
    }
    write_numbered(text, b"[", place.0 as u64)?;
    write_numbered(text, b",", place.1 as u64)?;
    text.push(b']')?;
    Ok(())
}

/// Appends ` NAME:MODE` or ` NAME[i,j]:MODE`. Linear in it.
fn write_operand(
    text: &mut Vec<u8>,
    roots: &Roots,
    plans: &[Parts],
    operand: &Operand,
) -> Result<(), OutOfMemory>
    requires placed { operand.now.root.0 < length plans.now }
    requires registered { length plans.now ≤ length roots.now.names }
    ensures { OnOk result ((active : Plans) → AreCurrent roots.now plans.now active →
        let form = operand_form active (operand_seen roots.now operand.now) in
        text.new.items ≡ text.old.items ++ spaced (operand_word form ∷ [])) }
{
    text.push(b' ')?;
    text.extend_from_slice(roots.name(operand.root))?;
    write_index(text, plans[operand.root.0 as usize], operand.place)?;
    text.push(b':')?;
    text.extend_from_slice(mode_word(operand.mode))?;
    Ok(())
}

/// Appends operands, each behind a space. Linear in them.
fn write_operands(
    text: &mut Vec<u8>,
    roots: &Roots,
    plans: &[Parts],
    operands: &[Operand],
) -> Result<(), OutOfMemory>
    requires placed { All (λ o. o.root.0 < length plans.now) operands.now }
    requires registered { length plans.now ≤ length roots.now.names }
    ensures { OnOk result ((active : Plans) → AreCurrent roots.now plans.now active →
        let forms = map (operand_form active) (map (operand_seen roots.now) operands.now) in
        text.new.items ≡ text.old.items ++ spaced (map operand_word forms)) }
{
    for operand in operands {
        write_operand(text, roots, plans, operand)?;
    }
    Ok(())
}

/// Appends ` prio=P`, where the priority isn't 0.
fn write_priority(text: &mut Vec<u8>, priority: i32) -> Result<(), OutOfMemory>
    ensures { OnOk result (text.new.items
        ≡ text.old.items ++ spaced (priority_words (priority_form priority))) }
{
    if priority == 0 {
        return Ok(());
    }
    text.extend_from_slice(b" prio=")?;
    write_integer(text, priority as i64)
}

/// Appends the line of a task. Linear in it.
pub fn write_task(
    text: &mut Vec<u8>,
    roots: &Roots,
    plans: &[Parts],
    task: &TaskLine,
) -> Result<(), OutOfMemory>
    requires placed { All (λ o. o.root.0 < length plans.now) task.now.operands }
    requires registered { length plans.now ≤ length roots.now.names }
    ensures { OnOk result ((active : Plans) → AreCurrent roots.now plans.now active → text.new.items
        ≡ text.old.items ++ act_line active (Task (task_seen roots.now task.now))) }
{
    text.extend_from_slice(b"task ")?;
    write_codelet(text, task.kernel.id(), task.args.items())?;
    write_operands(text, roots, plans, task.operands.items())?;
    write_priority(text, task.priority)?;
    text.push(b'\n')?;
    Ok(())
}
