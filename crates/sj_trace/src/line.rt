//! An event's line, read.

ghost use Rattle.std.specs.Prelude.{◌≡◌, ◌≢◌, ◌++◌, ℕ, List, MatchOption};
ghost use Rattle.sj_trace.specs.Text.{line_of};
ghost use Rattle.sj_trace.specs.Reading.{IsParsed, EventFits, TaskFits, TransferFits, DropFits, task_line, transfer_line, drop_line};

use crate::word::{cell, node, place, task, worker};
use sj_base::ids::{Cell, Node, Place, Task, Worker};
use sj_base::trace::Event;

/// What stands behind these bytes, where a text begins with them. Linear in them.
fn behind<'a>(text: &'a [u8], front: &[u8]) -> Option<&'a [u8]>
    ensures { MatchOption result ((rest : List ℕ) → front.now ++ rest ≢ text.now)
        (λ rest. front.now ++ rest.now ≡ text.now) }
{
    text.strip_prefix(front)
}

/// A task and a worker, and what stands behind their line. Linear in their words.
fn task_and_worker(text: &[u8]) -> Option<((Task, Worker), &[u8])>
    ensures { IsParsed TaskFits task_line text.now result }
{
    let (task, rest) = task(text)?;
    let (worker, rest) = worker(rest)?;
    Some(((task, worker), rest))
}

/// A cell and the places of its transfer, and what stands behind their line. Linear in their words.
fn transfer(text: &[u8]) -> Option<((Cell, Place, Place), &[u8])>
    ensures { IsParsed TransferFits transfer_line text.now result }
{
    let (cell, rest) = cell(text)?;
    let (from, rest) = place(rest, b' ')?;
    let (to, rest) = place(rest, b'\n')?;
    Some(((cell, from, to), rest))
}

/// A cell and the node that drops it, and what stands behind their line. Linear in their words.
fn cell_and_node(text: &[u8]) -> Option<((Cell, Node), &[u8])>
    ensures { IsParsed DropFits drop_line text.now result }
{
    let (cell, rest) = cell(text)?;
    let (node, rest) = node(rest, b'\n')?;
    Some(((cell, node), rest))
}

/// The event whose line a text begins with, and what stands behind that; `None` where it begins with no event's. Linear in
/// the line.
pub fn first_event(text: &[u8]) -> Option<(Event, &[u8])>
    ensures { IsParsed EventFits line_of text.now result }
{
    if let Some(words) = behind(text, b"claim ") {
        let ((task, worker), rest) = task_and_worker(words)?;
        return Some((Event::Claim(task, worker), rest));
    }
    if let Some(words) = behind(text, b"run ") {
        let ((task, worker), rest) = task_and_worker(words)?;
        return Some((Event::Run(task, worker), rest));
    }
    if let Some(words) = behind(text, b"end ") {
        let ((task, worker), rest) = task_and_worker(words)?;
        return Some((Event::End(task, worker), rest));
    }
    if let Some(words) = behind(text, b"move ") {
        let ((cell, from, to), rest) = transfer(words)?;
        return Some((Event::Move(cell, from, to), rest));
    }
    if let Some(words) = behind(text, b"moved ") {
        let ((cell, from, to), rest) = transfer(words)?;
        return Some((Event::Moved(cell, from, to), rest));
    }
    let words = behind(text, b"drop ")?;
    let ((cell, node), rest) = cell_and_node(words)?;
    Some((Event::Drop(cell, node), rest))
}
