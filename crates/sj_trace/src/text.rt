//! A trace as text: a line for each event.

ghost use Rattle.std.specs.Prelude.{◌≡◌, ◌+◌, ◌≤◌, ◌++◌, ◌∷◌, [], codes, drop, length, IfOk};
ghost use Rattle.sj_trace.specs.Text.{word, place_word, line_of, whole_lines};
ghost use Rattle.sj_trace.specs.Reading.{EventFits, IsTextOf, task_line, transfer_line, drop_line};

use itoa::write_digits;
use sj_base::ids::{Cell, Node, Place, Task, Worker};
use sj_base::memory::OutOfMemory;
use sj_base::trace::{Event, Trace};
use std::alloc::Global;

/// Room for any line: a verb of 5 bytes, three words of 12 with their spaces, and LF.
const ROOM: usize = 48;

/// Writes a space and a letter with a number so that they end at a place, and returns where they begin: at most 12 bytes before.
fn write_word(line: &mut [u8], end: usize, letter: u8, number: u32) -> usize
    requires room { 12 ≤ end }
    requires end { end ≤ length line.old }
    ensures start { end ≤ result + 12 }
    ensures written { drop result line.new
        ≡ codes " " ++ word (letter ∷ []) number ++ drop end line.old }
{
    let start = write_digits(number as u64, line, end);
    line[start - 1] = letter;
    line[start - 2] = b' ';
    start - 2
}

/// The same of a place.
fn write_place(line: &mut [u8], end: usize, place: Place) -> usize
    requires room { 12 ≤ end }
    requires end { end ≤ length line.old }
    ensures start { end ≤ result + 12 }
    ensures written { drop result line.new
        ≡ codes " " ++ place_word place ++ drop end line.old }
{
    match place {
        Place::Node(n) => write_word(line, end, b'n', n.0 as u32),
        Place::Disk(d) => write_word(line, end, b'd', d.0 as u32),
    }
}

/// Writes a verb so that it ends at a place, and returns where it begins.
fn write_verb(line: &mut [u8], end: usize, verb: &[u8]) -> usize
    requires room { length verb.now ≤ end }
    requires end { end ≤ length line.old }
    ensures written { drop result line.new ≡ verb.now ++ drop end line.old }
{
    let start = end - verb.len();
    line[start..end].copy_from_slice(verb);
    start
}

/// Writes the line of what became of a task on a worker at the end of the room, and returns where it begins.
fn write_task(line: &mut [u8; ROOM], verb: &[u8], t: Task, w: Worker) -> usize
    requires { length verb.now ≤ 5 }
    ensures { drop result line.new ≡ verb.now ++ (codes " " ++ task_line (t, w)) }
{
    line[ROOM - 1] = b'\n';
    let start = write_word(line, ROOM - 1, b'w', w.0 as u32);
    let start = write_word(line, start, b't', t.0);
    write_verb(line, start, verb)
}

/// The same of a cell's transfer.
fn write_move(line: &mut [u8; ROOM], verb: &[u8], c: Cell, from: Place, to: Place) -> usize
    requires { length verb.now ≤ 5 }
    ensures { drop result line.new ≡ verb.now ++ (codes " " ++ transfer_line (c, from, to)) }
{
    line[ROOM - 1] = b'\n';
    let start = write_place(line, ROOM - 1, to);
    let start = write_place(line, start, from);
    let start = write_word(line, start, b'c', c.0);
    write_verb(line, start, verb)
}

/// The same of a replica's drop.
fn write_drop(line: &mut [u8; ROOM], c: Cell, n: Node) -> usize
    ensures { drop result line.new ≡ codes "drop " ++ drop_line (c, n) }
{
    line[ROOM - 1] = b'\n';
    let start = write_word(line, ROOM - 1, b'n', n.0 as u32);
    let start = write_word(line, start, b'c', c.0);
    write_verb(line, start, b"drop")
}

/// Writes an event's line at the end of the room, and returns where it begins.
fn write_line(line: &mut [u8; ROOM], event: Event) -> usize
    ensures { drop result line.new ≡ line_of event }
{
    match event {
        Event::Claim(t, w) => write_task(line, b"claim", t, w),
        Event::Move(c, from, to) => write_move(line, b"move", c, from, to),
        Event::Moved(c, from, to) => write_move(line, b"moved", c, from, to),
        Event::Drop(c, n) => write_drop(line, c, n),
        Event::Run(t, w) => write_task(line, b"run", t, w),
        Event::End(t, w) => write_task(line, b"end", t, w),
    }
}

/// The numbers of an event are in their types.
fn event_fits(event: Event)
    ensures { EventFits event }
{}

/// The text of a trace. Linear in it.
pub fn text(alloc: Global, trace: &Trace) -> Result<Vec<u8>, OutOfMemory>
    ensures text { IfOk result (λ v. IsTextOf v.items trace.now.events) }
    ensures a_line_each { IfOk result
        (λ v. length (whole_lines v.items) ≡ length trace.now.events) }
{
    let mut text = Vec::new(alloc);
    let mut line = [0; ROOM];
    for i in 0..trace.len() {
        let event = trace.get(i);
        event_fits(event);
        let start = write_line(&mut line, event);
        text.extend_from_slice(&line[start..])?;
    }
    Ok(text)
}
