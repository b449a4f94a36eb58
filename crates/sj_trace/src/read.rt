//! Reading the text of a trace.

ghost use Rattle.std.specs.Prelude.{◌≡◌, ◌<◌, ◌^◌, List, length, IfOk, IfErr};
ghost use Rattle.sj_base.specs.declared.trace.Event.{Event};
ghost use Rattle.sj_trace.specs.declared.read.TraceRefusal.TheVariants.{OutOfMemory};
ghost use Rattle.sj_trace.specs.Text.{whole_lines};
ghost use Rattle.sj_trace.specs.Reading.{IsTextOf, IsTraceRefusal};

use crate::line::first_event;
use sj_base::ids::Line;
use sj_base::memory;
use sj_base::trace::Trace;
use std::alloc::Global;
use thiserror::Error;

/// Why a text isn't read as a trace.
#[derive(Clone, Copy, Debug, PartialEq, Eq, Error)]
pub enum TraceRefusal {
    /// The first line that is no event's, counted from 1.
    #[error("line {} is no event", .line.0)]
    BadLine { line: Line },
    #[error("out of memory")]
    OutOfMemory,
}

impl From<memory::OutOfMemory> for TraceRefusal {
    ghost use Rattle.std.specs.Prelude.{◌≡◌};
    ghost use Rattle.sj_trace.specs.declared.read.TraceRefusal.TheVariants.{OutOfMemory};

    ghost from_gives = { λ _ e. e ≡ OutOfMemory };

    fn from(_: memory::OutOfMemory) -> Self {
        TraceRefusal::OutOfMemory
    }
}

/// Reads the text of a trace, in the one form in which it is written: the events whose lines it has,
/// or `BadLine` at the first line that no event is written as. Linear in the text.
pub fn read_trace(alloc: Global, text: &[u8]) -> Result<Trace, TraceRefusal>
    requires few_lines { length (whole_lines text.now) < 2 ^ 32 }
    ensures ok { IfOk result (λ trace. IsTextOf text.now trace.events) }
    ensures bad_line { IfErr result (λ e. IsTraceRefusal e text.now) }
    ensures reads_back { (events : List Event) → IsTextOf text.now events
        → IfOk result (λ trace. trace.events ≡ events) }
    ensures refuses_no_trace { (events : List Event) → IsTextOf text.now events
        → IfErr result (λ e. e ≡ OutOfMemory) }
{
    let mut trace = Trace::empty(alloc);
    let mut rest = text;
    while !rest.is_empty() {
        let Some((event, behind)) = first_event(rest) else {
            let number = trace.len() as u32 + 1;
            return Err(TraceRefusal::BadLine { line: Line(number) });
        };
        trace.reserve(1)?;
        trace.add(event);
        rest = behind;
    }
    Ok(trace)
}
