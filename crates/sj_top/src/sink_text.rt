//! Writing a text to a sink.

ghost use Rattle.std.specs.Prelude.{◌≡◌, ◌<◌, [], length, IsErr, OnOk, OnErr, is_err};
ghost use Rattle.std.specs.Io.KnownBytes.{Appends};
ghost use Rattle.sj_edge.specs.Faults.{Counts, counted};
ghost use Rattle.sj_top.specs.Streams.{TakesPrefix};

use sj_edge::sink::Sink;
use sj_edge::source::Failed;

/// Writes a text. Linear in it where the sink is; with no text the sink isn't called.
pub fn write_text<O: Sink>(sink: &mut O, text: &[u8]) -> Result<(), Failed>
    ensures ok { OnOk result (Appends (O.taken sink.old) (O.taken sink.new) text.now) }
    ensures err { OnErr result (TakesPrefix (O.taken sink.old) (O.taken sink.new) text.now) }
    ensures counts { Counts (O.faults sink.old) (O.faults sink.new) (IsErr result) }
    ensures rises_by_one { O.faults sink.new ≡ counted (O.faults sink.old) (is_err result) }
    ensures not_called_for_nothing { text.now ≡ [] → sink.new ≡ sink.old }
{
    if text.is_empty() {
        return Ok(());
    }
    write_some(sink, text)
}

/// The same of a text that isn't empty.
fn write_some<O: Sink>(sink: &mut O, text: &[u8]) -> Result<(), Failed>
    requires { 0 < length text.now }
    ensures ok { OnOk result (Appends (O.taken sink.old) (O.taken sink.new) text.now) }
    ensures err { OnErr result (TakesPrefix (O.taken sink.old) (O.taken sink.new) text.now) }
    ensures counts { Counts (O.faults sink.old) (O.faults sink.new) (IsErr result) }
    ensures rises_by_one { O.faults sink.new ≡ counted (O.faults sink.old) (is_err result) }
{
    let mut at = 0;
    while at < text.len() {
        at += sink.write(&text[at..])?;
    }
    Ok(())
}
