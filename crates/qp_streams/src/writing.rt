//! Writing a whole text.

ghost use Rattle.std.specs.Prelude.{◌≡◌, ◌+◌, ◌-◌, ◌<◌, ◌≤◌, ◌^◌, length, OnOk, OnErr, IsErrOf};
ghost use Rattle.std.specs.Io.KnownBytes.{Appends};
ghost use Rattle.qp_io.specs.Causes.{Rose};
ghost use Rattle.qp_streams.specs.Streams.{TakesFront};

use qp_io::{Sink, SinkStop};

/// Writes the text and nothing else. On an error the sink took some front of the text.
pub fn write_all<T: Sink>(sink: &mut T, text: &[u8]) -> Result<(), SinkStop>
    ensures whole { OnOk result (Appends (T.taken sink.old) (T.taken sink.new) text.now) }
    ensures front { OnErr result (TakesFront (T.taken sink.old) (T.taken sink.new) text.now) }
    ensures fault { IsErrOf result SinkStop.Failed → Rose (T.faults sink.old) (T.faults sink.new) }
    ensures kept { OnOk result (T.faults sink.new ≡ T.faults sink.old) }
    ensures kept_memory { IsErrOf result SinkStop.Memory → T.faults sink.new ≡ T.faults sink.old }
    ensures later { T.faults sink.old ≤ T.faults sink.new }
{
    let mut at = 0;
    while at < text.len() {
        at += sink.write(&text[at..])?;
    }
    Ok(())
}
