//! Bytes that are written whole.
ghost use Rattle.std.specs.Prelude.{◌≡◌, ◌≤◌, OnOk, OnErr};
ghost use Rattle.sessions.specs.Streams.{Appends, AppendsSome, SinkFailed};

use outside::{Failed, Sink};

/// Writes all of the bytes. Where the sink fails some of the first ones are written.
pub fn write_all<K: Sink>(sink: &mut K, bytes: &[u8]) -> Result<(), Failed>
    ensures written { OnOk result (Appends (K.held sink.old) (K.held sink.new) bytes.now) }
    ensures part { OnErr result (AppendsSome (K.held sink.old) (K.held sink.new) bytes.now) }
    ensures quiet { OnOk result ((K.faults sink.new ≡ K.faults sink.old) × (K.wants sink.new ≡ K.wants sink.old)) }
    ensures never_falls { K.faults sink.old ≤ K.faults sink.new }
    ensures failed { OnErr result (SinkFailed (K.faults sink.old) (K.faults sink.new)
        (K.wants sink.old) (K.wants sink.new) (K.is_reliable sink.old)) }
    ensures reliable { K.is_reliable sink.new ≡ K.is_reliable sink.old }
{
    let mut written = 0;
    while written < bytes.len() {
        written += sink.write(&bytes[written..])?;
    }
    Ok(())
}
