// Bytes that are written whole to a sink.
ghost use Rattle.std.specs.Prelude.{◌<◌, ℕ, length, take, OnOk, OnErr};
ghost use Rattle.std.specs.Io.KnownBytes.{Appends};
ghost use Rattle.io_world.specs.Faults.{last_count, HasCause};
ghost use Rattle.io_world.specs.declared.sink.SinkFault.TheVariants.{Failed};

use crate::sink::{Sink, SinkFault};

/// Writes all of these bytes to a sink.
///
/// # Errors
/// `Failed` where a write failed; the count of faults rose. The sink took the first bytes then, but
/// not all.
pub fn write_all<O: Sink>(out: &mut O, bytes: &[u8]) -> Result<(), SinkFault>
    ensures all { OnOk result (Appends (O.taken out.old) (O.taken out.new) bytes.now) }
    ensures part { OnErr result ((n : ℕ) × (n < length bytes.now)
        × Appends (O.taken out.old) (O.taken out.new) (take n bytes.now)) }
    ensures cause { HasCause Failed last_count (O.faults out.old) (O.faults out.new) result }
{
    let mut done = 0;
    while done < bytes.len() {
        done += out.write(&bytes[done..])?;
    }
    Ok(())
}
