ghost use Rattle.std.specs.Prelude.{◌≤◌, OnOk, OnErr};
ghost use Rattle.std.specs.Io.KnownBytes.{Appends};
ghost use Rattle.pb_io.specs.Faults.{Rose};
ghost use Rattle.pb_io.specs.Sinks.{AppendsFront};

use crate::{OutFault, Sink};

/// Appends all bytes to the sink. Takes no memory.
///
/// `WriteFault` comes only where the sink's count of faults rose in this call; then some first bytes were appended,
/// and not all.
pub fn write_all<O: Sink>(out: &mut O, bytes: &[u8]) -> Result<(), OutFault>
    ensures whole { OnOk result (Appends (O.taken out.old) (O.taken out.new) bytes.now) }
    ensures front { OnErr result (AppendsFront (O.taken out.old) (O.taken out.new) bytes.now) }
    ensures fault { OnErr result (Rose (O.faults out.old) (O.faults out.new)) }
    ensures later { O.faults out.old ≤ O.faults out.new }
{
    let mut done = 0;
    while done < bytes.len() {
        done += out.write(&bytes[done..])?;
    }
    Ok(())
}
