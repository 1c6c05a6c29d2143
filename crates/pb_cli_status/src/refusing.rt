//! Telling a refusal.

ghost use Rattle.std.specs.Prelude.{◌≡◌, ◌≤◌};
ghost use Rattle.pb_io.specs.Faults.{Rose};
ghost use Rattle.pb_cli_status.specs.Lines.{line_of, status_of};
ghost use Rattle.pb_cli_status.specs.Written.{Says};

use crate::refusal::Refusal;
use crate::status::Status;
use pb_io::{OutFault, Sink};

/// Writes the status line of a refusal, and tells the status. Takes no memory.
pub fn refuse<O: Sink>(out: &mut O, refusal: Refusal) -> Status
    ensures said { Says (status_of refusal) (line_of refusal) result (O.taken out.old) (O.taken out.new) }
    ensures read { result ≡ Status.ReadFault → refusal ≡ Refusal.ReadFault }
    ensures fault { result ≡ Status.WriteFault → Rose (O.faults out.old) (O.faults out.new) }
    ensures later { O.faults out.old ≤ O.faults out.new }
{
    match refusal.write_line(out) {
        Ok(()) => refusal.status(),
        Err(OutFault::WriteFault) => Status::WriteFault,
    }
}
