//! The last line of a simulation, and the status.

ghost use Rattle.std.specs.Prelude.{◌≡◌, ◌≤◌, ◌⊎◌};
ghost use Rattle.pb_local.specs.Tree.{program_of};
ghost use Rattle.pb_io.specs.Faults.{Rose};
ghost use Rattle.pb_cli_status.specs.Written.{Says};
ghost use Rattle.pb_cli_status.specs.declared.status.Status.TheVariants as S;
ghost use Rattle.pb_sim_play.specs.declared.ending.Ending.TheVariants as E;
ghost use Rattle.pb_cli_simulate.specs.Endings.{ended_line, last_line, status_of, stuck_line, IsEarly};

use crate::stuck::write_stuck;
use pb_cli_status::{Refusal, Status, refuse};
use pb_cli_words::Shown;
use pb_io::{OutFault, Sink, write_all};
use pb_local::Local;
use pb_sim::Cause;
use pb_sim_play::Ending;

/// Writes the end of a log that is whole, or of a schedule nothing, and tells that all is done.
fn done<O: Sink>(out: &mut O, shown: Shown) -> Status
    ensures said { Says S.Done (ended_line shown) result (O.taken out.old) (O.taken out.new) }
    ensures fault { result ≡ S.WriteFault → Rose (O.faults out.old) (O.faults out.new) }
    ensures later { O.faults out.old ≤ O.faults out.new }
{
    match shown {
        Shown::Log => match write_all(out, b"ended\n") {
            Ok(()) => Status::Done,
            Err(OutFault::WriteFault) => Status::WriteFault,
        },
        Shown::Schedule => Status::Done,
    }
}

/// Writes the line of a simulation in which nobody can go on, and tells its status.
fn stuck<O: Sink>(out: &mut O, local: &Local, rank: u32, cause: Cause) -> Status
    ensures said { Says S.Stuck (stuck_line (program_of local.now) rank cause) result (O.taken out.old) (O.taken out.new) }
    ensures fault { result ≡ S.WriteFault → Rose (O.faults out.old) (O.faults out.new) }
    ensures later { O.faults out.old ≤ O.faults out.new }
{
    match write_stuck(out, local, rank, cause) {
        Ok(()) => Status::Stuck,
        Err(OutFault::WriteFault) => Status::WriteFault,
    }
}

/// Writes the last line of a simulation that ended so, and tells its status. Takes no memory.
pub fn finish<O: Sink>(
    out: &mut O,
    local: &Local,
    most: u32,
    shown: Shown,
    ending: Ending,
) -> Status
    requires few { IsEarly ending }
    ensures said { Says (status_of ending) (last_line (program_of local.now) most shown ending) result (O.taken out.old) (O.taken out.new) }
    ensures fault { result ≡ S.WriteFault → (ending ≡ E.WriteFault) ⊎ Rose (O.faults out.old) (O.faults out.new) }
    ensures later { O.faults out.old ≤ O.faults out.new }
{
    match ending {
        Ending::Ended => done(out, shown),
        Ending::Stuck { rank, cause } => stuck(out, local, rank, cause),
        Ending::Turns => refuse(out, Refusal::Turns(most)),
        Ending::Refused(at) => refuse(out, Refusal::Schedule(at + 3)),
        Ending::Full => refuse(out, Refusal::WordsInFlight),
        Ending::NoMemory => refuse(out, Refusal::NoMemory),
        Ending::WriteFault => Status::WriteFault,
    }
}
