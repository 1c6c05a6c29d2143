//! What is written of a simulation where it ends.

ghost use Rattle.std.specs.Prelude.{◌≡◌, ◌≤◌, ℕ, List, Option, [], length, OnOk, OnErr, IsErrOf};
ghost use Rattle.std.specs.Io.KnownBytes.{Appends};
ghost use Rattle.pb_text.specs.declared.limits.TheConstants.{MOST_EVENTS};
ghost use Rattle.pb_world.specs.Actions.{Action};
ghost use Rattle.pb_ctree.specs.declared.tree.CTree.{CTree};
ghost use Rattle.pb_local.specs.Tree.{Program, program_of};
ghost use Rattle.pb_sched.specs.Formats.{layout};
ghost use Rattle.pb_sched.specs.declared.format.Format.TheVariants.{Two};
ghost use Rattle.pb_sim.specs.Scheduled as S;
ghost use Rattle.pb_io.specs.Faults.{Rose};
ghost use Rattle.pb_io.specs.Sinks.{AppendsFront};
ghost use Rattle.pb_sim_play.specs.Plays.{log_of};
ghost use Rattle.pb_sim_play.specs.Records.{shown_by, Holds, IsShort};
ghost use Rattle.pb_sim_play.specs.Endings.{part_of, text_of};

use crate::fault::RecordFault;
use crate::log::Log;
use crate::record::Record;
use pb_cli_words::Shown;
use pb_io::{OutFault, Sink, write_all};
use pb_sched::{Schedule, print_schedule};
use std::alloc::Global;

/// Appends the text of a schedule. `NoMemory` leaves the sink as it was.
fn write_schedule<O: Sink>(
    alloc: Global,
    schedule: Schedule,
    out: &mut O,
) -> Result<(), RecordFault>
    requires { length schedule.turns.items ≤ MOST_EVENTS }
    ensures whole { OnOk result (Appends (O.taken out.old) (O.taken out.new) (layout Two schedule.seed schedule.turns.items)) }
    ensures same { IsErrOf result RecordFault.NoMemory → O.taken out.new ≡ O.taken out.old }
    ensures front { IsErrOf result RecordFault.WriteFault → AppendsFront (O.taken out.old) (O.taken out.new) (layout Two schedule.seed schedule.turns.items) }
    ensures fault { IsErrOf result RecordFault.WriteFault → Rose (O.faults out.old) (O.faults out.new) }
    ensures later { O.faults out.old ≤ O.faults out.new }
{
    let text = match print_schedule(alloc, &schedule) {
        Ok(text) => text,
        Err(_) => return Err(RecordFault::NoMemory),
    };
    match write_all(out, &text) {
        Ok(()) => Ok(()),
        Err(OutFault::WriteFault) => Err(RecordFault::WriteFault),
    }
}

impl Record {
    /// Of nothing that was done.
    #[tactic(auto, using(crate::proofs::Kept::nothing, crate::proofs::Kept::no_lines))]
    pub fn new(alloc: Global, shown: Shown) -> Record
        ensures holds { (start : Option (List ℕ)) (p : Program) → Holds start result start p [] [] }
        ensures shown { shown_by result ≡ shown }
    {
        match shown {
            Shown::Log => Record::Lines(Log::new(alloc)),
            Shown::Schedule => Record::Turns(Vec::new(alloc)),
        }
    }

    /// Writes what is left of a log; of a schedule nothing is written.
    #[tactic(auto, using(crate::proofs::Logs::done, crate::proofs::Logs::failed))]
    pub fn write_part<O: Sink>(&mut self, out: &mut O) -> Result<(), OutFault>
        ensures whole { OnOk result ((start : Option (List ℕ)) (tree : CTree) (turns : List S.Turn) (w : List (ℕ × Action)) → Holds start self.old (O.taken out.old) (program_of tree.local) turns w
            → Appends start (O.taken out.new) (part_of (shown_by self.old) tree w)) }
        ensures front { OnErr result ((start : Option (List ℕ)) (tree : CTree) (turns : List S.Turn) (w : List (ℕ × Action)) → Holds start self.old (O.taken out.old) (program_of tree.local) turns w
            → AppendsFront start (O.taken out.new) (part_of (shown_by self.old) tree w)) }
        ensures fault { OnErr result (Rose (O.faults out.old) (O.faults out.new)) }
        ensures later { O.faults out.old ≤ O.faults out.new }
    {
        match self {
            Record::Lines(log) => log.write(out),
            Record::Turns(_) => Ok(()),
        }
    }

    /// Writes what is left of a log, or the schedule. `NoMemory` comes where the schedule can't be made, and nothing was
    /// written of it.
    #[tactic(auto, using(crate::proofs::Logs::done, crate::proofs::Logs::failed, crate::proofs::Kept::schedule_out, crate::proofs::Kept::schedule_failed))]
    pub fn write_whole<O: Sink>(
        self,
        alloc: Global,
        seed: u64,
        out: &mut O,
    ) -> Result<(), RecordFault>
        requires { IsShort self }
        ensures whole { OnOk result ((start : Option (List ℕ)) (tree : CTree) (turns : List S.Turn) (w : List (ℕ × Action)) → Holds start self (O.taken out.old) (program_of tree.local) turns w
            → Appends start (O.taken out.new) (text_of (shown_by self) seed tree turns w)) }
        ensures part { IsErrOf result RecordFault.NoMemory → (start : Option (List ℕ)) (tree : CTree) (turns : List S.Turn) (w : List (ℕ × Action)) → Holds start self (O.taken out.old) (program_of tree.local) turns w
            → Appends start (O.taken out.new) (part_of (shown_by self) tree w) }
        ensures front { IsErrOf result RecordFault.WriteFault → (start : Option (List ℕ)) (tree : CTree) (turns : List S.Turn) (w : List (ℕ × Action)) → Holds start self (O.taken out.old) (program_of tree.local) turns w
            → AppendsFront start (O.taken out.new) (text_of (shown_by self) seed tree turns w) }
        ensures fault { IsErrOf result RecordFault.WriteFault → Rose (O.faults out.old) (O.faults out.new) }
        ensures later { O.faults out.old ≤ O.faults out.new }
    {
        match self {
            Record::Lines(mut log) => match log.write(out) {
                Ok(()) => Ok(()),
                Err(OutFault::WriteFault) => Err(RecordFault::WriteFault),
            },
            Record::Turns(turns) => match write_schedule(alloc, Schedule { seed, turns }, out) {
                Ok(()) => Ok(()),
                Err(RecordFault::NoMemory) => Err(RecordFault::NoMemory),
                Err(RecordFault::WriteFault) => Err(RecordFault::WriteFault),
            },
        }
    }
}
