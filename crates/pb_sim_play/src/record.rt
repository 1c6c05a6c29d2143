ghost use Rattle.std.specs.Prelude.{◌≡◌, ◌≤◌, ℕ, [], ◌∷◌, ◌++◌, List, Option, OnOk, OnErr, IsErrOf};
ghost use Rattle.std.specs.Io.KnownBytes.{Appends};
ghost use Rattle.pb_world.specs.Actions.{Action};
ghost use Rattle.pb_local.specs.Tree.{program_of};
ghost use Rattle.pb_sched.specs.Logged.{log_line};
ghost use Rattle.pb_sim.specs.Scheduled as S;
ghost use Rattle.pb_io.specs.Faults.{Rose};
ghost use Rattle.pb_io.specs.Sinks.{AppendsFront};
ghost use Rattle.pb_sim_play.specs.Plans.{pair_of};
ghost use Rattle.pb_sim_play.specs.Plays.{log_of};
ghost use Rattle.pb_sim_play.specs.Endings.{part_of};
ghost use Rattle.pb_sim_play.specs.Records.{done_line, shown_by, Holds};

use crate::fault::RecordFault;
use crate::log::Log;
use pb_io::Sink;
use pb_sched::{CTree, NoMemory, Turn};
use pb_sim::StepDone;

/// What is kept of a simulation while it is played.
#[derive(Drop)]
pub enum Record {
    /// The log, of which the last lines aren't written yet.
    Lines(Log),
    /// The events.
    Turns(Vec<Turn>),
}

/// Keeps an event.
fn keep(turns: &mut Vec<Turn>, turn: Turn) -> Result<(), NoMemory>
    ensures kept { OnOk result (turns.new.items ≡ turns.old.items ++ turn ∷ []) }
    ensures same { OnErr result (turns.new.items ≡ turns.old.items) }
{
    turns.push(turn)?;
    Ok(())
}

impl Record {
    /// Keeps one event more, and what it did.
    ///
    /// `NoMemory` keeps all as before. `WriteFault` comes only where the sink's count of faults rose; then some first bytes
    /// of the log were written.
    #[tactic(auto, using(crate::proofs::Kept::log_kept, crate::proofs::Kept::log_failed, crate::proofs::Kept::turns_more))]
    pub fn add<O: Sink>(
        &mut self,
        out: &mut O,
        tree: &CTree,
        turn: Turn,
        done: &StepDone,
    ) -> Result<(), RecordFault>
        ensures added { OnOk result ((start : Option (List ℕ)) (turns : List S.Turn) (w v : List (ℕ × Action)) → done_line (program_of tree.now.local) done.now ≡ log_of (program_of tree.now.local) v
            → Holds start self.old (O.taken out.old) (program_of tree.now.local) turns w → Holds start self.new (O.taken out.new) (program_of tree.now.local) (turns ++ pair_of turn ∷ []) (w ++ v)) }
        ensures same { IsErrOf result RecordFault.NoMemory → (start : Option (List ℕ)) (turns : List S.Turn) (w : List (ℕ × Action))
            → Holds start self.old (O.taken out.old) (program_of tree.now.local) turns w → Holds start self.new (O.taken out.new) (program_of tree.now.local) turns w }
        ensures front { IsErrOf result RecordFault.WriteFault → (start : Option (List ℕ)) (turns : List S.Turn) (w v : List (ℕ × Action)) → done_line (program_of tree.now.local) done.now ≡ log_of (program_of tree.now.local) v
            → Holds start self.old (O.taken out.old) (program_of tree.now.local) turns w → AppendsFront start (O.taken out.new) (part_of (shown_by self.old) tree.now (w ++ v)) }
        ensures shown { shown_by self.new ≡ shown_by self.old }
        ensures fault { IsErrOf result RecordFault.WriteFault → Rose (O.faults out.old) (O.faults out.new) }
        ensures later { O.faults out.old ≤ O.faults out.new }
    {
        match self {
            Record::Lines(log) => match log.add(out, tree, done) {
                Ok(()) => Ok(()),
                Err(RecordFault::NoMemory) => Err(RecordFault::NoMemory),
                Err(RecordFault::WriteFault) => Err(RecordFault::WriteFault),
            },
            Record::Turns(turns) => match keep(turns, turn) {
                Ok(()) => Ok(()),
                Err(NoMemory) => Err(RecordFault::NoMemory),
            },
        }
    }
}
