ghost use Rattle.std.specs.Prelude.{◌≡◌, ◌≤◌, ℕ, List, [], ◌++◌, Option, OnOk, OnErr, IsErrOf};
ghost use Rattle.std.specs.Io.KnownBytes.{Appends};
ghost use Rattle.pb_local.specs.Tree.{program_of};
ghost use Rattle.pb_io.specs.Faults.{Rose};
ghost use Rattle.pb_io.specs.Sinks.{AppendsFront};
ghost use Rattle.pb_sim_play.specs.Records.{done_line, IsLog};

use crate::fault::RecordFault;
use pb_io::{OutFault, Sink, write_all};
use pb_sched::{CTree, NoMemory, push_line};
use pb_sim::StepDone;
use std::alloc::Global;

/// How many bytes are held back at least before they are written.
const PIECE: usize = 65_536;

/// The last lines of a log, which aren't written yet.
#[derive(Drop)]
pub struct Log {
    /// The bytes of the line that is made.
    line: Vec<u8>,
    pub lines: Vec<u8>,
}

impl Log {
    /// Of no lines.
    pub fn new(alloc: Global) -> Log
        ensures { result.lines.items ≡ [] }
    {
        Log {
            line: Vec::new(alloc),
            lines: Vec::new(alloc),
        }
    }

    /// Holds back the line of one step more.
    fn push(&mut self, tree: &CTree, done: &StepDone) -> Result<(), NoMemory>
        ensures whole { OnOk result (self.new.lines.items ≡ self.old.lines.items ++ done_line (program_of tree.now.local) done.now) }
        ensures same { OnErr result (self.new.lines.items ≡ self.old.lines.items) }
    {
        match done {
            StepDone::Silent => Ok(()),
            StepDone::Did(action) => {
                self.line.clear();
                push_line(&mut self.line, tree, action)?;
                self.lines.extend_from_slice(&self.line)?;
                Ok(())
            }
        }
    }

    /// Writes the lines that were held back.
    pub fn write<O: Sink>(&mut self, out: &mut O) -> Result<(), OutFault>
        ensures none { OnOk result (self.new.lines.items ≡ []) }
        ensures whole { OnOk result (Appends (O.taken out.old) (O.taken out.new) self.old.lines.items) }
        ensures front { OnErr result (AppendsFront (O.taken out.old) (O.taken out.new) self.old.lines.items) }
        ensures fault { OnErr result (Rose (O.faults out.old) (O.faults out.new)) }
        ensures later { O.faults out.old ≤ O.faults out.new }
    {
        write_all(out, &self.lines)?;
        self.lines.clear();
        Ok(())
    }

    /// Holds back the line of one step more, and writes what is held back where it is much.
    ///
    /// `NoMemory` holds back what was held back before. `WriteFault` comes only where the sink's count of faults rose; then
    /// some first bytes were written.
    #[tactic(auto, using(crate::proofs::Logs::written, crate::proofs::Logs::failed))]
    pub fn add<O: Sink>(
        &mut self,
        out: &mut O,
        tree: &CTree,
        done: &StepDone,
    ) -> Result<(), RecordFault>
        ensures added { OnOk result ((start : Option (List ℕ)) (text : List ℕ) → IsLog start self.old.lines.items (O.taken out.old) text
            → IsLog start self.new.lines.items (O.taken out.new) (text ++ done_line (program_of tree.now.local) done.now)) }
        ensures same { IsErrOf result RecordFault.NoMemory → (start : Option (List ℕ)) (text : List ℕ) → IsLog start self.old.lines.items (O.taken out.old) text
            → IsLog start self.new.lines.items (O.taken out.new) text }
        ensures front { IsErrOf result RecordFault.WriteFault → (start : Option (List ℕ)) (text : List ℕ) → IsLog start self.old.lines.items (O.taken out.old) text
            → AppendsFront start (O.taken out.new) (text ++ done_line (program_of tree.now.local) done.now) }
        ensures fault { IsErrOf result RecordFault.WriteFault → Rose (O.faults out.old) (O.faults out.new) }
        ensures later { O.faults out.old ≤ O.faults out.new }
    {
        self.push(tree, done)?;
        if self.lines.len() >= PIECE {
            self.write(out)?;
        }
        Ok(())
    }
}
