//! The events of a simulation, one after the other.

ghost use Rattle.std.specs.Prelude.{◌≡◌, ◌≤◌, ◌<◌, ◌+◌, ◌^◌, ℕ, suc, List, Option, OnOk, IfErr, IsErrOf};
ghost use Rattle.pb_io.specs.Faults.{Rose};
ghost use Rattle.pb_sim_world.specs.Worlds.{world_of};
ghost use Rattle.pb_sim_play.specs.declared.stop.Stop.TheVariants as T;
ghost use Rattle.pb_sim_play.specs.Plans.{Source, May, pair_of, source_of, IsAt};
ghost use Rattle.pb_sim_play.specs.Records.{shown_by, HasPlayed};
ghost use Rattle.pb_sim_play.specs.Endings.{HasFailed, HasStopped};

use crate::fault::RecordFault;
use crate::plan::Plan;
use crate::record::Record;
use crate::stop::Stop;
use pb_io::Sink;
use pb_sched::Turn;
use pb_sim::{Sim, StepFault};
use std::alloc::Global;

/// Makes the event with this number, from 0, and keeps it.
#[tactic(auto, using(crate::proofs::Events::event_made, crate::proofs::Events::event_lost, crate::proofs::Events::event_broken))]
fn event<A: Fn(u64, u32, u64) -> u32 + Drop, O: Sink>(
    alloc: Global,
    sim: &mut Sim<A>,
    at: u32,
    turn: Turn,
    kept: &mut Record,
    out: &mut O,
) -> Result<(), Stop>
    requires callable { A.IsAlwaysCallable sim.old.answers.answer }
    requires few { sim.old.held.steps < 2 ^ 40 }
    ensures made { OnOk result ((source : Source) (start : Option (List ℕ)) → May sim.old.held.state.tree sim.old.held.state.n source at (world_of sim.old.held.state) (pair_of turn)
        → HasPlayed sim.old.held.state.tree sim.old.held.state.n (A.post sim.old.answers.answer sim.old.answers.seed) source start at sim.old.held kept.old (O.taken out.old)
        → HasPlayed sim.old.held.state.tree sim.old.held.state.n (A.post sim.old.answers.answer sim.old.answers.seed) source start (suc at) sim.new.held kept.new (O.taken out.new)) }
    ensures failed { IfErr result (λ stop. (source : Source) (start : Option (List ℕ)) → May sim.old.held.state.tree sim.old.held.state.n source at (world_of sim.old.held.state) (pair_of turn)
        → HasPlayed sim.old.held.state.tree sim.old.held.state.n (A.post sim.old.answers.answer sim.old.answers.seed) source start at sim.old.held kept.old (O.taken out.old)
        → HasFailed sim.old.held.state.tree sim.old.held.state.n (A.post sim.old.answers.answer sim.old.answers.seed) source (shown_by kept.old) start at stop kept.new (O.taken out.new)) }
    ensures answers { sim.new.answers ≡ sim.old.answers }
    ensures shown { shown_by kept.new ≡ shown_by kept.old }
    ensures tree { sim.new.held.state.tree ≡ sim.old.held.state.tree }
    ensures n { sim.new.held.state.n ≡ sim.old.held.state.n }
    ensures fault { IsErrOf result T.WriteFault → Rose (O.faults out.old) (O.faults out.new) }
    ensures later { O.faults out.old ≤ O.faults out.new }
{
    match sim.step(alloc, turn.rank, turn.mode) {
        Ok(done) => match kept.add(out, sim.tree(), turn, &done) {
            Ok(()) => Ok(()),
            Err(RecordFault::NoMemory) => Err(Stop::NoMemory),
            Err(RecordFault::WriteFault) => Err(Stop::WriteFault),
        },
        Err(StepFault::NotReady) => Err(Stop::Refused(at)),
        Err(StepFault::Full) => Err(Stop::Full),
        Err(StepFault::NoMemory) => Err(Stop::NoMemory),
    }
}

/// Makes the events of a plan, at most so many, and keeps them.
///
/// `WriteFault` comes only where the sink's count of faults rose in this call.
pub fn play<A: Fn(u64, u32, u64) -> u32 + Drop, O: Sink>(
    alloc: Global,
    sim: &mut Sim<A>,
    plan: &mut Plan,
    most: u32,
    kept: &mut Record,
    out: &mut O,
) -> Stop
    requires callable { A.IsAlwaysCallable sim.old.answers.answer }
    requires at { IsAt plan.old 0 }
    requires begun { HasPlayed sim.old.held.state.tree sim.old.held.state.n (A.post sim.old.answers.answer sim.old.answers.seed) (source_of plan.old) (O.taken out.old) 0 sim.old.held kept.old (O.taken out.old) }
    ensures stopped { HasStopped sim.old.held.state.tree sim.old.held.state.n (A.post sim.old.answers.answer sim.old.answers.seed) (source_of plan.old) most (shown_by kept.old) (O.taken out.old) result sim.new.held kept.new (O.taken out.new) }
    ensures shown { shown_by kept.new ≡ shown_by kept.old }
    ensures tree { sim.new.held.state.tree ≡ sim.old.held.state.tree }
    ensures n { sim.new.held.state.n ≡ sim.old.held.state.n }
    ensures fault { result ≡ T.WriteFault → Rose (O.faults out.old) (O.faults out.new) }
    ensures later { O.faults out.old ≤ O.faults out.new }
{
    for at in 0..most {
        let turn = match plan.turn(at, sim.ready_ranks()) {
            Some(turn) => turn,
            None => return Stop::Made,
        };
        match event(alloc, sim, at, turn, kept, out) {
            Ok(()) => {}
            Err(stop) => return stop,
        }
    }
    Stop::Made
}
