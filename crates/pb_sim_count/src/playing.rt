//! The events of a seed, one after the other, each eager.

ghost use Rattle.std.specs.Prelude.{◌≡◌, ◌+◌, ◌<◌, ◌^◌, ℤ, OnOk};
ghost use Rattle.pb_ctree.specs.declared.tree.CTree.{CTree};
ghost use Rattle.pb_sim.specs.Made.{IsBegun};
ghost use Rattle.pb_sim_count.specs.Played.{HasGone, HasMade, HasStopped, eager};

use pb_sched::Picks;
use pb_sim::{Sim, StepFault};
use pb_text::{MOST_EVENTS, Mode};
use std::alloc::Global;

/// Why no more events are made.
#[derive(Clone, Copy)]
pub enum Stop {
    /// All events were made, or nobody has a step.
    Made,
    /// After the next event more than 16,777,216 words would be in flight.
    Full,
    /// Memory ran out.
    NoMemory,
}

/// Makes the next event.
#[tactic(auto, using(crate::proofs::Events::no_event, crate::proofs::Events::never_unready, crate::proofs::Events::event_made, crate::proofs::Events::event_full))]
fn event<A: Fn(u64, u32, u64) -> u32 + Drop>(
    alloc: Global,
    sim: &mut Sim<A>,
    picks: &mut Picks,
) -> Result<(), Stop>
    requires callable { A.IsAlwaysCallable sim.old.answers.answer }
    requires few { sim.old.held.steps < 2 ^ 40 }
    requires turn { picks.old.turn < 2 ^ 62 }
    ensures gone { (tree : CTree) (n : ℤ) → HasMade tree n (A.post sim.old.answers.answer sim.old.answers.seed) (eager picks.old.seed) picks.old.turn sim.old.held
        → HasGone tree n (A.post sim.old.answers.answer sim.old.answers.seed) (eager picks.old.seed) picks.old.turn sim.new.held result }
    ensures answers { sim.new.answers ≡ sim.old.answers }
    ensures seed { picks.new.seed ≡ picks.old.seed }
    ensures turn { OnOk result (picks.new.turn ≡ picks.old.turn + 1) }
{
    let ready = sim.ready_ranks();
    if ready.is_empty() {
        return Err(Stop::Made);
    }
    let rank = picks.next().among(ready);
    match sim.step(alloc, rank, Mode::Eager) {
        Ok(_) => {}
        Err(StepFault::NotReady) => unreachable!(),
        Err(StepFault::Full) => return Err(Stop::Full),
        Err(StepFault::NoMemory) => return Err(Stop::NoMemory),
    }
    Ok(())
}

/// Makes the events of a seed, as many as there are, and at most 1,000,000.
#[tactic(auto, using(crate::proofs::Events::nothing_made, crate::proofs::Events::halted, crate::proofs::Events::all_at))]
pub fn play<A: Fn(u64, u32, u64) -> u32 + Drop>(alloc: Global, sim: &mut Sim<A>, seed: u64) -> Stop
    requires callable { A.IsAlwaysCallable sim.old.answers.answer }
    requires begun { IsBegun sim.old.held.state.tree sim.old.held.state.n sim.old.held }
    ensures { HasStopped sim.old.held.state.tree sim.old.held.state.n (A.post sim.old.answers.answer sim.old.answers.seed) (eager seed) MOST_EVENTS sim.new.held result }
{
    let mut picks = Picks::new(seed);
    for _at in 0..MOST_EVENTS {
        match event(alloc, sim, &mut picks) {
            Ok(()) => {}
            Err(stop) => return stop,
        }
    }
    Stop::Made
}
