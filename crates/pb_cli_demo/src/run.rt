//! The run of the demo protocol at N = 8.

ghost use Rattle.std.specs.Prelude.{pos, IfOk, IfErr};
ghost use Rattle.pb_cli_status.specs.Lines.{line_of, status_of};
ghost use Rattle.pb_sim.specs.Made.{IsBegun};
ghost use Rattle.pb_cli_demo.specs.Demo.{HasCounts, IsReply, IsTreeOf};

use crate::protocol::tree_of;
use pb_cli_status::Refusal;
use pb_ctree::CTree;
use pb_sim::{Answers, Counts, Sim, SimFault, Standing};
use pb_sim_count::{Stop, play};
use pb_text::MOST_EVENTS;
use std::alloc::Global;

/// N.
const RANKS: i64 = 8;

/// The counts of a simulation that has begun, by this seed, or why it doesn't come to an end.
#[tactic(auto, using(crate::proofs::Runs::run_ended, crate::proofs::Runs::run_going, crate::proofs::Runs::run_stuck, crate::proofs::Runs::run_full))]
fn played<A: Fn(u64, u32, u64) -> u32 + Drop>(
    alloc: Global,
    sim: &mut Sim<A>,
    seed: u64,
) -> Result<Counts, Refusal>
    requires callable { A.IsAlwaysCallable sim.old.answers.answer }
    requires begun { IsBegun sim.old.held.state.tree (pos 8) sim.old.held }
    requires compiled { IsTreeOf seed sim.old.held.state.tree }
    ensures counts { IfOk result (HasCounts (A.post sim.old.answers.answer sim.old.answers.seed) seed) }
    ensures denied { IfErr result (λ why. IsReply (A.post sim.old.answers.answer sim.old.answers.seed) seed (status_of why) (line_of why)) }
{
    match play(alloc, sim, seed) {
        Stop::Made => match sim.standing() {
            Standing::Ended => Ok(sim.counts()),
            Standing::Going => Err(Refusal::Turns(MOST_EVENTS)),
            Standing::Stuck { .. } => unreachable!(),
        },
        Stop::Full => Err(Refusal::WordsInFlight),
        Stop::NoMemory => Err(Refusal::NoMemory),
    }
}

/// The counts of a simulation of the demo's tree, by this seed, or why there are none.
#[tactic(auto, using(crate::proofs::Runs::made, crate::proofs::Runs::number, crate::proofs::Runs::too_many))]
fn simulated<A: Fn(u64, u32, u64) -> u32 + Drop>(
    alloc: Global,
    tree: CTree,
    seed: u64,
    answers: A,
) -> Result<Counts, Refusal>
    requires callable { A.IsAlwaysCallable answers }
    requires compiled { IsTreeOf seed tree }
    ensures counts { IfOk result (HasCounts (A.post answers seed) seed) }
    ensures denied { IfErr result (λ why. IsReply (A.post answers seed) seed (status_of why) (line_of why)) }
{
    let answers = Answers::new(answers, seed);
    match Sim::new(alloc, tree, RANKS, answers) {
        Ok(mut sim) => played(alloc, &mut sim, seed),
        Err(SimFault::OutOfRange) => unreachable!(),
        Err(SimFault::TooManyRanks) => Err(Refusal::Ranks),
        Err(SimFault::NoMemory) => Err(Refusal::NoMemory),
    }
}

/// The counts of the demo's run, with the number of statements for its seed, or why there are none.
pub fn run<A: Fn(u64, u32, u64) -> u32 + Drop>(
    alloc: Global,
    count: u32,
    answers: A,
) -> Result<Counts, Refusal>
    requires callable { A.IsAlwaysCallable answers }
    ensures counts { IfOk result (HasCounts (A.post answers count) count) }
    ensures denied { IfErr result (λ why. IsReply (A.post answers count) count (status_of why) (line_of why)) }
{
    match tree_of(alloc, count) {
        Ok(tree) => simulated(alloc, tree, u64::from(count), answers),
        Err(why) => Err(why),
    }
}
