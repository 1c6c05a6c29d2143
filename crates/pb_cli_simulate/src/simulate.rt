//! Simulations of a tree.

ghost use Rattle.std.specs.Prelude.{◌≡◌, ◌≤◌, pos, length, map, IfOk, IfErr};
ghost use Rattle.pb_text.specs.declared.limits.TheConstants.{MOST_EVENTS};
ghost use Rattle.pb_io.specs.Faults.{Rose};
ghost use Rattle.pb_ctree.specs.Trees.{IsTree};
ghost use Rattle.pb_cli_status.specs.declared.status.Status.TheVariants as S;
ghost use Rattle.pb_cli_words.specs.declared.options.Shown.TheVariants as H;
ghost use Rattle.pb_sim.specs.Made.{IsBegun, IsNoStart};
ghost use Rattle.pb_sim_play.specs.Plans.{drawn, given, pair_of};
ghost use Rattle.pb_cli_simulate.specs.Replies.{refusal_of, SaysReply};

use crate::finish::finish;
use pb_cli_status::{Refusal, Status, refuse};
use pb_cli_words::{Options, Shown};
use pb_ctree::{CTree, NRange};
use pb_io::Sink;
use pb_sched::{Schedule, Turn};
use pb_sim::{Answers, Sim, SimFault};
use pb_sim_play::{simulate_by_schedule, simulate_by_seed};
use std::alloc::Global;

/// What a fault of the start is to the program.
fn refusal_of(fault: SimFault, n: u32, range: NRange) -> Refusal
    ensures { result ≡ refusal_of fault n range }
{
    match fault {
        SimFault::OutOfRange => Refusal::OutOfRange { n, range },
        SimFault::TooManyRanks => Refusal::Ranks,
        SimFault::NoMemory => Refusal::NoMemory,
    }
}

/// A simulation of a tree for an N, in which nothing was done.
fn start<A: Fn(u64, u32, u64) -> u32 + Drop>(
    alloc: Global,
    tree: CTree,
    n: u32,
    answers: Answers<A>,
) -> Result<Sim<A>, SimFault>
    requires { IsTree tree }
    ensures begun { IfOk result (λ s. IsBegun tree (pos n) s.held) }
    ensures answers { IfOk result (λ s. s.answers ≡ answers) }
    ensures out { IfErr result (IsNoStart tree (pos n)) }
{
    Sim::new(alloc, tree, i64::from(n), answers)
}

/// Plays a simulation as the options ask for, and tells how it ended.
fn by_seed<A: Fn(u64, u32, u64) -> u32 + Drop, O: Sink>(
    alloc: Global,
    sim: &mut Sim<A>,
    options: Options,
    out: &mut O,
) -> Status
    requires callable { A.IsAlwaysCallable sim.old.answers.answer }
    requires begun { IsBegun sim.old.held.state.tree (pos options.n) sim.old.held }
    requires few { options.turns ≤ MOST_EVENTS }
    ensures told { SaysReply sim.old.held.state.tree options.n (A.post sim.old.answers.answer sim.old.answers.seed) (drawn options.seed options.modes) options.turns options.shown options.seed result (O.taken out.old) (O.taken out.new) }
    ensures fault { result ≡ S.WriteFault → Rose (O.faults out.old) (O.faults out.new) }
    ensures later { O.faults out.old ≤ O.faults out.new }
{
    let ending = simulate_by_seed(alloc, sim, options, out);
    finish(out, &sim.tree().local, options.turns, options.shown, ending)
}

/// Plays the events of a schedule, and tells how the simulation ended.
fn by_schedule<A: Fn(u64, u32, u64) -> u32 + Drop, O: Sink>(
    alloc: Global,
    sim: &mut Sim<A>,
    n: u32,
    turns: &[Turn],
    out: &mut O,
) -> Status
    requires callable { A.IsAlwaysCallable sim.old.answers.answer }
    requires begun { IsBegun sim.old.held.state.tree (pos n) sim.old.held }
    requires few { length turns.now ≤ MOST_EVENTS }
    ensures told { SaysReply sim.old.held.state.tree n (A.post sim.old.answers.answer sim.old.answers.seed) (given (map pair_of turns.now)) (length turns.now) H.Log 0 result (O.taken out.old) (O.taken out.new) }
    ensures fault { result ≡ S.WriteFault → Rose (O.faults out.old) (O.faults out.new) }
    ensures later { O.faults out.old ≤ O.faults out.new }
{
    let ending = simulate_by_schedule(alloc, sim, turns, out);
    finish(
        out,
        &sim.tree().local,
        turns.len() as u32,
        Shown::Log,
        ending,
    )
}

/// Simulates a tree as the options ask for, and writes the log and the line `ended`, or the schedule alone; or else the line of
/// the status, behind the log so far, or behind the schedule where the simulation came to its end.
///
/// `WriteFault` comes only where the sink's count of faults rose in this call; then some first bytes of what belongs there were
/// written. Where memory doesn't run out, `OutOfRange` comes exactly where N isn't in the tree's range, else `Limit` where
/// there would be more than 1,024 ranks. Else `Limit` comes exactly where fewer events were made than were asked for and the next
/// one is a send after which more than 16,777,216 words would be in flight; `Done` where all ranks have ended and no message is
/// left; `Stuck` where nobody has a step otherwise; and `Turns` where all events were made and some rank has a step.
pub fn simulate_tree<A: Fn(u64, u32, u64) -> u32 + Drop, O: Sink>(
    alloc: Global,
    tree: CTree,
    options: Options,
    answers: A,
    out: &mut O,
) -> Status
    requires callable { A.IsAlwaysCallable answers }
    requires tree { IsTree tree }
    requires few { options.turns ≤ MOST_EVENTS }
    ensures told { SaysReply tree options.n (A.post answers options.seed) (drawn options.seed options.modes) options.turns options.shown options.seed result (O.taken out.old) (O.taken out.new) }
    ensures fault { result ≡ S.WriteFault → Rose (O.faults out.old) (O.faults out.new) }
    ensures later { O.faults out.old ≤ O.faults out.new }
{
    let range = tree.local.range;
    let answers = Answers::new(answers, options.seed);
    match start(alloc, tree, options.n, answers) {
        Err(fault) => refuse(out, refusal_of(fault, options.n, range)),
        Ok(mut sim) => by_seed(alloc, &mut sim, options, out),
    }
}

/// Simulates a tree for an N by a schedule, and writes the log and the line `ended`; or else the line of the status behind the
/// log so far.
///
/// The causes are those of `simulate_tree`. Besides, `Schedule` comes where an event names a rank that has no step, and `Done`,
/// `Stuck` and `Turns` come where all events were made.
pub fn replay_tree<A: Fn(u64, u32, u64) -> u32 + Drop, O: Sink>(
    alloc: Global,
    tree: CTree,
    n: u32,
    schedule: &Schedule,
    answers: A,
    out: &mut O,
) -> Status
    requires callable { A.IsAlwaysCallable answers }
    requires tree { IsTree tree }
    requires few { length schedule.now.turns.items ≤ MOST_EVENTS }
    ensures told { SaysReply tree n (A.post answers schedule.now.seed) (given (map pair_of schedule.now.turns.items)) (length schedule.now.turns.items) H.Log 0 result (O.taken out.old) (O.taken out.new) }
    ensures fault { result ≡ S.WriteFault → Rose (O.faults out.old) (O.faults out.new) }
    ensures later { O.faults out.old ≤ O.faults out.new }
{
    let range = tree.local.range;
    let answers = Answers::new(answers, schedule.seed);
    match start(alloc, tree, n, answers) {
        Err(fault) => refuse(out, refusal_of(fault, n, range)),
        Ok(mut sim) => by_schedule(alloc, &mut sim, n, schedule.turns.as_slice(), out),
    }
}
