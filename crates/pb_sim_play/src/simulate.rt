//! Whole simulations.

ghost use Rattle.std.specs.Prelude.{◌≡◌, ◌≤◌, ℕ, List, Option, length, map};
ghost use Rattle.pb_text.specs.declared.limits.TheConstants.{MOST_EVENTS};
ghost use Rattle.pb_io.specs.Faults.{Rose};
ghost use Rattle.pb_world.specs.Actions.{Action};
ghost use Rattle.pb_ctree.specs.declared.tree.CTree.{CTree};
ghost use Rattle.pb_local.specs.Tree.{program_of};
ghost use Rattle.pb_sim.specs.Scheduled as S;
ghost use Rattle.pb_sim.specs.Made.{IsBegun};
ghost use Rattle.pb_cli_words.specs.declared.options.Shown.TheVariants as H;
ghost use Rattle.pb_sim_play.specs.declared.ending.Ending.TheVariants as E;
ghost use Rattle.pb_sim_play.specs.Plans.{drawn, given, pair_of, source_of, IsAt};
ghost use Rattle.pb_sim_play.specs.Records.{shown_by, Holds, IsShort};
ghost use Rattle.pb_sim_play.specs.Endings.{ending_of, part_of, text_of, IsMostOf, Tells, WritesPart, WritesWhole};

use crate::ending::Ending;
use crate::fault::RecordFault;
use crate::plan::Plan;
use crate::play::play;
use crate::record::Record;
use crate::stop::Stop;
use pb_cli_words::{Options, Shown};
use pb_io::{OutFault, Sink};
use pb_sched::{Picks, Turn};
use pb_sim::{Sim, Standing};
use std::alloc::Global;

/// How a simulation ended that stands so, where all events were made or nobody has a step.
fn ending_of(standing: Standing) -> Ending
    ensures ending { result ≡ ending_of standing }
    ensures real { result ≡ E.WriteFault → ⊥ }
{
    match standing {
        Standing::Going => Ending::Turns,
        Standing::Ended => Ending::Ended,
        Standing::Stuck { rank, cause } => Ending::Stuck { rank, cause },
    }
}

/// Writes what belongs to a simulation that came to its end.
fn end<O: Sink>(alloc: Global, kept: Record, seed: u64, ending: Ending, out: &mut O) -> Ending
    requires short { IsShort kept }
    requires real { ending ≡ E.WriteFault → ⊥ }
    ensures writes { (start : Option (List ℕ)) (tree : CTree) (turns : List S.Turn) (w : List (ℕ × Action)) → Holds start kept (O.taken out.old) (program_of tree.local) turns w
        → WritesWhole ending result start (O.taken out.new) (text_of (shown_by kept) seed tree turns w) (part_of (shown_by kept) tree w) }
    ensures fault { result ≡ E.WriteFault → Rose (O.faults out.old) (O.faults out.new) }
    ensures later { O.faults out.old ≤ O.faults out.new }
{
    match kept.write_whole(alloc, seed, out) {
        Ok(()) => ending,
        Err(RecordFault::NoMemory) => Ending::NoMemory,
        Err(RecordFault::WriteFault) => Ending::WriteFault,
    }
}

/// Writes what belongs to one that didn't.
fn part<O: Sink>(mut kept: Record, ending: Ending, out: &mut O) -> Ending
    requires { ending ≡ E.WriteFault → ⊥ }
    ensures writes { (start : Option (List ℕ)) (tree : CTree) (turns : List S.Turn) (w : List (ℕ × Action)) → Holds start kept (O.taken out.old) (program_of tree.local) turns w
        → WritesPart ending result start (O.taken out.new) (part_of (shown_by kept) tree w) }
    ensures fault { result ≡ E.WriteFault → Rose (O.faults out.old) (O.faults out.new) }
    ensures later { O.faults out.old ≤ O.faults out.new }
{
    match kept.write_part(out) {
        Ok(()) => ending,
        Err(OutFault::WriteFault) => Ending::WriteFault,
    }
}

/// Plays a plan to its end.
fn simulate<A: Fn(u64, u32, u64) -> u32 + Drop, O: Sink>(
    alloc: Global,
    sim: &mut Sim<A>,
    mut plan: Plan,
    most: u32,
    shown: Shown,
    seed: u64,
    out: &mut O,
) -> Ending
    requires callable { A.IsAlwaysCallable sim.old.answers.answer }
    requires begun { IsBegun sim.old.held.state.tree sim.old.held.state.n sim.old.held }
    requires at { IsAt plan 0 }
    requires most { IsMostOf (source_of plan) most }
    requires few { most ≤ MOST_EVENTS }
    ensures told { Tells sim.old.held.state.tree sim.old.held.state.n (A.post sim.old.answers.answer sim.old.answers.seed) (source_of plan.entry) most shown seed result (O.taken out.old) (O.taken out.new) }
    ensures tree { sim.new.held.state.tree ≡ sim.old.held.state.tree }
    ensures fault { result ≡ E.WriteFault → Rose (O.faults out.old) (O.faults out.new) }
    ensures later { O.faults out.old ≤ O.faults out.new }
{
    let mut kept = Record::new(alloc, shown);
    match play(alloc, sim, &mut plan, most, &mut kept, out) {
        Stop::Made => end(alloc, kept, seed, ending_of(sim.standing()), out),
        Stop::Refused(at) => part(kept, Ending::Refused(at), out),
        Stop::Full => part(kept, Ending::Full, out),
        Stop::NoMemory => part(kept, Ending::NoMemory, out),
        Stop::WriteFault => Ending::WriteFault,
    }
}

/// Plays the events that the options ask for, and writes the log, or the schedule alone.
///
/// `WriteFault` comes only where the sink's count of faults rose in this call.
pub fn simulate_by_seed<A: Fn(u64, u32, u64) -> u32 + Drop, O: Sink>(
    alloc: Global,
    sim: &mut Sim<A>,
    options: Options,
    out: &mut O,
) -> Ending
    requires callable { A.IsAlwaysCallable sim.old.answers.answer }
    requires begun { IsBegun sim.old.held.state.tree sim.old.held.state.n sim.old.held }
    requires few { options.turns ≤ MOST_EVENTS }
    ensures told { Tells sim.old.held.state.tree sim.old.held.state.n (A.post sim.old.answers.answer sim.old.answers.seed) (drawn options.seed options.modes) options.turns options.shown options.seed
        result (O.taken out.old) (O.taken out.new) }
    ensures tree { sim.new.held.state.tree ≡ sim.old.held.state.tree }
    ensures fault { result ≡ E.WriteFault → Rose (O.faults out.old) (O.faults out.new) }
    ensures later { O.faults out.old ≤ O.faults out.new }
{
    let plan = Plan::Drawn(Picks::new(options.seed), options.modes);
    simulate(
        alloc,
        sim,
        plan,
        options.turns,
        options.shown,
        options.seed,
        out,
    )
}

/// Plays the events of a schedule, and writes the log.
///
/// `WriteFault` comes only where the sink's count of faults rose in this call.
pub fn simulate_by_schedule<A: Fn(u64, u32, u64) -> u32 + Drop, O: Sink>(
    alloc: Global,
    sim: &mut Sim<A>,
    turns: &[Turn],
    out: &mut O,
) -> Ending
    requires callable { A.IsAlwaysCallable sim.old.answers.answer }
    requires begun { IsBegun sim.old.held.state.tree sim.old.held.state.n sim.old.held }
    requires few { length turns.now ≤ MOST_EVENTS }
    ensures told { Tells sim.old.held.state.tree sim.old.held.state.n (A.post sim.old.answers.answer sim.old.answers.seed) (given (map pair_of turns.now)) (length turns.now) H.Log 0
        result (O.taken out.old) (O.taken out.new) }
    ensures tree { sim.new.held.state.tree ≡ sim.old.held.state.tree }
    ensures fault { result ≡ E.WriteFault → Rose (O.faults out.old) (O.faults out.new) }
    ensures later { O.faults out.old ≤ O.faults out.new }
{
    simulate(
        alloc,
        sim,
        Plan::Given(turns),
        turns.len() as u32,
        Shown::Log,
        0,
        out,
    )
}
