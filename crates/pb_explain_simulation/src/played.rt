//! Simulations of a text that are played once more, to tell how they stand at their end.

ghost use Rattle.std.specs.Prelude.{◌≤◌, length};
ghost use Rattle.pb_text.specs.declared.limits.TheConstants.{MOST_EVENTS};
ghost use Rattle.pb_ctree.specs.Trees.{IsTree};
ghost use Rattle.pb_sim.specs.Made.{IsBegun};

use pb_cli_simulate::Schedule;
use pb_cli_words::{Options, Shown};
use pb_ctree::CTree;
use pb_explain_runs::{help_no_step, tell_no_rank, tell_no_step};
use pb_explain_source::{NoMemory, Page};
use pb_explain_waits::{Heard, Seat, Standstill, causes_of, seats_of, tell_standstill, value};
use pb_sim::{Answers, Cause, Sim};
use pb_sim_play::{Ending, simulate_by_schedule, simulate_by_seed};
use pb_text::MOST_EVENTS;
use std::alloc::Global;

/// Why each rank of a simulation has no step.
fn causes_in<A: Fn(u64, u32, u64) -> u32 + Drop>(
    alloc: Global,
    sim: &Sim<A>,
    n: i64,
) -> Result<Vec<Option<Cause>>, NoMemory> {
    let total = u32::try_from(value(sim.tree().size, n)).unwrap_or(0);
    causes_of(alloc, sim, total)
}

/// Writes why the event with this number, from 0, has no step.
fn tell_refused(
    page: &mut Page,
    schedule: &Schedule,
    n: i64,
    at: u32,
    it: &Standstill,
) -> Result<(), NoMemory> {
    let Some(turn) = schedule.turns.get(at as usize) else {
        return Ok(());
    };
    let line = at.saturating_add(3);
    let ranks = i64::try_from(it.causes.len()).unwrap_or(i64::MAX);
    if i64::from(turn.rank) >= ranks {
        tell_no_rank(page, line, turn.rank, n, ranks)?;
    } else {
        tell_no_step(page, line, turn.rank)?;
        it.note_rank(page, turn.rank)?;
    }
    help_no_step(page)
}

/// A simulation that was played, and what is told of it.
#[derive(Drop)]
struct Played<'a, A> {
    file: &'a str,
    n: i64,
    sim: &'a Sim<A>,
    heard: &'a Heard,
}

/// Writes why nobody can go on where a simulation ended, or why an event of its schedule has no step.
fn tell_ending(
    alloc: Global,
    page: &mut Page,
    schedule: Option<&Schedule>,
    n: i64,
    it: &Standstill,
    ending: Ending,
) -> Result<(), NoMemory> {
    match ending {
        Ending::Stuck { rank, cause } => tell_standstill(alloc, page, it, rank, cause),
        Ending::Refused(at) => match schedule {
            Some(schedule) => tell_refused(page, schedule, n, at, it),
            None => Ok(()),
        },
        Ending::Ended | Ending::Turns | Ending::Full | Ending::NoMemory | Ending::WriteFault => Ok(
            (),
        ),
    }
}

/// Writes how a simulation with these seats ended.
fn tell_seats<A: Fn(u64, u32, u64) -> u32 + Drop>(
    alloc: Global,
    page: &mut Page,
    played: &Played<A>,
    seats: &[Seat],
    schedule: Option<&Schedule>,
    ending: Ending,
) -> Result<(), NoMemory> {
    let causes = causes_in(alloc, played.sim, played.n)?;
    let it = Standstill {
        file: played.file,
        local: &played.sim.tree().local,
        heard: played.heard,
        seats,
        causes: causes.as_slice(),
    };
    tell_ending(alloc, page, schedule, played.n, &it, ending)
}

/// Writes how a simulation ended.
fn tell_played<A: Fn(u64, u32, u64) -> u32 + Drop>(
    alloc: Global,
    page: &mut Page,
    played: &Played<A>,
    schedule: Option<&Schedule>,
    ending: Ending,
) -> Result<(), NoMemory> {
    let seats = seats_of(alloc, played.sim.tree(), played.n)?;
    tell_seats(alloc, page, played, seats.as_slice(), schedule, ending)
}

/// Plays a fresh simulation by a seed, and writes why nobody can go on at its end.
fn play_by_seed<A: Fn(u64, u32, u64) -> u32 + Drop>(
    alloc: Global,
    page: &mut Page,
    file: &str,
    sim: &mut Sim<A>,
    options: Options,
) -> Result<(), NoMemory>
    requires callable { A.IsAlwaysCallable sim.old.answers.answer }
    requires begun { IsBegun sim.old.held.state.tree sim.old.held.state.n sim.old.held }
{
    let asked = Options {
        n: options.n,
        seed: options.seed,
        turns: options.turns.min(MOST_EVENTS),
        modes: options.modes,
        shown: Shown::Log,
    };
    let mut heard = Heard::new(alloc);
    let ending = simulate_by_seed(alloc, sim, asked, &mut heard);
    let played = Played {
        file,
        n: i64::from(options.n),
        sim,
        heard: &heard,
    };
    match ending {
        Ending::Stuck { .. } => tell_played(alloc, page, &played, None, ending),
        _ => Ok(()),
    }
}

/// Plays a simulation by a seed, and writes why nobody can go on at its end.
#[tactic(auto, using(crate::proofs::Begun::as_it_stands))]
pub fn tell_by_seed<A: Fn(u64, u32, u64) -> u32 + Drop>(
    alloc: Global,
    page: &mut Page,
    file: &str,
    tree: CTree,
    options: Options,
    answers: A,
) -> Result<(), NoMemory>
    requires callable { A.IsAlwaysCallable answers }
    requires tree { IsTree tree }
{
    let n = i64::from(options.n);
    match Sim::new(alloc, tree, n, Answers::new(answers, options.seed)) {
        Ok(mut sim) => play_by_seed(alloc, page, file, &mut sim, options),
        Err(_) => Ok(()),
    }
}

/// Plays a fresh simulation by a schedule, and writes why nobody can go on at its end, or why an event has no step.
fn play_by_schedule<A: Fn(u64, u32, u64) -> u32 + Drop>(
    alloc: Global,
    page: &mut Page,
    file: &str,
    n: i64,
    sim: &mut Sim<A>,
    schedule: &Schedule,
) -> Result<(), NoMemory>
    requires callable { A.IsAlwaysCallable sim.old.answers.answer }
    requires begun { IsBegun sim.old.held.state.tree sim.old.held.state.n sim.old.held }
    requires few { length schedule.now.turns.items ≤ MOST_EVENTS }
{
    let mut heard = Heard::new(alloc);
    let ending = simulate_by_schedule(alloc, sim, schedule.turns.as_slice(), &mut heard);
    let played = Played {
        file,
        n,
        sim,
        heard: &heard,
    };
    tell_played(alloc, page, &played, Some(schedule), ending)
}

/// Plays a simulation by the schedule of a source, and writes why nobody can go on at its end, or why an event has no step.
#[tactic(auto, using(crate::proofs::Begun::as_it_stands))]
pub fn tell_by_schedule<A: Fn(u64, u32, u64) -> u32 + Drop>(
    alloc: Global,
    page: &mut Page,
    file: &str,
    n: i64,
    tree: CTree,
    schedule: &Schedule,
    answers: A,
) -> Result<(), NoMemory>
    requires callable { A.IsAlwaysCallable answers }
    requires tree { IsTree tree }
    requires few { length schedule.now.turns.items ≤ MOST_EVENTS }
{
    match Sim::new(alloc, tree, n, Answers::new(answers, schedule.seed)) {
        Ok(mut sim) => play_by_schedule(alloc, page, file, n, &mut sim, schedule),
        Err(_) => Ok(()),
    }
}
