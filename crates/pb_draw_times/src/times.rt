//! When each action is done.

ghost use Rattle.std.specs.Prelude.{IfOk};
ghost use Rattle.pb_draw_times.specs.Pairs.{AreSingle};
ghost use Rattle.pb_draw_times.specs.Ascents.{AreSound};

use crate::checked::are_sound;
use crate::fault::TimesFault;
use crate::links::{Joint, Links, joint_of, link_at, linked};
use crate::mates::mated;
use crate::ordinals::{number_at, numbered};
use crate::sorting::sorted;
use crate::tops::{Top, gate_tops, later};
use indexmap::IndexMap;
use pb_draw_log::{Deed, Entry};
use pb_text::NoMemory;
use std::alloc::Global;

/// What is found of the actions of a log, each by its place.
#[derive(Drop)]
pub struct Times {
    /// How many earlier actions have the same step.
    pub ordinals: Vec<usize>,
    /// The other end of the message, where it is in the log.
    pub mates: Vec<Option<usize>>,
    /// The length of the longest chain of actions before it.
    pub times: Vec<u32>,
    /// The last action of such a chain.
    pub causes: Vec<Option<usize>>,
    /// What else links actions.
    pub links: Links,
    /// All actions, each behind those that come before it.
    pub order: Vec<usize>,
}

/// Times, messages and causes of the actions of a log.
///
/// Each message joins a send with its receive, and no two actions have one mate. Times ascend along each rank, and from each
/// send to its receive. `Circle` comes where no such times were found.
pub fn timed(alloc: Global, entries: &[Entry]) -> Result<Times, TimesFault>
    ensures sound { IfOk result (λ found. AreSound entries.now found.mates.items found.times.items) }
    ensures single { IfOk result (λ found. AreSingle found.mates.items) }
{
    let found = found(alloc, entries)?;
    if are_sound(alloc, entries, &found.mates, &found.times)? {
        Ok(found)
    } else {
        Err(TimesFault::Circle)
    }
}

/// What is found, before it is checked.
fn found(alloc: Global, entries: &[Entry]) -> Result<Times, TimesFault> {
    let ordinals = numbered(alloc, entries)?;
    let mates = mated(alloc, entries, &ordinals)?;
    let links = linked(alloc, entries, &ordinals)?;
    let (times, order) = sorted(alloc, entries, &mates, &links)?;
    let gates = gate_tops(alloc, entries, &ordinals, &times)?;
    match causes(alloc, entries, &ordinals, &mates, &times, &gates)? {
        Some(causes) => Ok(Times {
            ordinals,
            mates,
            times,
            causes,
            links,
            order,
        }),
        None => Err(TimesFault::Circle),
    }
}

/// For each action the last one of those that come before it. None where a time isn't the least behind them.
fn causes(
    alloc: Global,
    entries: &[Entry],
    ordinals: &[usize],
    mates: &[Option<usize>],
    times: &[u32],
    gates: &IndexMap<Joint, Top>,
) -> Result<Option<Vec<Option<usize>>>, NoMemory> {
    let mut ranks = IndexMap::new(alloc);
    let mut causes = Vec::with_capacity(alloc, entries.len())?;
    for (place, entry) in entries.iter().enumerate() {
        let number = number_at(ordinals, place);
        let far = far_top(entry, number, link_at(mates, place), times, gates);
        match cause(&mut ranks, entry.step.rank, place, times, far)? {
            Some(cause) => causes.push(cause)?,
            None => return Ok(None),
        }
    }
    Ok(Some(causes))
}

/// The later one of a rank's last action and what comes before it of other ranks. None where the action's time isn't the least
/// behind them; else it is the rank's last one from now on.
fn cause(
    ranks: &mut IndexMap<u32, Top>,
    rank: u32,
    place: usize,
    times: &[u32],
    far: Option<Top>,
) -> Result<Option<Option<usize>>, NoMemory> {
    let top = later(ranks.get(&rank).copied(), far);
    match times.get(place) {
        Some(time) if is_behind(*time, top) => {
            ranks.insert(rank, Top { time: *time, place })?;
            Ok(Some(place_of(top)))
        }
        _ => Ok(None),
    }
}

/// What comes before an action, of other ranks: the send of a receive, and the entries of a collective that is left.
fn far_top(
    entry: &Entry,
    number: usize,
    mate: Option<usize>,
    times: &[u32],
    gates: &IndexMap<Joint, Top>,
) -> Option<Top> {
    match entry.step.deed {
        Deed::Recv(_) => {
            let place = mate?;
            let time = *times.get(place)?;
            Some(Top { time, place })
        }
        Deed::Leave => gates.get(&joint_of(entry, number)?).copied(),
        Deed::Choose(_) | Deed::Run | Deed::Send(_) | Deed::Enter => None,
    }
}

fn is_behind(time: u32, top: Option<Top>) -> bool {
    match top {
        Some(top) => u64::from(time) == u64::from(top.time) + 1,
        None => time == 0,
    }
}

fn place_of(top: Option<Top>) -> Option<usize> {
    match top {
        Some(top) => Some(top.place),
        None => None,
    }
}
