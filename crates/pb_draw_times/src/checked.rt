//! Whether the messages and the times that were found are right.

ghost use Rattle.std.specs.Prelude.{◌≡◌, ◌<◌, ◌≤◌, ℕ, List, length, true, IsTrue, IfOk, OnOk, Some, None, nat_eq, if◌then◌else◌, slice_index, option_copied};
ghost use Rattle.indexmap.specs.IndexMap.{get};
ghost use Rattle.pb_draw_log.specs.declared.entry.Deed.TheVariants.{Send, Recv};
ghost use Rattle.pb_draw_times.specs.Pairs.{link, AreEnds, ArePairs, IsPair};
ghost use Rattle.pb_draw_times.specs.Ascents.{is_recv, Rises, StepsAt, StepsUp, AscendBelow, AscendOnArrows, AreSound};

use crate::links::link_at;
use indexmap::IndexMap;
use pb_draw_log::{Deed, Entry, Step};
use pb_text::NoMemory;
use std::alloc::Global;

/// Whether messages and times are right, each by the place of its action: each mate is the other end of a message, and has
/// that action for its own mate; times ascend along each rank, and from each send to its receive.
pub fn are_sound(
    alloc: Global,
    entries: &[Entry],
    mates: &[Option<usize>],
    times: &[u32],
) -> Result<bool, NoMemory>
    ensures { IfOk result (λ b. IsTrue b → AreSound entries.now mates.now times.now) }
{
    if mates.len() != entries.len() {
        return Ok(false);
    }
    if !are_pairs(entries, mates) {
        return Ok(false);
    }
    if !ascend_on_arrows(entries, mates, times) {
        return Ok(false);
    }
    ascend_on_ranks(alloc, entries, times)
}

/// Whether this sends to the rank.
fn is_to(deed: Deed, rank: u32) -> bool
    ensures { IsTrue result → deed ≡ Send rank }
{
    match deed {
        Deed::Send(to) => to == rank,
        _ => false,
    }
}

/// Whether this receives from the rank.
fn is_from(deed: Deed, rank: u32) -> bool
    ensures { IsTrue result → deed ≡ Recv rank }
{
    match deed {
        Deed::Recv(from) => from == rank,
        _ => false,
    }
}

/// Whether one step sends what the other receives.
#[tactic(auto, using(crate::proofs::Ends::sent_ends))]
fn is_sent(one: Step, other: Step) -> bool
    ensures { IsTrue result → one.name ≡ other.name → AreEnds one other }
{
    is_to(one.deed, other.rank) && is_from(other.deed, one.rank)
}

/// Whether one step receives what the other sends.
#[tactic(auto, using(crate::proofs::Ends::taken_ends))]
fn is_taken(one: Step, other: Step) -> bool
    ensures { IsTrue result → one.name ≡ other.name → AreEnds one other }
{
    is_from(one.deed, other.rank) && is_to(other.deed, one.rank)
}

/// Whether two steps are the ends of a message.
fn are_ends(one: Step, other: Step) -> bool
    ensures { IsTrue result → AreEnds one other }
{
    if one.name != other.name {
        return false;
    }
    if is_sent(one, other) {
        return true;
    }
    is_taken(one, other)
}

/// Whether the actions at two places are one message, and the first is the mate of the second.
fn is_pair(entries: &[Entry], mates: &[Option<usize>], one: usize, other: usize) -> bool
    ensures { IsTrue result → IsPair entries.now mates.now one other }
{
    match (entries.get(one), entries.get(other), link_at(mates, other)) {
        (Some(first), Some(second), Some(back)) => {
            back == one && are_ends(first.step, second.step)
        }
        _ => false,
    }
}

/// Whether each mate is one.
fn are_pairs(entries: &[Entry], mates: &[Option<usize>]) -> bool
    ensures { IsTrue result → ArePairs entries.now mates.now }
{
    for one in 0..mates.len() {
        if let Some(other) = link_at(mates, one) {
            if !is_pair(entries, mates, one, other) {
                return false;
            }
        }
    }
    true
}

fn is_recv(deed: Deed) -> bool
    ensures { result ≡ is_recv deed }
{
    match deed {
        Deed::Recv(_) => true,
        Deed::Choose(_) => false,
        Deed::Run => false,
        Deed::Send(_) => false,
        Deed::Enter => false,
        Deed::Leave => false,
    }
}

/// The time at a place, and 0 behind the last.
fn time_at(times: &[u32], place: usize) -> u32
    ensures { result ≡ slice_index times.now place }
{
    match times.get(place) {
        Some(time) => *time,
        None => 0,
    }
}

/// Whether the receive at a place comes behind its send.
fn rises(entries: &[Entry], mates: &[Option<usize>], times: &[u32], place: usize) -> bool
    ensures { IsTrue result → Rises entries.now mates.now times.now place }
{
    match (entries.get(place), link_at(mates, place)) {
        (Some(entry), Some(mate)) => {
            !is_recv(entry.step.deed) || time_at(times, mate) < time_at(times, place)
        }
        _ => true,
    }
}

/// Whether each receive comes behind its send.
fn ascend_on_arrows(entries: &[Entry], mates: &[Option<usize>], times: &[u32]) -> bool
    ensures { IsTrue result → AscendOnArrows entries.now mates.now times.now }
{
    for place in 0..entries.len() {
        if !rises(entries, mates, times, place) {
            return false;
        }
    }
    true
}

/// The rank's last time is this one from now on.
fn note(last: &mut IndexMap<u32, u32>, rank: u32, time: u32) -> Result<(), NoMemory>
    ensures { OnOk result ((q : ℕ) → get nat_eq last.new q ≡ (if nat_eq q rank then Some time else get nat_eq last.old q)) }
{
    match last.insert(rank, time) {
        Ok(_) => Ok(()),
        Err(_) => Err(NoMemory),
    }
}

/// Whether a rank's action comes behind its last one. If so it is the last from now on.
fn steps_up(last: &mut IndexMap<u32, u32>, rank: u32, time: u32) -> Result<bool, NoMemory>
    ensures { IfOk result (λ b. IsTrue b → StepsUp (λ q. get nat_eq last.old q) (λ q. get nat_eq last.new q) rank time) }
{
    if !is_behind(last.get(&rank).copied(), time) {
        return Ok(false);
    }
    note(last, rank, time)?;
    Ok(true)
}

fn is_behind(old: Option<u32>, time: u32) -> bool
    ensures { IsTrue result → (t : ℕ) → old ≡ Some t → t < time }
{
    match old {
        Some(old) => old < time,
        None => true,
    }
}

/// Whether the action at a place comes behind its rank's last one. If so it is the last from now on.
fn steps_at(
    last: &mut IndexMap<u32, u32>,
    entries: &[Entry],
    times: &[u32],
    place: usize,
) -> Result<bool, NoMemory>
    ensures { IfOk result (λ b. IsTrue b → StepsAt entries.now times.now (λ q. get nat_eq last.old q) (λ q. get nat_eq last.new q) place) }
{
    match entries.get(place) {
        Some(entry) => steps_up(last, entry.step.rank, time_at(times, place)),
        None => Ok(false),
    }
}

/// Whether the actions of each rank come one behind the other.
#[tactic(auto, using(crate::proofs::Ascending::none_ranked, crate::proofs::Ascending::more_ranked, crate::proofs::Ascending::all_ranked))]
fn ascend_on_ranks(alloc: Global, entries: &[Entry], times: &[u32]) -> Result<bool, NoMemory>
    ensures { IfOk result (λ b. IsTrue b → AscendBelow entries.now times.now (length entries.now)) }
{
    let mut last = IndexMap::new(alloc);
    for place in 0..entries.len() {
        if !steps_at(&mut last, entries, times, place)? {
            return Ok(false);
        }
    }
    Ok(true)
}
