//! Times, as they are found by going from each action to those that wait for it. `times` checks them.

use crate::links::{Links, link_at};
use pb_draw_log::{Deed, Entry};
use pb_text::NoMemory;
use std::alloc::Global;

/// All actions and collectives on the way.
#[derive(Drop)]
struct Sorting {
    /// The next action of the same rank, by place.
    next: Vec<Option<usize>>,
    /// How many actions each waits for that aren't timed.
    missing: Vec<u32>,
    /// The least time behind those that are.
    times: Vec<u32>,
    /// Another leave of the same collective, by place.
    other_leave: Vec<Option<usize>>,
    /// How many entries of each collective aren't timed.
    gate_missing: Vec<u32>,
    /// The least time behind those that are.
    gate_times: Vec<u32>,
    /// A leave of each collective.
    gate_leave: Vec<Option<usize>>,
    /// What may be timed next.
    ready: Vec<usize>,
}

impl Sorting {
    /// So many actions and collectives, without links.
    fn new(alloc: Global, actions: usize, gates: usize) -> Result<Sorting, NoMemory> {
        Ok(Sorting {
            next: vec![in alloc; None; actions]?,
            missing: vec![in alloc; 0; actions]?,
            times: vec![in alloc; 0; actions]?,
            other_leave: vec![in alloc; None; actions]?,
            gate_missing: vec![in alloc; 0; gates]?,
            gate_times: vec![in alloc; 0; gates]?,
            gate_leave: vec![in alloc; None; gates]?,
            ready: Vec::new(alloc),
        })
    }

    /// One more action, and what it waits for.
    fn enrol(&mut self, place: usize, deed: Deed, mate: Option<usize>, links: &Links) {
        if let Some(previous) = link_at(&links.previous, place) {
            set_link(&mut self.next, previous, Some(place));
            add_one(&mut self.missing, place);
        }
        match (deed, mate, link_at(&links.joints, place)) {
            (Deed::Recv(_), Some(_), _) => add_one(&mut self.missing, place),
            (Deed::Enter, _, Some(gate)) => add_one(&mut self.gate_missing, gate),
            (Deed::Leave, _, Some(gate)) => {
                set_link(
                    &mut self.other_leave,
                    place,
                    link_at(&self.gate_leave, gate),
                );
                set_link(&mut self.gate_leave, gate, Some(place));
                add_one(&mut self.missing, place);
            }
            _ => {}
        }
    }

    /// An action waits for one fewer. It comes no sooner than at the time.
    fn free(&mut self, place: usize, least: u32) -> Result<(), NoMemory> {
        raise(&mut self.times, place, least);
        if take_one(&mut self.missing, place) {
            self.ready.push(place)?;
        }
        Ok(())
    }

    /// One more entry of a collective is timed; behind the last all may leave.
    fn pass(&mut self, gate: usize, behind: u32) -> Result<(), NoMemory> {
        raise(&mut self.gate_times, gate, behind);
        if !take_one(&mut self.gate_missing, gate) {
            return Ok(());
        }
        let least = number(&self.gate_times, gate);
        let mut leave = link_at(&self.gate_leave, gate);
        for _ in 0..self.missing.len() {
            let place = match leave {
                Some(place) => place,
                None => break,
            };
            self.free(place, least)?;
            leave = link_at(&self.other_leave, place);
        }
        Ok(())
    }

    /// What waits for an action that is timed waits for it no longer.
    fn release(
        &mut self,
        place: usize,
        deed: Deed,
        mate: Option<usize>,
        joint: Option<usize>,
    ) -> Result<(), NoMemory> {
        let behind = number(&self.times, place).saturating_add(1);
        if let Some(next) = link_at(&self.next, place) {
            self.free(next, behind)?;
        }
        match (deed, mate, joint) {
            (Deed::Send(_), Some(mate), _) => self.free(mate, behind),
            (Deed::Enter, _, Some(gate)) => self.pass(gate, behind),
            _ => Ok(()),
        }
    }
}

fn number(list: &[u32], place: usize) -> u32 {
    match list.get(place) {
        Some(number) => *number,
        None => 0,
    }
}

fn set_link(list: &mut [Option<usize>], place: usize, link: Option<usize>) {
    if let Some(slot) = list.get_mut(place) {
        *slot = link;
    }
}

fn add_one(list: &mut [u32], place: usize) {
    if let Some(slot) = list.get_mut(place) {
        *slot = slot.saturating_add(1);
    }
}

/// Takes one away, and says whether none is left.
fn take_one(list: &mut [u32], place: usize) -> bool {
    match list.get_mut(place) {
        Some(slot) => {
            *slot = slot.saturating_sub(1);
            *slot == 0
        }
        None => false,
    }
}

fn raise(list: &mut [u32], place: usize, least: u32) {
    if let Some(slot) = list.get_mut(place) {
        *slot = least.max(*slot);
    }
}

/// A collective that nobody enters keeps nobody.
fn open_gates(sorting: &mut Sorting, count: usize) -> Result<(), NoMemory> {
    for gate in 0..count {
        if number(&sorting.gate_missing, gate) == 0 {
            sorting.pass(gate, 0)?;
        }
    }
    Ok(())
}

/// The actions that wait for none are ready, the first of them last.
fn begin(sorting: &mut Sorting, count: usize) -> Result<(), NoMemory> {
    for k in 0..count {
        let place = count - 1 - k;
        if number(&sorting.missing, place) == 0 {
            sorting.ready.push(place)?;
        }
    }
    Ok(())
}

/// All actions, and what they wait for.
fn enrol_all(sorting: &mut Sorting, entries: &[Entry], mates: &[Option<usize>], links: &Links) {
    for (place, entry) in entries.iter().enumerate() {
        sorting.enrol(place, entry.step.deed, link_at(mates, place), links);
    }
}

/// What waits for the action at a place waits for it no longer.
fn release_at(
    sorting: &mut Sorting,
    place: usize,
    entries: &[Entry],
    mates: &[Option<usize>],
    links: &Links,
) -> Result<(), NoMemory> {
    match entries.get(place) {
        Some(entry) => {
            let joint = link_at(&links.joints, place);
            sorting.release(place, entry.step.deed, link_at(mates, place), joint)
        }
        None => Ok(()),
    }
}

/// The actions in the order in which their times are found.
fn ordered(
    alloc: Global,
    sorting: &mut Sorting,
    entries: &[Entry],
    mates: &[Option<usize>],
    links: &Links,
) -> Result<Vec<usize>, NoMemory> {
    let mut order = Vec::with_capacity(alloc, entries.len())?;
    for _ in 0..entries.len() {
        let place = match sorting.ready.pop() {
            Some(place) => place,
            None => break,
        };
        order.push(place)?;
        release_at(sorting, place, entries, mates, links)?;
    }
    Ok(order)
}

/// What waits for nothing is ready.
fn start(sorting: &mut Sorting, entries: &[Entry], gates: usize) -> Result<(), NoMemory> {
    begin(sorting, entries.len())?;
    open_gates(sorting, gates)
}

/// The times that are found, and the actions in the order in which they were.
pub fn sorted(
    alloc: Global,
    entries: &[Entry],
    mates: &[Option<usize>],
    links: &Links,
) -> Result<(Vec<u32>, Vec<usize>), NoMemory> {
    let mut sorting = Sorting::new(alloc, entries.len(), links.count)?;
    enrol_all(&mut sorting, entries, mates, links);
    start(&mut sorting, entries, links.count)?;
    let order = ordered(alloc, &mut sorting, entries, mates, links)?;
    Ok((sorting.times, order))
}
