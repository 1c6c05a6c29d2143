//! What each action comes behind, by places.

ghost use Rattle.std.specs.Prelude.{◌≡◌};
ghost use Rattle.pb_draw_times.specs.Pairs.{link};

use crate::ordinals::number_at;
use indexmap::{IndexMap, IndexSet};
use pb_draw_log::{Deed, Entry};
use pb_text::NoMemory;
use std::alloc::Global;

/// One collective: the one behind so many of its name, of each rank.
#[derive(Clone, Copy, PartialEq, Eq, Hash)]
pub struct Joint {
    pub name: u32,
    pub number: usize,
}

/// The collective that an action enters or leaves, if it does.
pub fn joint_of(entry: &Entry, number: usize) -> Option<Joint> {
    match entry.step.deed {
        Deed::Enter | Deed::Leave => Some(Joint {
            name: entry.step.name,
            number,
        }),
        Deed::Choose(_) | Deed::Run | Deed::Send(_) | Deed::Recv(_) => None,
    }
}

/// For each action the one before it of the same rank, and the number of its collective.
#[derive(Drop)]
pub struct Links {
    pub previous: Vec<Option<usize>>,
    pub joints: Vec<Option<usize>>,
    /// How many collectives there are.
    pub count: usize,
}

/// The links of all actions.
pub fn linked(alloc: Global, entries: &[Entry], ordinals: &[usize]) -> Result<Links, NoMemory> {
    let previous = previous_of(alloc, entries)?;
    let (joints, count) = joints_of(alloc, entries, ordinals)?;
    Ok(Links {
        previous,
        joints,
        count,
    })
}

/// For each action the one before it of the same rank.
fn previous_of(alloc: Global, entries: &[Entry]) -> Result<Vec<Option<usize>>, NoMemory> {
    let mut last = IndexMap::new(alloc);
    let mut previous = Vec::with_capacity(alloc, entries.len())?;
    for (place, entry) in entries.iter().enumerate() {
        let old = last.insert(entry.step.rank, place)?;
        previous.push(old)?;
    }
    Ok(previous)
}

/// For each action the number of its collective, and how many collectives there are.
fn joints_of(
    alloc: Global,
    entries: &[Entry],
    ordinals: &[usize],
) -> Result<(Vec<Option<usize>>, usize), NoMemory> {
    let mut met = IndexSet::new(alloc);
    let mut joints = Vec::with_capacity(alloc, entries.len())?;
    for (place, entry) in entries.iter().enumerate() {
        let number = met_as(&mut met, entry, number_at(ordinals, place))?;
        joints.push(number)?;
    }
    let count = met.len();
    Ok((joints, count))
}

/// The number of an action's collective among those that were met.
fn met_as(
    met: &mut IndexSet<Joint>,
    entry: &Entry,
    number: usize,
) -> Result<Option<usize>, NoMemory> {
    match joint_of(entry, number) {
        Some(joint) => Ok(Some(met.insert_full(joint)?.0)),
        None => Ok(None),
    }
}

/// What a list has at a place, and nothing behind its end.
pub fn link_at(list: &[Option<usize>], place: usize) -> Option<usize>
    ensures { result ≡ link list.now place }
{
    match list.get(place) {
        Some(found) => *found,
        None => None,
    }
}
