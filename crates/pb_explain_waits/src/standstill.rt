//! What is told of a simulation in which nobody can go on.

use crate::chain::{Chain, Last, absent, count};
use crate::seats::{Seat, seat_of};
use pb_ctree::Local;
use pb_explain_again::Heard;
use pb_explain_runs::{
    Wait, help_stuck, note_deed, note_deeds, note_more, note_ring, note_wait, note_waits,
    tell_left, tell_stuck, tell_wait,
};
use pb_explain_source::{NoMemory, Page};
use pb_sim::Cause;
use std::alloc::Global;

/// Of how many ranks it is told what they did.
const MOST_SHOWN: u32 = 16;

/// A simulation in which nobody can go on, or one rank can't: the text's name and its names, what was heard of it, and of each
/// rank who it is and why it has no step.
#[derive(Clone, Copy)]
pub struct Standstill<'a> {
    pub file: &'a str,
    pub local: &'a Local,
    pub heard: &'a Heard,
    pub seats: &'a [Seat],
    pub causes: &'a [Option<Cause>],
}

impl<'a> Standstill<'a> {
    /// What a rank waits for that has no step for this cause.
    fn wait_by(&self, rank: u32, cause: Cause) -> Wait<'a> {
        match cause {
            Cause::Receive { from, label } => Wait::Message {
                label: self.local.label_name(label),
                from,
            },
            Cause::Probe { from } => Wait::First { from },
            Cause::Taken { by, label } => Wait::Taken {
                label: self.local.label_name(label),
                by,
            },
            Cause::Collective => Wait::Collective {
                absent: absent(self.heard, count(self.causes), rank),
            },
            Cause::Lost => Wait::Lost,
            Cause::Undefined => Wait::Undefined,
            Cause::Left { .. } => Wait::Ended,
        }
    }

    /// What a rank waits for.
    fn wait_of(&self, rank: u32) -> Wait<'a> {
        match self.causes.get(rank as usize) {
            Some(Some(cause)) => self.wait_by(rank, *cause),
            Some(None) => Wait::Ended,
            None => Wait::Ended,
        }
    }

    /// Writes what a rank waits for, where there is one with this number.
    fn tell_rank(&self, page: &mut Page, rank: u32) -> Result<(), NoMemory> {
        match seat_of(self.seats, i64::from(rank)) {
            Some((role, index)) => tell_wait(page, rank, &role, index, self.wait_of(rank)),
            None => Ok(()),
        }
    }

    /// Writes why a rank has no step, in a note of its own, where there is one with this number.
    pub fn note_rank(&self, page: &mut Page, rank: u32) -> Result<(), NoMemory> {
        match seat_of(self.seats, i64::from(rank)) {
            Some((role, index)) => note_wait(page, rank, &role, index, self.wait_of(rank)),
            None => Ok(()),
        }
    }

    /// Writes what a rank did last, where there is one with this number.
    fn tell_deed(&self, page: &mut Page, rank: u32) -> Result<(), NoMemory> {
        match seat_of(self.seats, i64::from(rank)) {
            Some((role, index)) => {
                note_deed(page, rank, &role, index, self.heard.deed(rank as usize))
            }
            None => Ok(()),
        }
    }

    /// Writes what the first ranks did last.
    fn tell_deeds(&self, page: &mut Page) -> Result<(), NoMemory> {
        note_deeds(page)?;
        for rank in 0..MOST_SHOWN {
            self.tell_deed(page, rank)?;
        }
        Ok(())
    }
}

/// Writes who waits for whom.
fn tell_chain(page: &mut Page, it: &Standstill, chain: &Chain) -> Result<(), NoMemory> {
    note_waits(page)?;
    for rank in &chain.ranks {
        it.tell_rank(page, *rank)?;
    }
    match chain.last {
        Last::Rank(rank) if chain.ranks.first() == Some(&rank) => note_ring(page, None),
        Last::Rank(rank) => note_ring(page, Some(rank)),
        Last::Nobody => Ok(()),
        Last::Another => note_more(page),
    }
}

/// Writes that nobody can go on: who waits for whom, from the least rank on that hasn't ended, which has no step for this
/// cause; or which message is left; and what the first ranks did last.
pub fn tell_standstill(
    alloc: Global,
    page: &mut Page,
    it: &Standstill,
    rank: u32,
    cause: Cause,
) -> Result<(), NoMemory> {
    match cause {
        Cause::Left { from, label } => {
            tell_left(page, it.file, rank, from, it.local.label_name(label))?;
        }
        _ => {
            let chain = Chain::of(alloc, it.heard, it.causes, rank)?;
            tell_stuck(page, it.file)?;
            tell_chain(page, it, &chain)?;
        }
    }
    it.tell_deeds(page)?;
    help_stuck(page)
}
