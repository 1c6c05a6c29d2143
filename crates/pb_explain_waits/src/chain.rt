//! The ranks that wait for each other.

use pb_explain_again::Heard;
use pb_explain_source::NoMemory;
use pb_sim::{Cause, Sim};
use std::alloc::Global;

/// How many ranks a chain has at most.
const MOST_SHOWN: u32 = 16;

/// What the last rank of a chain waits for.
#[derive(Clone, Copy, PartialEq, Eq)]
pub enum Last {
    /// For no rank.
    Nobody,
    /// For this one, which stands in the chain.
    Rank(u32),
    /// For one that doesn't stand there, and the chain is cut here.
    Another,
}

/// Ranks, each of which waits for the next one.
#[derive(Drop)]
pub struct Chain {
    pub ranks: Vec<u32>,
    pub last: Last,
}

/// Why each rank of a simulation has no step, with the ranks counted from 0; None for one that has ended.
pub fn causes_of<A: Fn(u64, u32, u64) -> u32 + Drop>(
    alloc: Global,
    sim: &Sim<A>,
    total: u32,
) -> Result<Vec<Option<Cause>>, NoMemory> {
    let mut causes = Vec::new(alloc);
    for rank in 0..total {
        causes.push(sim.idle(rank))?;
    }
    Ok(causes)
}

/// How many ranks there are.
pub fn count(causes: &[Option<Cause>]) -> u32 {
    u32::try_from(causes.len()).unwrap_or(u32::MAX)
}

/// The least rank that has entered fewer collectives than this one.
pub fn absent(heard: &Heard, total: u32, rank: u32) -> Option<u32> {
    let entered = heard.entered(rank as usize);
    for other in 0..total {
        if heard.entered(other as usize) < entered {
            return Some(other);
        }
    }
    None
}

/// The rank that a rank waits for which has no step for this cause.
fn awaited(heard: &Heard, total: u32, rank: u32, cause: Cause) -> Option<u32> {
    match cause {
        Cause::Receive { from, .. } => Some(from),
        Cause::Probe { from } => Some(from),
        Cause::Taken { by, .. } => Some(by),
        Cause::Collective => absent(heard, total, rank),
        Cause::Lost => None,
        Cause::Undefined => None,
        Cause::Left { .. } => None,
    }
}

/// The rank that a rank waits for, where the ranks have these causes.
fn next_of(heard: &Heard, causes: &[Option<Cause>], rank: u32) -> Option<u32> {
    match causes.get(rank as usize) {
        Some(Some(cause)) => awaited(heard, count(causes), rank, *cause),
        Some(None) => None,
        None => None,
    }
}

/// Whether the rank is one of these.
fn is_among(ranks: &[u32], rank: u32) -> bool {
    for other in ranks {
        if *other == rank {
            return true;
        }
    }
    false
}

impl Chain {
    /// The chain that begins with a rank.
    pub fn of(
        alloc: Global,
        heard: &Heard,
        causes: &[Option<Cause>],
        first: u32,
    ) -> Result<Chain, NoMemory> {
        let mut ranks = Vec::new(alloc);
        let mut rank = first;
        for _ in 0..MOST_SHOWN {
            ranks.push(rank)?;
            rank = match next_of(heard, causes, rank) {
                None => {
                    return Ok(Chain {
                        ranks,
                        last: Last::Nobody,
                    });
                }
                Some(next) => next,
            };
            if is_among(ranks.as_slice(), rank) {
                return Ok(Chain {
                    ranks,
                    last: Last::Rank(rank),
                });
            }
        }
        Ok(Chain {
            ranks,
            last: Last::Another,
        })
    }
}
