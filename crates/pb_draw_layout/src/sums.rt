//! How much is sent.

use crate::numbers::narrow;
use pb_draw_times::{Entry, Times, counted, message_chain};
use pb_text::NoMemory;
use std::alloc::Global;

/// How many labels have a sum of their own.
const MOST_LABELS: usize = 8;

/// What is sent of one label.
#[derive(Clone, Copy)]
pub struct Sum {
    /// The label, by its place among the log's names.
    pub name: u32,
    /// How many messages.
    pub messages: u64,
    /// How many words they carry.
    pub words: u64,
    /// The greatest number of its sends on one chain.
    pub chain: u32,
}

/// What is sent in a log.
#[derive(Drop)]
pub struct Sums {
    /// How many messages.
    pub messages: u64,
    /// How many words they carry.
    pub words: u64,
    /// The greatest number of sends on one chain.
    pub chain: u32,
    /// The first 8 labels that are sent, in the order of the log's names.
    pub labels: Vec<Sum>,
    /// How many labels more are sent.
    pub more: usize,
}

/// What is sent in a log with so many names.
pub fn summed(
    alloc: Global,
    entries: &[Entry],
    times: &Times,
    names: usize,
) -> Result<Sums, NoMemory> {
    let mut sums = Sums {
        messages: 0,
        words: 0,
        chain: message_chain(alloc, entries, times, None)?,
        labels: Vec::new(alloc),
        more: 0,
    };
    let counts = counted(alloc, entries, names)?;
    for (name, count) in counts.iter().enumerate() {
        let sum = Sum {
            name: narrow(name),
            messages: count.messages,
            words: count.words,
            chain: 0,
        };
        sums.add(sum)?;
    }
    for sum in &mut sums.labels {
        sum.chain = message_chain(alloc, entries, times, Some(sum.name))?;
    }
    Ok(sums)
}

impl Sums {
    /// One more name, where messages have it.
    fn add(&mut self, sum: Sum) -> Result<(), NoMemory> {
        if sum.messages == 0 {
            return Ok(());
        }
        self.messages = self.messages.saturating_add(sum.messages);
        self.words = self.words.saturating_add(sum.words);
        if self.labels.len() < MOST_LABELS {
            self.labels.push(sum)?;
        } else {
            self.more = self.more.saturating_add(1);
        }
        Ok(())
    }
}
