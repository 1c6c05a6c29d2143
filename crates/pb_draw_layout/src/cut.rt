//! Which events are drawn.

ghost use Rattle.std.specs.Prelude.{◌≤◌, IfOk, OnOk, vec_len};

use pb_draw_log::Entry;
use pb_text::NoMemory;
use std::alloc::Global;

/// Which events are asked for, and how many of them are drawn.
#[derive(Clone, Copy)]
pub struct Cut {
    /// The line of the first event, counted from 1.
    pub from: u32,
    /// The line of the last event.
    pub to: u32,
    /// The least rank.
    pub low: u32,
    /// The greatest rank.
    pub high: u32,
    /// How many events are drawn at most.
    pub most: usize,
}

impl Cut {
    /// Whether a rank is asked for.
    pub fn has_rank(&self, rank: u32) -> bool {
        self.low <= rank && rank <= self.high
    }

    /// Whether a line is asked for, by its number from 0.
    fn has_place(&self, place: usize) -> bool {
        self.from as usize <= place.saturating_add(1) && place < self.to as usize
    }
}

/// The events that are drawn.
#[derive(Drop)]
pub struct Chosen {
    /// Their places in the log, ascending.
    pub places: Vec<usize>,
    /// How many were asked for.
    pub asked: usize,
}

impl Chosen {
    /// One more event, which is drawn where fewer than `most` are.
    fn add(&mut self, place: usize, most: usize) -> Result<(), NoMemory>
        ensures { OnOk result (vec_len self.old.places ≤ most → vec_len self.new.places ≤ most) }
    {
        if self.places.len() < most {
            self.places.push(place)?;
        }
        self.asked = self.asked.saturating_add(1);
        Ok(())
    }
}

/// The events that are asked for, the first so many of them.
pub fn choose(alloc: Global, entries: &[Entry], cut: &Cut) -> Result<Chosen, NoMemory>
    ensures { IfOk result (λ chosen. vec_len chosen.places ≤ cut.now.most) }
{
    let mut chosen = Chosen {
        places: Vec::new(alloc),
        asked: 0,
    };
    for (place, entry) in entries.iter().enumerate() {
        if cut.has_place(place) && cut.has_rank(entry.step.rank) {
            chosen.add(place, cut.most)?;
        }
    }
    Ok(chosen)
}
