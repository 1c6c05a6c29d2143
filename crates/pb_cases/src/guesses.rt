//! Where numbers were last found in a list that grows.

use pb_text::NoMemory;
use std::alloc::Global;

/// How many places are kept: a prime, so that numbers in equal steps have places of their own.
const SLOTS: u64 = 8_191;

/// The place at which a number was last found, for some numbers. What it says may be out of date: it only saves a search.
#[derive(Drop)]
pub(crate) struct Guesses {
    places: Vec<usize>,
}

impl Guesses {
    /// No number was found yet.
    pub(crate) fn new(alloc: Global) -> Result<Guesses, NoMemory> {
        Ok(Guesses {
            places: vec![in alloc; 0; SLOTS as usize]?,
        })
    }

    /// A place at which the number may stand.
    pub(crate) fn of(&self, m: i64) -> usize {
        match self.places.get(slot(m)) {
            None => 0,
            Some(place) => *place,
        }
    }

    /// The number was found at the place.
    pub(crate) fn learn(&mut self, m: i64, place: usize) {
        if let Some(known) = self.places.get_mut(slot(m)) {
            *known = place;
        }
    }
}

fn slot(m: i64) -> usize {
    (m.unsigned_abs() % SLOTS) as usize
}
