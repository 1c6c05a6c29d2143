ghost use Rattle.std.specs.Prelude.{◌≡◌, ◌≤◌, ◌<◌, ◌+◌, ◌^◌, IfOk, OnOk, length, slice_get, slice_index_or};
ghost use Rattle.std.specs.Vec.{vec_len, vec_capacity};
ghost use Rattle.pb_sim_collectives.specs.Rounds.{with_one, call_at, came_at};

use crate::call::Call;
use pb_text::NoMemory;

/// A collective, and how many ranks have entered it.
#[derive(Clone, Copy)]
pub struct Round {
    pub call: Call,
    pub came: usize,
}

/// The collectives that were entered, in order.
#[derive(Drop)]
pub struct Rounds {
    pub list: Vec<Round>,
}

impl Rounds {
    /// The collective with this number, if some rank has entered it.
    pub fn call(&self, k: usize) -> Option<Call>
        ensures { result ≡ call_at self.now.list.items k }
    {
        match self.list.get(k) {
            None => None,
            Some(round) => Some(round.call),
        }
    }

    /// How many ranks have entered it.
    pub fn came(&self, k: usize) -> usize
        ensures { result ≡ came_at self.now.list.items k }
    {
        match self.list.get(k) {
            None => 0,
            Some(round) => round.came,
        }
    }

    /// Takes room for one more.
    pub fn reserve(&mut self) -> Result<(), NoMemory>
        ensures room { OnOk result (vec_len self.new.list < vec_capacity self.new.list) }
        ensures same { self.new.list.items ≡ self.old.list.items }
    {
        self.list.reserve(1)?;
        Ok(())
    }

    /// One more rank has entered the collective with this number.
    pub fn count(&mut self, k: usize, call: Call)
        requires room { vec_len self.old.list < vec_capacity self.old.list }
        requires few { came_at self.old.list.items k < 2 ^ 63 }
        ensures { self.new.list.items ≡ with_one self.old.list.items k call }
    {
        if k < self.list.len() {
            let round = &mut self.list[k];
            round.came += 1;
        } else {
            self.list.push(Round { call, came: 1 }).unwrap();
        }
    }
}
