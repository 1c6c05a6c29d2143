ghost use Rattle.std.specs.Prelude.{◌≡◌, ◌<◌, ◌||◌, ◌↔◌, ℕ, Bool, true, false, IsTrue};
ghost use Rattle.pb_sim_ready.specs.Kept.{put};
ghost use Rattle.pb_sim_ready.specs.Listed.{Lists};
ghost use Rattle.pb_sim_world.specs.States.{total_of};
ghost use Rattle.pb_sim_world.specs.Can.{can};
ghost use Rattle.pb_sim_world.specs.Sound.{IsState};
ghost use Rattle.pb_sim.specs.Seen.{IsReadied, is_too_much};

use crate::seen::Seen;
use pb_sim_world::{Act, Next, words_of};

/// The most words that may be in flight.
const MOST_WORDS: u64 = 16777216;

impl Seen {
    /// Looks again whether a rank has a step.
    pub fn refresh(&mut self, rank: u32)
        requires sound { IsState self.old.state }
        requires total { self.old.ready.total ≡ total_of self.old.state }
        requires there { rank < total_of self.old.state }
        ensures state { self.new.state ≡ self.old.state }
        ensures counts { self.new.counts ≡ self.old.counts }
        ensures steps { self.new.steps ≡ self.old.steps }
        ensures total { self.new.ready.total ≡ self.old.ready.total }
        ensures ready { (f : ℕ → Bool) → Lists self.old.ready f → Lists self.new.ready (put f rank (can self.old.state rank)) }
    {
        let can = self.state.can(rank);
        self.ready.set(rank, can);
    }

    /// Looks again at all ranks.
    pub fn refresh_all(&mut self)
        requires sound { IsState self.old.state }
        requires total { self.old.ready.total ≡ total_of self.old.state }
        ensures state { self.new.state ≡ self.old.state }
        ensures counts { self.new.counts ≡ self.old.counts }
        ensures steps { self.new.steps ≡ self.old.steps }
        ensures total { self.new.ready.total ≡ self.old.ready.total }
        ensures ready { (f : ℕ → Bool) → Lists self.old.ready f → Lists self.new.ready (can self.old.state) }
    {
        let total = self.state.ranks.len() as u32;
        for rank in 0..total {
            self.refresh(rank);
        }
    }

    /// Looks again at all ranks where an entry of this rank was the first or the last one, and else at this rank alone.
    pub fn refresh_for(&mut self, rank: u32, first: bool, last: bool)
        requires sound { IsState self.old.state }
        requires total { self.old.ready.total ≡ total_of self.old.state }
        requires there { rank < total_of self.old.state }
        ensures state { self.new.state ≡ self.old.state }
        ensures counts { self.new.counts ≡ self.old.counts }
        ensures steps { self.new.steps ≡ self.old.steps }
        ensures total { self.new.ready.total ≡ self.old.ready.total }
        ensures all { (first || last) ≡ true → (f : ℕ → Bool) → Lists self.old.ready f → Lists self.new.ready (can self.old.state) }
        ensures one { (first || last) ≡ false → (f : ℕ → Bool) → Lists self.old.ready f → Lists self.new.ready (put f rank (can self.old.state rank)) }
    {
        if first || last {
            self.refresh_all();
        } else {
            self.refresh(rank);
        }
    }

    /// Whether the rank exists and has a step.
    pub fn is_ready(&self, rank: u32) -> bool
        requires { IsReadied self.now }
        ensures { IsTrue result ↔ ((rank < total_of self.now.state) × (can self.now.state rank ≡ true)) }
    {
        if (rank as usize) < self.state.ranks.len() {
            self.ready.has(rank)
        } else {
            false
        }
    }

    /// Whether what comes next of a rank is a send after which more words would be in flight than may be.
    pub fn is_too_much(&self, next: Next) -> bool
        requires { IsState self.now.state }
        ensures { result ≡ is_too_much self.now next }
    {
        match next {
            Next::Acts(Act::Send { label, .. }) => {
                let count = words_of(&self.state.tree, self.state.n, label);
                self.state.channels.in_flight() + u64::from(count) > MOST_WORDS
            }
            Next::Acts(Act::Choose { .. }) => false,
            Next::Acts(Act::Run { .. }) => false,
            Next::Acts(Act::Recv { .. }) => false,
            Next::Acts(Act::Enter { .. }) => false,
            Next::Acts(Act::Leave) => false,
            Next::Silent => false,
            Next::Waits { .. } => false,
            Next::Ended => false,
            Next::Lost => false,
            Next::Undefined => false,
        }
    }
}
