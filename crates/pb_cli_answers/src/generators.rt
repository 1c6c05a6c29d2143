ghost use Rattle.std.specs.Prelude.{◌≡◌};
ghost use Rattle.pb_cli_answers.specs.Words.{word};

use crate::place::Place;
use rand_core::utils::NextWord;
use rand_pcg::Pcg32;
use std::cell::Cell;

/// The generators PCG-XSH-RR 64/32 of all seeds and ranks: the seed is the state that each begins with, and the rank its stream.
#[derive(Drop)]
pub struct Generators {
    latest: Cell<Place>,
}

impl Generators {
    /// Takes no memory.
    pub fn new() -> Generators {
        Generators {
            latest: Cell::new(Place::jump(0, 0, 0)),
        }
    }

    /// The latest place, where it is the one before this word, and else the one after a jump.
    fn place(&self, seed: u64, rank: u32, count: u64) -> Place
        ensures seed { result.seed ≡ seed }
        ensures rank { result.rank ≡ rank }
        ensures count { result.count ≡ count }
    {
        let latest = self.latest.get();
        if latest.is_at(seed, rank, count) {
            latest
        } else {
            Place::jump(seed, rank, count)
        }
    }

    /// Word number `count` of a rank, from 0. It takes a few instructions where the call before asked for the word before, and else a
    /// jump, whose time grows with the logarithm of the number. Takes no memory.
    #[tactic(auto, using(crate::proofs::Places::one_on))]
    pub fn word(&self, seed: u64, rank: u32, count: u64) -> u32
        ensures { result ≡ word seed rank count }
    {
        let place = self.place(seed, rank, count);
        let mut generator = Pcg32::from_state(place.state, u64::from(rank));
        let word = generator.next_word();
        if let Some(next) = count.checked_add(1) {
            self.latest.set(Place {
                seed,
                rank,
                count: next,
                state: generator.state(),
            });
        }
        word
    }
}
