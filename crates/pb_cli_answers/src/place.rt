ghost use Rattle.std.specs.Prelude.{◌≡◌, true};
ghost use Rattle.pb_cli_answers.specs.Words.{state_at};

use rand_pcg::Pcg32;

/// A rank's generator before one of its words.
#[derive(Clone, Copy)]
pub struct Place {
    pub seed: u64,
    pub rank: u32,
    /// The number of the word that comes next, from 0.
    pub count: u64,
    pub state: u64,
    ghost there: { state ≡ state_at seed rank count },
}

impl Place {
    /// The place before word number `count`, by a jump from the first one.
    pub fn jump(seed: u64, rank: u32, count: u64) -> Place
        ensures seed { result.seed ≡ seed }
        ensures rank { result.rank ≡ rank }
        ensures count { result.count ≡ count }
    {
        let mut generator = Pcg32::new(seed, u64::from(rank));
        generator.advance(count);
        Place {
            seed,
            rank,
            count,
            state: generator.state(),
        }
    }

    /// Whether it is the one before that word.
    pub fn is_at(self, seed: u64, rank: u32, count: u64) -> bool
        ensures seed { result ≡ true → self.seed ≡ seed }
        ensures rank { result ≡ true → self.rank ≡ rank }
        ensures count { result ≡ true → self.count ≡ count }
    {
        self.seed == seed && self.rank == rank && self.count == count
    }
}
