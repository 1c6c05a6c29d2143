ghost use Rattle.std.specs.Prelude.{◌≡◌};
ghost use Rattle.pb_cli_answers.specs.Words.{word};

use rand_core::utils::NextWord;
use rand_pcg::Pcg32;

/// Word number `count` of a rank, from 0, by a jump from the first one: the plain form of `Generators::word`. Takes no memory.
pub fn word(seed: u64, rank: u32, count: u64) -> u32
    ensures { result ≡ word seed rank count }
{
    let mut generator = Pcg32::new(seed, u64::from(rank));
    generator.advance(count);
    generator.next_word()
}
