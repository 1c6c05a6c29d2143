//! The words of one generator, two for each turn.

ghost use Rattle.std.specs.Prelude.{◌≡◌, ◌+◌, ◌*◌, ◌<◌, ◌^◌, length};
ghost use Rattle.pb_sched.specs.Draws.{word, taken_by, mode_by, pick, pick_mode};

use pb_text::Mode;
use rand_core::utils::NextWord;
use rand_pcg::Pcg32;
use std::marker::Model;

/// The stream of the generator that picks: 2^32.
const STREAM: u64 = 4_294_967_296;

/// Word number `n` of the generator with this seed, counted from 0.
fn word_at(seed: u64, n: u64) -> u32
    ensures { result ≡ word seed n }
{
    let mut words = Pcg32::new(seed, STREAM);
    words.advance(n);
    words.next_word()
}

fn mode_by(word: u32) -> Mode
    ensures { result ≡ mode_by word }
{
    if word % 2 == 1 {
        Mode::Waiting
    } else {
        Mode::Eager
    }
}

/// Which of the ranks makes event number `turn`, counted from 0. Takes no memory.
pub fn pick(seed: u64, turn: u64, ready: &[u32]) -> u32
    requires some { 0 < length ready.now }
    requires turn { turn < 2 ^ 62 }
    ensures { result ≡ pick seed turn ready.now }
{
    ready[word_at(seed, 2 * turn) as usize % ready.len()]
}

/// The mode of event number `turn`, counted from 0, where modes are mixed. Takes no memory.
pub fn pick_mode(seed: u64, turn: u64) -> Mode
    requires { turn < 2 ^ 62 }
    ensures { result ≡ pick_mode seed turn }
{
    mode_by(word_at(seed, 2 * turn + 1))
}

/// What is drawn for an event.
#[derive(Clone, Copy)]
pub struct Draw {
    /// What picks the rank.
    pub word: u32,
    /// The mode of the event, where modes are mixed.
    pub mode: Mode,
}

impl Draw {
    /// Which of the ranks makes the event. Takes no memory.
    pub fn among(self, ready: &[u32]) -> u32
        requires { 0 < length ready.now }
        ensures { result ≡ taken_by self.word ready.now }
    {
        ready[self.word as usize % ready.len()]
    }
}

/// The draws of a seed, one after the other: those of `pick` and `pick_mode`, at one step each.
#[derive(Drop)]
pub struct Picks {
    seed: u64,
    turn: u64,
    words: Pcg32,
}

impl Model for Picks {
    ghost use Rattle.std.specs.Prelude.{◌≡◌, ℕ, ◌*◌};
    ghost use Rattle.pb_sched.specs.Draws.{generator, Drawing};

    ghost Value = { Drawing };

    ghost view = { λ a. record { seed = a.seed; turn = a.turn } };

    ghost invariant = { λ a. a.words ≡ generator a.seed (2 * a.turn) };
}

impl Picks {
    /// The draws of a seed, from event 0 on. Takes no memory.
    pub fn new(seed: u64) -> Picks
        ensures seed { result.seed ≡ seed }
        ensures turn { result.turn ≡ 0 }
    {
        Picks {
            seed,
            turn: 0,
            words: Pcg32::new(seed, STREAM),
        }
    }

    /// The draw of the next event. Takes no memory.
    #[tactic(auto, using(crate::proofs::Steps::one_more))]
    pub fn next(&mut self) -> Draw
        requires { self.old.turn < 2 ^ 62 }
        ensures rank { result.word ≡ word self.old.seed (2 * self.old.turn) }
        ensures mode { result.mode ≡ pick_mode self.old.seed self.old.turn }
        ensures seed { self.new.seed ≡ self.old.seed }
        ensures turn { self.new.turn ≡ self.old.turn + 1 }
    {
        let word = self.words.next_word();
        let second = self.words.next_word();
        self.turn += 1;
        Draw {
            word,
            mode: mode_by(second),
        }
    }
}
