//! The options of a simulation.

ghost use Rattle.std.specs.Prelude.{◌≡◌, ◌≤◌, IfSome, Some};
ghost use Rattle.pb_cli_words.specs.Request.{n_in, seed_in, turns_in, modes_in, modes_given, shown_in, options_in, only_n, HasFewTurns};
ghost use Rattle.pb_cli_words.specs.Shown.{options_of};

use crate::given::Given;
use crate::number::number_in;
use pb_text::{MOST_EVENTS, MOST_NUMBER, Mode};

/// In which modes the events are made.
#[derive(Clone, Copy)]
pub enum Modes {
    /// Each in this one.
    Each(Mode),
    /// Each in one that is drawn for it.
    Mixed,
}

/// What a simulation writes.
#[derive(Clone, Copy)]
pub enum Shown {
    /// The log, line by line, and how it ended.
    Log,
    /// The schedule alone.
    Schedule,
}

/// How a simulation by a seed is run.
#[derive(Clone, Copy)]
pub struct Options {
    /// From 0 to 2,000,000,000.
    pub n: u32,
    pub seed: u64,
    /// How many events are made at most, from 1 to 1,000,000.
    pub turns: u32,
    pub modes: Modes,
    pub shown: Shown,
}

#[tactic(auto, using(crate::proofs::Listed::n_value))]
fn n_in(given: &Given) -> Option<u32>
    ensures { result ≡ n_in (options_of given.now) }
{
    let n = number_in(given.n?.as_bytes(), 0, u64::from(MOST_NUMBER))?;
    Some(n as u32)
}

#[tactic(auto, using(crate::proofs::Listed::seed_value))]
fn seed_in(given: &Given) -> Option<u64>
    ensures { result ≡ seed_in (options_of given.now) }
{
    match given.seed {
        None => Some(0),
        Some(text) => number_in(text.as_bytes(), 0, u64::MAX),
    }
}

#[tactic(auto, using(crate::proofs::Listed::turns_value))]
fn turns_in(given: &Given) -> Option<u32>
    ensures turns { result ≡ turns_in (options_of given.now) }
    ensures few { IfSome result (λ turns. turns ≤ MOST_EVENTS) }
{
    match given.turns {
        None => Some(MOST_EVENTS),
        Some(text) => {
            let turns = number_in(text.as_bytes(), 1, u64::from(MOST_EVENTS))?;
            Some(turns as u32)
        }
    }
}

fn modes_in(text: &str) -> Option<Modes>
    ensures { result ≡ modes_in text.now }
{
    if text == "eager" {
        Some(Modes::Each(Mode::Eager))
    } else if text == "waiting" {
        Some(Modes::Each(Mode::Waiting))
    } else if text == "mixed" {
        Some(Modes::Mixed)
    } else {
        None
    }
}

#[tactic(auto, using(crate::proofs::Listed::mode_value))]
fn modes_given(given: &Given) -> Option<Modes>
    ensures { result ≡ modes_given (options_of given.now) }
{
    match given.mode {
        None => Some(Modes::Each(Mode::Eager)),
        Some(text) => modes_in(text),
    }
}

#[tactic(auto, using(crate::proofs::Listed::schedule_value))]
fn shown_in(given: &Given) -> Shown
    ensures { Some result ≡ shown_in (options_of given.now) }
{
    if given.schedule {
        Shown::Schedule
    } else {
        Shown::Log
    }
}

/// The options of a simulation by a seed.
pub fn options_in(given: &Given) -> Option<Options>
    ensures options { result ≡ options_in (options_of given.now) }
    ensures few { IfSome result HasFewTurns }
{
    let n = n_in(given)?;
    let seed = seed_in(given)?;
    let turns = turns_in(given)?;
    let modes = modes_given(given)?;
    let shown = shown_in(given);
    Some(Options {
        n,
        seed,
        turns,
        modes,
        shown,
    })
}

/// The one option of a replay.
pub fn only_n(given: &Given) -> Option<u32>
    ensures { result ≡ only_n (options_of given.now) }
{
    let n = number_in(given.only_n()?.as_bytes(), 0, u64::from(MOST_NUMBER))?;
    Some(n as u32)
}
