use crate::command::Verb;
use crate::numbers::number_in;

/// An option.
#[derive(Clone, Copy)]
pub enum Choice {
    N,
    Seed,
    Turns,
    Mode,
    Schedule,
}

impl Choice {
    /// All options.
    pub fn all() -> &'static [Choice] {
        &[
            Choice::N,
            Choice::Seed,
            Choice::Turns,
            Choice::Mode,
            Choice::Schedule,
        ]
    }

    /// How it is written.
    pub fn name(self) -> &'static str {
        match self {
            Choice::N => "--n",
            Choice::Seed => "--seed",
            Choice::Turns => "--turns",
            Choice::Mode => "--mode",
            Choice::Schedule => "--schedule",
        }
    }

    /// Whether a value belongs to it.
    pub fn takes_value(self) -> bool {
        self != Choice::Schedule
    }

    /// Whether the command has it.
    pub fn goes_with(self, verb: Verb) -> bool {
        match verb {
            Verb::Run | Verb::Sim => true,
            Verb::Replay | Verb::Judge => self == Choice::N,
            Verb::Check
            | Verb::Project
            | Verb::Gen
            | Verb::Expand
            | Verb::Strips
            | Verb::Cost
            | Verb::Demo => false,
        }
    }

    /// What a value may be.
    pub fn values(self) -> &'static str {
        match self {
            Choice::N => "a number from 0 to 2000000000",
            Choice::Seed => "a number from 0 to 18446744073709551615",
            Choice::Turns => "a number from 1 to 1000000",
            Choice::Mode => "`eager`, `waiting` or `mixed`",
            Choice::Schedule => "nothing",
        }
    }

    /// Whether it may have this value.
    pub fn takes(self, value: &[u8]) -> bool {
        match self {
            Choice::N => is_within(value, 0, 2_000_000_000),
            Choice::Seed => is_within(value, 0, u64::MAX),
            Choice::Turns => is_within(value, 1, 1_000_000),
            Choice::Mode => {
                value == b"eager".as_slice()
                    || value == b"waiting".as_slice()
                    || value == b"mixed".as_slice()
            }
            Choice::Schedule => value.is_empty(),
        }
    }
}

/// Whether the digits are a number from `low` to `high`.
pub fn is_within(value: &[u8], low: u64, high: u64) -> bool {
    match number_in(value) {
        Some(n) => low <= n && n <= high,
        None => false,
    }
}
