//! The options, with their values as texts.

ghost use Rattle.std.specs.Prelude.{◌≡◌, Bool, option_copied};
ghost use Rattle.clap.specs.Words.{found_of, rows_of};
ghost use Rattle.pb_cli_words.specs.Reader.{IsFlag, at_most_n, listed_in, no_options};
ghost use Rattle.pb_cli_words.specs.Request.{needed, only_n};
ghost use Rattle.pb_cli_words.specs.Shown.{options_of};

use clap::ArgMatches;
use pb_text::MOST_NUMBER;

/// The options that are there, each once.
#[derive(Clone, Copy)]
pub struct Given<'a> {
    /// `--n A`.
    pub n: Option<&'a str>,
    /// `--seed B`.
    pub seed: Option<&'a str>,
    /// `--turns C`.
    pub turns: Option<&'a str>,
    /// `--mode M`.
    pub mode: Option<&'a str>,
    /// `--schedule`.
    pub schedule: bool,
}

impl<'a> Given<'a> {
    /// Those of these matches.
    pub fn new(matches: &ArgMatches<'a>) -> Given<'a>
        ensures { (schedule : Bool) → IsFlag (rows_of (found_of matches.now)) schedule → options_of result ≡ listed_in (rows_of (found_of matches.now)) schedule }
    {
        Given {
            n: matches.get_str("n"),
            seed: matches.get_str("seed"),
            turns: matches.get_str("turns"),
            mode: matches.get_str("mode"),
            schedule: matches.get_flag("schedule"),
        }
    }

    /// Whether none of those behind `--n` is there.
    fn has_at_most_n(&self) -> bool
        ensures { result ≡ at_most_n (option_copied self.now.seed) (option_copied self.now.turns) (option_copied self.now.mode) self.now.schedule }
    {
        self.seed.is_none() && self.turns.is_none() && self.mode.is_none() && !self.schedule
    }

    /// Whether none is there.
    #[tactic(auto, using(crate::proofs::Listed::none_there))]
    pub fn is_empty(&self) -> bool
        ensures { result ≡ no_options (options_of self.now) }
    {
        self.n.is_none() && self.has_at_most_n()
    }

    /// The value of `--n`, where no other is there.
    #[tactic(auto, using(crate::proofs::Listed::only_value))]
    pub fn only_n(&self) -> Option<&'a str>
        ensures { only_n (options_of self.now) ≡ needed 0 MOST_NUMBER (option_copied result) }
    {
        if self.has_at_most_n() { self.n } else { None }
    }
}
