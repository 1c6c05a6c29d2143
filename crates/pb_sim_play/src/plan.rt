ghost use Rattle.std.specs.Prelude.{◌≡◌, ℕ, ◌+◌, ◌<◌, ◌^◌, MatchOption, OnSome, length};
ghost use Rattle.pb_sched.specs.Draws.{pick_mode};
ghost use Rattle.pb_sim_play.specs.Plans.{mode_by, pair_of, source_of, turn_by, IsAt, IsNext, IsOver};

use pb_cli_words::Modes;
use pb_sched::{Draw, Picks, Turn};
use pb_text::Mode;

/// Who makes the events of a simulation, and in which modes.
#[derive(Drop)]
pub enum Plan<'a> {
    /// The draws of a seed: a rank of those that have a step for each event, in the named mode or in one that is drawn too.
    Drawn(Picks, Modes),
    /// The events of a schedule.
    Given(&'a [Turn]),
}

/// The mode of an event that is drawn.
fn mode_by(modes: Modes, draw: Draw) -> Mode
    ensures { (seed t : ℕ) → draw.mode ≡ pick_mode seed t → result ≡ mode_by modes seed t }
{
    match modes {
        Modes::Each(mode) => mode,
        Modes::Mixed => draw.mode,
    }
}

/// The next draw, where some ranks have a step.
fn drawn(picks: &mut Picks, modes: Modes, ready: &[u32]) -> Option<Turn>
    requires { picks.old.turn < 2 ^ 62 }
    ensures seed { picks.new.seed ≡ picks.old.seed }
    ensures at { OnSome result (picks.new.turn ≡ picks.old.turn + 1) }
    ensures turn { MatchOption result (length ready.now ≡ 0) (λ turn. (0 < length ready.now) × (pair_of turn ≡ turn_by picks.old.seed modes picks.old.turn ready.now)) }
{
    if ready.is_empty() {
        return None;
    }
    let draw = picks.next();
    Some(Turn {
        rank: draw.among(ready),
        mode: mode_by(modes, draw),
    })
}

impl<'a> Plan<'a> {
    /// Event number `at`, from 0, where these ranks have a step; None where it has none. Takes no memory.
    pub fn turn(&mut self, at: u32, ready: &[u32]) -> Option<Turn>
        requires { IsAt self.old at }
        ensures source { source_of self.new ≡ source_of self.old }
        ensures at { OnSome result (IsAt self.new (at + 1)) }
        ensures turn { MatchOption result (IsOver (source_of self.old) at ready.now) (λ turn. IsNext (source_of self.old) at ready.now (pair_of turn)) }
    {
        match self {
            Plan::Drawn(picks, modes) => drawn(picks, *modes, ready),
            Plan::Given(turns) => turns.get(at as usize).copied(),
        }
    }
}
