//! Texts and schedules.

ghost use Rattle.std.specs.Prelude.{◌≡◌, ◌≤◌, true, All, length, IfOk, IfErr, IsErrOf};
ghost use Rattle.pb_text.specs.declared.limits.TheConstants.{MOST_EVENTS};
ghost use Rattle.pb_ctree.specs.Bodies.{is_body};
ghost use Rattle.pb_sched.specs.Outcomes.{IsSchedule};
ghost use Rattle.pb_cli_simulate.specs.Sources.{IsTextOf, IsNoText, IsNoSchedule};

use pb_cli_status::{Quantity, Refusal};
use pb_cread::{TextFault, read_c};
use pb_ctree::{Bodies, CTree};
use pb_sched::{Schedule, ScheduleFault, read_schedule};
use std::alloc::Global;

/// The tree of a C text. Where memory doesn't run out, `Text` comes with the first line that no text goes on with, and `Limit`
/// with the first line behind which more than 256 braces are open or that begins statement 50,001.
pub fn read_text(alloc: Global, bytes: &[u8]) -> Result<CTree, Refusal>
    ensures tree { IfOk result (IsTextOf bytes.now) }
    ensures denied { IfErr result (IsNoText bytes.now) }
    ensures real { IsErrOf result Refusal.ReadFault → ⊥ }
{
    match read_c(alloc, bytes) {
        Ok(text) => {
            tell_bodies(&text.bodies);
            Ok(text.tree)
        }
        Err(TextFault::Unexpected(place)) => Err(Refusal::Text(place)),
        Err(TextFault::TooDeep(place)) => Err(Refusal::Limit(Quantity::TextNesting, place)),
        Err(TextFault::TooMany(place)) => Err(Refusal::Limit(Quantity::TextStatements, place)),
        Err(TextFault::NoMemory) => Err(Refusal::NoMemory),
    }
}

/// Tells of each body what its type does: it is whole lines, and none of them is a marker.
fn tell_bodies(bodies: &Bodies)
    ensures prelude { is_body bodies.now.prelude ≡ true }
    ensures list { All (λ body. is_body body ≡ true) bodies.now.list.items }
{
    let _prelude = bodies.prelude.bytes();
    for body in &bodies.list {
        let _bytes = body.bytes();
    }
}

/// The schedule of its text. Where memory doesn't run out, `Schedule` comes with the first malformed line, and `Events` where
/// the lines up to that of event 1,000,001 are well formed.
pub fn read_turns(alloc: Global, bytes: &[u8]) -> Result<Schedule, Refusal>
    ensures schedule { IfOk result (λ s. IsSchedule bytes.now s.seed s.turns.items) }
    ensures few { IfOk result (λ s. length s.turns.items ≤ MOST_EVENTS) }
    ensures denied { IfErr result (IsNoSchedule bytes.now) }
    ensures real { IsErrOf result Refusal.ReadFault → ⊥ }
{
    match read_schedule(alloc, bytes) {
        Ok(schedule) => Ok(schedule),
        Err(ScheduleFault::BadLine(line)) => Err(Refusal::Schedule(line)),
        Err(ScheduleFault::TooMany(_)) => Err(Refusal::Events),
        Err(ScheduleFault::NoMemory) => Err(Refusal::NoMemory),
    }
}
