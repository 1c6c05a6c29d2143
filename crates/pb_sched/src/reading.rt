//! Reading a schedule.

ghost use Rattle.std.specs.Prelude.{◌≡◌, ℕ, ◌+◌, ◌≤◌, List, length, [], ◌++◌, IfOk, IfErr};
ghost use Rattle.pb_sched.specs.Outcomes.{IsSchedule, IsFault, IsReadAs};
ghost use Rattle.pb_sched.specs.Parts.{HasTurns, fault_at};

use crate::fault::ScheduleFault;
use crate::format::Format;
use crate::parts::{head, seed, turn};
use crate::schedule::{Schedule, Turn};
use pb_text::{MOST_EVENTS, NoMemory};
use std::alloc::Global;

/// Reads the events in front of a text, up to 1,000,000, and gives the rest.
fn fill<'a>(turns: &mut Vec<Turn>, format: Format, text: &'a [u8]) -> Result<&'a [u8], NoMemory>
    requires { turns.old.items ≡ [] }
    ensures { IfOk result (λ rest. HasTurns format text.now turns.new.items rest.now) }
{
    let mut rest = text;
    while turns.len() < MOST_EVENTS as usize {
        match turn(format, rest) {
            Some((next, after)) => {
                turns.push(next)?;
                rest = after;
            }
            None => return Ok(rest),
        }
    }
    Ok(rest)
}

/// What is wrong with the line after so many events, if the text doesn't end there.
fn fault_at(format: Format, count: usize, rest: &[u8]) -> Option<ScheduleFault>
    requires { count ≤ MOST_EVENTS }
    ensures { result ≡ fault_at format count rest.now }
{
    if rest.is_empty() {
        return None;
    }
    let line = count as u32 + 3;
    if turn(format, rest).is_some() {
        Some(ScheduleFault::TooMany(line))
    } else {
        Some(ScheduleFault::BadLine(line))
    }
}

/// Reads the text of a schedule, in format 1 or 2.
///
/// Format 2 has the line `pabble schedule 2`, the line `seed B`, and a line for each event: its rank, a space, and `e`
/// for eager or `w` for waiting. Format 1 has `pabble schedule 1` and the rank alone; each event is eager. Numbers are
/// decimal without leading zeros, the seed below 2^64 and ranks below 2^32; each line ends with a line feed. `BadLine`
/// is the first line that isn't so, `TooMany` the line of event 1,000,001 if the lines up to it are. The same as `read`,
/// with the clause that each text of a schedule is read.
pub fn read_schedule(alloc: Global, bytes: &[u8]) -> Result<Schedule, ScheduleFault>
    ensures ok { IfOk result (λ s. IsSchedule bytes.now s.seed s.turns.items) }
    ensures fault { IfErr result (λ fault. IsFault bytes.now fault) }
    ensures read { (seed : ℕ) (turns : List Turn) → IsSchedule bytes.now seed turns → IsReadAs seed turns result }
{
    read(alloc, bytes)
}

fn read(alloc: Global, bytes: &[u8]) -> Result<Schedule, ScheduleFault>
    ensures ok { IfOk result (λ s. IsSchedule bytes.now s.seed s.turns.items) }
    ensures fault { IfErr result (λ fault. IsFault bytes.now fault) }
{
    let (format, text) = match head(bytes) {
        Some(found) => found,
        None => return Err(ScheduleFault::BadLine(1)),
    };
    let (seed, text) = match seed(text) {
        Some(found) => found,
        None => return Err(ScheduleFault::BadLine(2)),
    };
    let mut turns = Vec::new(alloc);
    let rest = fill(&mut turns, format, text)?;
    match fault_at(format, turns.len(), rest) {
        None => Ok(Schedule { seed, turns }),
        Some(fault) => Err(fault),
    }
}
