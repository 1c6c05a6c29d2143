//! All lines of a log.

ghost use Rattle.std.specs.Prelude.{◌≡◌, ◌≤◌, ◌<◌, ◌+◌, ◌^◌, ◌-◌, List, ℕ, length, IfOk, IfErr, OnOk};
ghost use Rattle.pb_text.specs.declared.limits.TheConstants.{MOST_TEXT_BYTES};
ghost use Rattle.pb_draw_log.specs.Ends.{IsLog, IsFault};
ghost use Rattle.pb_draw_log.specs.Taking.{HasRead, HasReadAll, Adds, Numbers};

use crate::ends::is_end;
use crate::entry::{Entry, Log, Step};
use crate::fault::LogFault;
use crate::line::{Line, line_in};
use pb_text::{Name, Names, NoMemory};
use std::alloc::Global;

/// Reads a log of at most 67,108,864 bytes.
///
/// A line is a rank and what it does, in decimal without leading zeros and below 2^32, each after one space: `choose K B`,
/// `run K`, `send TO LABEL` and words, `recv FROM LABEL` and words, `enter LABEL` and words, `leave LABEL` and words. A name
/// has 1 to 64 letters, digits and `_`, and begins with no digit. A word is a number of 32 bits, or one from -1 to -2^31.
/// Each line ends with a line feed. The last line may be `ended`, or begin with `pabble: `. `BadLine` is the first line
/// that isn't so.
#[tactic(auto, using(crate::proofs::Taken::ended, crate::proofs::Taken::refused))]
pub fn read_log(alloc: Global, bytes: &[u8]) -> Result<Log, LogFault>
    requires { length bytes.now ≤ MOST_TEXT_BYTES }
    ensures log { IfOk result (λ log. IsLog bytes.now log) }
    ensures fault { IfErr result (λ fault. IsFault bytes.now fault) }
{
    let mut table = Names::new(alloc);
    let mut log = Log {
        names: Vec::new(alloc),
        entries: Vec::new(alloc),
        end: 0,
    };
    let rest = take_lines(&mut table, &mut log, bytes)?;
    if is_end(rest) {
        log.end = bytes.len() - rest.len();
        Ok(log)
    } else {
        Err(LogFault::BadLine(log.entries.len() as u32 + 1))
    }
}

/// Reads the lines in front of the bytes, and gives the rest.
#[tactic(auto, using(crate::proofs::Shorter::line_shorter))]
fn take_lines<'a>(table: &mut Names, log: &mut Log, bytes: &'a [u8]) -> Result<&'a [u8], NoMemory>
    requires small { length bytes.now ≤ MOST_TEXT_BYTES }
    requires begun { HasRead bytes.now table.old log.old bytes.now }
    ensures { IfOk result (λ rest. HasReadAll bytes.now table.new log.new rest.now) }
{
    let mut rest = bytes;
    while let Some((line, tail, behind)) = line_in(rest) {
        push(table, log, &line, bytes.len() - tail.len())?;
        rest = behind;
    }
    Ok(rest)
}

/// One more line, whose words begin there.
fn push(table: &mut Names, log: &mut Log, line: &Line, start: usize) -> Result<(), NoMemory>
    requires names { table.old ≡ log.old.names.items }
    requires room { length table.old < 2 ^ 32 - 1 }
    ensures { OnOk result (Adds table.old log.old table.new log.new line.now start) }
{
    let name = number(table, &mut log.names, line.head.name)?;
    let step = Step {
        rank: line.head.rank,
        deed: line.head.deed,
        name,
    };
    log.entries.push(Entry {
        step,
        words: line.words,
        start,
    })?;
    Ok(())
}

/// The number of a name. A new one goes last in both.
#[tactic(auto, using(crate::proofs::Named::numbered_new, crate::proofs::Named::numbered_old))]
fn number(table: &mut Names, names: &mut Vec<Name>, name: Name) -> Result<u32, NoMemory>
    requires names { table.old ≡ names.old.items }
    requires room { length table.old < 2 ^ 32 - 1 }
    ensures { IfOk result (λ id. Numbers table.old table.new names.new.items name id) }
{
    let id = table.intern(name)?;
    if id as usize == names.len() {
        names.push(name)?;
    }
    Ok(id)
}
