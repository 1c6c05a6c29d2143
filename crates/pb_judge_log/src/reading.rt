//! Reading a log.

ghost use Rattle.std.specs.Prelude.{◌≡◌, ◌≤◌, true, List, [], IfOk, IfErr};
ghost use Rattle.pb_text.specs.declared.action.Action.{Action};
ghost use Rattle.pb_affine.specs.Values.{IsNear};
ghost use Rattle.pb_core_language.specs.Plain.{plain};
ghost use Rattle.pb_core_language.specs.Ranks.{total};
ghost use Rattle.pb_core_language.specs.Sound.{is_sound};
ghost use Rattle.pb_local.specs.WellMade.{AreLabels, AreKernels};
ghost use Rattle.pb_judge_log.specs.Entries.{tables_of, numbered, IsLog};
ghost use Rattle.pb_judge_log.specs.Kept.{AreKept, rows_in};
ghost use Rattle.pb_judge_log.specs.Outcomes.{IsFault, IsReadAs, Stops, ends, is_last};
ghost use Rattle.pb_judge_log.specs.Reading.{line_at};

use crate::actions::entry;
use crate::fault::LogFault;
use crate::fields::line;
use crate::log::Log;
use crate::ranks::total;
use crate::tables::Tables;
use pb_core_language::Core;
use pb_text::NoMemory;
use pb_text_read::strip;
use std::alloc::Global;

/// Reads the log of a protocol at N = n, within 2^40 of zero, with at most 1,024 ranks.
///
/// A log has a line for each action, and may have one last line that is `ended` or begins with `pabble: `, which gives no
/// entry. Each line ends with a line feed. `BadLine` is the first line that isn't so, be it that its label or its kernel
/// isn't one of the protocol, that its kernel is of the other kind, or that a rank isn't there. It takes time linear in the
/// bytes.
pub fn read_log(alloc: Global, core: &Core, n: i64, bytes: &[u8]) -> Result<Log, LogFault>
    requires sound { is_sound (plain core.now) ≡ true }
    requires labels { AreLabels core.now.labels.items }
    requires kernels { AreKernels core.now.kernels.items }
    requires near { IsNear n }
    requires few { total core.now.roles.items n ≤ 1024 }
    ensures ok { IfOk result (λ log. (actions : List Action) × IsLog (tables_of (plain core.now)) (total core.now.roles.items n) bytes.now actions × (log ≡ numbered actions)) }
    ensures fault { IfErr result (λ fault. IsFault (tables_of (plain core.now)) (total core.now.roles.items n) bytes.now fault) }
    ensures read { (actions : List Action) → IsLog (tables_of (plain core.now)) (total core.now.roles.items n) bytes.now actions → IsReadAs (numbered actions) result }
{
    read(alloc, core, n, bytes)
}

fn read(alloc: Global, core: &Core, n: i64, bytes: &[u8]) -> Result<Log, LogFault>
    requires sound { is_sound (plain core.now) ≡ true }
    requires labels { AreLabels core.now.labels.items }
    requires kernels { AreKernels core.now.kernels.items }
    requires near { IsNear n }
    requires few { total core.now.roles.items n ≤ 1024 }
    ensures ok { IfOk result (λ log. (actions : List Action) × IsLog (tables_of (plain core.now)) (total core.now.roles.items n) bytes.now actions × (log ≡ numbered actions)) }
    ensures fault { IfErr result (λ fault. IsFault (tables_of (plain core.now)) (total core.now.roles.items n) bytes.now fault) }
{
    let tables = Tables::of(alloc, core, total(&core.roles, n))?;
    let mut log = Log::new(alloc);
    let (number, rest) = fill(alloc, &tables, &mut log, bytes)?;
    if is_ending(rest) {
        Ok(log)
    } else {
        Err(LogFault::BadLine(number))
    }
}

/// Reads the actions in front of a text. It gives the number of the line behind them, and the rest from there.
fn fill<'a>(
    alloc: Global,
    tables: &Tables,
    log: &mut Log,
    text: &'a [u8],
) -> Result<(u32, &'a [u8]), NoMemory>
    requires kept { AreKept tables.now }
    requires empty { log.old ≡ [] }
    ensures { IfOk result (λ x. Stops (rows_in tables.now) tables.now.total text.now log.new x.0 x.1.now) }
{
    let mut number = 1u32;
    let mut rest = text;
    'lines: while let Some((line, after)) = line(rest) {
        match entry(alloc, tables, line)? {
            None => return Ok((number, rest)),
            Some(action) => log.push(number, action)?,
        }
        number = number.saturating_add(1);
        rest = after;
    }
    Ok((number, rest))
}

/// Whether nothing is left, or one last line, `ended` or one that begins with `pabble: `.
fn is_ending(rest: &[u8]) -> bool
    ensures { result ≡ ends rest.now }
{
    if rest.is_empty() || rest == b"ended\n".as_slice() {
        return true;
    }
    match strip(b"pabble: ", rest) {
        None => false,
        Some(told) => is_last_line(told),
    }
}

/// Whether the text is one line with its line feed.
fn is_last_line(text: &[u8]) -> bool
    ensures { result ≡ is_last (line_at text.now) }
{
    match line(text) {
        None => false,
        Some((_, rest)) => rest.is_empty(),
    }
}
