//! The ruling on a log, from its bytes.

ghost use Rattle.std.specs.Prelude.{◌≡◌, ◌≤◌, pos, true, List, IfOk, IfErr};
ghost use Rattle.pb_text.specs.declared.action.Action.{Action};
ghost use Rattle.pb_core_language.specs.Collectives.{setting_of};
ghost use Rattle.pb_core_language.specs.FlatOf.{flat};
ghost use Rattle.pb_core_language.specs.Plain.{plain};
ghost use Rattle.pb_core_language.specs.Ranks.{total};
ghost use Rattle.pb_core_language.specs.Sound.{is_sound};
ghost use Rattle.pb_local.specs.WellMade.{AreLabels, AreKernels};
ghost use Rattle.pb_judge_log.specs.Entries.{IsLog, numbered, tables_of};
ghost use Rattle.pb_judge_log.specs.Outcomes.{IsFault};
ghost use Rattle.pb_judge_ruling.specs.Laws.{HasRanks};
ghost use Rattle.pb_judge_ruling.specs.Ruling.{IsRuling};
ghost use Rattle.pb_cli_judge.specs.Judge.{IsAgainst, IsKeptLine, IsLineOf, IsRefusalOf};

use pb_cli_status::Refusal;
use pb_judge::{Core, Log, NoMemory, Ruling, judge};
use pb_judge_log::{LogFault, read_log};
use std::alloc::Global;

/// The log of a protocol at N = n.
fn log_in(alloc: Global, core: &Core, n: u32, bytes: &[u8]) -> Result<Log, LogFault>
    requires sound { is_sound (plain core.now) ≡ true }
    requires labels { AreLabels core.now.labels.items }
    requires kernels { AreKernels core.now.kernels.items }
    requires few { total core.now.roles.items (pos n) ≤ 1024 }
    ensures ok { IfOk result (λ log. (actions : List Action) × IsLog (tables_of (plain core.now)) (total core.now.roles.items (pos n)) bytes.now actions × (log ≡ numbered actions)) }
    ensures fault { IfErr result (λ fault. IsFault (tables_of (plain core.now)) (total core.now.roles.items (pos n)) bytes.now fault) }
{
    read_log(alloc, core, i64::from(n), bytes)
}

/// The ruling on a log of a protocol at N = n.
fn ruling_on(alloc: Global, core: &Core, n: u32, log: &Log) -> Result<Ruling, NoMemory>
    requires sound { is_sound (plain core.now) ≡ true }
    requires few { total core.now.roles.items (pos n) ≤ 1024 }
    requires ranks { HasRanks (total core.now.roles.items (pos n)) log.now }
    ensures { IfOk result (λ ruling. IsRuling (setting_of (plain core.now) (pos n)) (flat core.now.roles.items (pos n) (plain core.now).body.block) log.now ruling) }
{
    judge(alloc, core, i64::from(n), log)
}

/// The line of a ruling on a log that kept the protocol, or the refusal of one that didn't.
fn line_of(ruling: Ruling) -> Result<&'static [u8], Refusal>
    ensures line { IfOk result (λ line. IsLineOf ruling line.now) }
    ensures refusal { IfErr result (IsRefusalOf ruling) }
{
    match ruling {
        Ruling::Whole => Ok(b"whole\n"),
        Ruling::Covered => Ok(b"covered\n"),
        Ruling::Differs { rank, line } => Err(Refusal::LogDiffers { line, rank }),
        Ruling::Beyond { rank, line } => Err(Refusal::LogBeyond { line, rank }),
    }
}

/// The line of the ruling on a log that was read.
fn line_on(
    alloc: Global,
    core: &Core,
    n: u32,
    bytes: &[u8],
    log: &Log,
) -> Result<&'static [u8], Refusal>
    requires sound { is_sound (plain core.now) ≡ true }
    requires few { total core.now.roles.items (pos n) ≤ 1024 }
    requires read { (actions : List Action) × IsLog (tables_of (plain core.now)) (total core.now.roles.items (pos n)) bytes.now actions × (log.now ≡ numbered actions) }
    ensures kept { IfOk result (λ line. IsKeptLine (plain core.now) n bytes.now line.now) }
    ensures against { IfErr result (IsAgainst (plain core.now) n bytes.now) }
{
    match ruling_on(alloc, core, n, log) {
        Ok(ruling) => match line_of(ruling) {
            Ok(line) => Ok(line),
            Err(why) => Err(why),
        },
        Err(NoMemory) => Err(Refusal::NoMemory),
    }
}

/// The line of the ruling on a log with these bytes, of a protocol with at most 1,024 ranks at N = n, where it kept the protocol;
/// else why not.
pub fn ruled(alloc: Global, core: &Core, n: u32, bytes: &[u8]) -> Result<&'static [u8], Refusal>
    requires sound { is_sound (plain core.now) ≡ true }
    requires labels { AreLabels core.now.labels.items }
    requires kernels { AreKernels core.now.kernels.items }
    requires few { total core.now.roles.items (pos n) ≤ 1024 }
    ensures kept { IfOk result (λ line. IsKeptLine (plain core.now) n bytes.now line.now) }
    ensures against { IfErr result (IsAgainst (plain core.now) n bytes.now) }
{
    match log_in(alloc, core, n, bytes) {
        Ok(log) => line_on(alloc, core, n, bytes, &log),
        Err(LogFault::BadLine(line)) => Err(Refusal::LogMalformed(line)),
        Err(LogFault::NoMemory) => Err(Refusal::NoMemory),
    }
}
