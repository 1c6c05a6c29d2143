//! What is told of a protocol file and a log.

ghost use Rattle.std.specs.Prelude.{◌≡◌, true, IfOk, IfErr, IsErrOf};
ghost use Rattle.pb_io.specs.Faults.{Rose};
ghost use Rattle.pb_io.specs.Files.{IsSureOf};
ghost use Rattle.pb_io.specs.Unread.{IsUnread};
ghost use Rattle.pb_core_language.specs.Plain.{plain};
ghost use Rattle.pb_core_language.specs.Sound.{is_sound};
ghost use Rattle.pb_local.specs.WellMade.{AreLabels, AreKernels};
ghost use Rattle.pb_cli_status.specs.Lines.{line_of, status_of};
ghost use Rattle.pb_cli_status.specs.declared.status.Status.TheVariants as S;
ghost use Rattle.pb_cli_file.specs.Files.{MayRun};
ghost use Rattle.pb_cli_judge.specs.Judge.{IsJudgeAnswer, IsJudgeReply, IsJudgedFile};

use crate::log::bytes_in;
use crate::ruled::ruled;
use crate::start::start;
use pb_cli_file::core_in;
use pb_cli_status::Refusal;
use pb_io::Folder;
use pb_judge::Core;
use std::alloc::Global;

/// The line of the ruling on the log in a file, of a protocol that can be run at N = n, or why there is none.
#[tactic(auto, using(crate::proofs::Told::kept, crate::proofs::Told::unread_log, crate::proofs::Told::against))]
fn line_on<F: Folder>(
    alloc: Global,
    folder: &mut F,
    core: &Core,
    n: u32,
    log: &str,
) -> Result<&'static [u8], Refusal>
    requires sound { is_sound (plain core.now) ≡ true }
    requires labels { AreLabels core.now.labels.items }
    requires kernels { AreKernels core.now.kernels.items }
    requires runs { MayRun (plain core.now) n }
    ensures done { IfOk result (λ line. IsJudgeAnswer (IsUnread (F.steady folder.old) (F.holds folder.old) (F.faults folder.old) (F.faults folder.new)) (plain core.now) n log.now (F.holds folder.old) S.Done line.now) }
    ensures denied { IfErr result (λ why. IsJudgeAnswer (IsUnread (F.steady folder.old) (F.holds folder.old) (F.faults folder.old) (F.faults folder.new)) (plain core.now) n log.now (F.holds folder.old) (status_of why) (line_of why)) }
    ensures fault { IsErrOf result Refusal.ReadFault → Rose (F.faults folder.old) (F.faults folder.new) }
    ensures sure { IsErrOf result Refusal.ReadFault → IsSureOf (F.steady folder.old) (F.holds folder.old) log.now → ⊥ }
{
    let bytes = match bytes_in(alloc, folder, log) {
        Ok(bytes) => bytes,
        Err(why) => return Err(why),
    };
    match ruled(alloc, core, n, &bytes) {
        Ok(line) => Ok(line),
        Err(why) => Err(why),
    }
}

/// The line of the ruling on the log in a file, of an accepted protocol at N = n, or why there is none.
#[tactic(auto, using(crate::proofs::Told::no_start))]
fn line_at<F: Folder>(
    alloc: Global,
    folder: &mut F,
    core: &Core,
    n: u32,
    log: &str,
) -> Result<&'static [u8], Refusal>
    requires sound { is_sound (plain core.now) ≡ true }
    requires labels { AreLabels core.now.labels.items }
    requires kernels { AreKernels core.now.kernels.items }
    ensures done { IfOk result (λ line. IsJudgeAnswer (IsUnread (F.steady folder.old) (F.holds folder.old) (F.faults folder.old) (F.faults folder.new)) (plain core.now) n log.now (F.holds folder.old) S.Done line.now) }
    ensures denied { IfErr result (λ why. IsJudgeAnswer (IsUnread (F.steady folder.old) (F.holds folder.old) (F.faults folder.old) (F.faults folder.new)) (plain core.now) n log.now (F.holds folder.old) (status_of why) (line_of why)) }
    ensures fault { IsErrOf result Refusal.ReadFault → Rose (F.faults folder.old) (F.faults folder.new) }
    ensures sure { IsErrOf result Refusal.ReadFault → IsSureOf (F.steady folder.old) (F.holds folder.old) log.now → ⊥ }
    ensures late { IsErrOf result Refusal.ReadFault → MayRun (plain core.now) n }
{
    match start(core, n) {
        Ok(()) => line_on(alloc, folder, core, n, log),
        Err(why) => Err(why),
    }
}

/// The line of the ruling on the log in a file, of the protocol in another at N = n, or why there is none.
pub fn line_in<F: Folder>(
    alloc: Global,
    folder: &mut F,
    file: &str,
    log: &str,
    n: u32,
) -> Result<&'static [u8], Refusal>
    ensures done { IfOk result (λ line. IsJudgeReply (IsUnread (F.steady folder.old) (F.holds folder.old) (F.faults folder.old) (F.faults folder.new)) file.now log.now n (F.holds folder.old) S.Done line.now) }
    ensures denied { IfErr result (λ why. IsJudgeReply (IsUnread (F.steady folder.old) (F.holds folder.old) (F.faults folder.old) (F.faults folder.new)) file.now log.now n (F.holds folder.old) (status_of why) (line_of why)) }
    ensures fault { IsErrOf result Refusal.ReadFault → Rose (F.faults folder.old) (F.faults folder.new) }
    ensures sure { IsErrOf result Refusal.ReadFault → IsSureOf (F.steady folder.old) (F.holds folder.old) file.now
        → IsSureOf (F.steady folder.old) (F.holds folder.old) log.now → ⊥ }
    ensures late { IsErrOf result Refusal.ReadFault → IsSureOf (F.steady folder.old) (F.holds folder.old) file.now
        → IsJudgedFile file.now n (F.holds folder.old) }
{
    let core = match core_in(alloc, folder, file) {
        Ok(core) => core,
        Err(why) => return Err(why),
    };
    match line_at(alloc, folder, &core, n, log) {
        Ok(line) => Ok(line),
        Err(why) => Err(why),
    }
}
