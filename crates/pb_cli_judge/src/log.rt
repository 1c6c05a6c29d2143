//! The bytes of a log.

ghost use Rattle.std.specs.Prelude.{◌≡◌, ◌≤◌, length, IfOk, IfErr, IsErrOf};
ghost use Rattle.pb_text.specs.declared.limits.TheConstants.{MOST_TEXT_BYTES};
ghost use Rattle.pb_io.specs.Faults.{Rose};
ghost use Rattle.pb_io.specs.Files.{IsContent, IsSureOf};
ghost use Rattle.pb_io.specs.Unread.{IsUnread};
ghost use Rattle.pb_cli_judge.specs.Judge.{IsUnreadLog};

use pb_cli_status::Refusal;
use pb_io::{Folder, InFault, read_all};
use pb_text::MOST_TEXT_BYTES;
use std::alloc::Global;

/// The bytes of a log of at most 67,108,864, or why there are none.
pub fn bytes_in<F: Folder>(alloc: Global, folder: &mut F, log: &str) -> Result<Vec<u8>, Refusal>
    ensures whole { IfOk result (λ bytes. IsContent (F.holds folder.old) log.now bytes.items) }
    ensures short { IfOk result (λ bytes. length bytes.items ≤ MOST_TEXT_BYTES) }
    ensures unread { IfErr result (IsUnreadLog (IsUnread (F.steady folder.old) (F.holds folder.old) (F.faults folder.old) (F.faults folder.new)) log.now (F.holds folder.old)) }
    ensures fault { IsErrOf result Refusal.ReadFault → Rose (F.faults folder.old) (F.faults folder.new) }
    ensures sure { IsErrOf result Refusal.ReadFault → IsSureOf (F.steady folder.old) (F.holds folder.old) log.now → ⊥ }
    ensures later { F.faults folder.old ≤ F.faults folder.new }
{
    match read_all(alloc, folder, log, MOST_TEXT_BYTES) {
        Ok(bytes) => Ok(bytes),
        Err(InFault::ReadFault) => Err(Refusal::ReadFault),
        Err(InFault::TooLong) => Err(Refusal::FileBytes),
        Err(InFault::NoMemory) => Err(Refusal::NoMemory),
    }
}
