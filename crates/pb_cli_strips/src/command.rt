//! The command `strips`.

ghost use Rattle.std.specs.Prelude.{◌≡◌};
ghost use Rattle.pb_io.specs.Faults.{Rose};
ghost use Rattle.pb_io.specs.Files.{IsSureOf};
ghost use Rattle.pb_io.specs.Unread.{IsUnread};
ghost use Rattle.pb_cli_file.specs.Files.{OrUnread, SaysOf};
ghost use Rattle.pb_cli_strips.specs.Strips.{IsStripsReply};

use crate::answer::answer_in;
use pb_cli_file::say;
use pb_cli_status::Status;
use pb_io::{Folder, Sink};
use std::alloc::Global;

/// `strips FILE`: writes the protocol file that a file of at most 1,048,576 bytes with strips stands for, in the printed layout:
/// each column of a strip is a role of its own, and each `columns` is its body once for each value of its variable, ascending.
/// Whether that file keeps the rules isn't asked.
///
/// `Refused` comes where the bytes are no such file, `StripFault` where a strip, an end or a name beside a strip is wrong, and `Limit`
/// where a limit of the file is passed, or one of names, roles or statements by the file that it stands for. `ReadFault` comes only
/// where the folder's count of faults rose in this call, and never where a steady folder holds the file; `WriteFault` only where the
/// sink's did, and then some first bytes of what belongs there were written.
#[tactic(auto, using(pb_cli_file::proofs::Said::said_of))]
pub fn strips<F: Folder, O: Sink>(alloc: Global, file: &str, folder: &mut F, out: &mut O) -> Status
    ensures reply { SaysOf (OrUnread (IsUnread (F.steady folder.old) (F.holds folder.old) (F.faults folder.old) (F.faults folder.new) file.now) (IsStripsReply file.now (F.holds folder.old))) result (O.taken out.old) (O.taken out.new) }
    ensures read_fault { result ≡ Status.ReadFault → Rose (F.faults folder.old) (F.faults folder.new) }
    ensures sure { result ≡ Status.ReadFault → IsSureOf (F.steady folder.old) (F.holds folder.old) file.now → ⊥ }
    ensures write_fault { result ≡ Status.WriteFault → Rose (O.faults out.old) (O.faults out.new) }
{
    let answer = answer_in(alloc, folder, file);
    say(out, answer)
}
