//! The commands on a protocol file.

ghost use Rattle.std.specs.Prelude.{◌≡◌};
ghost use Rattle.pb_io.specs.Faults.{Rose};
ghost use Rattle.pb_io.specs.Files.{IsSureOf};
ghost use Rattle.pb_io.specs.Unread.{IsUnread};
ghost use Rattle.pb_cli_file.specs.Files.{IsAcceptedFile, IsFileReply, Makes, OrUnread, SaysOf};
ghost use Rattle.pb_cli_file.specs.Kernels.{IsMergeReply};

use crate::answer::Wanted;
use crate::file::file_answer;
use crate::kernels::merged_answer;
use crate::saying::say;
use pb_cli_status::Status;
use pb_io::{Folder, Sink};
use std::alloc::Global;

/// Writes what is wanted of the protocol in a file, or one status line.
#[tactic(auto, using(crate::proofs::Said::said_of))]
pub fn tell<F: Folder, O: Sink>(
    alloc: Global,
    file: &str,
    wanted: Wanted,
    folder: &mut F,
    out: &mut O,
) -> Status
    ensures reply { SaysOf (OrUnread (IsUnread (F.steady folder.old) (F.holds folder.old) (F.faults folder.old) (F.faults folder.new) file.now) (IsFileReply (Makes wanted) file.now (F.holds folder.old))) result (O.taken out.old) (O.taken out.new) }
    ensures read_fault { result ≡ Status.ReadFault → Rose (F.faults folder.old) (F.faults folder.new) }
    ensures sure { result ≡ Status.ReadFault → IsSureOf (F.steady folder.old) (F.holds folder.old) file.now → ⊥ }
    ensures write_fault { result ≡ Status.WriteFault → Rose (O.faults out.old) (O.faults out.new) }
{
    let answer = file_answer(alloc, folder, file, wanted);
    say(out, answer)
}

/// Writes the C text of the protocol in a file with the bodies of a kernel file, or one status line.
pub fn tell_merged<F: Folder, O: Sink>(
    alloc: Global,
    file: &str,
    kernels: &str,
    folder: &mut F,
    out: &mut O,
) -> Status
    ensures reply { SaysOf (IsMergeReply file.now kernels.now (F.holds folder.old)) result (O.taken out.old) (O.taken out.new) }
    ensures read_fault { result ≡ Status.ReadFault → Rose (F.faults folder.old) (F.faults folder.new) }
    ensures sure { result ≡ Status.ReadFault → IsSureOf (F.steady folder.old) (F.holds folder.old) file.now
        → IsSureOf (F.steady folder.old) (F.holds folder.old) kernels.now → ⊥ }
    ensures late { result ≡ Status.ReadFault → IsSureOf (F.steady folder.old) (F.holds folder.old) file.now
        → IsAcceptedFile file.now (F.holds folder.old) }
    ensures write_fault { result ≡ Status.WriteFault → Rose (O.faults out.old) (O.faults out.new) }
{
    let answer = merged_answer(alloc, folder, file, kernels);
    say(out, answer)
}
