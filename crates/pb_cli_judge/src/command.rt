//! The command `judge`.

ghost use Rattle.std.specs.Prelude.{◌≡◌, ◌≤◌};
ghost use Rattle.pb_io.specs.Faults.{Rose};
ghost use Rattle.pb_io.specs.Files.{IsSureOf};
ghost use Rattle.pb_io.specs.Unread.{IsUnread};
ghost use Rattle.pb_cli_status.specs.Written.{Says};
ghost use Rattle.pb_cli_file.specs.Files.{SaysOf};
ghost use Rattle.pb_cli_judge.specs.Judge.{IsJudgeReply, IsJudgedFile};

use crate::answer::line_in;
use pb_cli_status::{Status, refuse};
use pb_io::{Folder, OutFault, Sink, write_all};
use std::alloc::Global;

/// Writes a line, and tells that all is done.
fn write_line<O: Sink>(out: &mut O, line: &[u8]) -> Status
    ensures said { Says Status.Done line.now result (O.taken out.old) (O.taken out.new) }
    ensures read { result ≡ Status.ReadFault → ⊥ }
    ensures fault { result ≡ Status.WriteFault → Rose (O.faults out.old) (O.faults out.new) }
{
    match write_all(out, line) {
        Ok(()) => Status::Done,
        Err(OutFault::WriteFault) => Status::WriteFault,
    }
}

/// `judge FILE LOG --n A`: writes the ruling on the log in a file of at most 67,108,864 bytes, of the protocol in a file of at most
/// 1,048,576 bytes at N = n, where the log kept the protocol: `whole` where it is a whole run, and else `covered`.
///
/// Where the protocol file isn't accepted, the line and the status are those of `check`. Then, where memory doesn't run out,
/// `OutOfRange` comes exactly where N isn't in the protocol's range, else `Limit` where there would be more than 1,024 ranks;
/// then the log is read, and `Limit` comes where it has more bytes, `Log` at its first line that is no line of a log of this
/// protocol, and `NotCovered` where its ruling is that it differs or goes beyond. `ReadFault` comes only where the folder's count
/// of faults rose in this call, and never where a steady folder holds both files; `WriteFault` only where the sink's did, and then
/// some first bytes of what belongs there were written.
#[tactic(auto, using(crate::proofs::Told::said))]
pub fn judge<F: Folder, O: Sink>(
    alloc: Global,
    file: &str,
    log: &str,
    n: u32,
    folder: &mut F,
    out: &mut O,
) -> Status
    ensures reply { SaysOf (IsJudgeReply (IsUnread (F.steady folder.old) (F.holds folder.old) (F.faults folder.old) (F.faults folder.new)) file.now log.now n (F.holds folder.old)) result (O.taken out.old) (O.taken out.new) }
    ensures read_fault { result ≡ Status.ReadFault → Rose (F.faults folder.old) (F.faults folder.new) }
    ensures sure { result ≡ Status.ReadFault → IsSureOf (F.steady folder.old) (F.holds folder.old) file.now
        → IsSureOf (F.steady folder.old) (F.holds folder.old) log.now → ⊥ }
    ensures late { result ≡ Status.ReadFault → IsSureOf (F.steady folder.old) (F.holds folder.old) file.now
        → IsJudgedFile file.now n (F.holds folder.old) }
    ensures write_fault { result ≡ Status.WriteFault → Rose (O.faults out.old) (O.faults out.new) }
{
    match line_in(alloc, folder, file, log, n) {
        Ok(line) => write_line(out, line),
        Err(why) => refuse(out, why),
    }
}
