//! The command `cost`.

ghost use Rattle.std.specs.Prelude.{◌≡◌, ◌≤◌};
ghost use Rattle.pb_io.specs.Faults.{Rose};
ghost use Rattle.pb_io.specs.Files.{IsSureOf};
ghost use Rattle.pb_io.specs.Unread.{IsUnread};
ghost use Rattle.pb_cli_status.specs.Written.{Says};
ghost use Rattle.pb_cli_file.specs.Files.{SaysOf};
ghost use Rattle.pb_cli_cost.specs.Cost.{IsCostReply};

use crate::answer::lines_in;
use pb_cli_status::{Status, refuse};
use pb_io::{Folder, OutFault, Sink, write_all};
use std::alloc::Global;

/// Writes a text, and tells that all is done.
fn write_text<O: Sink>(out: &mut O, text: &[u8]) -> Status
    ensures said { Says Status.Done text.now result (O.taken out.old) (O.taken out.new) }
    ensures read { result ≡ Status.ReadFault → ⊥ }
    ensures fault { result ≡ Status.WriteFault → Rose (O.faults out.old) (O.faults out.new) }
{
    match write_all(out, text) {
        Ok(()) => Status::Done,
        Err(OutFault::WriteFault) => Status::WriteFault,
    }
}

/// `cost FILE`: writes how much the protocol in a file of at most 1,048,576 bytes sends at least and at most, for every N of its
/// range: the least and the most messages, then the least and the most words, a line for each piece.
///
/// Where the file isn't accepted, the line and the status are those of `check`. Else, where memory doesn't run out, `CostFault`
/// comes exactly where the protocol has a loop; and `Limit` where it has none, and for the first statements of some block that
/// isn't a foreach's, or for the first branches of some choice, one of the four counts has more than 4,096 pieces. `ReadFault`
/// comes only where the folder's count of faults rose in this call, and never where a steady folder holds the file; `WriteFault`
/// only where the sink's did, and then some first bytes of what belongs there were written.
#[tactic(auto, using(crate::proofs::Told::said))]
pub fn cost<F: Folder, O: Sink>(alloc: Global, file: &str, folder: &mut F, out: &mut O) -> Status
    ensures reply { SaysOf (IsCostReply (IsUnread (F.steady folder.old) (F.holds folder.old) (F.faults folder.old) (F.faults folder.new)) file.now (F.holds folder.old)) result (O.taken out.old) (O.taken out.new) }
    ensures read_fault { result ≡ Status.ReadFault → Rose (F.faults folder.old) (F.faults folder.new) }
    ensures sure { result ≡ Status.ReadFault → IsSureOf (F.steady folder.old) (F.holds folder.old) file.now → ⊥ }
    ensures write_fault { result ≡ Status.WriteFault → Rose (O.faults out.old) (O.faults out.new) }
{
    match lines_in(alloc, folder, file) {
        Ok(text) => write_text(out, &text),
        Err(why) => refuse(out, why),
    }
}
