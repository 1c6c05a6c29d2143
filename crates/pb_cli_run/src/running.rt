//! The command `run`.

ghost use Rattle.std.specs.Prelude.{◌≡◌, ◌≤◌};
ghost use Rattle.pb_text.specs.declared.limits.TheConstants.{MOST_EVENTS};
ghost use Rattle.pb_io.specs.Faults.{Rose};
ghost use Rattle.pb_io.specs.Files.{IsSureOf};
ghost use Rattle.pb_io.specs.Unread.{IsUnread};
ghost use Rattle.pb_cli_run.specs.Run.{SaysRun};

use pb_cli_file::tree_in;
use pb_cli_simulate::simulate_tree;
use pb_cli_status::{Status, refuse};
use pb_cli_words::Options;
use pb_io::{Folder, Sink};
use std::alloc::Global;

/// `run FILE` with options: compiles the protocol in a file of at most 1,048,576 bytes, and simulates its tree.
///
/// Where the file isn't accepted, the line and the status are those of `check`. `ReadFault` comes only where the folder's count
/// of faults rose in this call, and never where a steady folder holds the file; `WriteFault` only where the sink's did. The
/// other statuses are those of `simulate_tree`, and `Stuck`, `Text` and `Schedule` never come.
pub fn run<F: Folder, O: Sink, A: Fn(u64, u32, u64) -> u32 + Drop>(
    alloc: Global,
    file: &str,
    options: Options,
    answers: A,
    folder: &mut F,
    out: &mut O,
) -> Status
    requires callable { A.IsAlwaysCallable answers }
    requires few { options.turns ≤ MOST_EVENTS }
    ensures reply { SaysRun (A.post answers) (IsUnread (F.steady folder.old) (F.holds folder.old) (F.faults folder.old) (F.faults folder.new)) file.now options (F.holds folder.old) result (O.taken out.old) (O.taken out.new) }
    ensures read_fault { result ≡ Status.ReadFault → Rose (F.faults folder.old) (F.faults folder.new) }
    ensures sure { result ≡ Status.ReadFault → IsSureOf (F.steady folder.old) (F.holds folder.old) file.now → ⊥ }
    ensures write_fault { result ≡ Status.WriteFault → Rose (O.faults out.old) (O.faults out.new) }
{
    match tree_in(alloc, folder, file) {
        Ok(tree) => simulate_tree(alloc, tree, options, answers, out),
        Err(why) => refuse(out, why),
    }
}
