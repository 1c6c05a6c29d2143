ghost use Rattle.std.specs.Prelude.{◌≡◌, Some, map};
ghost use Rattle.std.specs.String.{string_bytes};
ghost use Rattle.pb_io.specs.Faults.{Rose};
ghost use Rattle.pb_io.specs.Unread.{IsUnread};
ghost use Rattle.pb_cli_words.specs.Request.{AsksForFew, request, request_of};
ghost use Rattle.pb_cli.specs.Complete.{IsComplete};
ghost use Rattle.pb_cli.specs.Program.{ReadsOn, SaysReply};
ghost use Rattle.pb_cli.specs.Reply.{IsSureOfForm};

use pb_cli_cost::cost;
use pb_cli_demo::demo;
use pb_cli_expand::expand;
use pb_cli_file::{Wanted, tell, tell_merged};
use pb_cli_judge::judge;
use pb_cli_run::run;
use pb_cli_simulate::{replay, sim};
use pb_cli_status::{Refusal, Status, refuse};
use pb_cli_strips::strips;
use pb_cli_words::{Command, NoMemory, command_in};
use pb_io::{Folder, Sink};
use std::alloc::Global;

/// Does what the words after the program's name say, and writes the answer or one status line.
///
/// A protocol file is accepted where it has at most 1,048,576 bytes, is a text of the grammar within its limits, keeps all
/// twelve rules for every N of its range, and has at most 4,096 breakpoints. On such a file
///
/// - `check FILE` writes the line `accepted`;
/// - `project FILE` writes the layout of an endpoint program that has the shape of the protocol's projection;
/// - `gen FILE` writes a C text. It spells, with default bodies, a tree whose endpoint program has that shape. At each N of
///   the range with at most 2,000,000,000 ranks, whatever kernels answer and whichever sends wait, all ranks of that program
///   together do, up to swaps of actions of different ranks, a prefix of the protocol's sequential run, and they stop only at
///   its end, with no message left.
/// - `gen FILE KERNELS` writes such a text with the bodies of a kernel file of at most 1,048,576 bytes.
///
/// `Done` comes only then. On a file that isn't accepted these four write one line and answer `Refused` or `Limit`: `Limit`
/// where the file has more bytes, its first fault is that it passes a limit, or it keeps the rules 1 to 5 and has more
/// breakpoints; `Refused` where its first fault is one of syntax, with its place, or else it breaks one of the twelve rules:
/// the least, at its first place, with the least N that breaks it there and the least rank where the rule speaks of them.
///
/// `gen FILE KERNELS` reads the kernel file only where the protocol is accepted. It answers `Limit` where that file has more
/// bytes, and `Kernel` where it is malformed, has a name twice, lacks a function of the text, or has a body that has no place
/// in it.
///
/// `sim TEXT` with options and `replay TEXT SCHEDULE --n A` simulate a C text of at most 67,108,864 bytes on all its ranks, by
/// a seed or by a schedule, and write the log and the line `ended`, or the schedule alone. They answer `Text` where the bytes are
/// no such text, `Schedule` where a line of the schedule is malformed or names a rank that has no step, `OutOfRange` where N
/// isn't in the text's range, `Limit` where a limit on texts, ranks, events or words in flight is passed, `Stuck` where nobody
/// has a step and not all is at its end, and `Turns` where all events were made and some rank has a step. `Done` comes only
/// where all ranks have ended and no message is left. The log of the events made stands before the line.
///
/// `run FILE` with options compiles a protocol file, and simulates the tree of its C text as `sim` simulates a text, by a seed.
/// Where the file isn't accepted it writes the line that `check` writes. It never answers `Stuck`, `Text` or `Schedule`. What
/// its ranks do is, up to swaps of actions of different ranks, a prefix of the protocol's sequential run under the answers that
/// were given, and where it answers `Done` it is a whole such run.
///
/// `demo K` makes a protocol of K statements, and goes on with its printed bytes as `run` does with a file's, for N = 8, the seed
/// K, eager events and at most 1,000,000 of them. It writes how many actions of each kind were done, and the words of all sends
/// and entries, where the run has come to its end, and else the line of the status alone. It never answers `Stuck` or `OutOfRange`.
///
/// `expand FILE` writes the protocol file that a file of at most 1,048,576 bytes with subprotocols stands for, in the printed layout:
/// each call is replaced by the statements of its subprotocol, with arguments in the place of parameters. Whether it keeps the rules
/// isn't asked. It answers `Refused` where the bytes are no such file, and `CallFault` where a name stands twice, a call names no
/// subprotocol, or has another number of arguments, a name stands for nothing, or subprotocols call each other in a circle: the
/// least of these, at its first place. It answers `Limit` where the file passes a limit, or replacing makes more than 4,000
/// statements and calls, or more than 64 open braces.
///
/// `strips FILE` writes the protocol file that a file of at most 1,048,576 bytes with strips stands for, in the printed layout: each
/// column of a strip is a role of its own, and each `columns` is its body once for each value of its variable, ascending. Whether it
/// keeps the rules isn't asked. It answers `Refused` where the bytes are no such file, and `StripFault` where the columns of a strip
/// don't ascend or go beyond 63, an end of a strip has no column or another has one, a column's variable isn't that of the `columns`
/// around, a column is none of its strip's, or a name is that of a column: the least of these, at its first place. It answers
/// `Limit` where the file passes a limit, or the one that it stands for one of names, roles or statements.
///
/// `cost FILE` writes how much the protocol sends at least and at most: four counts, of messages and of their words, over the
/// sequential runs under all answers, as the fewest lines `A * N + B`, each with the numbers N that it holds for. Where the file
/// isn't accepted it writes the line that `check` writes. It answers `CostFault` exactly where the protocol has a loop, with the
/// place of the first, and else `Limit` exactly where of the first statements of some block, or of the first branches of some
/// choice, one of the four has more than 4,096 such lines.
///
/// `judge FILE LOG --n A` rules on a log of at most 67,108,864 bytes of the protocol at N = A, beside the sequential run under the
/// answers that the log itself shows. It writes the line `whole` where the run comes to its end and each rank of the log has done
/// its part of it, and else the line `covered` where each rank has done some first actions of its part. It answers `NotCovered`
/// where the log departs from the run: by the first action of the run that isn't that of the log at its place of its rank's list,
/// or else by the least rank that does more than the run ever has for it. It answers `Log` where a line is malformed, with the
/// first, and `OutOfRange` and `Limit` as `run` does for N and its ranks, or where the log has more bytes. The log is read only
/// where the protocol is accepted, and N is one of its range with at most 1,024 ranks.
///
/// `Usage` comes only where the words are in no form. `ReadFault` comes only where the folder's count of faults rose in this
/// call, and never where a steady folder holds the files; `WriteFault` only where the sink's did, and then some first bytes of
/// what belongs there were written. Want of memory, `NoMemory`, may come in place of each of the others.
///
/// Where the words are in a form, the files keep the rules and the limits, and N is one of the range with at most 1,024 ranks,
/// it answers `Done`, or want of memory, or a fault that rose; or, of a simulation, `Stuck`, `Turns` or `Limit`, and of a
/// schedule `Schedule`. `demo`, which names no file, answers `Done`, `Refused`, `Limit` or `Turns`, or want of memory, or a write
/// that failed. So it is of `expand` where the file has no fault and its calls can be replaced, of `strips` where it has none and
/// stands for a file within the limits, of `cost` where the protocol has no
/// loop and no count too many lines, and of `judge` where the log is whole or covered.
///
/// `answers` gives word number `count` of a rank, from 0, by a seed, the rank and that number.
///
/// The same as `act`, with the clause `complete`, which lists the answers that may come.
pub fn pabble<F: Folder, O: Sink, A: Fn(u64, u32, u64) -> u32 + Drop>(
    alloc: Global,
    words: &[String],
    folder: &mut F,
    out: &mut O,
    answers: A,
) -> Status
    requires { A.IsAlwaysCallable answers }
    ensures reply { SaysReply (A.post answers) (IsUnread (F.steady folder.old) (F.holds folder.old) (F.faults folder.old) (F.faults folder.new)) (request (map string_bytes words.now)) (F.holds folder.old) result (O.taken out.old) (O.taken out.new) }
    ensures complete { IsComplete (request (map string_bytes words.now)) (F.holds folder.old) result }
    ensures read_fault { result ≡ Status.ReadFault → Rose (F.faults folder.old) (F.faults folder.new) }
    ensures sure { result ≡ Status.ReadFault
        → IsSureOfForm (request (map string_bytes words.now)) (F.steady folder.old) (F.holds folder.old) → ⊥ }
    ensures late { result ≡ Status.ReadFault → ReadsOn (request (map string_bytes words.now)) (F.steady folder.old) (F.holds folder.old) }
    ensures write_fault { result ≡ Status.WriteFault → Rose (O.faults out.old) (O.faults out.new) }
{
    act(alloc, words, answers, folder, out)
}

/// Does what the words say.
fn act<F: Folder, O: Sink, A: Fn(u64, u32, u64) -> u32 + Drop>(
    alloc: Global,
    words: &[String],
    answers: A,
    folder: &mut F,
    out: &mut O,
) -> Status
    requires { A.IsAlwaysCallable answers }
    ensures reply { SaysReply (A.post answers) (IsUnread (F.steady folder.old) (F.holds folder.old) (F.faults folder.old) (F.faults folder.new)) (request (map string_bytes words.now)) (F.holds folder.old) result (O.taken out.old) (O.taken out.new) }
    ensures read_fault { result ≡ Status.ReadFault → Rose (F.faults folder.old) (F.faults folder.new) }
    ensures sure { result ≡ Status.ReadFault
        → IsSureOfForm (request (map string_bytes words.now)) (F.steady folder.old) (F.holds folder.old) → ⊥ }
    ensures late { result ≡ Status.ReadFault → ReadsOn (request (map string_bytes words.now)) (F.steady folder.old) (F.holds folder.old) }
    ensures write_fault { result ≡ Status.WriteFault → Rose (O.faults out.old) (O.faults out.new) }
{
    match command_in(alloc, words) {
        Ok(Some(command)) => perform(alloc, command, answers, folder, out),
        Ok(None) => refuse(out, Refusal::Usage),
        Err(NoMemory) => refuse(out, Refusal::NoMemory),
    }
}

/// Does a command.
fn perform<F: Folder, O: Sink, A: Fn(u64, u32, u64) -> u32 + Drop>(
    alloc: Global,
    command: Command,
    answers: A,
    folder: &mut F,
    out: &mut O,
) -> Status
    requires callable { A.IsAlwaysCallable answers }
    requires few { AsksForFew command }
    ensures reply { SaysReply (A.post answers) (IsUnread (F.steady folder.old) (F.holds folder.old) (F.faults folder.old) (F.faults folder.new)) (Some (request_of command.entry)) (F.holds folder.old) result (O.taken out.old) (O.taken out.new) }
    ensures read_fault { result ≡ Status.ReadFault → Rose (F.faults folder.old) (F.faults folder.new) }
    ensures sure { result ≡ Status.ReadFault
        → IsSureOfForm (Some (request_of command.entry)) (F.steady folder.old) (F.holds folder.old) → ⊥ }
    ensures late { result ≡ Status.ReadFault → ReadsOn (Some (request_of command.entry)) (F.steady folder.old) (F.holds folder.old) }
    ensures write_fault { result ≡ Status.WriteFault → Rose (O.faults out.old) (O.faults out.new) }
{
    match command {
        Command::Check(file) => tell(alloc, file, Wanted::Verdict, folder, out),
        Command::Gen(file) => tell(alloc, file, Wanted::Text, folder, out),
        Command::GenWith(file, kernels) => tell_merged(alloc, file, kernels, folder, out),
        Command::Project(file) => tell(alloc, file, Wanted::Layout, folder, out),
        Command::Sim(text, options) => sim(alloc, text, options, answers, folder, out),
        Command::Replay(text, schedule, n) => {
            replay(alloc, text, schedule, n, answers, folder, out)
        }
        Command::Run(file, options) => run(alloc, file, options, answers, folder, out),
        Command::Demo(count) => demo(alloc, count, answers, out),
        Command::Expand(file) => expand(alloc, file, folder, out),
        Command::Strips(file) => strips(alloc, file, folder, out),
        Command::Cost(file) => cost(alloc, file, folder, out),
        Command::Judge(file, log, n) => judge(alloc, file, log, n, folder, out),
    }
}
