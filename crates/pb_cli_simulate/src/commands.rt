//! The commands `sim` and `replay`.

ghost use Rattle.std.specs.Prelude.{◌≡◌, ◌≤◌, length, IfOk, IfErr, IsErrOf};
ghost use Rattle.pb_text.specs.declared.limits.TheConstants.{MOST_EVENTS};
ghost use Rattle.pb_io.specs.Faults.{Rose};
ghost use Rattle.pb_io.specs.Files.{IsSureOf};
ghost use Rattle.pb_io.specs.Unread.{IsUnread};
ghost use Rattle.pb_ctree.specs.Trees.{IsTree};
ghost use Rattle.pb_sched.specs.Outcomes.{IsSchedule};
ghost use Rattle.pb_cli_status.specs.declared.status.Status.TheVariants as S;
ghost use Rattle.pb_cli_simulate.specs.Commands.{OnShort, IsOfSchedule, IsOfText, IsUntaken, SaysReplay, SaysSim};
ghost use Rattle.pb_cli_simulate.specs.Sources.{IsTextOf, IsNoText, IsNoSchedule};

use crate::simulate::{replay_tree, simulate_tree};
use crate::sources::{read_text, read_turns};
use pb_cli_status::{Refusal, Status, refuse};
use pb_cli_words::Options;
use pb_ctree::CTree;
use pb_io::{Folder, InFault, Sink, read_all};
use pb_sched::Schedule;
use pb_text::MOST_TEXT_BYTES;
use std::alloc::Global;

/// The tree of the C text in a file.
#[tactic(auto, using(crate::proofs::Taken::on_short, crate::proofs::Taken::no_text, crate::proofs::Taken::of_text, crate::proofs::Taken::made))]
fn text_in<F: Folder>(alloc: Global, name: &str, folder: &mut F) -> Result<CTree, Refusal>
    ensures text { IfOk result (λ tree. OnShort name.now (F.holds folder.old) (λ bytes. IsTextOf bytes tree)) }
    ensures tree { IfOk result IsTree }
    ensures denied { IfErr result (IsUntaken IsNoText name.now (F.holds folder.old)) }
    ensures kind { IfErr result IsOfText }
    ensures fault { IsErrOf result Refusal.ReadFault → Rose (F.faults folder.old) (F.faults folder.new) }
    ensures sure { IsErrOf result Refusal.ReadFault → IsSureOf (F.steady folder.old) (F.holds folder.old) name.now → ⊥ }
    ensures later { F.faults folder.old ≤ F.faults folder.new }
    ensures holds { F.holds folder.new ≡ F.holds folder.old }
    ensures steady { F.steady folder.new ≡ F.steady folder.old }
{
    let bytes = match read_all(alloc, folder, name, MOST_TEXT_BYTES) {
        Ok(bytes) => bytes,
        Err(InFault::ReadFault) => return Err(Refusal::ReadFault),
        Err(InFault::TooLong) => return Err(Refusal::FileBytes),
        Err(InFault::NoMemory) => return Err(Refusal::NoMemory),
    };
    match read_text(alloc, &bytes) {
        Ok(tree) => Ok(tree),
        Err(why) => Err(why),
    }
}

/// The schedule in a file.
#[tactic(auto, using(crate::proofs::Taken::on_short, crate::proofs::Taken::no_schedule, crate::proofs::Taken::of_schedule))]
fn schedule_in<F: Folder>(alloc: Global, name: &str, folder: &mut F) -> Result<Schedule, Refusal>
    ensures schedule { IfOk result (λ s. OnShort name.now (F.holds folder.old) (λ bytes. IsSchedule bytes s.seed s.turns.items)) }
    ensures few { IfOk result (λ s. length s.turns.items ≤ MOST_EVENTS) }
    ensures denied { IfErr result (IsUntaken IsNoSchedule name.now (F.holds folder.old)) }
    ensures kind { IfErr result IsOfSchedule }
    ensures fault { IsErrOf result Refusal.ReadFault → Rose (F.faults folder.old) (F.faults folder.new) }
    ensures sure { IsErrOf result Refusal.ReadFault → IsSureOf (F.steady folder.old) (F.holds folder.old) name.now → ⊥ }
    ensures later { F.faults folder.old ≤ F.faults folder.new }
{
    let bytes = match read_all(alloc, folder, name, MOST_TEXT_BYTES) {
        Ok(bytes) => bytes,
        Err(InFault::ReadFault) => return Err(Refusal::ReadFault),
        Err(InFault::TooLong) => return Err(Refusal::FileBytes),
        Err(InFault::NoMemory) => return Err(Refusal::NoMemory),
    };
    match read_turns(alloc, &bytes) {
        Ok(schedule) => Ok(schedule),
        Err(why) => Err(why),
    }
}

/// `sim TEXT` with options: simulates the C text in a file of at most 67,108,864 bytes.
///
/// `ReadFault` comes only where the folder's count of faults rose in this call, and never where a steady folder holds the file;
/// `WriteFault` only where the sink's did. `Limit` comes where the file has more bytes, `Text` and `Limit` as `read_text` gives
/// them; the other statuses are those of `simulate_tree`.
pub fn sim<F: Folder, O: Sink, A: Fn(u64, u32, u64) -> u32 + Drop>(
    alloc: Global,
    name: &str,
    options: Options,
    answers: A,
    folder: &mut F,
    out: &mut O,
) -> Status
    requires callable { A.IsAlwaysCallable answers }
    requires few { options.turns ≤ MOST_EVENTS }
    ensures reply { SaysSim (A.post answers) (IsUnread (F.steady folder.old) (F.holds folder.old) (F.faults folder.old) (F.faults folder.new)) name.now options (F.holds folder.old) result (O.taken out.old) (O.taken out.new) }
    ensures read_fault { result ≡ S.ReadFault → Rose (F.faults folder.old) (F.faults folder.new) }
    ensures sure { result ≡ S.ReadFault → IsSureOf (F.steady folder.old) (F.holds folder.old) name.now → ⊥ }
    ensures write_fault { result ≡ S.WriteFault → Rose (O.faults out.old) (O.faults out.new) }
{
    match text_in(alloc, name, folder) {
        Ok(tree) => simulate_tree(alloc, tree, options, answers, out),
        Err(why) => refuse(out, why),
    }
}

/// `replay TEXT SCHEDULE --n A`: simulates the C text in a file by the schedule in another, each of at most 67,108,864 bytes.
///
/// `ReadFault` comes only where the folder's count of faults rose in this call, and never where a steady folder holds both
/// files; `WriteFault` only where the sink's did. The text is read first; `Schedule` and `Limit` come as `read_turns` gives
/// them, the other statuses as for `sim` and `replay_tree`.
pub fn replay<F: Folder, O: Sink, A: Fn(u64, u32, u64) -> u32 + Drop>(
    alloc: Global,
    text: &str,
    schedule: &str,
    n: u32,
    answers: A,
    folder: &mut F,
    out: &mut O,
) -> Status
    requires { A.IsAlwaysCallable answers }
    ensures reply { SaysReplay (A.post answers) (IsUnread (F.steady folder.old) (F.holds folder.old) (F.faults folder.old) (F.faults folder.new)) text.now schedule.now n (F.holds folder.old) result (O.taken out.old) (O.taken out.new) }
    ensures read_fault { result ≡ S.ReadFault → Rose (F.faults folder.old) (F.faults folder.new) }
    ensures sure { result ≡ S.ReadFault → IsSureOf (F.steady folder.old) (F.holds folder.old) text.now → IsSureOf (F.steady folder.old) (F.holds folder.old) schedule.now → ⊥ }
    ensures write_fault { result ≡ S.WriteFault → Rose (O.faults out.old) (O.faults out.new) }
{
    match text_in(alloc, text, folder) {
        Ok(tree) => match schedule_in(alloc, schedule, folder) {
            Ok(schedule) => replay_tree(alloc, tree, n, &schedule, answers, out),
            Err(why) => refuse(out, why),
        },
        Err(why) => refuse(out, why),
    }
}
