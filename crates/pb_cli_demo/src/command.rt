//! The command `demo`.

ghost use Rattle.std.specs.Prelude.{◌≡◌, ◌≤◌};
ghost use Rattle.pb_io.specs.Faults.{Rose};
ghost use Rattle.pb_cli_demo.specs.Demo.{SaysDemo};

use crate::run::run;
use crate::summary::tell;
use pb_cli_status::{Status, refuse};
use pb_io::Sink;
use std::alloc::Global;

/// `demo K`: makes a protocol of so many statements, prints and compiles it, simulates its tree at N = 8, and writes what was
/// counted. The seed is that number, each event is eager, and there are at most 1,000,000 events.
///
/// Where memory doesn't run out, `Refused` and `Limit` come as `check` gives them for the printed protocol; else `Limit` where
/// there would be more than 1,024 ranks, or where fewer events were made and the next one is a send after which more than
/// 16,777,216 words would be in flight; `Turns` where all events were made and some rank has a step; and else `Done`. Nothing is
/// written before the line of these. `WriteFault` comes only where the sink's count of faults rose in this call; then some first
/// bytes were written. No other status comes.
#[tactic(auto, using(crate::proofs::Replies::never_unread))]
pub fn demo<A: Fn(u64, u32, u64) -> u32 + Drop, O: Sink>(
    alloc: Global,
    count: u32,
    answers: A,
    out: &mut O,
) -> Status
    requires { A.IsAlwaysCallable answers }
    ensures reply { SaysDemo (A.post answers count) count result (O.taken out.old) (O.taken out.new) }
    ensures read { result ≡ Status.ReadFault → ⊥ }
    ensures fault { result ≡ Status.WriteFault → Rose (O.faults out.old) (O.faults out.new) }
    ensures later { O.faults out.old ≤ O.faults out.new }
{
    match run(alloc, count, answers) {
        Ok(counts) => tell(out, count, &counts),
        Err(why) => refuse(out, why),
    }
}
