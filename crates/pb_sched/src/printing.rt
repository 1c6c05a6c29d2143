//! Printing a schedule.

ghost use Rattle.std.specs.Prelude.{◌≡◌, ◌<◌, ◌≤◌, ◌^◌, [], ◌∷◌, ◌++◌, OnOk, IfOk, length};
ghost use Rattle.std.specs.List.{AllByRecursion, flat_map};
ghost use Rattle.pb_text.specs.declared.limits.TheConstants.{MOST_EVENTS};
ghost use Rattle.pb_sched.specs.declared.format.Format.TheVariants.{Two};
ghost use Rattle.pb_sched.specs.Formats.{head_line, seed_line, ending, turn_line, layout, IsTurn};
ghost use Rattle.pb_sched.specs.Outcomes.{IsSchedule};

use crate::schedule::{Schedule, Turn};
use pb_text::{Mode, NoMemory, push_decimal};
use std::alloc::Global;

fn push_head(out: &mut Vec<u8>, seed: u64) -> Result<(), NoMemory>
    ensures text { OnOk result (out.new.items ≡ out.old.items ++ (head_line Two ++ seed_line seed)) }
    ensures fits { OnOk result (seed < 2 ^ 64) }
{
    out.extend_from_slice(b"pabble schedule 2\nseed ")?;
    push_decimal(out, seed)?;
    out.push(b'\n')?;
    Ok(())
}

/// The letter of a mode.
fn letter(mode: Mode) -> u8
    ensures { ending Two mode ≡ 32 ∷ result ∷ 10 ∷ [] }
{
    match mode {
        Mode::Eager => b'e',
        Mode::Waiting => b'w',
    }
}

fn push_turn(out: &mut Vec<u8>, turn: Turn) -> Result<(), NoMemory>
    ensures text { OnOk result (out.new.items ≡ out.old.items ++ turn_line Two turn) }
    ensures fits { OnOk result (IsTurn Two turn) }
{
    push_decimal(out, u64::from(turn.rank))?;
    out.extend_from_slice(&[b' ', letter(turn.mode), b'\n'])?;
    Ok(())
}

fn push_turns(out: &mut Vec<u8>, turns: &[Turn]) -> Result<(), NoMemory>
    ensures text { OnOk result (out.new.items ≡ out.old.items ++ flat_map (turn_line Two) turns.now) }
    ensures each { OnOk result (AllByRecursion (IsTurn Two) turns.now) }
{
    for turn in turns {
        push_turn(out, *turn)?;
    }
    Ok(())
}

/// The text of a schedule in format 2, which `read_schedule` reads as this schedule.
pub fn print_schedule(alloc: Global, schedule: &Schedule) -> Result<Vec<u8>, NoMemory>
    requires { length schedule.now.turns.items ≤ MOST_EVENTS }
    ensures layout { IfOk result (λ bytes. bytes.items ≡ layout Two schedule.now.seed schedule.now.turns.items) }
    ensures again { IfOk result (λ bytes. IsSchedule bytes.items schedule.now.seed schedule.now.turns.items) }
{
    let mut out = Vec::new(alloc);
    push_head(&mut out, schedule.seed)?;
    push_turns(&mut out, &schedule.turns)?;
    Ok(out)
}
