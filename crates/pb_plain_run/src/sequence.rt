ghost use Rattle.std.specs.Prelude.{◌≡◌, IfOk, IfErr};
ghost use Rattle.pb_core_language.specs.Run.{seq, is_over, is_over_at, first_state};
ghost use Rattle.pb_core_language.specs.Run as R;
ghost use Rattle.pb_plain.specs.View.{view};
ghost use Rattle.pb_plain_run.specs.Setting.{setting_of};
ghost use Rattle.pb_plain_run.specs.View.{table_of, actions_of};
ghost use Rattle.pb_plain_run.specs.Doing.{MeetsTooWide, state_of, stack_of};
ghost use Rattle.pb_plain_run.specs.declared.fault.RunFault.TheVariants as faults;

use crate::action::RankAction;
use crate::answers::{Answers, all_left};
use crate::doing::{Doing, Frame, Opener, enter};
use crate::fault::RunFault;
use crate::setting::Setting;
use crate::steps::step;
use pb_plain::Flat;
use pb_text::NoMemory;
use std::alloc::Global;

/// The first steps of a sequential run.
#[derive(Drop)]
pub struct Sequence {
    /// What the ranks do in them, in order.
    pub actions: Vec<RankAction>,
    /// Whether no statement is left then.
    pub is_over: bool,
}

/// The first `steps` steps of the sequential run of a flat protocol under these answers, from rank 0 on. A rank behind
/// the list has no answers.
///
/// `TooLarge` comes only where the run comes to a choice of 2^64 branches or more in these steps.
#[tactic(auto, using(crate::proofs::Runs::run_state, crate::proofs::Runs::run_actions, crate::proofs::Runs::meets))]
pub fn sequential_run(
    alloc: Global,
    setting: &Setting,
    protocol: &Flat,
    answers: &[Answers],
    steps: u64,
) -> Result<Sequence, RunFault>
    ensures actions { IfOk result (λ s. actions_of s.actions.items ≡ seq (setting_of setting.now) (view protocol.now) (table_of answers.now) steps) }
    ensures over { IfOk result (λ s. s.is_over ≡ is_over (setting_of setting.now) (view protocol.now) (table_of answers.now) steps) }
    ensures large { IfErr result (λ e. e ≡ faults.TooLarge → MeetsTooWide (setting_of setting.now) (view protocol.now) (table_of answers.now) steps) }
{
    let nothing = Flat::Stop;
    let mut doing = begin(alloc, protocol, answers)?;
    let mut actions = Vec::new(alloc);
    for done in 0..steps {
        step(alloc, setting, &nothing, &mut doing, &mut actions)?;
    }
    let is_over = is_empty(&doing.stack);
    Ok(Sequence { actions, is_over })
}

#[tactic(auto, using(crate::proofs::Stacks::over_is, crate::proofs::Stacks::not_over_is))]
fn is_empty(stack: &[Frame]) -> bool
    ensures { result ≡ is_over_at (stack_of stack.now) }
{
    if stack.len() == 0 { true } else { false }
}

fn begin<'a>(
    alloc: Global,
    protocol: &'a Flat,
    answers: &'a [Answers],
) -> Result<Doing<'a>, NoMemory>
    ensures { IfOk result (λ d. (w : R.Setting) → state_of d ≡ first_state w (view protocol.now) (table_of answers.now)) }
{
    let left = all_left(alloc, answers)?;
    let mut stack = Vec::new(alloc);
    enter(&mut stack, Opener::Top, protocol)?;
    Ok(Doing { stack, left })
}
