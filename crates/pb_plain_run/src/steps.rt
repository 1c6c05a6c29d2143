ghost use Rattle.std.specs.Prelude.{◌≡◌, ◌≤◌, ◌^◌, ◌==◌, ◌++◌, ◌∷◌, [], length, replicate, nat_lt, OnOk, IfOk, IfErr};
ghost use Rattle.pb_world.specs.Actions.{Choose, Run, Send, Recv};
ghost use Rattle.pb_world.specs.Sequencer.{first_or};
ghost use Rattle.pb_core_language.specs.Flat.{stop};
ghost use Rattle.pb_core_language.specs.Flat as B;
ghost use Rattle.pb_core_language.specs.Run as R;
ghost use Rattle.pb_core_language.specs.Run.{words_now, branch_now};
ghost use Rattle.pb_plain.specs.View.{view, view_branches};
ghost use Rattle.pb_plain_run.specs.Used.{Adds};
ghost use Rattle.pb_plain_run.specs.Setting.{setting_of};
ghost use Rattle.pb_plain_run.specs.View.{remaining, actions_of};
ghost use Rattle.pb_plain_run.specs.Doing.{Steps, IsAtTooWide, IsTooWide, frame_of, stack_of, state_of};
ghost use Rattle.pb_plain_run.specs.declared.fault.RunFault.TheVariants as faults;

use crate::action::{FullAction, RankAction, add};
use crate::answers::{Remaining, copied};
use crate::collectives::together;
use crate::doing::{Doing, Frame, Opener, enter, go_back, leave};
use crate::fault::RunFault;
use crate::setting::Setting;
use crate::wide::{branch_at, count, first_ending};
use pb_plain::{Branches, Flat};
use pb_text::{NoMemory, Words};
use std::alloc::Global;

/// The words that a rank sends: its answer, or zeros.
#[tactic(auto, using(crate::proofs::Added::sized))]
fn sent(
    alloc: Global,
    setting: &Setting,
    from: u64,
    label: u32,
    left: &Remaining,
) -> Result<Words, NoMemory>
    ensures { IfOk result (λ v. v ≡ first_or (remaining left.now from).words (λ ws. length ws == (setting_of setting.now).size label) (replicate ((setting_of setting.now).size label) 0)) }
{
    left.made(alloc, from, setting.size(label))
}

/// A send, then its receive with the same words.
#[tactic(auto, using(crate::proofs::Added::message_adds))]
fn message<'a>(
    alloc: Global,
    setting: &Setting,
    from: u64,
    to: u64,
    label: u32,
    left: &mut Remaining<'a>,
    out: &mut Vec<RankAction>,
) -> Result<(), NoMemory>
    ensures { OnOk result (Adds ((from, Send to label (words_now (setting_of setting.now) (remaining left.old) from to label)) ∷ (to, Recv from label (words_now (setting_of setting.now) (remaining left.old) from to label)) ∷ []) (actions_of out.old.items) (actions_of out.new.items) (remaining left.old) (remaining left.new)) }
{
    let words = sent(alloc, setting, from, label, left)?;
    let again = copied(alloc, words.list())?;
    add(out, from, FullAction::Send { to, label, words })?;
    let received = FullAction::Recv {
        from,
        label,
        words: again,
    };
    add(out, to, received)?;
    left.use_words(from);
    Ok(())
}

#[tactic(auto, using(crate::proofs::Added::compute_adds))]
fn compute(
    at: u64,
    kernel: u32,
    left: &Remaining,
    out: &mut Vec<RankAction>,
) -> Result<(), NoMemory>
    ensures { OnOk result (Adds ((at, Run kernel) ∷ []) (actions_of out.old.items) (actions_of out.new.items) (remaining left.now) (remaining left.now)) }
{
    add(out, at, FullAction::Run { kernel })
}

/// The chooser's branch, of so many.
#[tactic(auto, using(crate::proofs::Added::choice_adds))]
fn choose<'a>(
    setting: &Setting,
    at: u64,
    kernel: u32,
    branches: &Branches,
    number: u64,
    left: &mut Remaining<'a>,
    out: &mut Vec<RankAction>,
) -> Result<u64, NoMemory>
    requires { number ≡ B.count (view_branches branches.now) }
    ensures branch { IfOk result (λ x. x ≡ branch_now (setting_of setting.now) (remaining left.old) at kernel (view_branches branches.now)) }
    ensures adds { OnOk result (Adds ((at, Choose kernel (B.count (view_branches branches.now)) (branch_now (setting_of setting.now) (remaining left.old) at kernel (view_branches branches.now))) ∷ []) (actions_of out.old.items) (actions_of out.new.items) (remaining left.old) (remaining left.new)) }
{
    let branch = branch_of(left.branches(at), branches, number);
    let action = FullAction::Choose {
        kernel,
        branches: number,
        branch,
    };
    add(out, at, action)?;
    left.use_branch(at);
    Ok(branch)
}

/// The first answer where it is a branch, else the first branch that can end, or branch 0 where none can.
fn branch_of(answers: &[u32], branches: &Branches, number: u64) -> u64
    requires { number ≡ B.count (view_branches branches.now) }
    ensures { result ≡ first_or answers.now (λ x. nat_lt x (B.count (view_branches branches.now))) (B.first_ending (view_branches branches.now)) }
{
    match answers.first() {
        Some(answer) => {
            let branch = u64::from(*answer);
            if branch < number {
                branch
            } else {
                first_ending(branches, number)
            }
        }
        None => first_ending(branches, number),
    }
}

/// Into the branch of a choice that the chooser takes.
fn choice<'a>(
    setting: &Setting,
    at: u64,
    kernel: u32,
    branches: &'a Branches,
    number: u64,
    nothing: &'a Flat,
    doing: &mut Doing<'a>,
    out: &mut Vec<RankAction>,
) -> Result<(), NoMemory>
    requires nothing { view nothing.now ≡ stop }
    requires number { number ≡ B.count (view_branches branches.now) }
    ensures stack { OnOk result (stack_of doing.new.stack.items ≡ record { opener = R.Chosen at (view_branches branches.now); rest = B.branch_at (branch_now (setting_of setting.now) (remaining doing.old.left) at kernel (view_branches branches.now)) (view_branches branches.now) } ∷ stack_of doing.old.stack.items) }
    ensures adds { OnOk result (Adds ((at, Choose kernel (B.count (view_branches branches.now)) (branch_now (setting_of setting.now) (remaining doing.old.left) at kernel (view_branches branches.now))) ∷ []) (actions_of out.old.items) (actions_of out.new.items) (remaining doing.old.left) (remaining doing.new.left)) }
{
    let branch = choose(setting, at, kernel, branches, number, &mut doing.left, out)?;
    let first = branch_at(branches, branch, nothing);
    enter(&mut doing.stack, Opener::Chosen(at, branches), first)
}

/// One step: the next statement, or past the end of a block.
pub fn step<'a>(
    alloc: Global,
    setting: &Setting,
    nothing: &'a Flat,
    doing: &mut Doing<'a>,
    out: &mut Vec<RankAction>,
) -> Result<(), RunFault>
    requires { view nothing.now ≡ stop }
    ensures steps { OnOk result (Steps (setting_of setting.now) (state_of doing.old) (state_of doing.new) (actions_of out.old.items) (actions_of out.new.items)) }
    ensures large { IfErr result (λ e. e ≡ faults.TooLarge → IsAtTooWide (state_of doing.old).stack) }
{
    match leave(&mut doing.stack) {
        None => Ok(()),
        Some(frame) => go_on(alloc, setting, frame, nothing, doing, out),
    }
}

/// One step in this frame, inside all others.
#[tactic(auto, using(crate::proofs::Moves::moved, crate::proofs::Moves::nothing_adds))]
fn go_on<'a>(
    alloc: Global,
    setting: &Setting,
    frame: Frame<'a>,
    nothing: &'a Flat,
    doing: &mut Doing<'a>,
    out: &mut Vec<RankAction>,
) -> Result<(), RunFault>
    requires { view nothing.now ≡ stop }
    ensures steps { OnOk result (Steps (setting_of setting.now) (record { stack = frame_of frame.entry ∷ stack_of doing.old.stack.items; left = remaining doing.old.left }) (state_of doing.new) (actions_of out.old.items) (actions_of out.new.items)) }
    ensures large { IfErr result (λ e. e ≡ faults.TooLarge → IsTooWide (view frame.entry.rest.now)) }
{
    match frame.rest {
        Flat::Stop => Ok(()),
        Flat::Message {
            from,
            to,
            label,
            rest,
            ..
        } => {
            message(alloc, setting, *from, *to, *label, &mut doing.left, out)?;
            enter(&mut doing.stack, frame.opener, rest)?;
            Ok(())
        }
        Flat::Compute {
            at,
            kernel,
            rest,
            ..
        } => {
            compute(*at, *kernel, &doing.left, out)?;
            enter(&mut doing.stack, frame.opener, rest)?;
            Ok(())
        }
        Flat::Together { joint, rest, .. } => {
            together(alloc, setting, joint, &mut doing.left, out)?;
            enter(&mut doing.stack, frame.opener, rest)?;
            Ok(())
        }
        Flat::Choice {
            at,
            kernel,
            branches,
            rest,
            ..
        } => {
            let Some(number) = count(branches) else {
                return Err(RunFault::TooLarge);
            };
            enter(&mut doing.stack, frame.opener, rest)?;
            choice(setting, *at, *kernel, branches, number, nothing, doing, out)?;
            Ok(())
        }
        Flat::Looped { body, rest, .. } => {
            enter(&mut doing.stack, frame.opener, rest)?;
            enter(&mut doing.stack, Opener::Body(body), body)?;
            Ok(())
        }
        Flat::Again { between } => {
            enter(&mut doing.stack, frame.opener, frame.rest)?;
            go_back(&mut doing.stack, *between)?;
            Ok(())
        }
    }
}
