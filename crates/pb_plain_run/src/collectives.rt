ghost use Rattle.std.specs.Prelude.{◌≡◌, ◌++◌, [], cond, nat_lt, IfOk, OnOk};
ghost use Rattle.pb_world.specs.Actions.{Enter, Leave};
ghost use Rattle.pb_world.specs.Family.{each};
ghost use Rattle.pb_core_language.specs.FlatOf.{operation_of};
ghost use Rattle.pb_core_language.specs.Collectives.{combined_of, combine, payload_of};
ghost use Rattle.pb_plain.specs.View.{collective_of};
ghost use Rattle.pb_plain_run.specs.Used.{Adds, left_after, entry_used};
ghost use Rattle.pb_plain_run.specs.Setting.{setting_of, shared, leaves_with_words, entries};
ghost use Rattle.pb_plain_run.specs.View.{remaining, actions_of};

use crate::action::{FullAction, RankAction, add};
use crate::answers::{Remaining, copied};
use crate::combine::word_by_word;
use crate::setting::Setting;
use pb_core_language::Op;
use pb_plain::Collective;
use pb_text::{NoMemory, Words};
use std::alloc::Global;

/// A collective: all enter, by ascending rank, then all leave.
#[tactic(auto, using(crate::proofs::Added::together_adds))]
pub fn together<'a>(
    alloc: Global,
    setting: &Setting,
    joint: &Collective,
    left: &mut Remaining<'a>,
    out: &mut Vec<RankAction>,
) -> Result<(), NoMemory>
    ensures { OnOk result (Adds (each setting.now.total (λ p. Enter (collective_of joint.now) (entries setting.now (remaining left.old) (collective_of joint.now) p)) ++ each setting.now.total (λ p. Leave (collective_of joint.now) ((setting_of setting.now).outcome (collective_of joint.now) p (entries setting.now (remaining left.old) (collective_of joint.now))))) (actions_of out.old.items) (actions_of out.new.items) (remaining left.old) (remaining left.new)) }
{
    all_enter(alloc, setting, joint, left, out)?;
    let words = all_get(alloc, setting, joint, left)?;
    all_leave(alloc, setting, joint, words.list(), out)?;
    use_entries(setting, joint, left);
    Ok(())
}

/// The words with which a rank enters: none, or its answer, or zeros.
#[tactic(auto, using(crate::proofs::Added::entered_is))]
fn entered(
    alloc: Global,
    setting: &Setting,
    joint: &Collective,
    left: &Remaining,
    rank: u64,
) -> Result<Words, NoMemory>
    ensures { IfOk result (λ v. v ≡ entries setting.now (remaining left.now) (collective_of joint.now) rank) }
{
    let weight = setting.weight(joint, rank);
    if weight == 0 {
        Ok(Words::of(Vec::new(alloc)))
    } else {
        left.made(alloc, rank, weight)
    }
}

#[tactic(auto, using(crate::proofs::Added::entry_added))]
fn all_enter(
    alloc: Global,
    setting: &Setting,
    joint: &Collective,
    left: &Remaining,
    out: &mut Vec<RankAction>,
) -> Result<(), NoMemory>
    ensures { OnOk result (actions_of out.new.items ≡ actions_of out.old.items ++ each setting.now.total (λ p. Enter (collective_of joint.now) (entries setting.now (remaining left.now) (collective_of joint.now) p))) }
{
    for rank in 0..setting.total {
        let words = entered(alloc, setting, joint, left, rank)?;
        let action = FullAction::Enter {
            joint: *joint,
            words,
        };
        add(out, rank, action)?;
    }
    Ok(())
}

#[tactic(auto, using(crate::proofs::Added::entry_added))]
fn all_leave(
    alloc: Global,
    setting: &Setting,
    joint: &Collective,
    words: &[u32],
    out: &mut Vec<RankAction>,
) -> Result<(), NoMemory>
    ensures { OnOk result (actions_of out.new.items ≡ actions_of out.old.items ++ each setting.now.total (λ p. Leave (collective_of joint.now) (cond (leaves_with_words (collective_of joint.now) p) words.now []))) }
{
    for rank in 0..setting.total {
        let action = FullAction::Leave {
            joint: *joint,
            words: got(alloc, joint, rank, words)?,
        };
        add(out, rank, action)?;
    }
    Ok(())
}

/// The words with which a rank leaves, of those that are shared.
fn got(alloc: Global, joint: &Collective, rank: u64, words: &[u32]) -> Result<Words, NoMemory>
    ensures { IfOk result (λ v. v ≡ cond (leaves_with_words (collective_of joint.now) rank) words.now []) }
{
    if gets(joint, rank) {
        copied(alloc, words)
    } else {
        Ok(Words::of(Vec::new(alloc)))
    }
}

fn gets(joint: &Collective, rank: u64) -> bool
    ensures { result ≡ leaves_with_words (collective_of joint.now) rank }
{
    match joint {
        Collective::Barrier => false,
        Collective::Broadcast { .. } => true,
        Collective::Reduce { root, .. } => rank == *root,
        Collective::Allreduce { .. } => true,
    }
}

/// The words that are shared at the end: none, the root's, or all combined.
fn all_get(
    alloc: Global,
    setting: &Setting,
    joint: &Collective,
    left: &Remaining,
) -> Result<Words, NoMemory>
    ensures { IfOk result (λ v. v ≡ shared setting.now.total setting.now.labels.now (collective_of joint.now) (entries setting.now (remaining left.now) (collective_of joint.now))) }
{
    match joint {
        Collective::Barrier => Ok(Words::of(Vec::new(alloc))),
        Collective::Broadcast { root, .. } => of_root(alloc, setting, joint, left, *root),
        Collective::Reduce { label, op, .. } => {
            combined(alloc, setting, joint, left, *label, *op)
        }
        Collective::Allreduce { label, op } => combined(alloc, setting, joint, left, *label, *op),
    }
}

fn of_root(
    alloc: Global,
    setting: &Setting,
    joint: &Collective,
    left: &Remaining,
    root: u64,
) -> Result<Words, NoMemory>
    ensures { IfOk result (λ v. v ≡ cond (nat_lt root setting.now.total) (entries setting.now (remaining left.now) (collective_of joint.now) root) []) }
{
    if root < setting.total {
        entered(alloc, setting, joint, left, root)
    } else {
        Ok(Words::of(Vec::new(alloc)))
    }
}

#[tactic(auto, using(crate::proofs::Shares::combined_step, crate::proofs::Shares::combined_all))]
fn combined(
    alloc: Global,
    setting: &Setting,
    joint: &Collective,
    left: &Remaining,
    label: u32,
    op: Op,
) -> Result<Words, NoMemory>
    ensures { IfOk result (λ v. v ≡ combined_of (combine (payload_of setting.now.labels.now label) (operation_of op)) setting.now.total (entries setting.now (remaining left.now) (collective_of joint.now))) }
{
    if setting.total == 0 {
        return Ok(Words::of(Vec::new(alloc)));
    }
    let payload = setting.payload(label);
    let mut all = entered(alloc, setting, joint, left, 0)?;
    for before in 0..setting.total - 1 {
        let more = entered(alloc, setting, joint, left, before + 1)?;
        let both = word_by_word(alloc, &payload, op, all.list(), more.list())?;
        all = Words::of(both);
    }
    Ok(all)
}

/// The words with which the ranks entered are used up.
#[tactic(auto, using(crate::proofs::Added::entries_step))]
fn use_entries<'a>(setting: &Setting, joint: &Collective, left: &mut Remaining<'a>)
    ensures { remaining left.new ≡ left_after (each setting.now.total (λ p. Enter (collective_of joint.now) (entries setting.now (remaining left.old) (collective_of joint.now) p))) (remaining left.old) }
{
    for rank in 0..setting.total {
        use_entry(left, rank, setting.weight(joint, rank));
    }
}

/// A rank that entered with so many words used up an answer, unless it entered with none.
#[tactic(auto, using(crate::proofs::Added::entry_more))]
fn use_entry<'a>(left: &mut Remaining<'a>, rank: u64, weight: u32)
    ensures { remaining left.new ≡ entry_used weight rank (remaining left.old) }
{
    if weight > 0 {
        left.use_words(rank);
    }
}
