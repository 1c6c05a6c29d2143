ghost use Rattle.std.specs.Prelude.{◌≡◌, ◌∷◌, [], IfOk};
ghost use Rattle.pb_text.specs.declared.action.Action.TheVariants as E;
ghost use Rattle.pb_judge_lists.specs.Places.{left_of};
ghost use Rattle.pb_judge_steps.specs.Made.{list_of};
ghost use Rattle.pb_judge_steps.specs.Met.{Met};
ghost use Rattle.pb_judge_joint.specs.Setting.{setting_of, collective_of, known_by};
ghost use Rattle.pb_judge_joint.specs.Joined.{entering, all_do, all_leave, share, Enters};

use crate::setting::{Collective, Setting};
use crate::shared::{gather, gets};
use pb_judge_steps::{Deed, Difference, Lists, Made, first_words, meet};
use pb_text::NoMemory;
use std::alloc::Global;

/// A collective: all enter, by ascending rank, and then all leave. None exactly where each rank's first entries say so, as
/// far as it has some left. It takes time linear in the ranks and in the words.
pub fn together(
    alloc: Global,
    setting: &Setting,
    joint: &Collective,
    lists: &mut Lists,
) -> Result<Option<Difference>, NoMemory>
    ensures met { IfOk result (λ r. Met (all_do (setting_of setting.now) (collective_of joint.now) (left_of lists.old)) (left_of lists.old) r (left_of lists.new)) }
    ensures log { lists.new.log ≡ lists.old.log }
{
    let mut all = Vec::new(alloc);
    for rank in 0..setting.total {
        match enter(setting, joint, rank, lists) {
            Err(difference) => return Ok(Some(difference)),
            Ok(words) => all = gather(alloc, setting, joint, rank, all, &words)?,
        }
    }
    Ok(leave_all(setting, joint, &all, lists))
}

/// A rank enters. It gives the words with which it does.
fn enter<'a>(
    setting: &Setting,
    joint: &Collective,
    rank: u32,
    lists: &mut Lists<'a>,
) -> Result<Made<'a>, Difference>
    ensures enters { Enters (E.Enter rank (known_by joint.now) (entering (setting_of setting.now) (collective_of joint.now) (left_of lists.old) rank)) (entering (setting_of setting.now) (collective_of joint.now) (left_of lists.old) rank) (left_of lists.old) result (left_of lists.new) }
    ensures log { lists.new.log ≡ lists.old.log }
{
    let what = joint.known_by();
    let words = first_words(lists.first(rank), setting.weight(joint, rank));
    match meet(lists, rank, &Deed::Enter { what, words }) {
        Some(difference) => Err(difference),
        None => Ok(words),
    }
}

/// All leave with these words that are shared.
fn leave_all(
    setting: &Setting,
    joint: &Collective,
    all: &[u32],
    lists: &mut Lists,
) -> Option<Difference>
    ensures met { Met (all_leave (collective_of joint.now) setting.now.total (share (collective_of joint.now) all.now)) (left_of lists.old) result (left_of lists.new) }
    ensures log { lists.new.log ≡ lists.old.log }
{
    for rank in 0..setting.total {
        if let Some(difference) = leave(joint, rank, all, lists) {
            return Some(difference);
        }
    }
    None
}

fn leave(joint: &Collective, rank: u32, all: &[u32], lists: &mut Lists) -> Option<Difference>
    ensures met { Met (E.Leave rank (known_by joint.now) (share (collective_of joint.now) all.now rank) ∷ []) (left_of lists.old) result (left_of lists.new) }
    ensures log { lists.new.log ≡ lists.old.log }
{
    let what = joint.known_by();
    let words = shared(joint, rank, all);
    meet(lists, rank, &Deed::Leave { what, words })
}

/// The words with which a rank leaves.
fn shared<'a>(joint: &Collective, rank: u32, all: &'a [u32]) -> Made<'a>
    ensures { list_of result ≡ share (collective_of joint.now) all.now rank }
{
    if gets(joint, rank) {
        Made::Given(all)
    } else {
        Made::Zeros(0)
    }
}
