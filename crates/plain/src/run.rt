ghost use Rattle.std.specs.Prelude.{◌≡◌, take};

use crate::action::put_action;
use crate::answers::{Likeness, Table};
use crate::text::Text;
use pb_core_language::Core;
use pb_plain::Flat;
use pb_plain_run::{RankAction, RunFault, Sequence, Setting, sequential_run};
use pb_text::NoMemory;
use std::alloc::Global;

/// How many steps a run is followed at most, though it made fewer actions than were asked for.
const MOST_STEPS: u64 = 1_048_576;

/// The first actions of the sequential run under the answers that the generator's words give: at least so many, where the
/// run has them.
///
/// Which words are asked for is known from the run, and the run from the words. So a run is made under the answers that
/// are known, and the answers that it asks for are the next table. A first wrong answer is right in the next run, and
/// where none is wrong the run is the one that is looked for.
pub fn first_actions(
    alloc: Global,
    setting: &Setting,
    protocol: &Flat,
    total: usize,
    most: usize,
) -> Result<Sequence, RunFault> {
    let mut steps = 1;
    let mut table = Table::new(alloc, total)?;
    let mut run = sequential_run(alloc, setting, protocol, table.answers(), steps)?;
    for _ in 0..u64::MAX {
        let (next, is_right) = asked_by(alloc, total, front(&run.actions, most))?;
        if is_right {
            if run.is_over || most <= run.actions.len() || MOST_STEPS <= steps {
                return Ok(run);
            }
            steps = steps.saturating_mul(2);
        }
        table = next;
        run = sequential_run(alloc, setting, protocol, table.answers(), steps)?;
    }
    Ok(run)
}

/// The answers that these actions ask for, up to the first that takes another branch, and whether all are as in the
/// actions.
fn asked_by(
    alloc: Global,
    total: usize,
    actions: &[RankAction],
) -> Result<(Table, bool), NoMemory> {
    let mut table = Table::new(alloc, total)?;
    let mut is_right = true;
    for done in actions {
        match table.answer(alloc, done)? {
            Likeness::Same => {}
            Likeness::OtherWords => is_right = false,
            Likeness::OtherBranch => return Ok((table, false)),
        }
    }
    Ok((table, is_right))
}

/// At most so many of the first actions.
fn front(actions: &[RankAction], most: usize) -> &[RankAction]
    ensures { result.now ≡ take most actions.now }
{
    if actions.len() <= most {
        actions
    } else {
        &actions[..most]
    }
}

/// The line of each of the first actions, and whether the run has ended then.
pub fn put_run(text: &mut Text, core: &Core, run: &Sequence, most: usize) -> Result<(), NoMemory> {
    let actions = front(&run.actions, most);
    text.put_count(b"actions ", actions.len())?;
    for done in actions {
        put_action(text, core, done)?;
    }
    if run.is_over && run.actions.len() <= most {
        text.put(b"ended\n")
    } else {
        text.put(b"goes on\n")
    }
}
