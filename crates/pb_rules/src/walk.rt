ghost use Rattle.std.specs.Prelude.{◌≡◌, ◌<◌, ◌*◌, ◌^◌, map};
ghost use Rattle.pb_core_language.specs.Plain.{plain_block, plain_stmt, branches_of};
ghost use Rattle.pb_rules.specs.Traps.{role_traps, kept_all};
ghost use Rattle.pb_rules.specs.Sites.{stmt_sites, block_sites, branches_sites, kept_site, kept_sites, mark_of};
ghost use Rattle.pb_rules.specs.Sites.{one as one_site, two as two_site};

use crate::ends::{Setting, end_kept, message_kept, role_kept};
use crate::found::Found;
use pb_affine::NRange;
use pb_core_language::{Bounds, CoreBlock, CoreEnd, CoreKind, CoreRole, CoreStmt, Place};

/// The number and the place of a statement.
#[derive(Clone, Copy)]
struct Mark {
    number: u32,
    place: Place,
}

/// The earlier of the best so far and the first breach of rule 6.
pub fn roles_kept(range: NRange, roles: &[CoreRole], best: Option<Found>) -> Option<Found>
    ensures { result ≡ kept_all (role_traps range 0 roles.now) best }
{
    let mut best = best;
    for (i, role) in roles.iter().enumerate() {
        best = role_kept(range, i as u64, role, best);
    }
    best
}

/// The earlier of the best so far and the first breach of the rules 7 and 8 in the block.
#[cycle(walk)]
#[tactic(auto, using(crate::proofs::Steps::kept_on, crate::proofs::Steps::kept_stop))]
pub fn block_kept(
    block: &CoreBlock,
    setting: &Setting,
    over: Option<Bounds>,
    best: Option<Found>,
) -> Option<Found>
    ensures { result ≡ kept_sites setting.now.range setting.now.roles.now (block_sites over (plain_block block.now).block) best }
{
    let mut best = best;
    for statement in &block.list {
        if statement.is_again() {
            return best;
        }
        best = stmt_kept(statement, setting, over, best);
    }
    best
}

#[cycle(walk)]
#[tactic(auto, using(crate::proofs::Steps::kept_both))]
fn branches_kept(
    branches: &[CoreBlock],
    setting: &Setting,
    over: Option<Bounds>,
    best: Option<Found>,
) -> Option<Found>
    ensures { result ≡ kept_sites setting.now.range setting.now.roles.now (branches_sites over (branches_of (map plain_block branches.now))) best }
{
    let mut best = best;
    for branch in branches {
        best = block_kept(branch, setting, over, best);
    }
    best
}

#[cycle(walk)]
fn stmt_kept(
    statement: &CoreStmt,
    setting: &Setting,
    over: Option<Bounds>,
    best: Option<Found>,
) -> Option<Found>
    ensures { result ≡ kept_sites setting.now.range setting.now.roles.now (stmt_sites over (plain_stmt statement.now).mark (plain_stmt statement.now).stmt) best }
{
    let mark = Mark {
        number: statement.number,
        place: statement.place,
    };
    match &statement.what {
        CoreKind::Message { from, to, .. } => two_kept(mark, from, to, setting, over, best),
        CoreKind::Foreach { low, high, items } => {
            let inside = Bounds {
                low: *low,
                high: *high,
            };
            block_kept(items, setting, Some(inside), best)
        }
        CoreKind::Loop { body, .. } => block_kept(body, setting, over, best),
        CoreKind::Choice { at, branches, .. } => {
            let best = one_kept(mark, at, setting, over, best);
            branches_kept(branches, setting, over, best)
        }
        CoreKind::Run { at, .. } => one_kept(mark, at, setting, over, best),
        CoreKind::Broadcast { root, .. } => one_kept(mark, root, setting, over, best),
        CoreKind::Reduce { root, .. } => one_kept(mark, root, setting, over, best),
        CoreKind::Again { .. } | CoreKind::Barrier | CoreKind::Allreduce { .. } => best,
    }
}

fn one_kept(
    mark: Mark,
    end: &CoreEnd,
    setting: &Setting,
    over: Option<Bounds>,
    best: Option<Found>,
) -> Option<Found>
    ensures { result ≡ kept_site setting.now.range setting.now.roles.now (one_site over (mark_of mark) end.now) best }
{
    end_kept(setting, over, first_number(mark), end, best)
}

fn two_kept(
    mark: Mark,
    from: &CoreEnd,
    to: &CoreEnd,
    setting: &Setting,
    over: Option<Bounds>,
    best: Option<Found>,
) -> Option<Found>
    ensures { result ≡ kept_site setting.now.range setting.now.roles.now (two_site over (mark_of mark) from.now to.now) best }
{
    let number = first_number(mark);
    let best = end_kept(setting, over, number, from, best);
    let best = end_kept(setting, over, number + 1, to, best);
    message_kept(setting, over, mark.number, mark.place, from, to, best)
}

// The number of a statement's first end.
fn first_number(mark: Mark) -> u64
    ensures is { result ≡ 2 * mark.number }
    ensures fits { result < 2 ^ 33 }
{
    2 * u64::from(mark.number)
}
