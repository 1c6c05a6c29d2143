ghost use Rattle.std.specs.Prelude.{◌≡◌, suc, true, map, length, IfOk};
ghost use Rattle.pb_affine.specs.Values.{IsNear};
ghost use Rattle.pb_core_language.specs.Plain.{plain_block, plain_stmt};
ghost use Rattle.pb_core_language.specs.Ranks.{seats};
ghost use Rattle.pb_core_language.specs.Parts.{is_in_body, takes_part_within};
ghost use Rattle.pb_plain.specs.Alone.{takes_part_alone, takes_part_at};
ghost use Rattle.pb_plain.specs.Loops.{ids_of, held_at};
ghost use Rattle.pb_plain.specs.Small.{is_small_block, is_small_stmt};
ghost use Rattle.pb_plain.specs.View.{seat_of};

use crate::{Flat, Held, NoMemory, Opens, Site, flat_block, flat_stmt, takes_part};
use pb_core_language::{CoreBlock, CoreKind, CoreStmt};
use std::alloc::Global;

/// Whether the rank takes part in the statement with this number, which stands in the block, inside these loops. Statements
/// inside a foreach aren't looked at.
#[cycle(parts)]
#[tactic(auto, using(crate::proofs::Smalls::small_at))]
pub fn takes_part_within(
    alloc: Global,
    block: &CoreBlock,
    number: u32,
    opens: &Opens,
    held: &Held,
    site: &Site,
    rank: u64,
) -> Result<bool, NoMemory>
    requires seats { map seat_of site.now.seats.now ≡ seats site.now.roles.now site.now.n }
    requires n { IsNear site.now.n }
    requires small { is_small_block (length (ids_of opens.now)) (plain_block block.now).block ≡ true }
    ensures { IfOk result (λ b. b ≡ takes_part_within site.now.roles.now site.now.n rank number (ids_of opens.now) (held_at rank held.now) (plain_block block.now).block) }
{
    for stmt in &block.list {
        if takes_part_at(alloc, stmt, number, opens, held, site, rank)? {
            return Ok(true);
        }
    }
    Ok(false)
}

/// Whether it is this statement and the rank takes part in it, or it is one inside in which the rank does.
#[cycle(parts)]
#[tactic(auto, using(crate::proofs::Smalls::small_loop, crate::proofs::Smalls::small_body, crate::proofs::Smalls::small_branch_at))]
fn takes_part_at(
    alloc: Global,
    stmt: &CoreStmt,
    number: u32,
    opens: &Opens,
    held: &Held,
    site: &Site,
    rank: u64,
) -> Result<bool, NoMemory>
    requires seats { map seat_of site.now.seats.now ≡ seats site.now.roles.now site.now.n }
    requires n { IsNear site.now.n }
    requires small { is_small_stmt (length (ids_of opens.now)) (plain_stmt stmt.now).stmt ≡ true }
    ensures { IfOk result (λ b. b ≡ takes_part_at site.now.roles.now site.now.n rank number (ids_of opens.now) (held_at rank held.now) (plain_stmt stmt.now)) }
{
    if number == stmt.number && is_in_stmt(alloc, stmt, opens, held, site, rank)? {
        return Ok(true);
    }
    match &stmt.what {
        CoreKind::Loop { id, body } => {
            let is_in = is_in_body(alloc, body, *id, opens, held, site, rank)?;
            let inside = Opens::Loop(*id, &*opens);
            takes_part_within(
                alloc,
                body,
                number,
                &inside,
                &Held::Just(is_in, &*held),
                site,
                rank,
            )
        }
        CoreKind::Choice { branches, .. } => {
            for branch in branches {
                if takes_part_within(alloc, branch, number, opens, held, site, rank)? {
                    return Ok(true);
                }
            }
            Ok(false)
        }
        CoreKind::Message { .. }
        | CoreKind::Foreach { .. }
        | CoreKind::Again { .. }
        | CoreKind::Run { .. }
        | CoreKind::Barrier
        | CoreKind::Broadcast { .. }
        | CoreKind::Reduce { .. }
        | CoreKind::Allreduce { .. } => Ok(false),
    }
}

/// Whether the rank takes part in the statement itself.
fn is_in_stmt(
    alloc: Global,
    stmt: &CoreStmt,
    opens: &Opens,
    held: &Held,
    site: &Site,
    rank: u64,
) -> Result<bool, NoMemory>
    requires seats { map seat_of site.now.seats.now ≡ seats site.now.roles.now site.now.n }
    requires n { IsNear site.now.n }
    requires small { is_small_stmt (length (ids_of opens.now)) (plain_stmt stmt.now).stmt ≡ true }
    ensures { IfOk result (λ b. b ≡ takes_part_alone site.now.roles.now site.now.n rank (ids_of opens.now) (held_at rank held.now) (plain_stmt stmt.now)) }
{
    let alone = flat_stmt(alloc, stmt, opens, site, &0, Flat::Stop)?;
    Ok(takes_part(&alone, held, rank))
}

/// Whether the rank takes part in the body of the loop with this id for a reason other than its continue.
#[tactic(auto, using(crate::proofs::Smalls::small_inside))]
pub fn is_in_body(
    alloc: Global,
    body: &CoreBlock,
    id: u32,
    opens: &Opens,
    held: &Held,
    site: &Site,
    rank: u64,
) -> Result<bool, NoMemory>
    requires seats { map seat_of site.now.seats.now ≡ seats site.now.roles.now site.now.n }
    requires n { IsNear site.now.n }
    requires small { is_small_block (suc (length (ids_of opens.now))) (plain_block body.now).block ≡ true }
    ensures { IfOk result (λ b. b ≡ is_in_body site.now.roles.now site.now.n rank (ids_of opens.now) (held_at rank held.now) id (plain_block body.now).block) }
{
    let inside = flat_block(alloc, body, &Opens::Loop(id, &*opens), site, &0, Flat::Stop)?;
    Ok(takes_part(&inside, &Held::Just(false, &*held), rank))
}
