ghost use Rattle.std.specs.Prelude.{◌≡◌, ◌++◌, true, map, length, OnOk};
ghost use Rattle.pb_affine.specs.Values.{IsNear};
ghost use Rattle.pb_core_language.specs.Plain.{plain_block, plain_stmt};
ghost use Rattle.pb_core_language.specs.Ranks.{seats};
ghost use Rattle.pb_core_language.specs.Parts.{firsts_within, firsts_below};
ghost use Rattle.pb_plain.specs.Alone.{firsts_if};
ghost use Rattle.pb_plain.specs.Finds.{outcome_of};
ghost use Rattle.pb_plain.specs.Loops.{ids_of, held_at};
ghost use Rattle.pb_plain.specs.Small.{is_small_block, is_small_stmt};
ghost use Rattle.pb_plain.specs.View.{seat_of};

use crate::parts::is_in_body;
use crate::{Flat, Held, NoMemory, Opens, Outcome, Site, firsts, flat_block};
use pb_core_language::{CoreBlock, CoreKind, CoreStmt};
use std::alloc::Global;

/// Adds what the rank finds first in the block with this number, which stands inside this block and these loops.
#[cycle(first_parts)]
pub fn add_firsts_within(
    alloc: Global,
    block: &CoreBlock,
    number: u32,
    opens: &Opens,
    held: &Held,
    site: &Site,
    rank: u64,
    out: &mut Vec<Outcome>,
) -> Result<(), NoMemory>
    requires seats { map seat_of site.now.seats.now ≡ seats site.now.roles.now site.now.n }
    requires n { IsNear site.now.n }
    requires small { is_small_block (length (ids_of opens.now)) (plain_block block.now).block ≡ true }
    ensures { OnOk result (map outcome_of out.new.items ≡ map outcome_of out.old.items ++ firsts_within site.now.roles.now site.now.n rank number (ids_of opens.now) (held_at rank held.now) (plain_block block.now).block) }
{
    for stmt in &block.list {
        add_firsts_below(alloc, stmt, number, opens, held, site, rank, out)?;
    }
    Ok(())
}

/// Adds it where the block stands inside this statement.
#[cycle(first_parts)]
#[tactic(auto, using(crate::proofs::Smalls::small_loop, crate::proofs::Smalls::small_body))]
fn add_firsts_below(
    alloc: Global,
    stmt: &CoreStmt,
    number: u32,
    opens: &Opens,
    held: &Held,
    site: &Site,
    rank: u64,
    out: &mut Vec<Outcome>,
) -> Result<(), NoMemory>
    requires seats { map seat_of site.now.seats.now ≡ seats site.now.roles.now site.now.n }
    requires n { IsNear site.now.n }
    requires small { is_small_stmt (length (ids_of opens.now)) (plain_stmt stmt.now).stmt ≡ true }
    ensures { OnOk result (map outcome_of out.new.items ≡ map outcome_of out.old.items ++ firsts_below site.now.roles.now site.now.n rank number (ids_of opens.now) (held_at rank held.now) (plain_stmt stmt.now).stmt) }
{
    match &stmt.what {
        CoreKind::Loop { id, body } => {
            let is_in = is_in_body(alloc, body, *id, opens, held, site, rank)?;
            let inside = Opens::Loop(*id, &*opens);
            let deeper = Held::Just(is_in, &*held);
            add_firsts_if(alloc, body, number, &inside, &deeper, site, rank, out)?;
            add_firsts_within(alloc, body, number, &inside, &deeper, site, rank, out)
        }
        CoreKind::Choice { branches, .. } => {
            for branch in branches {
                add_firsts_if(alloc, branch, number, opens, held, site, rank, out)?;
                add_firsts_within(alloc, branch, number, opens, held, site, rank, out)?;
            }
            Ok(())
        }
        CoreKind::Message { .. }
        | CoreKind::Foreach { .. }
        | CoreKind::Again { .. }
        | CoreKind::Run { .. }
        | CoreKind::Barrier
        | CoreKind::Broadcast { .. }
        | CoreKind::Reduce { .. }
        | CoreKind::Allreduce { .. } => Ok(()),
    }
}

/// Adds it where this is the block with this number.
pub fn add_firsts_if(
    alloc: Global,
    block: &CoreBlock,
    number: u32,
    opens: &Opens,
    held: &Held,
    site: &Site,
    rank: u64,
    out: &mut Vec<Outcome>,
) -> Result<(), NoMemory>
    requires seats { map seat_of site.now.seats.now ≡ seats site.now.roles.now site.now.n }
    requires n { IsNear site.now.n }
    requires small { is_small_block (length (ids_of opens.now)) (plain_block block.now).block ≡ true }
    ensures { OnOk result (map outcome_of out.new.items ≡ map outcome_of out.old.items ++ firsts_if site.now.roles.now site.now.n rank number (ids_of opens.now) (held_at rank held.now) (plain_block block.now)) }
{
    if number == block.number {
        let alone = flat_block(alloc, block, opens, site, &0, Flat::Stop)?;
        let found = firsts(alloc, &alone, held, rank)?;
        out.extend_from_slice(&found)?;
    }
    Ok(())
}
