//! The collectives.

ghost use Rattle.std.specs.Prelude.{◌≡◌, ℕ, List, IfOk};
ghost use Rattle.pb_world.specs.Actions as W;
ghost use Rattle.pb_core_language.specs.Flat as F;
ghost use Rattle.pb_core_language.specs.FlatOf.{operation_of, rank_of};
ghost use Rattle.pb_judge_lists.specs.Places.{left_of};
ghost use Rattle.pb_judge_joint.specs.Setting.{collective_of};
ghost use Rattle.pb_judge_walks.specs.Walks.{Walked};
ghost use Rattle.pb_judge_blocks.specs.Places.{setting_at};
ghost use Rattle.pb_judge_blocks.specs.Steps.{SimpleWalks};

use crate::flow::flow_of;
use crate::ranks::rank_of;
use crate::site::Site;
use pb_core_language::{CoreEnd, Op};
use pb_judge_joint::{Collective, together};
use pb_judge_steps::Lists;
use pb_judge_walks::Flow;
use pb_text::NoMemory;
use std::alloc::Global;

pub fn barrier(alloc: Global, site: &Site, lists: &mut Lists) -> Result<Flow, NoMemory>
    ensures walked { IfOk result (λ flow. (opens : List ℕ) (origin : F.Origin) → Walked (setting_at site.now) (F.together origin W.Barrier) opens (left_of lists.old) flow (left_of lists.new)) }
    ensures log { lists.new.log ≡ lists.old.log }
{
    joint(alloc, site, &Collective::Barrier, lists)
}

pub fn broadcast(
    alloc: Global,
    label: u32,
    root: &CoreEnd,
    site: &Site,
    i: &i64,
    lists: &mut Lists,
) -> Result<Flow, NoMemory>
    ensures walked { IfOk result (λ flow. SimpleWalks site.now i.now (λ origin. F.together origin (W.Broadcast label (rank_of site.now.roles.now site.now.n root.now i.now))) (left_of lists.old) flow (left_of lists.new)) }
    ensures log { lists.new.log ≡ lists.old.log }
{
    let root = rank_of(root, site, i);
    joint(alloc, site, &Collective::Broadcast { label, root }, lists)
}

pub fn reduce(
    alloc: Global,
    label: u32,
    op: Op,
    root: &CoreEnd,
    site: &Site,
    i: &i64,
    lists: &mut Lists,
) -> Result<Flow, NoMemory>
    ensures walked { IfOk result (λ flow. SimpleWalks site.now i.now (λ origin. F.together origin (W.Reduce label (operation_of op) (rank_of site.now.roles.now site.now.n root.now i.now))) (left_of lists.old) flow (left_of lists.new)) }
    ensures log { lists.new.log ≡ lists.old.log }
{
    let root = rank_of(root, site, i);
    joint(alloc, site, &Collective::Reduce { label, op, root }, lists)
}

pub fn allreduce(
    alloc: Global,
    label: u32,
    op: Op,
    site: &Site,
    lists: &mut Lists,
) -> Result<Flow, NoMemory>
    ensures walked { IfOk result (λ flow. (opens : List ℕ) (origin : F.Origin) → Walked (setting_at site.now) (F.together origin (W.Allreduce label (operation_of op))) opens (left_of lists.old) flow (left_of lists.new)) }
    ensures log { lists.new.log ≡ lists.old.log }
{
    joint(alloc, site, &Collective::Allreduce { label, op }, lists)
}

fn joint(
    alloc: Global,
    site: &Site,
    joint: &Collective,
    lists: &mut Lists,
) -> Result<Flow, NoMemory>
    ensures walked { IfOk result (λ flow. (opens : List ℕ) (origin : F.Origin) → Walked (setting_at site.now) (F.together origin (collective_of joint.now)) opens (left_of lists.old) flow (left_of lists.new)) }
    ensures log { lists.new.log ≡ lists.old.log }
{
    let met = together(alloc, &site.setting, joint, lists)?;
    Ok(flow_of(met))
}
