use crate::trees::{block, each, fixed, message, param, single, stmt, var, whole};
use pb_core_language::{CoreBlock, CoreKind};
use pb_part_areas::Area;
use pb_part_takers::{Held, NoMemory, takers_in};
use std::alloc::Global;

fn takers_of(alloc: Global, body: &CoreBlock) -> Result<Vec<Area>, NoMemory> {
    let ranks = whole(alloc)?;
    let held: Vec<Held> = Vec::new(alloc);
    let mut areas = Vec::new(alloc);
    takers_in(body, alloc, &ranks, &held, &mut areas)?;
    Ok(areas)
}

/// Messages to the indices from 1 on, a continue of the loop 7, and a message after that.
fn branch(alloc: Global, count: i32) -> Result<CoreBlock, NoMemory> {
    let mut list = Vec::new(alloc);
    for k in 1..count {
        list.push(message(0, fixed(0), fixed(k)))?;
    }
    list.push(stmt(CoreKind::Again { id: 7 }))?;
    list.push(message(0, param(-1), param(-2)))?;
    Ok(block(list))
}

fn branches(alloc: Global, number: u8, count: i32) -> Result<Vec<CoreBlock>, NoMemory> {
    let mut branches = Vec::new(alloc);
    for _ in 0..number {
        branches.push(branch(alloc, count)?)?;
    }
    Ok(branches)
}

/// A loop around a choice of so many branches with as many messages each.
fn looped(alloc: Global, number: u8, count: i32) -> Result<CoreBlock, NoMemory> {
    let branches = branches(alloc, number, count)?;
    let at = fixed(0);
    let body = single(
        alloc,
        CoreKind::Choice {
            kernel: 0,
            at,
            branches,
        },
    )?;
    single(alloc, CoreKind::Loop { id: 7, body })
}

/// Whether the first 60 indices take part, in one area.
fn is_one_area(alloc: Global, body: &CoreBlock) -> Result<bool, NoMemory> {
    let areas = takers_of(alloc, body)?;
    Ok(match areas.as_slice() {
        [area] => area.low == fixed(0).at && area.end == fixed(60).at,
        _ => false,
    })
}

#[test]
fn many_branches_are_one_area(rt: HostRuntime) -> Result<(), NoMemory> {
    let body = looped(rt.alloc(), 64, 60)?;
    assert!(rt; is_one_area(rt.alloc(), &body)?);
    Ok(())
}

/// The ranks from 1 to N - 3 send to the next.
fn ring(alloc: Global) -> Result<CoreBlock, NoMemory> {
    let list = vec![in alloc; message(0, var(0), var(1))]?;
    single(alloc, each(fixed(1), param(-3), list))
}

/// Whether there are less than 8 areas, of which the first begins at index 1.
fn are_few_from_one(alloc: Global, body: &CoreBlock) -> Result<bool, NoMemory> {
    let areas = takers_of(alloc, body)?;
    Ok(match areas.as_slice() {
        [area, ..] => areas.len() < 8 && area.low == fixed(1).at,
        [] => false,
    })
}

#[test]
fn ends_of_a_foreach(rt: HostRuntime) -> Result<(), NoMemory> {
    let body = ring(rt.alloc())?;
    assert!(rt; are_few_from_one(rt.alloc(), &body)?);
    Ok(())
}

/// The same, and then all meet.
fn joined_ring(alloc: Global) -> Result<CoreBlock, NoMemory> {
    let mut body = ring(alloc)?;
    body.list.push(stmt(CoreKind::Barrier))?;
    Ok(body)
}

#[test]
fn all_meet_behind_a_foreach(rt: HostRuntime) -> Result<(), NoMemory> {
    let body = joined_ring(rt.alloc())?;
    assert!(rt; takers_of(rt.alloc(), &body)?.len() < 8);
    Ok(())
}
