use pb_affine::{Base, Guard, Lin, NRange};
use pb_cases::Bad;
use pb_part_areas::{
    Area, NoMemory, absorb, add_all, common, guard_of, near, one, push, tidied, without,
};
use pb_part_first::first_of;
use std::alloc::Global;

fn fixed(off: i32) -> Lin {
    Lin {
        base: Base::Fixed,
        off,
    }
}

fn param(off: i32) -> Lin {
    Lin {
        base: Base::Param,
        off,
    }
}

/// The indices from `low` on and before `end`, for N from 2 on.
fn between(low: Lin, end: Lin) -> Area {
    Area {
        role: 0,
        low,
        end,
        from: 2,
        until: None,
    }
}

/// How many areas stay of all ranks, when as many from each end of the role are taken off one after the other.
fn count_of_both_ends(alloc: Global, count: i8) -> Result<usize, NoMemory> {
    let mut left = one(alloc, between(fixed(0), param(0)))?;
    for k in 0..count {
        let j = i32::from(k);
        let low = one(alloc, between(fixed(j), fixed(j + 1)))?;
        left = without(alloc, left, &low)?;
        let high = one(alloc, between(param(0 - j), param(1 - j)))?;
        left = without(alloc, left, &high)?;
    }
    Ok(left.len())
}

/// How many areas there are of as many single ends, each added as many times.
fn count_of_ends(alloc: Global, times: u8, count: i8) -> Result<usize, NoMemory> {
    let mut all = Vec::new(alloc);
    for _ in 0..times {
        for k in 0..count {
            let j = i32::from(k);
            let end = one(alloc, between(fixed(j), fixed(j + 1)))?;
            absorb(alloc, &mut all, &end)?;
        }
    }
    Ok(all.len())
}

#[test]
fn ends_from_both_sides_are_few_areas(rt: HostRuntime) {
    // the ranks between them, where there are more than 124
    assert!(rt; count_of_both_ends(rt.alloc(), 62) == Ok(1));
}

#[test]
fn single_ends_are_one_area(rt: HostRuntime) {
    assert!(rt; count_of_ends(rt.alloc(), 64, 60) == Ok(1));
}

/// Every second rank, as many, for N from one number on and before another.
fn gaps(alloc: Global, count: u8, from: u32, until: Option<u32>) -> Result<Vec<Area>, NoMemory> {
    let mut list = Vec::new(alloc);
    for k in 0..count {
        let low = 2 * i32::from(k);
        let area = between(fixed(low), fixed(low + 1));
        list.push(Area {
            from,
            until,
            ..area
        })?;
    }
    Ok(list)
}

/// How many areas there are of ranks for N before 10, from 10 on and before 20, and from 20 on.
fn count_over_all(alloc: Global, count: u8) -> Result<usize, NoMemory> {
    let mut list = gaps(alloc, count, 2, Some(10))?;
    list.extend_from_slice(&gaps(alloc, count, 20, None)?)?;
    list.extend_from_slice(&gaps(alloc, count, 10, Some(20))?)?;
    Ok(tidied(alloc, list)?.len())
}

#[test]
fn numbers_one_after_the_other_are_one_area(rt: HostRuntime) {
    assert!(rt; count_over_all(rt.alloc(), 100) == Ok(100));
}

/// How many of the ranks may be among those from 10 to 19.
fn count_near(alloc: Global, count: u8) -> Result<usize, NoMemory> {
    let list = gaps(alloc, count, 2, None)?;
    Ok(near(alloc, &list, between(fixed(10), fixed(20)))?.len())
}

#[test]
fn what_is_apart_is_not_near(rt: HostRuntime) {
    assert!(rt; count_near(rt.alloc(), 100) == Ok(5));
}

fn areas_of_parts(alloc: Global) -> Result<usize, NoMemory> {
    let all = one(alloc, between(fixed(0), param(0)))?;
    let some = one(alloc, between(fixed(3), param(-3)))?;
    let inner = common(alloc, &all, &some)?;
    let mut outer = without(alloc, all, &inner)?;
    add_all(&mut outer, &inner)?;
    push(&mut outer, between(param(0), param(1)))?;
    Ok(outer.len())
}

#[test]
fn parts_make_the_whole_again(rt: HostRuntime) {
    assert!(rt; areas_of_parts(rt.alloc()) == Ok(1));
}

fn first_between(alloc: Global) -> Result<Option<Bad>, NoMemory> {
    let list = one(alloc, between(fixed(3), param(-3)))?;
    let range = NRange { low: 1, high: None };
    Ok(first_of(&list, range))
}

#[test]
fn first_rank(rt: HostRuntime) {
    let bad = Bad {
        n: 7,
        role: 0,
        index: 3,
    };
    assert!(rt; first_between(rt.alloc()) == Ok(Some(bad)));
}

fn guard_between() -> Guard {
    let low = Lin {
        base: Base::Fixed,
        off: 3,
    };
    let end = Lin {
        base: Base::Param,
        off: -3,
    };
    let area = Area {
        role: 1,
        low,
        end,
        from: 2,
        until: Some(9),
    };
    let range = NRange {
        low: 2,
        high: Some(20),
    };
    guard_of(area, range)
}

#[test]
fn guard_of_an_area(rt: HostRuntime) {
    let guard = guard_between();
    assert!(rt; guard.high == Some(param(-4)));
    assert!(rt; guard.from == None);
    assert!(rt; guard.to == Some(8));
}
