use crate::trees::{block, each, fixed, lin, message, param, single, stmt, var, whole, whole_from};
use pb_affine::Base;
use pb_core_language::{CoreBlock, CoreKind};
use pb_part_areas::{Area, NoMemory};
use pb_part_firsts::{Entry, Held, Kind, Source, firsts_in};
use std::alloc::Global;

/// A branch with a message from rank 0 to each of as many ranks.
fn branch(alloc: Global, label: u32, count: i32) -> Result<CoreBlock, NoMemory> {
    let mut list = Vec::new(alloc);
    for to in 1..=count {
        list.push(message(label, fixed(0), fixed(to)))?;
    }
    Ok(block(list))
}

fn branches(alloc: Global, number: u32, count: i32) -> Result<Vec<CoreBlock>, NoMemory> {
    let mut branches = Vec::new(alloc);
    for label in 0..number {
        branches.push(branch(alloc, label, count)?)?;
    }
    Ok(branches)
}

fn choice(alloc: Global, number: u32, count: i32) -> Result<CoreBlock, NoMemory> {
    let branches = branches(alloc, number, count)?;
    let at = fixed(0);
    single(
        alloc,
        CoreKind::Choice {
            kernel: 0,
            at,
            branches,
        },
    )
}

/// What is left of all ranks behind a block, whose entries are added.
fn found(alloc: Global, core: &CoreBlock, out: &mut Vec<Entry>) -> Result<Vec<Area>, NoMemory> {
    let all = whole(alloc)?;
    let reach = whole(alloc)?;
    let held: Vec<Held> = Vec::new(alloc);
    firsts_in(core, alloc, &all, &held, reach, out)
}

/// How many entries a block has, and how many areas are left.
fn counts(alloc: Global, core: &CoreBlock) -> Result<(usize, usize), NoMemory> {
    let mut out = Vec::new(alloc);
    let left = found(alloc, core, &mut out)?.len();
    Ok((out.len(), left))
}

#[test]
fn a_choice_of_many_ends_has_few_entries(rt: HostRuntime) -> Result<(), NoMemory> {
    let core = choice(rt.alloc(), 64, 60)?;
    assert!(rt; counts(rt.alloc(), &core) == Ok((129, 1)));
    Ok(())
}

/// A foreach in which W[0] tells W[N - 2 * k] and W[i + k] for k from 1 on, by two labels. Where the two are one rank at the first
/// value, the first message counts.
fn crossed(alloc: Global, count: i8) -> Result<CoreBlock, NoMemory> {
    let mut list = Vec::new(alloc);
    for k in 1..count {
        let off = i32::from(k);
        list.push(message(0, fixed(0), param(-2 * off)))?;
        list.push(message(1, fixed(0), var(off)))?;
    }
    single(alloc, each(fixed(1), param(-1 - i32::from(count)), list))
}

/// How many entries it has where N is at least twice the number of messages of a label, and how many areas are left.
fn crossed_counts(alloc: Global, count: i8) -> Result<(usize, usize), NoMemory> {
    let core = crossed(alloc, count)?;
    let from = 2 * u32::from(count.unsigned_abs()) + 1;
    let all = whole_from(alloc, from)?;
    let reach = whole_from(alloc, from)?;
    let held: Vec<Held> = Vec::new(alloc);
    let mut out = Vec::new(alloc);
    let left = firsts_in(&core, alloc, &all, &held, reach, &mut out)?;
    Ok((out.len(), left.len()))
}

#[test]
fn ends_that_move_leave_few_areas(rt: HostRuntime) -> Result<(), NoMemory> {
    let (entries, left) = crossed_counts(rt.alloc(), 100)?;
    assert!(rt; entries < 300);
    assert!(rt; left < 4);
    Ok(())
}

/// In a foreach over i from 1 to N - 1, W[i - 1] sends to W[i].
fn chain(alloc: Global) -> Result<CoreBlock, NoMemory> {
    let list = vec![in alloc; message(0, var(-1), var(0))]?;
    single(alloc, each(fixed(1), param(-1), list))
}

/// Whether two areas are found, of receivers from the rank before and of others, and none is left.
fn are_two(alloc: Global, core: &CoreBlock) -> Result<bool, NoMemory> {
    let mut out = Vec::new(alloc);
    let left = found(alloc, core, &mut out)?.len();
    let from = Source {
        role: 0,
        at: lin(Base::Var, -1),
    };
    Ok(match out.as_slice() {
        [first, second] => {
            left == 0
                && first.kind == Kind::Receive { from, label: 0 }
                && second.kind == Kind::Other
        }
        _ => false,
    })
}

#[test]
fn a_chain_is_two_areas(rt: HostRuntime) -> Result<(), NoMemory> {
    let core = chain(rt.alloc())?;
    assert!(rt; are_two(rt.alloc(), &core)?);
    Ok(())
}

/// A loop in which W[0] sends to W[1] and goes on, and a message of W[2] behind it.
fn endless(alloc: Global) -> Result<CoreBlock, NoMemory> {
    let again = stmt(CoreKind::Again { id: 0 });
    let inside = vec![in alloc; message(0, fixed(0), fixed(1)), again]?;
    let what = CoreKind::Loop {
        id: 0,
        body: block(inside),
    };
    let mut core = single(alloc, what)?;
    core.list.push(message(1, fixed(2), fixed(0)))?;
    Ok(core)
}

#[test]
fn a_loop_is_gone_round(rt: HostRuntime) -> Result<(), NoMemory> {
    let core = endless(rt.alloc())?;
    assert!(rt; counts(rt.alloc(), &core) == Ok((3, 1)));
    Ok(())
}
