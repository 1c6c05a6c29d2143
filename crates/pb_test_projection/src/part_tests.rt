use crate::trees::{HERE, block, end, fixed, message, stmt};
use pb_affine::{Base, Guard, Lin};
use pb_core_language::{
    Core, CoreEnd, CoreKernel, CoreKind, CoreLabel, CoreRole, CoreStmt, KernelKind, NRange, Name,
    Payload,
};
use pb_core_sound::is_sound;
use pb_part::{First, FirstKind, Source, firsts};
use pb_part_areas::NoMemory;
use std::alloc::Global;

const FIRST: Lin = Lin {
    base: Base::Fixed,
    off: 0,
};

const LAST: Lin = Lin {
    base: Base::Param,
    off: -1,
};

/// `run K at W[index];`
fn run(index: i32) -> CoreStmt {
    let at = fixed(index);
    stmt(CoreKind::Run { kernel: 0, at })
}

fn roles(alloc: Global, name: Name) -> Result<Vec<CoreRole>, NoMemory> {
    let role = CoreRole {
        name,
        place: HERE,
        low: FIRST,
        high: LAST,
    };
    Ok(vec![in alloc; role]?)
}

fn labels(alloc: Global, name: Name) -> Result<Vec<CoreLabel>, NoMemory> {
    let payload = Payload::Unit;
    Ok(vec![in alloc; CoreLabel { name, payload }]?)
}

fn kernels(alloc: Global, name: Name) -> Result<Vec<CoreKernel>, NoMemory> {
    let kind = KernelKind::Compute;
    Ok(vec![in alloc; CoreKernel { name, kind }]?)
}

/// The protocol of the ranks `W[0..N-1]` with these statements, for the N from `low` on.
fn protocol(alloc: Global, low: u32, list: Vec<CoreStmt>) -> Result<Core, NoMemory> {
    let name = Name::of(b"P").ok_or(NoMemory)?;
    let roles = roles(alloc, name)?;
    let labels = labels(alloc, name)?;
    let kernels = kernels(alloc, name)?;
    Ok(Core {
        protocol: name,
        range: NRange { low, high: None },
        roles,
        labels,
        kernels,
        body: block(list),
        statements: 1,
        blocks: 1,
    })
}

/// What the ranks find first among these statements. None where memory ran out or the core isn't sound.
fn found_in(alloc: Global, low: u32, list: Vec<CoreStmt>) -> Option<Vec<First>> {
    let core = protocol(alloc, low, list).ok()?;
    if !is_sound(&core) {
        return None;
    }
    firsts(alloc, &core, 0).ok()
}

/// The ranks from one end to another.
fn between(low: CoreEnd, high: CoreEnd) -> Guard {
    Guard {
        role: 0,
        low: Some(low.at),
        high: Some(high.at),
        from: None,
        to: None,
    }
}

fn is_first(first: &First, kind: FirstKind, guards: &[Guard]) -> bool {
    first.kind == kind && first.guards.list() == guards
}

fn is_barrier_of_all(found: &[First]) -> bool {
    let all = [between(end(FIRST), end(LAST))];
    match found {
        [first] => is_first(first, FirstKind::Other, &all),
        _ => false,
    }
}

#[test]
fn all_ranks_come_to_a_barrier(rt: HostRuntime) -> Result<(), NoMemory> {
    let list = vec![in rt.alloc(); stmt(CoreKind::Barrier)]?;
    let found = found_in(rt.alloc(), 2, list).ok_or(NoMemory)?;
    assert!(rt; is_barrier_of_all(&found));
    Ok(())
}

/// Whether the ranks 0 and 4 find another statement, rank 8 a message from rank 0, and all others nothing.
fn are_three(found: &[First]) -> bool {
    let from = Source { role: 0, at: FIRST };
    let runners = [between(fixed(0), fixed(0)), between(fixed(4), fixed(4))];
    let receivers = [between(fixed(8), fixed(8))];
    match found {
        [first, second, third] => {
            is_first(first, FirstKind::Other, &runners)
                && is_first(second, FirstKind::Receive { from, label: 0 }, &receivers)
                && third.kind == FirstKind::Nothing
        }
        _ => false,
    }
}

#[test]
fn ranks_that_find_the_same_go_together(rt: HostRuntime) -> Result<(), NoMemory> {
    let sent = message(0, fixed(0), fixed(8));
    let list = vec![in rt.alloc(); run(0), sent, run(4)]?;
    let found = found_in(rt.alloc(), 20, list).ok_or(NoMemory)?;
    assert!(rt; are_three(&found));
    Ok(())
}
