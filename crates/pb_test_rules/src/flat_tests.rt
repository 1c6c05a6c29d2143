use pb_core_language::{
    Base, CoreBlock, CoreEnd, CoreKind, CoreLabel, CoreRole, CoreStmt, Lin, NRange, Name, Payload,
};
use pb_core_sound::is_sound;
use pb_plain::{
    Core, Flat, Held, NoMemory, Outcome, Place, can_end, firsts, flat_of, seats, takes_part,
};
use std::alloc::Global;
use std::process::Abort;

const PLACE: Place = Place { line: 3, col: 3 };

fn lin(base: Base, off: i32) -> Lin {
    Lin { base, off }
}

fn end(at: Lin) -> CoreEnd {
    CoreEnd {
        role: 0,
        at,
        place: PLACE,
    }
}

fn stmt(number: u32, what: CoreKind) -> CoreStmt {
    CoreStmt {
        number,
        place: PLACE,
        what,
    }
}

fn block(number: u32, list: Vec<CoreStmt>) -> CoreBlock {
    CoreBlock {
        number,
        place: PLACE,
        list,
    }
}

fn message(number: u32, label: u32, from: Lin, to: Lin) -> CoreStmt {
    stmt(
        number,
        CoreKind::Message {
            label,
            from: end(from),
            to: end(to),
        },
    )
}

/// A protocol over `W[0..N-1]` with one label.
fn protocol(alloc: Global, body: CoreBlock) -> Result<Core, NoMemory> {
    let name = Name::of(b"W").ok_or(NoMemory)?;
    let role = CoreRole {
        name,
        place: PLACE,
        low: lin(Base::Fixed, 0),
        high: lin(Base::Param, -1),
    };
    let label = CoreLabel {
        name,
        payload: Payload::Unit,
    };
    Ok(Core {
        protocol: name,
        range: NRange { low: 2, high: None },
        roles: vec![in alloc; role]?,
        labels: vec![in alloc; label]?,
        kernels: Vec::new(alloc),
        body,
        statements: 0,
        blocks: 0,
    })
}

// A ring: W[i] to W[i+1] for i from 0 to N-2, and W[N-1] to W[0].
fn ring(alloc: Global) -> Result<Core, NoMemory> {
    let step = message(1, 0, lin(Base::Var, 0), lin(Base::Var, 1));
    let round = CoreKind::Foreach {
        low: lin(Base::Fixed, 0),
        high: lin(Base::Param, -2),
        items: block(1, vec![in alloc; step]?),
    };
    let back = message(2, 0, lin(Base::Param, -1), lin(Base::Fixed, 0));
    protocol(alloc, block(0, vec![in alloc; stmt(0, round), back]?))
}

/// Asserts what a rank finds first.
fn check_first(
    rt: &impl Abort,
    alloc: Global,
    block: &Flat,
    rank: u64,
    wanted: Outcome,
) -> Result<(), NoMemory> {
    let first = firsts(alloc, block, &Held::Top, rank)?;
    assert!(rt; first.as_slice() == [wanted].as_slice(), "{rank}");
    Ok(())
}

/// Asserts who takes part in the flat ring of three, and what is found first in it.
fn check_block(rt: &impl Abort, alloc: Global, block: &Flat) -> Result<(), NoMemory> {
    assert!(rt; can_end(block));
    assert!(rt; takes_part(block, &Held::Top, 2));
    assert!(rt; !takes_part(block, &Held::Top, 3));
    check_first(rt, alloc, block, 2, Outcome::Receive { from: 1, label: 0 })?;
    check_first(rt, alloc, block, 0, Outcome::Other)
}

fn check_ring(rt: &impl Abort, alloc: Global, core: &Core) -> Result<(), NoMemory> {
    assert!(rt; is_sound(core));
    let ranks = seats(alloc, &core.roles, 3)?;
    assert!(rt; ranks.len() == 3);
    match flat_of(alloc, core, &ranks, 3) {
        Ok(block) => check_block(rt, alloc, &block),
        Err(error) => Err(error),
    }
}

#[test]
fn ring_at_three(rt: HostRuntime) -> Result<(), NoMemory> {
    match ring(rt.alloc()) {
        Ok(core) => check_ring(&rt, rt.alloc(), &core),
        Err(error) => Err(error),
    }
}
