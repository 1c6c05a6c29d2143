use pb_core_language::{
    Base, CoreBlock, CoreEnd, CoreKernel, CoreKind, CoreLabel, CoreRole, CoreStmt, KernelKind, Lin,
    NRange, Name, Payload,
};
use pb_core_sound::is_sound;
use pb_plain_rules::{Breach, Core, Mark, NoMemory, Place, Seat, breaches};
use std::alloc::Global;
use std::process::Abort;

const NAMED: Place = Place { line: 2, col: 24 };

const LABEL: Place = Place { line: 3, col: 3 };

const SENDER: Place = Place { line: 3, col: 12 };

const RECEIVER: Place = Place { line: 3, col: 27 };

const LATER: Place = Place { line: 5, col: 8 };

fn fixed(off: i32) -> Lin {
    Lin {
        base: Base::Fixed,
        off,
    }
}

fn last(off: i32) -> Lin {
    Lin {
        base: Base::Param,
        off,
    }
}

fn turn(off: i32) -> Lin {
    Lin {
        base: Base::Var,
        off,
    }
}

fn end(at: Lin, place: Place) -> CoreEnd {
    CoreEnd { role: 0, at, place }
}

fn stmt(number: u32, what: CoreKind) -> CoreStmt {
    CoreStmt {
        number,
        place: LABEL,
        what,
    }
}

fn block(number: u32, place: Place, list: Vec<CoreStmt>) -> CoreBlock {
    CoreBlock {
        number,
        place,
        list,
    }
}

fn message(number: u32, label: u32, from: Lin, to: Lin) -> CoreStmt {
    let what = CoreKind::Message {
        label,
        from: end(from, SENDER),
        to: end(to, RECEIVER),
    };
    stmt(number, what)
}

/// A message for each number from low to high, of the statements with this number and the next.
fn messages(
    alloc: Global,
    number: u32,
    inside: u32,
    bounds: (Lin, Lin),
    sent: CoreStmt,
) -> Result<CoreStmt, NoMemory> {
    let what = CoreKind::Foreach {
        low: bounds.0,
        high: bounds.1,
        items: block(inside, LABEL, vec![in alloc; sent]?),
    };
    Ok(stmt(number, what))
}

/// A protocol over `W[low..high]` with two labels, a kernel and these statements.
fn protocol(alloc: Global, low: Lin, high: Lin, list: Vec<CoreStmt>) -> Result<Core, NoMemory> {
    let name = Name::of(b"W").ok_or(NoMemory)?;
    let role = CoreRole {
        name,
        place: NAMED,
        low,
        high,
    };
    let label = CoreLabel {
        name,
        payload: Payload::Unit,
    };
    let kernel = CoreKernel {
        name,
        kind: KernelKind::Choice,
    };
    Ok(Core {
        protocol: name,
        range: NRange { low: 1, high: None },
        roles: vec![in alloc; role]?,
        labels: vec![in alloc; label, label]?,
        kernels: vec![in alloc; kernel]?,
        body: block(0, LABEL, list),
        statements: 0,
        blocks: 0,
    })
}

fn breach(rule: u8, number: u64, place: Place, at: Option<Seat>) -> Breach {
    Breach {
        rule,
        mark: Mark { number, place },
        at,
    }
}

fn seat(index: i64) -> Option<Seat> {
    Some(Seat { role: 0, index })
}

/// Asserts that these breaches are found at N = n.
fn check(
    rt: &impl Abort,
    alloc: Global,
    core: Result<Core, NoMemory>,
    n: u8,
    wanted: &[Breach],
) -> Result<(), NoMemory> {
    match core {
        Ok(core) => check_core(rt, alloc, &core, n, wanted),
        Err(error) => Err(error),
    }
}

fn check_core(
    rt: &impl Abort,
    alloc: Global,
    core: &Core,
    n: u8,
    wanted: &[Breach],
) -> Result<(), NoMemory> {
    assert!(rt; is_sound(core));
    let found = breaches(alloc, core, i64::from(n))?;
    assert!(rt; found.as_slice() == wanted, "{found:?}");
    Ok(())
}

// W[i] to W[i+1] for i from 0 to N-2, and W[N-1] to W[0].
fn ring(alloc: Global, high: Lin) -> Result<Core, NoMemory> {
    let sent = message(1, 0, turn(0), turn(1));
    let round = messages(alloc, 0, 1, (fixed(0), high), sent)?;
    let back = message(2, 0, last(-1), fixed(0));
    protocol(alloc, fixed(0), last(-1), vec![in alloc; round, back]?)
}

#[test]
fn ring_keeps_all(rt: HostRuntime) -> Result<(), NoMemory> {
    let alloc = rt.alloc();
    check(&rt, alloc, ring(alloc, last(-2)), 2, &[])?;
    check(&rt, alloc, ring(alloc, last(-2)), 5, &[])
}

#[test]
fn ring_of_one(rt: HostRuntime) -> Result<(), NoMemory> {
    let alloc = rt.alloc();
    let found = [breach(8, 2, LABEL, seat(0))];
    check(&rt, alloc, ring(alloc, last(-2)), 1, &found)
}

#[test]
fn ring_that_goes_too_far(rt: HostRuntime) -> Result<(), NoMemory> {
    let alloc = rt.alloc();
    let found = [breach(7, 3, RECEIVER, seat(2))];
    check(&rt, alloc, ring(alloc, last(-1)), 2, &found)
}

// W[0] tells W[1..N-1] of the first branch by label 0, and these of the second by another label.
fn choice(alloc: Global, high: Lin, label: u32) -> Result<Core, NoMemory> {
    let one = message(2, 0, fixed(0), turn(0));
    let first = messages(alloc, 1, 2, (fixed(1), last(-1)), one)?;
    let other = message(4, label, fixed(0), turn(0));
    let second = messages(alloc, 3, 4, (fixed(1), high), other)?;
    let branches = vec![in alloc;
        block(1, LABEL, vec![in alloc; first]?),
        block(3, LATER, vec![in alloc; second]?),
    ]?;
    let what = CoreKind::Choice {
        kernel: 0,
        at: end(fixed(0), SENDER),
        branches,
    };
    protocol(alloc, fixed(0), last(-1), vec![in alloc; stmt(0, what)]?)
}

#[test]
fn last_rank_is_not_told(rt: HostRuntime) -> Result<(), NoMemory> {
    let alloc = rt.alloc();
    check(&rt, alloc, choice(alloc, fixed(3), 1), 4, &[])?;
    let found = [breach(10, 3, LATER, seat(4))];
    check(&rt, alloc, choice(alloc, fixed(3), 1), 5, &found)
}

#[test]
fn both_branches_have_one_label(rt: HostRuntime) -> Result<(), NoMemory> {
    let alloc = rt.alloc();
    let found = [breach(12, 3, LATER, seat(1))];
    check(&rt, alloc, choice(alloc, last(-1), 0), 2, &found)?;
    let both = [breach(12, 3, LATER, seat(1)), breach(12, 3, LATER, seat(2))];
    check(&rt, alloc, choice(alloc, last(-1), 0), 3, &both)
}

// A loop of messages from W[i] to W[i+1] for i from 1 to N-3.
fn rounds(alloc: Global) -> Result<Core, NoMemory> {
    let sent = message(2, 0, turn(0), turn(1));
    let round = messages(alloc, 1, 2, (fixed(1), last(-3)), sent)?;
    let again = stmt(3, CoreKind::Again { id: 0 });
    let what = CoreKind::Loop {
        id: 0,
        body: block(1, LABEL, vec![in alloc; round, again]?),
    };
    protocol(alloc, fixed(0), last(-1), vec![in alloc; stmt(0, what)]?)
}

#[test]
fn nobody_goes_round(rt: HostRuntime) -> Result<(), NoMemory> {
    let found = [breach(9, 0, LABEL, None)];
    check(&rt, rt.alloc(), rounds(rt.alloc()), 3, &found)?;
    check(&rt, rt.alloc(), rounds(rt.alloc()), 4, &[])
}

/// A message of roles from 3 on, of which there is none at N = 2.
fn none_there(alloc: Global) -> Result<Core, NoMemory> {
    let sent = message(0, 0, fixed(0), last(-1));
    protocol(alloc, fixed(3), last(0), vec![in alloc; sent]?)
}

#[test]
fn role_has_no_index(rt: HostRuntime) -> Result<(), NoMemory> {
    let all = [
        breach(6, 0, NAMED, None),
        breach(7, 0, SENDER, seat(0)),
        breach(7, 1, RECEIVER, seat(1)),
    ];
    check(&rt, rt.alloc(), none_there(rt.alloc()), 2, &all)
}
