use pb_ctree::{Base, Formula, Guard, Guards, Lin, NoMemory, Peer, Relay, Test};
use pb_machine_next::{Me, guard_holds, peer, some_holds, source, tested};
use std::alloc::Global;
use std::test::Fail;

/// One more than any int32, for a variable of at least 1.
const FAR: Lin = Lin {
    base: Base::Var,
    off: i32::MAX,
};

fn lin(off: i32) -> Lin {
    Lin {
        base: Base::Fixed,
        off,
    }
}

/// Rank 1 of three.
fn me() -> Me {
    Me {
        n: 3,
        role: 0,
        index: 1,
        total: 3,
    }
}

fn between(low: Lin, high: Lin) -> Guard {
    Guard {
        role: 0,
        low: Some(low),
        high: Some(high),
        from: None,
        to: None,
    }
}

fn only(alloc: Global, guard: Guard) -> Result<Guards, NoMemory> {
    let mut guards = Guards::new(alloc);
    guards.push(guard)?;
    Ok(guards)
}

#[test]
fn a_high_end_is_computed_behind_a_low_end_that_holds(rt: HostRuntime) -> Result<(), Fail> {
    let me = me();
    assert_eq!(rt; guard_holds(&between(lin(0), lin(1)), &me, 1), Some(true));
    assert_eq!(rt; guard_holds(&between(lin(2), FAR), &me, 1), Some(false));
    assert_eq!(rt; guard_holds(&between(lin(1), FAR), &me, 1), None);
    assert_eq!(rt; guard_holds(&between(FAR, lin(1)), &me, 1), None);
    Ok(())
}

#[test]
fn no_guard_is_computed_behind_one_that_holds(rt: HostRuntime) -> Result<(), Fail> {
    let me = me();
    let near = between(lin(1), lin(1));
    let other = between(lin(2), lin(2));
    let far = between(FAR, FAR);
    assert_eq!(rt; some_holds(&[near, far], &me, 1), Some(true));
    assert_eq!(rt; some_holds(&[other, far], &me, 1), None);
    assert_eq!(rt; some_holds(&[far, near], &me, 1), None);
    Ok(())
}

#[test]
fn a_peer_is_a_rank_of_the_world(rt: HostRuntime) -> Result<(), Fail> {
    let me = me();
    let places = [Formula { a: 1, b: -2 }];
    let at = |off| Peer {
        role: 0,
        at: lin(off),
    };
    assert_eq!(rt; peer(&places, at(-1), &me, 1), Some(0));
    assert_eq!(rt; peer(&places, at(1), &me, 1), Some(2));
    assert_eq!(rt; peer(&places, at(2), &me, 1), None);
    assert_eq!(rt; peer(&places, at(-2), &me, 1), None);
    assert_eq!(rt; peer(&places, at(i32::MAX), &me, 1), None);
    Ok(())
}

#[test]
fn the_first_relay_that_holds_is_the_source(rt: HostRuntime) -> Result<(), Fail> {
    let alloc = rt.alloc();
    let at = |off| Peer {
        role: 0,
        at: lin(off),
    };
    let mut relays = Vec::new(alloc);
    for off in [2, 1] {
        let guards = only(alloc, between(lin(off), lin(off)))?;
        relays.push(Relay {
            guards,
            from: at(off),
        })?;
    }
    let source = source(&relays, at(7), &me(), 1);
    assert!(rt; source == Some(at(1)));
    Ok(())
}

#[test]
fn a_test_has_the_label(rt: HostRuntime) -> Result<(), Fail> {
    let alloc = rt.alloc();
    let mut tests = Vec::new(alloc);
    tests.push(Test {
        branch: 0,
        label: 5,
        guards: only(alloc, between(FAR, FAR))?,
    })?;
    tests.push(Test {
        branch: 1,
        label: 6,
        guards: only(alloc, between(lin(1), lin(1)))?,
    })?;
    let me = me();
    assert_eq!(rt; tested(&tests, 6, &me, 1), Some(1));
    assert_eq!(rt; tested(&tests, 5, &me, 1), None);
    assert_eq!(rt; tested(&tests, 0, &me, 1), None);
    Ok(())
}
