ghost use Rattle.std.specs.Prelude.{◌≡◌, ◌+◌, ◌^◌, ◌<◌, ◌≤◌, length};
ghost use Rattle.pb_diff.specs.Systems.{IsWithin, IsBoundedBelow};

use pb_diff::System;

/// A system in which no variable is below `-low`.
fn bounded(vars: u8, low: i64) -> System
    requires some { 1 ≤ vars }
    requires few { vars ≤ 6 }
    requires near { IsWithin (2 ^ 40) low }
    ensures vars { result.vars ≡ vars }
    ensures few { length result.list < vars }
    ensures bounded { IsBoundedBelow result }
{
    let mut system = System::new(vars);
    for v in 1..vars {
        system.bound(0, v, low);
    }
    system
}

/// Adds the constraint, where it's on two of the variables.
#[tactic(auto, using(pb_diff::proofs::Bounded::grown))]
fn add(system: &mut System, vars: u8, a: u8, b: u8, c: i64)
    requires vars { system.old.vars ≡ vars }
    requires room { length system.old.list < 16 }
    requires bounded { IsBoundedBelow system.old }
    ensures vars { system.new.vars ≡ vars }
    ensures few { length system.new.list ≤ length system.old.list + 1 }
    ensures bounded { IsBoundedBelow system.new }
{
    if a < vars && b < vars && -1_000_000_000_000 <= c && c <= 1_000_000_000_000 {
        system.bound(a, b, c);
    }
}

/// The least solution where a further constraint is added for each triple.
fn least_with(mut system: System, vars: u8, triples: &[(u8, u8, i64)]) -> Option<[i64; 6]>
    requires vars { system.vars ≡ vars }
    requires few { length system.list ≤ 5 }
    requires bounded { IsBoundedBelow system }
    requires triples { length triples.now ≤ 11 }
{
    for triple in triples {
        add(&mut system, vars, triple.0, triple.1, triple.2);
    }
    system.least()
}

fn least(vars: u8, low: i64, triples: &[(u8, u8, i64)]) -> Option<[i64; 6]>
    requires some { 1 ≤ vars }
    requires few { vars ≤ 6 }
    requires near { IsWithin (2 ^ 40) low }
    requires triples { length triples.now ≤ 11 }
{
    least_with(bounded(vars, low), vars, triples)
}

/// Whether these numbers are the least solution.
fn is_least(vars: u8, low: i64, triples: &[(u8, u8, i64)], want: &[i64]) -> bool
    requires some { 1 ≤ vars }
    requires few { vars ≤ 6 }
    requires near { IsWithin (2 ^ 40) low }
    requires triples { length triples.now ≤ 11 }
{
    match least(vars, low, triples) {
        Some(found) => found.as_slice() == want,
        None => false,
    }
}

#[test]
fn solutions(rt: HostRuntime) {
    // one variable alone, which is 0
    assert!(rt; is_least(1, 0, &[], &[0, 0, 0, 0, 0, 0]));
    // one solution alone
    assert!(rt;
        is_least(
            3,
            0,
            &[(1, 0, 4), (0, 1, -4), (2, 1, -1), (1, 2, 1)],
            &[0, 4, 3, 0, 0, 0]
        )
    );
    // the least of many, through all six variables
    assert!(rt;
        is_least(
            6,
            -2,
            &[(1, 2, -1), (2, 3, -1), (3, 4, -1), (4, 5, -1)],
            &[0, 2, 3, 4, 5, 6]
        )
    );
    // negative numbers at the ends of the bounds
    assert!(rt;
        is_least(
            2,
            1_099_511_627_776,
            &[],
            &[0, -1_099_511_627_776, 0, 0, 0, 0]
        )
    );
    assert!(rt;
        is_least(
            3,
            0,
            &[(1, 2, -1_000_000_000_000)],
            &[0, 0, 1_000_000_000_000, 0, 0, 0]
        )
    );
    // of two constraints on a pair the stronger counts, whichever comes first
    assert!(rt; is_least(2, 0, &[(0, 1, -3), (0, 1, -7)], &[0, 7, 0, 0, 0, 0]));
    assert!(rt; is_least(2, 0, &[(0, 1, -7), (0, 1, -3)], &[0, 7, 0, 0, 0, 0]));
}

#[test]
fn there_is_no_solution(rt: HostRuntime) {
    // by one
    assert!(rt; least(3, 0, &[(1, 0, 4), (0, 1, -4), (2, 1, -1), (1, 2, 0)]).is_none());
    // the chain, with its last variable one below what it asks
    assert!(rt;
        least(
            6,
            -2,
            &[(1, 2, -1), (2, 3, -1), (3, 4, -1), (4, 5, -1), (5, 0, 5)]
        )
        .is_none()
    );
}
