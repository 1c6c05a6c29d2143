use crate::cores::{Role, block, fixed, foreach, last, message, pair, protocol, stmt, turn};
use crate::slow::{agrees, rule_of};
use pb_core_language::{Core, CoreKind, CoreStmt};
use pb_text::NoMemory;
use std::alloc::Global;

fn role(col: u32, low: i32, high: i32) -> Role {
    Role {
        col,
        low: fixed(low),
        high: last(high),
    }
}

/// Whether the rules 6 to 8 are decided on a core as the slow program decides them.
fn agree_on(alloc: Global, core: Result<Core, NoMemory>) -> Result<bool, NoMemory> {
    match core {
        Ok(core) => agrees(alloc, &core),
        Err(error) => Err(error),
    }
}

/// The first of these rules that a core breaks.
fn broken(alloc: Global, core: Result<Core, NoMemory>) -> Result<Option<u8>, NoMemory> {
    match core {
        Ok(core) => Ok(rule_of(alloc, &core)),
        Err(error) => Err(error),
    }
}

// W[i] to W[i + off] for i from low to N + high, and W[N-1] to W[0].
fn line(alloc: Global, low: i32, high: i32, off: i32) -> Result<Core, NoMemory> {
    let sent = message(1, (0, turn(0)), (0, turn(off)));
    let all = foreach(alloc, 0, fixed(low), last(high), sent)?;
    let back = message(2, (0, last(-1)), (0, fixed(0)));
    protocol(alloc, &[role(5, 0, -1)], pair(alloc, all, back)?)
}

// The digits of the number say where the line begins, where it ends and how far its messages go.
fn line_of(alloc: Global, number: u8) -> Result<Core, NoMemory> {
    let low = i32::from(number / 9) - 1;
    let high = i32::from(number / 3 % 3) - 2;
    line(alloc, low, high, i32::from(number % 3))
}

#[test]
fn lines_of_messages_agree(rt: HostRuntime) {
    for number in 0..27 {
        let core = line_of(rt.alloc(), number);
        assert!(rt; agree_on(rt.alloc(), core) == Ok(true), "{number}");
    }
}

#[test]
fn lines_break_some_rules_and_keep_others(rt: HostRuntime) {
    let alloc = rt.alloc();
    assert!(rt; broken(alloc, line(alloc, 0, -2, 1)) == Ok(None));
    assert!(rt; broken(alloc, line(alloc, 0, -1, 1)) == Ok(Some(7)));
    assert!(rt; broken(alloc, line(alloc, 0, -2, 0)) == Ok(Some(8)));
}

fn three(
    alloc: Global,
    one: CoreStmt,
    other: CoreStmt,
    last: CoreStmt,
) -> Result<Vec<CoreStmt>, NoMemory> {
    Ok(vec![in alloc; one, other, last]?)
}

// A[0..2] and B[N-3..N-1]: A[a] to B[N + b], B[a] to B[N + b] and back.
fn crossing(alloc: Global, a: i32, b: i32) -> Result<Core, NoMemory> {
    let first = Role {
        col: 5,
        low: fixed(0),
        high: fixed(2),
    };
    let second = Role {
        col: 9,
        low: last(-3),
        high: last(-1),
    };
    let over = message(0, (0, fixed(a)), (1, last(b)));
    let among = message(1, (1, fixed(a)), (1, last(b)));
    let back = message(2, (1, last(b)), (0, fixed(a)));
    protocol(alloc, &[first, second], three(alloc, over, among, back)?)
}

// The digits of the number say at which ends.
fn crossing_of(alloc: Global, number: u8) -> Result<Core, NoMemory> {
    let a = i32::from(number / 5) + 1;
    let b = i32::from(number % 5) - 4;
    crossing(alloc, a, b)
}

#[test]
fn fixed_and_moving_ends_agree(rt: HostRuntime) {
    for number in 0..15 {
        let core = crossing_of(rt.alloc(), number);
        assert!(rt; agree_on(rt.alloc(), core) == Ok(true), "{number}");
    }
}

// E[3..N + high], which has no index at small N, with a message from its first to its last, and one for each between.
fn thin(alloc: Global, high: i32) -> Result<Core, NoMemory> {
    let whole = Role {
        col: 5,
        low: fixed(0),
        high: fixed(9),
    };
    let across = message(0, (1, fixed(3)), (1, last(high)));
    let sent = message(2, (0, turn(0)), (1, turn(0)));
    let all = foreach(alloc, 1, fixed(3), last(high), sent)?;
    protocol(alloc, &[whole, role(9, 3, high)], pair(alloc, across, all)?)
}

#[test]
fn roles_with_no_index_agree(rt: HostRuntime) {
    for high in -2..3 {
        let core = thin(rt.alloc(), high);
        assert!(rt; agree_on(rt.alloc(), core) == Ok(true), "{high}");
    }
    assert!(rt; broken(rt.alloc(), thin(rt.alloc(), 0)) == Ok(Some(6)));
}

// A loop of W[low] to W[N + high] with its continue, and behind it the same message with the next number.
fn rounds(alloc: Global, low: i32, high: i32) -> Result<Core, NoMemory> {
    let sent = message(1, (0, fixed(low)), (0, last(high)));
    let again = stmt(2, CoreKind::Again { id: 0 });
    let what = CoreKind::Loop {
        id: 0,
        body: block(1, pair(alloc, sent, again)?),
    };
    let later = message(3, (0, fixed(low)), (0, last(high)));
    protocol(alloc, &[role(5, 1, -1)], pair(alloc, stmt(0, what), later)?)
}

#[test]
fn loops_agree(rt: HostRuntime) {
    for high in -4..1 {
        let core = rounds(rt.alloc(), 2, high);
        assert!(rt; agree_on(rt.alloc(), core) == Ok(true), "{high}");
    }
}
