use crate::columns::word;
use pb_affine::{Base, Guard, Guards, Lin, NoMemory};
use std::alloc::Global;

#[test]
fn lins_have_values(rt: HostRuntime) {
    let back = Lin {
        base: Base::Fixed,
        off: -3,
    };
    assert!(rt; back.value(10, 4) == -3);
    let last = Lin {
        base: Base::Param,
        off: -1,
    };
    assert!(rt; last.value(10, 4) == 9);
    let next = Lin {
        base: Base::Var,
        off: 1,
    };
    assert!(rt; next.value(10, 4) == 5);
    assert!(rt;
        next.shift(2)
            == Lin {
                base: Base::Var,
                off: 3
            }
    );
    assert!(rt;
        next.put_var(last)
            == Lin {
                base: Base::Param,
                off: 0
            }
    );
}

// the workers from 0 to N - 1, for N from 3 to 9
const WORKERS: Guard = Guard {
    role: 1,
    low: Some(Lin {
        base: Base::Fixed,
        off: 0,
    }),
    high: Some(Lin {
        base: Base::Param,
        off: -1,
    }),
    from: Some(3),
    to: Some(9),
};

/// An N, a role, an index, and whether the rank is one of the workers.
const RANKS: &str = "3 1 0 true
9 1 8 true
3 1 3 false
3 1 -1 false
2 1 0 false
10 1 0 false
3 2 0 false";

fn is_row_held(row: &str) -> bool {
    let n: u8 = word(row, 0).parse().unwrap_or(0);
    let role: u32 = word(row, 1).parse().unwrap_or(0);
    let index: i8 = word(row, 2).parse().unwrap_or(0);
    let holds = WORKERS.holds(i64::from(n), 0, role, i64::from(index));
    holds == (word(row, 3) == "true")
}

#[test]
fn guards_hold_of_their_ranks(rt: HostRuntime) {
    for row in RANKS.lines() {
        assert!(rt; is_row_held(row), "{row}");
    }
}

fn first_hold(alloc: Global) -> Result<bool, NoMemory> {
    let mut guards = Guards::new(alloc);
    guards.push(Guard::default())?;
    guards.push(WORKERS)?;
    Ok(
        guards.list() == [Guard::default(), WORKERS].as_slice()
            && guards.hold(3, 0, 1, 2)
            && !guards.hold(3, 0, 2, 0),
    )
}

#[test]
fn a_list_of_guards_holds_of_the_ranks_of_each(rt: HostRuntime) {
    assert!(rt; first_hold(rt.alloc()) == Ok(true));
}
