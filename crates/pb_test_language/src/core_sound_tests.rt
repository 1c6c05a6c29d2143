use pb_core_language::{
    Base, CoreBlock, CoreEnd, CoreKind, CoreLabel, CoreRole, CoreStmt, Lin, NRange, Name, Payload,
    Place,
};
use pb_core_sound::{Core, is_sound};
use pb_text::NoMemory;
use std::alloc::Global;

const PLACE: Place = Place { line: 3, col: 3 };

fn lin(base: Base, off: i32) -> Lin {
    Lin { base, off }
}

fn end(at: Lin) -> CoreEnd {
    CoreEnd {
        role: 0,
        at,
        place: PLACE,
    }
}

fn stmt(what: CoreKind) -> CoreStmt {
    CoreStmt {
        number: 0,
        place: PLACE,
        what,
    }
}

fn block(list: Vec<CoreStmt>) -> CoreBlock {
    CoreBlock {
        number: 0,
        place: PLACE,
        list,
    }
}

fn message(label: u32, from: Lin, to: Lin) -> CoreStmt {
    stmt(CoreKind::Message {
        label,
        from: end(from),
        to: end(to),
    })
}

/// A protocol over `W[0..N-1]` with one label and these statements.
fn protocol(alloc: Global, name: Name, list: Vec<CoreStmt>) -> Result<Core, NoMemory> {
    let role = CoreRole {
        name,
        place: PLACE,
        low: lin(Base::Fixed, 0),
        high: lin(Base::Param, -1),
    };
    let label = CoreLabel {
        name,
        payload: Payload::Unit,
    };
    Ok(Core {
        protocol: name,
        range: NRange { low: 2, high: None },
        roles: vec![in alloc; role]?,
        labels: vec![in alloc; label]?,
        kernels: Vec::new(alloc),
        body: block(list),
        statements: 1,
        blocks: 1,
    })
}

/// Whether a protocol with these statements is sound.
fn is_list_sound(alloc: Global, list: Vec<CoreStmt>) -> Option<bool> {
    match protocol(alloc, Name::of(b"W")?, list) {
        Ok(core) => Some(is_sound(&core)),
        Err(_) => None,
    }
}

fn single(alloc: Global, only: CoreStmt) -> Result<Vec<CoreStmt>, NoMemory> {
    Ok(vec![in alloc; only]?)
}

/// Whether a protocol with this statement is sound.
fn is_sound_with(alloc: Global, only: CoreStmt) -> Option<bool> {
    match single(alloc, only) {
        Ok(list) => is_list_sound(alloc, list),
        Err(_) => None,
    }
}

/// Whether a protocol is sound in which this statement stands in a foreach from 0 to N - 2.
fn is_foreach_sound(alloc: Global, only: CoreStmt) -> Option<bool> {
    match single(alloc, only) {
        Ok(list) => {
            let each = CoreKind::Foreach {
                low: lin(Base::Fixed, 0),
                high: lin(Base::Param, -2),
                items: block(list),
            };
            is_sound_with(alloc, stmt(each))
        }
        Err(_) => None,
    }
}

/// Whether a protocol is sound in which this statement stands in loop 1.
fn is_loop_sound(alloc: Global, only: CoreStmt) -> Option<bool> {
    match single(alloc, only) {
        Ok(list) => {
            let around = CoreKind::Loop {
                id: 1,
                body: block(list),
            };
            is_sound_with(alloc, stmt(around))
        }
        Err(_) => None,
    }
}

#[test]
fn messages_are_sound(rt: HostRuntime) {
    let alloc = rt.alloc();
    let first = lin(Base::Fixed, 0);
    let far = lin(Base::Fixed, 100_001);
    let last = lin(Base::Param, -1);
    let turn = lin(Base::Var, 0);
    assert!(rt; is_sound_with(alloc, message(0, first, last)) == Some(true));
    assert!(rt; is_sound_with(alloc, message(0, far, last)) == Some(false));
    assert!(rt; is_sound_with(alloc, message(1, last, last)) == Some(false));
    assert!(rt; is_sound_with(alloc, message(0, turn, last)) == Some(false));
    assert!(rt; is_foreach_sound(alloc, message(0, turn, last)) == Some(true));
}

#[test]
fn continues_are_sound_in_their_loop(rt: HostRuntime) {
    let again = CoreKind::Again { id: 1 };
    assert!(rt; is_sound_with(rt.alloc(), stmt(again)) == Some(false));
    let again = CoreKind::Again { id: 1 };
    assert!(rt; is_loop_sound(rt.alloc(), stmt(again)) == Some(true));
}
