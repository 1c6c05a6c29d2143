use pb_core_language::{
    Base, Core, CoreBlock, CoreEnd, CoreKernel, CoreKind, CoreLabel, CoreRole, CoreStmt,
    KernelKind, Lin, NRange, Name, Payload, Place,
};
use pb_text::NoMemory;
use std::alloc::Global;

/// A number.
pub fn fixed(off: i32) -> Lin {
    Lin {
        base: Base::Fixed,
        off,
    }
}

/// N with an offset.
pub fn last(off: i32) -> Lin {
    Lin {
        base: Base::Param,
        off,
    }
}

/// The variable with an offset.
pub fn turn(off: i32) -> Lin {
    Lin {
        base: Base::Var,
        off,
    }
}

/// A role from its low to its high end, which stands at a column of the first line.
#[derive(Clone, Copy)]
pub struct Role {
    pub col: u32,
    pub low: Lin,
    pub high: Lin,
}

fn named(name: Name, role: Role) -> CoreRole {
    CoreRole {
        name,
        place: Place {
            line: 1,
            col: role.col,
        },
        low: role.low,
        high: role.high,
    }
}

/// Rows for the roles, in their order.
fn rows(alloc: Global, name: Name, roles: &[Role]) -> Result<Vec<CoreRole>, NoMemory> {
    let mut rows = Vec::new(alloc);
    for role in roles {
        rows.push(named(name, *role))?;
    }
    Ok(rows)
}

fn end(role: u32, at: Lin, line: u32, col: u32) -> CoreEnd {
    CoreEnd {
        role,
        at,
        place: Place { line, col },
    }
}

/// The statement with this number. Each number has a line of its own.
pub fn stmt(number: u32, what: CoreKind) -> CoreStmt {
    CoreStmt {
        number,
        place: Place {
            line: number,
            col: 3,
        },
        what,
    }
}

/// The message with this number between two ends, each a role's number and an index.
pub fn message(number: u32, from: (u32, Lin), to: (u32, Lin)) -> CoreStmt {
    let what = CoreKind::Message {
        label: 0,
        from: end(from.0, from.1, number, 12),
        to: end(to.0, to.1, number, 27),
    };
    stmt(number, what)
}

/// The block with this number.
pub fn block(number: u32, list: Vec<CoreStmt>) -> CoreBlock {
    CoreBlock {
        number,
        place: Place { line: 2, col: 1 },
        list,
    }
}

/// One statement.
pub fn single(alloc: Global, one: CoreStmt) -> Result<Vec<CoreStmt>, NoMemory> {
    Ok(vec![in alloc; one]?)
}

/// Two statements.
pub fn pair(alloc: Global, one: CoreStmt, other: CoreStmt) -> Result<Vec<CoreStmt>, NoMemory> {
    Ok(vec![in alloc; one, other]?)
}

/// The foreach with this number over one message.
pub fn foreach(
    alloc: Global,
    number: u32,
    low: Lin,
    high: Lin,
    item: CoreStmt,
) -> Result<CoreStmt, NoMemory> {
    let items = block(1, single(alloc, item)?);
    Ok(stmt(number, CoreKind::Foreach { low, high, items }))
}

fn named_protocol(
    alloc: Global,
    name: Name,
    roles: &[Role],
    list: Vec<CoreStmt>,
) -> Result<Core, NoMemory> {
    let label = CoreLabel {
        name,
        payload: Payload::Unit,
    };
    let kernel = CoreKernel {
        name,
        kind: KernelKind::Choice,
    };
    Ok(Core {
        protocol: name,
        range: NRange {
            low: 2,
            high: Some(6),
        },
        roles: rows(alloc, name, roles)?,
        labels: vec![in alloc; label]?,
        kernels: vec![in alloc; kernel]?,
        body: block(0, list),
        statements: 0,
        blocks: 0,
    })
}

/// The protocol with these roles and statements, for N from 2 to 6.
pub fn protocol(alloc: Global, roles: &[Role], list: Vec<CoreStmt>) -> Result<Core, NoMemory> {
    match Name::of(b"W") {
        Some(name) => named_protocol(alloc, name, roles, list),
        None => Err(NoMemory),
    }
}
