//! Statements and ranks of one role W, which has the indices from 0 to N - 1.

use pb_affine::{Base, Lin};
use pb_core_language::{CoreBlock, CoreEnd, CoreKind, CoreStmt, Place};
use pb_part_areas::{Area, NoMemory, one};
use std::alloc::Global;

pub const HERE: Place = Place { line: 1, col: 1 };

pub fn lin(base: Base, off: i32) -> Lin {
    Lin { base, off }
}

pub fn end(at: Lin) -> CoreEnd {
    CoreEnd {
        role: 0,
        at,
        place: HERE,
    }
}

/// The rank W[off].
pub fn fixed(off: i32) -> CoreEnd {
    end(lin(Base::Fixed, off))
}

/// The rank W[N + off].
pub fn param(off: i32) -> CoreEnd {
    end(lin(Base::Param, off))
}

/// The rank W[i + off].
pub fn var(off: i32) -> CoreEnd {
    end(lin(Base::Var, off))
}

pub fn stmt(what: CoreKind) -> CoreStmt {
    CoreStmt {
        number: 0,
        place: HERE,
        what,
    }
}

pub fn block(list: Vec<CoreStmt>) -> CoreBlock {
    CoreBlock {
        number: 0,
        place: HERE,
        list,
    }
}

/// A block of one statement.
pub fn single(alloc: Global, what: CoreKind) -> Result<CoreBlock, NoMemory> {
    let list = vec![in alloc; stmt(what)]?;
    Ok(block(list))
}

pub fn message(label: u32, from: CoreEnd, to: CoreEnd) -> CoreStmt {
    stmt(CoreKind::Message { label, from, to })
}

/// A foreach from one index to another, which are inclusive.
pub fn each(low: CoreEnd, high: CoreEnd, list: Vec<CoreStmt>) -> CoreKind {
    CoreKind::Foreach {
        low: low.at,
        high: high.at,
        items: block(list),
    }
}

/// All ranks, for N from a number on.
pub fn whole_from(alloc: Global, from: u32) -> Result<Vec<Area>, NoMemory> {
    let ranks = Area {
        role: 0,
        low: lin(Base::Fixed, 0),
        end: lin(Base::Param, 0),
        from,
        until: None,
    };
    one(alloc, ranks)
}

/// All ranks, for N from 2 on.
pub fn whole(alloc: Global) -> Result<Vec<Area>, NoMemory> {
    whole_from(alloc, 2)
}
