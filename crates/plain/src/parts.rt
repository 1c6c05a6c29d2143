use pb_affine::Lin;
use pb_core_language::{Core, CoreBlock, CoreKind, CoreStmt};
use pb_text::{NoMemory, Place};
use std::alloc::Global;

/// Where a statement or a block stands.
#[derive(Clone, Copy)]
pub enum Standing {
    /// In no foreach.
    Free,
    /// In a foreach, so it stands for one item for each of the foreach's numbers.
    Item,
}

/// A statement or a block by its number, with its place.
#[derive(Clone, Copy)]
pub struct Part {
    pub number: u32,
    pub place: Place,
    pub standing: Standing,
}

/// The numbers of a foreach, and how many items it has for each of them.
#[derive(Clone, Copy)]
pub struct Rounds {
    pub low: Lin,
    pub high: Lin,
    pub items: u32,
}

/// The statements and the blocks of a protocol, and the numbers of each foreach, each in the order of the file.
#[derive(Drop)]
pub struct Parts {
    pub statements: Vec<Part>,
    pub blocks: Vec<Part>,
    pub rounds: Vec<Rounds>,
}

/// All of a protocol.
pub fn parts_of(alloc: Global, core: &Core) -> Result<Parts, NoMemory> {
    let mut parts = Parts {
        statements: Vec::new(alloc),
        blocks: Vec::new(alloc),
        rounds: Vec::new(alloc),
    };
    add_block(&core.body, Standing::Free, &mut parts)?;
    Ok(parts)
}

#[cycle(parts)]
fn add_block(block: &CoreBlock, standing: Standing, parts: &mut Parts) -> Result<(), NoMemory> {
    parts.blocks.push(Part {
        number: block.number,
        place: block.place,
        standing,
    })?;
    for stmt in &block.list {
        add_stmt(stmt, standing, parts)?;
    }
    Ok(())
}

#[cycle(parts)]
fn add_stmt(stmt: &CoreStmt, standing: Standing, parts: &mut Parts) -> Result<(), NoMemory> {
    parts.statements.push(Part {
        number: stmt.number,
        place: stmt.place,
        standing,
    })?;
    match &stmt.what {
        CoreKind::Foreach { low, high, items } => {
            parts.rounds.push(Rounds {
                low: *low,
                high: *high,
                items: u32::try_from(items.list.len()).unwrap_or(u32::MAX),
            })?;
            add_block(items, Standing::Item, parts)
        }
        CoreKind::Loop { body, .. } => add_block(body, standing, parts),
        CoreKind::Choice { branches, .. } => {
            for branch in branches {
                add_block(branch, standing, parts)?;
            }
            Ok(())
        }
        CoreKind::Message { .. }
        | CoreKind::Again { .. }
        | CoreKind::Run { .. }
        | CoreKind::Barrier
        | CoreKind::Broadcast { .. }
        | CoreKind::Reduce { .. }
        | CoreKind::Allreduce { .. } => Ok(()),
    }
}
