//! The tree of the file, statement by statement.

ghost use Rattle.std.specs.Prelude.{◌≡◌, ◌<◌, ◌≤◌, ◌∷◌, [], length, map, Some, None, IfOk};
ghost use Rattle.pb_syntax.specs.Plain.{plain_file, plain_statement};
ghost use Rattle.pb_demo_file.specs.File as D;

use pb_syntax::{
    Block, End, FileTree, High, IndexText, LinText, Name, NoMemory, Op, Payload, Place, RangeText,
    RoleText, Spot, Statement,
};
use std::alloc::Global;

/// The place of all that stands in no file.
const NOWHERE: Place = Place { line: 1, col: 1 };

/// A name that stands in no file.
fn spot(name: &[u8]) -> Spot
    requires some { 0 < length name.now }
    requires few { length name.now ≤ 64 }
    ensures { result ≡ D.spot name.now }
{
    match Name::of(name) {
        Some(name) => Spot {
            name,
            place: NOWHERE,
        },
        None => unreachable!(),
    }
}

/// A number.
fn number(off: i32) -> LinText
    ensures { result ≡ D.number off }
{
    LinText {
        base: None,
        off,
        place: NOWHERE,
    }
}

/// A name of one letter, and a number.
fn lin(base: u8, off: i32) -> LinText
    ensures { result ≡ D.lin (base ∷ []) off }
{
    LinText {
        base: Some(spot(&[base])),
        off,
        place: NOWHERE,
    }
}

/// An index of the role.
fn at(index: LinText) -> End
    ensures { result ≡ D.at index }
{
    End {
        role: spot(b"W"),
        index: IndexText::At(index),
    }
}

/// Each index of the role but the last, one after the other.
fn bound() -> End
    ensures { result ≡ D.bound }
{
    End {
        role: spot(b"W"),
        index: IndexText::Bind(
            spot(b"i"),
            RangeText {
                low: number(0),
                high: lin(b'N', -2),
            },
        ),
    }
}

/// The statement with a number that leaves this rest where it is divided by 4.
fn by_rest(rest: u32) -> Statement
    ensures { plain_statement result ≡ D.by_rest rest }
{
    match rest {
        0 => Statement::Message {
            label: spot(b"A"),
            payload: Payload::Uint32(4),
            from: bound(),
            to: at(lin(b'i', 1)),
        },
        1 => Statement::Message {
            label: spot(b"B"),
            payload: Payload::Unit,
            from: at(lin(b'N', -1)),
            to: at(number(0)),
        },
        2 => Statement::Compute {
            place: NOWHERE,
            kernel: spot(b"Tick"),
            at: at(number(0)),
        },
        _ => Statement::Allreduce {
            place: NOWHERE,
            label: spot(b"S"),
            payload: Payload::Uint32(2),
            op: Op::Sum,
        },
    }
}

/// So many statements.
fn statements(alloc: Global, count: u32) -> Result<Vec<Statement>, NoMemory>
    ensures { IfOk result (λ list. map plain_statement list.items ≡ D.statements_to count) }
{
    let mut list = Vec::new(alloc);
    for number in 0..count {
        list.push(by_rest(number % 4))?;
    }
    Ok(list)
}

/// The role, with an index for each number below N.
fn roles(alloc: Global) -> Result<Vec<RoleText>, NoMemory>
    ensures { IfOk result (λ list. list.items ≡ D.one_role ∷ []) }
{
    let mut list = Vec::new(alloc);
    list.push(RoleText {
        role: spot(b"W"),
        range: Some(RangeText {
            low: number(0),
            high: lin(b'N', -1),
        }),
    })?;
    Ok(list)
}

/// The tree of the protocol of so many statements.
pub fn demo_file(alloc: Global, count: u32) -> Result<FileTree, NoMemory>
    ensures { IfOk result (λ file. plain_file file ≡ D.demo_file count) }
{
    let roles = roles(alloc)?;
    let list = statements(alloc, count)?;
    Ok(FileTree {
        constant: spot(b"N"),
        low: 2,
        low_place: NOWHERE,
        high: High::Max,
        high_place: NOWHERE,
        protocol: spot(b"Demo"),
        roles,
        body: Block {
            place: NOWHERE,
            list,
        },
    })
}
