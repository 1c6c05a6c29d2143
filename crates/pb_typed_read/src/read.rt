//! The whole text.

ghost use Rattle.std.specs.Prelude.{◌≡◌, ◌++◌, map, IfOk, OnOk};
ghost use Rattle.pb_local.specs.Tree.{program_of};
ghost use Rattle.pb_typed.specs.Functions.{body_name, typed_functions};
ghost use Rattle.pb_typed.specs.Texts.{IsProgramText};

use crate::erase::{Erased, erase};
use crate::rows::Rows;
use crate::{Carried, Types};
use pb_cread::{TextFault, read_c};
use pb_ctree::{Bodies, CTree, CoreLabel};
use pb_kernels::{Dialect, KName, KernelFault, bodies_of, read_bodies};
use pb_text::NoMemory;
use pb_typed_frame::{Function, body_name, program_functions};
use pb_typed_print::print_program;
use std::alloc::Global;

/// A tree, what its labels carry, and the bodies of its functions.
#[derive(Drop)]
pub struct ProgramText {
    pub tree: CTree,
    pub types: Types,
    pub bodies: Bodies,
}

/// Why bytes aren't taken as a program text.
#[derive(Clone, Copy, Debug, PartialEq, Eq)]
pub enum ProgramFault {
    /// They differ here from the text that is nearest to them, on this line, from 1.
    Unexpected(u32),
    NoMemory,
}

impl From<NoMemory> for ProgramFault {
    fn from(_error: NoMemory) -> ProgramFault {
        ProgramFault::NoMemory
    }
}

/// The program text with these bytes.
#[tactic(auto, using(crate::proofs::Counts::many))]
pub fn read_program(alloc: Global, bytes: &[u8]) -> Result<ProgramText, ProgramFault>
    ensures { IfOk result (λ text. IsProgramText text.tree text.types text.bodies bytes.now) }
{
    let erased = erase(alloc, bytes)?;
    let tree = match read_c(alloc, &erased.plain) {
        Ok(text) => text.tree,
        Err(fault) => return Err(fault_of(&erased, fault)),
    };
    let file = match read_bodies(alloc, bytes, Dialect::Program) {
        Ok(file) => file,
        Err(KernelFault::NoMemory) => return Err(ProgramFault::NoMemory),
        Err(KernelFault::BadMarker(line)) => return Err(ProgramFault::Unexpected(line)),
        Err(_) => return Err(ProgramFault::Unexpected(1)),
    };
    let types = types_of(alloc, &tree.local.labels, erased.rows)?;
    let names = names_of(alloc, &tree, &types)?;
    let bodies = bodies_of(alloc, &names, &file)?;
    let text = print_program(alloc, &tree, &types, &bodies)?;
    if text.as_slice() == bytes {
        Ok(ProgramText {
            tree,
            types,
            bodies,
        })
    } else {
        Err(ProgramFault::Unexpected(first_other(&text, bytes)))
    }
}

/// The names of the functions' bodies, in printed order.
fn names_of(alloc: Global, tree: &CTree, types: &Types) -> Result<Vec<KName>, NoMemory>
    ensures { IfOk result (λ names. names.items ≡ map body_name (typed_functions (program_of tree.now.local) types.now.labels.items)) }
{
    let functions = program_functions(alloc, &tree.local, &types.labels)?;
    let mut names = Vec::new(alloc);
    push_names(&mut names, &functions)?;
    Ok(names)
}

fn push_names(out: &mut Vec<KName>, functions: &[Function]) -> Result<(), NoMemory>
    ensures { OnOk result (out.new.items ≡ out.old.items ++ map body_name functions.now) }
{
    for function in functions {
        let name = body_name(function);
        // The check learns here of which type a name's word is.
        let _word = &name.name;
        out.push(KName {
            kind: name.kind,
            name: name.name,
        })?;
    }
    Ok(())
}

/// Where the plain text isn't read.
fn fault_of(erased: &Erased, fault: TextFault) -> ProgramFault {
    match fault {
        TextFault::NoMemory => ProgramFault::NoMemory,
        TextFault::Unexpected(place) => ProgramFault::Unexpected(line_of(erased, place.line)),
        TextFault::TooDeep(place) => ProgramFault::Unexpected(line_of(erased, place.line)),
        TextFault::TooMany(place) => ProgramFault::Unexpected(line_of(erased, place.line)),
    }
}

/// The line that a line of the plain text was.
fn line_of(erased: &Erased, line: u32) -> u32 {
    let at = (line as usize).saturating_sub(1);
    match erased.lines.get(at) {
        Some(line) => *line,
        None => match erased.lines.last() {
            Some(line) => line.saturating_add(1),
            None => 1,
        },
    }
}

/// What the labels carry, in the order of the tree.
fn types_of(alloc: Global, labels: &[CoreLabel], rows: Rows) -> Result<Types, NoMemory> {
    let mut list = Vec::new(alloc);
    for label in labels {
        let carried = match rows.label(&label.name) {
            Some(row) => row.carried,
            None => Carried::Words,
        };
        list.push(carried)?;
    }
    let Rows { constants, .. } = rows;
    Ok(Types {
        labels: list,
        constants,
    })
}

/// The first line, from 1, on which two texts differ.
fn first_other(text: &[u8], bytes: &[u8]) -> u32 {
    let mut line: u32 = 1;
    for (at, byte) in bytes.iter().enumerate() {
        match text.get(at) {
            Some(other) if other == byte => {}
            _ => return line,
        }
        if *byte == b'\n' {
            line = line.saturating_add(1);
        }
    }
    line
}
