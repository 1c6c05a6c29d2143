ghost use Rattle.std.specs.Prelude.{◌≡◌, map, IfOk, MatchResult};
ghost use Rattle.pb_local.specs.Tree.{program_of};
ghost use Rattle.pb_types.specs.Plain.{plain_file};
ghost use Rattle.pb_types_fit.specs.Faults.{file_fault};
ghost use Rattle.pb_types_fit.specs.Carries.{of_extent, carried_in, carried, IsFit, IsFitFault};

use crate::constants::{constants_fault, value_of};
use crate::labels::rows_fault;
use crate::{Carried, Element, FitFault, TypesFile};
use pb_local::{Local, NoMemory};
use pb_types::{Constant, Extent, TypeRow};
use std::alloc::Global;

/// What each label of the program carries, in the order of the labels; or the first fault of the file, in the file's order.
/// `NoMemory` comes only where the file has no fault.
pub fn fit(alloc: Global, file: &TypesFile, local: &Local) -> Result<Vec<Carried>, FitFault>
    ensures { MatchResult result (λ list. IsFit (program_of local.now) (plain_file file.now) list.items) (IsFitFault (program_of local.now) (plain_file file.now)) }
{
    if let Some(fault) = file_fault(file, local) {
        return Err(fault);
    }
    match carried_all(alloc, file, local) {
        Ok(list) => Ok(list),
        Err(NoMemory) => Err(FitFault::NoMemory),
    }
}

// The first fault of the file.
fn file_fault(file: &TypesFile, local: &Local) -> Option<FitFault>
    ensures { result ≡ file_fault (program_of local.now) (plain_file file.now) }
{
    match constants_fault(local, &file.constants) {
        Some(fault) => Some(fault),
        None => rows_fault(local, &file.constants, &file.rows),
    }
}

fn of_extent(constants: &[Constant], element: Element, extent: &Extent) -> Carried
    ensures { result ≡ of_extent constants.now element extent.now }
{
    match extent {
        Extent::One => Carried::Fixed { element, count: 1 },
        Extent::Number { value, .. } => Carried::Fixed {
            element,
            count: *value,
        },
        Extent::Constant(name) => Carried::Fixed {
            element,
            count: value_of(constants, name.name.bytes()).unwrap_or(0),
        },
        Extent::Open => Carried::Open { element },
    }
}

// What the row of this name says, and words where there is none.
fn carried_in(constants: &[Constant], rows: &[TypeRow], name: &[u8]) -> Carried
    ensures { result ≡ carried_in constants.now rows.now name.now }
{
    for row in rows {
        if row.label.name.bytes() == name {
            return of_extent(constants, row.carries.element, &row.extent);
        }
    }
    Carried::Words
}

fn carried_all(alloc: Global, file: &TypesFile, local: &Local) -> Result<Vec<Carried>, NoMemory>
    ensures { IfOk result (λ list. list.items ≡ map (carried (plain_file file.now)) local.now.labels.items) }
{
    let mut list = Vec::new(alloc);
    for label in &local.labels {
        list.push(carried_in(&file.constants, &file.rows, label.name.bytes()))?;
    }
    Ok(list)
}
