ghost use Rattle.std.specs.Prelude.{◌≡◌, [], get_or};
ghost use Rattle.pb_local.specs.Tables.{label_at};
ghost use Rattle.pb_local.specs.Tree.{program_of};
ghost use Rattle.pb_types_fit.specs.Faults.{number_from, is_empty, is_typed, label_fault, number_fault, row_fault, first_wrong};

use crate::FitFault;
use crate::counts::extent_fault;
use crate::ordered::orders;
use pb_local::{CoreLabel, Local, Payload};
use pb_types::{Constant, TypeRow};

// The number of the label of this name.
fn number_of(labels: &[CoreLabel], name: &[u8]) -> Option<usize>
    ensures { result ≡ number_from 0 labels.now name.now }
{
    for n in 0..labels.len() {
        if labels[n].name.bytes() == name {
            return Some(n);
        }
    }
    None
}

fn is_empty(payload: Payload) -> bool
    ensures { result ≡ is_empty payload }
{
    match payload {
        Payload::Unit => true,
        Payload::Int32(_) | Payload::Uint32(_) => false,
    }
}

fn has_no_words(local: &Local, number: usize) -> bool
    ensures { result ≡ is_empty (label_at (program_of local.now) number).payload }
{
    match local.labels.get(number) {
        Some(label) => is_empty(label.payload),
        None => true,
    }
}

// Whether one of these is for the label.
fn is_typed(name: &[u8], rows: &[TypeRow]) -> bool
    ensures { result ≡ is_typed name.now rows.now }
{
    for row in rows {
        if row.label.name.bytes() == name {
            return true;
        }
    }
    false
}

// What is wrong with the row of the label of this number.
fn label_fault(local: &Local, earlier: &[TypeRow], row: &TypeRow, number: usize) -> Option<FitFault>
    ensures { result ≡ label_fault (program_of local.now) earlier.now row.now number }
{
    let place = row.label.place;
    if has_no_words(local, number) {
        return Some(FitFault::NoPayload(place));
    }
    if is_typed(row.label.name.bytes(), earlier) {
        return Some(FitFault::LabelTwice(place));
    }
    if row.carries.element.is_complex() && orders(&local.body, number) {
        return Some(FitFault::Unordered(row.carries.place));
    }
    None
}

fn number_fault(local: &Local, earlier: &[TypeRow], row: &TypeRow) -> Option<FitFault>
    ensures { result ≡ number_fault (program_of local.now) earlier.now row.now (number_from 0 local.now.labels.items row.now.label.name) }
{
    match number_of(&local.labels, row.label.name.bytes()) {
        Some(number) => label_fault(local, earlier, row, number),
        None => Some(FitFault::UnknownLabel(row.label.place)),
    }
}

// What is wrong with a row behind these.
fn row_fault(
    local: &Local,
    constants: &[Constant],
    earlier: &[TypeRow],
    row: &TypeRow,
) -> Option<FitFault>
    ensures { result ≡ row_fault (program_of local.now) constants.now earlier.now row.now }
{
    match number_fault(local, earlier, row) {
        Some(fault) => Some(fault),
        None => extent_fault(constants, row.carries.element, &row.extent),
    }
}

/// The first fault of the rows.
pub fn rows_fault(local: &Local, constants: &[Constant], rows: &[TypeRow]) -> Option<FitFault>
    ensures { result ≡ first_wrong (row_fault (program_of local.now) constants.now) [] rows.now }
{
    for at in 0..rows.len() {
        if let Some(fault) = row_fault(local, constants, &rows[..at], &rows[at]) {
            return Some(fault);
        }
    }
    None
}
