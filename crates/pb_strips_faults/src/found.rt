ghost use Rattle.std.specs.Prelude.{◌≡◌, OnOk, IfErr};
ghost use Rattle.pb_strips_syntax.specs.Plain.{plain_file};
ghost use Rattle.pb_strips_faults.specs.Faults.{sites};
ghost use Rattle.pb_strips_faults.specs.Found.{IsFault, HasNoFault};
ghost use Rattle.pb_strips_faults.specs.Parts.{IsEndFault, HasNoEndFault};

use crate::clashes::first_clash;
use crate::declared_columns::first_wide;
use crate::ends::collected_ends;
use crate::fault::ColumnFault;
use crate::places::{first_column, first_plain, first_variable};
use crate::site::EndSite;
use pb_strips_syntax::{StripRole, StripTree};
use std::alloc::Global;

fn check_ends(roles: &[StripRole], ends: &[EndSite]) -> Result<(), ColumnFault>
    ensures none { OnOk result (HasNoEndFault roles.now ends.now) }
    ensures fault { IfErr result (λ e. IsEndFault roles.now ends.now e) }
{
    if let Some(place) = first_plain(roles, ends) {
        return Err(ColumnFault::Plain(place));
    }
    if let Some(place) = first_variable(ends) {
        return Err(ColumnFault::Variable(place));
    }
    if let Some(place) = first_column(roles, ends) {
        return Err(ColumnFault::Column(place));
    }
    Ok(())
}

fn check_ends_of(alloc: Global, strips: &StripTree) -> Result<(), ColumnFault>
    ensures none { OnOk result (HasNoEndFault (plain_file strips.now).roles (sites (plain_file strips.now))) }
    ensures fault { IfErr result (λ e. IsEndFault (plain_file strips.now).roles (sites (plain_file strips.now)) e) }
{
    let ends = collected_ends(alloc, strips)?;
    check_ends(&strips.roles, &ends)
}

/// Whether nothing is wrong with the strips of a file.
///
/// Each fault comes exactly where it counts: the earliest variant of `ColumnFault` with its first place in the file. It
/// answers `NoMemory` where memory runs out. Of a `columns` it looks at two values, and the time is linear in the names of the
/// file, beside a look at each declaration for each end.
#[tactic(auto, using(crate::proofs::Counting::end_fault_counts, crate::proofs::Counting::nothing_counts))]
pub fn checked_strips(alloc: Global, strips: &StripTree) -> Result<(), ColumnFault>
    ensures sound { OnOk result (HasNoFault (plain_file strips.now)) }
    ensures refused { IfErr result (λ e. IsFault (plain_file strips.now) e) }
{
    if let Some(place) = first_wide(&strips.roles) {
        return Err(ColumnFault::Width(place));
    }
    check_ends_of(alloc, strips)?;
    if let Some(place) = first_clash(alloc, strips)? {
        return Err(ColumnFault::Clash(place));
    }
    Ok(())
}
