ghost use Rattle.std.specs.Prelude.{◌≡◌, is_some};
ghost use Rattle.pb_strips_faults.specs.Faults.{differ, columns_at, plain, is_variable, unless_variable, variable_of, variable, is_out, column};
ghost use Rattle.pb_strips_faults.specs.Found.{first};

use crate::declared_columns::{columns_at, is_same};
use crate::outside::is_out;
use crate::site::{Around, EndSite};
use pb_strips_syntax::{Col, StripRole};
use pb_text::{Name, Place, Spot};

fn differs(roles: &[StripRole], end: &EndSite) -> bool
    ensures { result ≡ differ (is_some (columns_at roles.now end.now.role.name)) (is_some end.now.col) }
{
    columns_at(roles, &end.role.name).is_some() != end.col.is_some()
}

/// The place of the first end of a strip without a column, or of another role with one, if there is one. Takes no memory.
#[tactic(auto, using(crate::proofs::Firsts::first_here, crate::proofs::Firsts::first_later))]
pub fn first_plain(roles: &[StripRole], ends: &[EndSite]) -> Option<Place>
    ensures { result ≡ first (plain roles.now ends.now) }
{
    for end in ends {
        if differs(roles, end) {
            return Some(end.role.place);
        }
    }
    None
}

fn is_variable(around: &Option<Around>, name: &Name) -> bool
    ensures { result ≡ is_variable around.now name.now }
{
    match around {
        Some(around) => is_same(&around.var, name),
        None => false,
    }
}

fn unless_variable(around: &Option<Around>, var: &Option<Spot>) -> Option<Place>
    ensures { result ≡ first (unless_variable around.now var.now) }
{
    let Some(var) = var else {
        return None;
    };
    if is_variable(around, &var.name) {
        None
    } else {
        Some(var.place)
    }
}

fn other_variable(end: &EndSite) -> Option<Place>
    ensures { result ≡ first (variable_of end.now.around end.now.col) }
{
    match &end.col {
        Some(col) => unless_variable(&end.around, &col.var),
        None => None,
    }
}

/// The place of the first name in a column that isn't the variable of the `columns` around, if there is one. Takes no memory.
#[tactic(auto, using(crate::proofs::Firsts::first_here, crate::proofs::Firsts::first_later))]
pub fn first_variable(ends: &[EndSite]) -> Option<Place>
    ensures { result ≡ first (variable ends.now) }
{
    for end in ends {
        let found = other_variable(end);
        if found.is_some() {
            return found;
        }
    }
    None
}

fn leads_out_at(roles: &[StripRole], end: &EndSite) -> bool
    ensures { result ≡ is_out (columns_at roles.now end.now.role.name) end.now.col end.now.around }
{
    is_out(&columns_at(roles, &end.role.name), end)
}

/// The place of the first end whose column is, in some copy, none of its strip's, if there is one. Takes no memory.
#[tactic(auto, using(crate::proofs::Firsts::first_here, crate::proofs::Firsts::first_later))]
pub fn first_column(roles: &[StripRole], ends: &[EndSite]) -> Option<Place>
    ensures { result ≡ first (column roles.now ends.now) }
{
    for end in ends {
        if leads_out_at(roles, end) {
            return Some(end.role.place);
        }
    }
    None
}
