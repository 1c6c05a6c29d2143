ghost use Rattle.std.specs.Prelude.{◌≡◌, ◌++◌, map, IfOk, OnOk};
ghost use Rattle.pb_affine.specs.Values.{IsNear};
ghost use Rattle.pb_core_language.specs.Rules.{empty_roles};
ghost use Rattle.pb_plain.specs.View.{mark_of};
ghost use Rattle.pb_plain_rules.specs.Empty.{if_none, if_empty};

use crate::{Mark, NoMemory, Place};
use pb_core_language::CoreRole;
use pb_plain::{range, value};
use std::alloc::Global;

/// The roles that have no index at N = n, within 2^40 of zero, each by its number and the place of its name.
pub fn empty_roles(alloc: Global, roles: &[CoreRole], n: i64) -> Result<Vec<Mark>, NoMemory>
    requires { IsNear n }
    ensures { IfOk result (λ v. map mark_of v.items ≡ empty_roles 0 roles.now n) }
{
    let mut list = Vec::new(alloc);
    for (number, role) in roles.iter().enumerate() {
        add_if_empty(alloc, role, number as u64, n, &mut list)?;
    }
    Ok(list)
}

fn add_if_empty(
    alloc: Global,
    role: &CoreRole,
    number: u64,
    n: i64,
    out: &mut Vec<Mark>,
) -> Result<(), NoMemory>
    requires { IsNear n }
    ensures { OnOk result (map mark_of out.new.items ≡ map mark_of out.old.items ++ if_empty number role.now n) }
{
    let low = value(role.low, n, 0);
    let high = value(role.high, n, 0);
    let indices = range(alloc, low, high)?;
    add_if_none(&indices, number, role.place, out)
}

fn add_if_none(
    indices: &[i64],
    number: u64,
    place: Place,
    out: &mut Vec<Mark>,
) -> Result<(), NoMemory>
    ensures { OnOk result (map mark_of out.new.items ≡ map mark_of out.old.items ++ if_none number place indices.now) }
{
    if indices.is_empty() {
        out.push(Mark { number, place })?;
    }
    Ok(())
}
