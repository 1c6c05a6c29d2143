ghost use Rattle.std.specs.Prelude.{◌≡◌, None, [], ◌∷◌, OnOk, IfOk, IfErr};
ghost use Rattle.pb_strips_syntax.specs.Columns.{numbers};
ghost use Rattle.pb_strips_syntax.specs.Flattening.{flat_roles, roles_with, column_roles};
ghost use Rattle.pb_strips_flatten.specs.Excess.{is_long, first_long};
ghost use Rattle.pb_strips_flatten.specs.Halts.{AreNarrow, role_excess, IsRoleExcess};
ghost use Rattle.pb_strips_flatten.specs.RoleEnds.{Fit, RoleFits, RolesFit, RolesEnd, IsMade};

use crate::copies::role_with;
use crate::ends::column_spot;
use crate::halt::Halt;
use crate::role_list::RoleList;
use crate::stop::Stop;
use pb_strips_syntax::StripRole;
use pb_syntax::{RangeText, RoleText};
use pb_text::{Place, Quantity, Spot};
use std::alloc::Global;

fn is_long(role: &StripRole) -> bool
    ensures { result ≡ is_long role.now }
{
    role.columns.is_some() && role.role.name.bytes().len() > 60
}

// The place of the first strip with a name of more than 60 bytes.
fn first_long(roles: &[StripRole]) -> Option<Place>
    ensures { result ≡ first_long roles.now }
{
    for role in roles {
        if is_long(role) {
            return Some(role.role.place);
        }
    }
    None
}

impl RoleList {
    // One role more, if there are fewer than 64.
    #[tactic(auto, using(crate::proofs::Fitting::one_too_many))]
    fn push(&mut self, role: RoleText) -> Result<(), Stop>
        ensures { RolesEnd result (role ∷ []) (Unit {0}) self.old.list.items self.new.list.items }
    {
        if let Some(range) = &role.range {
            let _base = &range.low.base;
        }
        if self.list.len() >= 64 {
            return Err(Stop::TooMany(role.role.place));
        }
        self.list.push(role)?;
        Ok(())
    }

    // The columns of a strip, from the first to the last.
    fn strip(
        &mut self,
        alloc: Global,
        role: &Spot,
        rows: &Option<RangeText>,
        low: u32,
        high: u32,
    ) -> Result<(), Stop>
        ensures { RolesEnd result (column_roles role.now rows.now (numbers low high)) (Fit role.now high) self.old.list.items self.new.list.items }
    {
        for column in u64::from(low)..u64::from(high) + 1 {
            self.push(role_with(column_spot(alloc, role, column)?, rows))?;
        }
        Ok(())
    }

    fn add(&mut self, alloc: Global, role: &StripRole) -> Result<(), Stop>
        ensures { RolesEnd result (roles_with role.now.role role.now.range role.now.columns) (RoleFits role.now) self.old.list.items self.new.list.items }
    {
        match role.columns {
            None => self.push(role_with(role.role, &role.range)),
            Some((low, high)) => self.strip(alloc, &role.role, &role.range, low, high),
        }
    }
}

fn all_roles(alloc: Global, roles: &[StripRole]) -> Result<RoleList, Stop>
    ensures { IsMade result (flat_roles roles.now) (RolesFit roles.now) }
{
    let mut out = RoleList {
        list: Vec::new(alloc),
    };
    for role in roles {
        out.add(alloc, role)?;
    }
    Ok(out)
}

/// The roles of the flat file, in which each column of a strip is a role of its own, or which limit is passed first, and
/// where. No more than 64 are built.
pub fn flat_roles(alloc: Global, roles: &[StripRole]) -> Result<Vec<RoleText>, Halt>
    requires { AreNarrow roles.now }
    ensures flat { IfOk result (λ list. list.items ≡ flat_roles roles.now) }
    ensures few { OnOk result (role_excess roles.now ≡ None) }
    ensures many { IfErr result (λ h. IsRoleExcess roles.now h) }
{
    if let Some(place) = first_long(roles) {
        return Err(Halt::TooMany(Quantity::NameLength, place));
    }
    match all_roles(alloc, roles) {
        Ok(out) => Ok(out.list),
        Err(Stop::TooMany(place)) => Err(Halt::TooMany(Quantity::Roles, place)),
        Err(Stop::Unnamed) => unreachable!(),
        Err(Stop::NoMemory) => Err(Halt::NoMemory),
    }
}
