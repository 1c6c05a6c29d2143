ghost use Rattle.std.specs.Prelude.{◌≡◌, IfOk};

use pb_syntax::{LinText, RangeText, RoleText};
use pb_text::NoMemory;
use std::alloc::Global;

fn copied_lin(lin: &LinText) -> LinText
    ensures { result ≡ lin.now }
{
    LinText {
        base: lin.base,
        off: lin.off,
        place: lin.place,
    }
}

fn copied_range(range: &RangeText) -> RangeText
    ensures { result ≡ range.now }
{
    RangeText {
        low: copied_lin(&range.low),
        high: copied_lin(&range.high),
    }
}

fn copied_role(role: &RoleText) -> RoleText
    ensures { result ≡ role.now }
{
    match &role.range {
        None => RoleText {
            role: role.role,
            range: None,
        },
        Some(range) => RoleText {
            role: role.role,
            range: Some(copied_range(range)),
        },
    }
}

/// The same declarations of roles.
pub fn copied_roles(alloc: Global, roles: &[RoleText]) -> Result<Vec<RoleText>, NoMemory>
    ensures { IfOk result (λ list. list.items ≡ roles.now) }
{
    let mut list = Vec::new(alloc);
    for role in roles {
        list.push(copied_role(role))?;
    }
    Ok(list)
}
