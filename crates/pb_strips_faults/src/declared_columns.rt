ghost use Rattle.std.specs.Prelude.{◌≡◌};
ghost use Rattle.pb_strips_faults.specs.Faults.{same, width, columns_at, is_wide};
ghost use Rattle.pb_strips_faults.specs.Found.{first};

use pb_strips_syntax::StripRole;
use pb_text::{Name, Place};

/// The greatest column that a strip may have.
const MOST_COLUMN: u32 = 63;

/// Whether both names have the same bytes. Takes no memory.
pub fn is_same(a: &Name, b: &Name) -> bool
    ensures { result ≡ same a.now b.now }
{
    a.bytes() == b.bytes()
}

fn is_wide(columns: &Option<(u32, u32)>) -> bool
    ensures { result ≡ is_wide columns.now }
{
    match columns {
        Some((first, last)) => !(*first <= *last && *last <= MOST_COLUMN),
        None => false,
    }
}

/// The place of the first strip whose columns don't ascend or go beyond 63, if there is one. Takes no memory.
#[tactic(auto, using(crate::proofs::Firsts::first_here, crate::proofs::Firsts::first_later))]
pub fn first_wide(roles: &[StripRole]) -> Option<Place>
    ensures { result ≡ first (width roles.now) }
{
    for role in roles {
        if is_wide(&role.columns) {
            return Some(role.role.place);
        }
    }
    None
}

/// The first and the last column by the first declaration of this name. None if that is no strip, or there is none. Takes no
/// memory.
pub fn columns_at(roles: &[StripRole], name: &Name) -> Option<(u32, u32)>
    ensures { result ≡ columns_at roles.now name.now }
{
    for role in roles {
        if is_same(&role.role.name, name) {
            return role.columns;
        }
    }
    None
}
