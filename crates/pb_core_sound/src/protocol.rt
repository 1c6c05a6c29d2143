ghost use Rattle.std.specs.Prelude.{◌≡◌};
ghost use Rattle.pb_core_language.specs.Plain.{plain};
ghost use Rattle.pb_core_language.specs.Sound.{is_sound, are_roles};

use crate::Core;
use crate::block::is_block;
use crate::lins::{is_bound, is_range};
use crate::opens::Opens;
use crate::rows::Rows;
use pb_core_language::CoreRole;

/// Whether the core is sound: N from 1 on and its least at most 100,000, at most 64 roles, offsets within 100,000 of zero, numbers
/// of rows that are there, variables and continues only where they have a meaning, choices with a branch, and fewer than 64
/// loops around a loop. Takes no memory.
pub fn is_sound(core: &Core) -> bool
    ensures { result ≡ is_sound (plain core.now) }
{
    let rows = Rows {
        roles: core.roles.len() as u64,
        labels: core.labels.len() as u64,
        kernels: core.kernels.len() as u64,
    };
    is_range(core.range)
        && rows.roles <= 64
        && are_roles(&core.roles)
        && is_block(&core.body, &rows, false, &Opens::Top)
}

fn are_roles(roles: &[CoreRole]) -> bool
    ensures { result ≡ are_roles roles.now }
{
    for role in roles {
        if !(is_bound(role.low) && is_bound(role.high)) {
            return false;
        }
    }
    true
}
