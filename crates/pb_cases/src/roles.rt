ghost use Rattle.std.specs.Prelude.{◌≡◌, ◌≤◌, length, true, IfOk};
ghost use Rattle.pb_cases.specs.Roles.{of_role, HasRoleBefore};

use pb_affine::Guard;
use pb_text::NoMemory;
use std::alloc::Global;

/// The guards of the role.
pub(crate) fn guards_of(alloc: Global, guards: &[Guard], role: u32) -> Result<Vec<Guard>, NoMemory>
    ensures { IfOk result (λ v. v.items ≡ of_role role guards.now) }
{
    let mut own = Vec::new(alloc);
    for guard in guards {
        if role == guard.role {
            own.push(*guard)?;
        }
    }
    Ok(own)
}

/// True only where a guard before place `i` has the role.
pub(crate) fn has_role_before(guards: &[Guard], i: usize, role: u32) -> bool
    requires { i ≤ length guards.now }
    ensures { result ≡ true → HasRoleBefore guards.now i role }
{
    for j in 0..i {
        if guards[j].role == role {
            return true;
        }
    }
    false
}
