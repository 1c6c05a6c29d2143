ghost use Rattle.std.specs.Prelude.{◌≡◌, ◌≤◌, ◌+◌, ◌*◌, true, length, map, IfOk};
ghost use Rattle.pb_core_language.specs.Plain.{plain};
ghost use Rattle.pb_core_language.specs.Sound.{is_sound};
ghost use Rattle.pb_core_language.specs.Verdict.{KeepsAll};
ghost use Rattle.pb_core_endpoint.specs.Core.{IsProper};
ghost use Rattle.pb_local.specs.Tree.{plain_all, program_of, size_all};
ghost use Rattle.pb_local.specs.WellMade.{IsWellMade};
ghost use Rattle.pb_shape.specs.Places.{role_of};
ghost use Rattle.pb_shape.specs.Shape.{HasShape};
ghost use Rattle.pb_shape.specs.Sizes.{room_all, depth_all, braces_all};
ghost use Rattle.pb_shape.specs.Tabled.{IsTabled};
ghost use Rattle.pb_shape_filled.specs.Filled.{AreFilled};
ghost use Rattle.pb_shape_reached.specs.Reached.{AreReached};
ghost use Rattle.pb_project.specs.Wholes.{IsBodyOf, IsLocalOf};

use crate::around::Around;
use crate::block::block_of;
use pb_core_language::{Core, CoreRole};
use pb_local::{Local, Role, Stmt};
use pb_part_takers::areas_of_roles;
use pb_project_piece::Setting;
use pb_shape_reached::text_is_reached;
use pb_text::NoMemory;
use std::alloc::Global;

fn role_of(role: &CoreRole) -> Role
    ensures { result ≡ role_of role.now }
{
    Role {
        name: role.name,
        low: role.low,
        high: role.high,
    }
}

fn roles_of(alloc: Global, roles: &[CoreRole]) -> Result<Vec<Role>, NoMemory>
    ensures { IfOk result (λ v. v.items ≡ map role_of roles.now) }
{
    let mut list = Vec::new(alloc);
    for role in roles {
        list.push(role_of(role))?;
    }
    Ok(list)
}

fn count_of(roles: &[CoreRole]) -> u32
    requires { length roles.now ≤ 64 }
    ensures { result ≡ length roles.now }
{
    roles.len() as u32
}

/// The statements.
fn body_of(alloc: Global, core: &Core) -> Result<Vec<Stmt>, NoMemory>
    requires { is_sound (plain core.now) ≡ true }
    ensures { IfOk result (λ v. IsBodyOf (plain core.now) (plain_all v.items)) }
{
    let whole = areas_of_roles(alloc, &core.roles, core.range)?;
    let setting = Setting {
        range: core.range,
        roles: count_of(&core.roles),
        whole: &whole,
    };
    let around = Around {
        held: &[],
        numbers: &[],
    };
    let mut count = 0;
    let body = block_of(&core.body, alloc, &setting, &around, &mut count)?;
    Ok(body)
}

/// The program with these statements, and the core's tables.
pub(crate) fn local_of(alloc: Global, core: &Core, body: Vec<Stmt>) -> Result<Local, NoMemory>
    ensures { IfOk result (λ l. IsLocalOf (plain core.now) (plain_all body.items) (program_of l)) }
{
    let roles = roles_of(alloc, &core.roles)?;
    let labels = Vec::from_slice(alloc, &core.labels)?;
    let kernels = Vec::from_slice(alloc, &core.kernels)?;
    Ok(Local {
        protocol: core.protocol,
        range: core.range,
        roles,
        labels,
        kernels,
        body,
    })
}

/// The endpoint program of a protocol that keeps its rules: one list of statements for all ranks and every N of its range, in
/// which no statement stands for what nobody takes part in, no `If` has two empty parts, and no `For` an empty body. Each
/// statement is reached by some rank at some N with at most 2,000,000,000 ranks, and each part of an `If` that isn't empty is
/// taken by some. Loops are numbered from 0 in text order.
pub fn project(alloc: Global, core: &Core) -> Result<Local, NoMemory>
    requires sound { is_sound (plain core.now) ≡ true }
    requires tabled { IsTabled (plain core.now) }
    requires keeps { KeepsAll (plain core.now) }
    ensures shape { IfOk result (λ l. HasShape (plain core.now) (program_of l)) }
    ensures filled { IfOk result (λ l. AreFilled (program_of l).body) }
    ensures made { IfOk result (λ l. IsWellMade (program_of l)) }
    ensures reached { IfOk result (λ l. IsProper (plain core.now) → AreReached (plain core.now) (program_of l) 0 (program_of l).body) }
    ensures size { IfOk result (λ l. size_all (program_of l).body ≤ room_all (plain core.now).body.block) }
    ensures braces { IfOk result (λ l. braces_all (program_of l).body ≤ 2 * depth_all (plain core.now).body.block + 1) }
{
    text_is_reached();
    let body = body_of(alloc, core)?;
    let local = local_of(alloc, core, body)?;
    Ok(local)
}
