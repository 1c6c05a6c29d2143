ghost use Rattle.std.specs.Prelude.{◌≡◌, map};
ghost use Rattle.pb_do_syntax.specs.Calls.{branches_of};
ghost use Rattle.pb_do_syntax.specs.Names.{is_named, role_names};
ghost use Rattle.pb_do_syntax.specs.Plain.{plain_block, plain_statement};
ghost use Rattle.pb_do_faults.specs.Strangers.{all_unless_known, outsiders_at, outsiders_in, outsiders_among};
ghost use Rattle.pb_do_faults.specs.Found.{first};

use crate::around::is_same;
use pb_do_syntax::{CallBlock, CallStatement};
use pb_syntax::RoleText;
use pb_text::{Name, Place, Spot};

fn has_role(name: &Name, roles: &[RoleText]) -> bool
    ensures { result ≡ is_named name.now (role_names roles.now) }
{
    for role in roles {
        if is_same(name, &role.role.name) {
            return true;
        }
    }
    false
}

#[tactic(auto, using(crate::proofs::Firsts::first_here, crate::proofs::Firsts::first_later))]
fn unless_all_roles(args: &[Spot], roles: &[RoleText]) -> Option<Place>
    ensures { result ≡ first (all_unless_known (role_names roles.now) args.now) }
{
    for arg in args {
        if !has_role(&arg.name, roles) {
            return Some(arg.place);
        }
    }
    None
}

/// The place of the first argument in the block that is no role, if there is one. Takes no memory.
#[cycle(outsiders)]
#[tactic(auto, using(crate::proofs::Firsts::first_here, crate::proofs::Firsts::first_later))]
pub fn first_outsider_in(block: &CallBlock, roles: &[RoleText]) -> Option<Place>
    ensures { result ≡ first (outsiders_in (role_names roles.now) (plain_block block.now).list) }
{
    for statement in &block.list {
        let found = first_outsider_at(statement, roles);
        if found.is_some() {
            return found;
        }
    }
    None
}

#[cycle(outsiders)]
#[tactic(auto, using(crate::proofs::Firsts::first_here, crate::proofs::Firsts::first_later))]
fn first_outsider_among(branches: &[CallBlock], roles: &[RoleText]) -> Option<Place>
    ensures { result ≡ first (outsiders_among (role_names roles.now) (branches_of (map plain_block branches.now))) }
{
    for branch in branches {
        let found = first_outsider_in(branch, roles);
        if found.is_some() {
            return found;
        }
    }
    None
}

#[cycle(outsiders)]
fn first_outsider_at(statement: &CallStatement, roles: &[RoleText]) -> Option<Place>
    ensures { result ≡ first (outsiders_at (role_names roles.now) (plain_statement statement.now)) }
{
    match statement {
        CallStatement::Do { args, .. } => unless_all_roles(args, roles),
        CallStatement::Foreach { items, .. } => first_outsider_in(items, roles),
        CallStatement::Rec { body, .. } => first_outsider_in(body, roles),
        CallStatement::Choice { branches, .. } => first_outsider_among(branches, roles),
        CallStatement::Message { .. }
        | CallStatement::Continue { .. }
        | CallStatement::Compute { .. }
        | CallStatement::Barrier { .. }
        | CallStatement::Broadcast { .. }
        | CallStatement::Reduce { .. }
        | CallStatement::Allreduce { .. } => None,
    }
}
