ghost use Rattle.std.specs.Prelude.{◌≡◌, ◌++◌, [], ◌∷◌, map, OnOk, IfOk};
ghost use Rattle.pb_syntax.specs.Plain.{plain_block, plain_statement, plain_file};
ghost use Rattle.pb_syntax.specs.Tree.{branches_of};
ghost use Rattle.pb_core_language.specs.Names.{end_visits, stmt_visits, block_visits, branches_visits, index_binds, role_visits, roles_visits, visits, no_scope};
ghost use Rattle.pb_core_language.specs.FileRules.{role_names};
ghost use Rattle.pb_core_file_rules.specs.Visiting.{met, scope_of, message_visits};

use crate::scope::Around;
use crate::visits::{Declared, Inside, Met, NameKind, add_end, add_range, bind, declare, mention};
use pb_syntax::{Block, End, FileTree, IndexText, NoMemory, RoleText, Statement};
use pb_text::Spot;
use std::alloc::Global;

// A message's names, where its ends are in the scope `inside`.
#[tactic(auto, using(crate::proofs::Mets::both))]
fn add_ends(
    label: &Spot,
    from: &End,
    to: &End,
    declared: &Declared,
    scope: &Inside,
    inside: &Inside,
    out: &mut Vec<Met>,
) -> Result<(), NoMemory>
    ensures { OnOk result (out.new.items ≡ out.old.items ++ map (met (role_names declared.now.roles.now)) (message_visits declared.now.constant.now (scope_of scope.now) (scope_of inside.now) label.now from.now to.now)) }
{
    mention(label, NameKind::Label, out)?;
    add_end(from, declared, scope, inside, out)?;
    add_end(to, declared, scope, inside, out)
}

// The same where `inside` is the scope behind what the sender binds.
fn add_bound_by_receiver(
    label: &Spot,
    from: &End,
    to: &End,
    declared: &Declared,
    scope: &Inside,
    inside: &Inside,
    out: &mut Vec<Met>,
) -> Result<(), NoMemory>
    ensures { OnOk result (out.new.items ≡ out.old.items ++ map (met (role_names declared.now.roles.now)) (message_visits declared.now.constant.now (scope_of scope.now) (index_binds declared.now.constant.now (scope_of inside.now) to.now.index) label.now from.now to.now)) }
{
    match &to.index {
        IndexText::Zero | IndexText::At(_) => {
            add_ends(label, from, to, declared, scope, inside, out)
        }
        IndexText::Bind(spot, _) => {
            let variables = Around::Inside(spot.name, &*inside.variables);
            let deeper = Inside {
                loops: &*inside.loops,
                variables: &variables,
            };
            add_ends(label, from, to, declared, scope, &deeper, out)
        }
    }
}

fn add_message(
    label: &Spot,
    from: &End,
    to: &End,
    declared: &Declared,
    scope: &Inside,
    out: &mut Vec<Met>,
) -> Result<(), NoMemory>
    ensures { OnOk result (out.new.items ≡ out.old.items ++ map (met (role_names declared.now.roles.now)) (message_visits declared.now.constant.now (scope_of scope.now) (index_binds declared.now.constant.now (index_binds declared.now.constant.now (scope_of scope.now) from.now.index) to.now.index) label.now from.now to.now)) }
{
    match &from.index {
        IndexText::Zero | IndexText::At(_) => {
            let inside = Inside {
                loops: &*scope.loops,
                variables: &*scope.variables,
            };
            add_bound_by_receiver(label, from, to, declared, scope, &inside, out)
        }
        IndexText::Bind(spot, _) => {
            let variables = Around::Inside(spot.name, &*scope.variables);
            let inside = Inside {
                loops: &*scope.loops,
                variables: &variables,
            };
            add_bound_by_receiver(label, from, to, declared, scope, &inside, out)
        }
    }
}

// Adds the names of an end outside messages.
fn add_plain_end(
    end: &End,
    declared: &Declared,
    scope: &Inside,
    out: &mut Vec<Met>,
) -> Result<(), NoMemory>
    ensures { OnOk result (out.new.items ≡ out.old.items ++ map (met (role_names declared.now.roles.now)) (end_visits declared.now.constant.now (scope_of scope.now) (scope_of scope.now) end.now)) }
{
    let inside = Inside {
        loops: &*scope.loops,
        variables: &*scope.variables,
    };
    add_end(end, declared, scope, &inside, out)
}

/// Adds the names of the block, in the order of the file.
#[cycle(walk)]
#[tactic(auto, using(crate::proofs::Mets::step))]
fn add_visits_in(
    block: &Block,
    declared: &Declared,
    scope: &Inside,
    out: &mut Vec<Met>,
) -> Result<(), NoMemory>
    ensures { OnOk result (out.new.items ≡ out.old.items ++ map (met (role_names declared.now.roles.now)) (block_visits declared.now.constant.now (scope_of scope.now) (plain_block block.now).list)) }
{
    for statement in &block.list {
        add_visits_at(statement, declared, scope, out)?;
    }
    Ok(())
}

#[cycle(walk)]
#[tactic(auto, using(crate::proofs::Mets::step))]
fn add_visits_among(
    branches: &[Block],
    declared: &Declared,
    scope: &Inside,
    out: &mut Vec<Met>,
) -> Result<(), NoMemory>
    ensures { OnOk result (out.new.items ≡ out.old.items ++ map (met (role_names declared.now.roles.now)) (branches_visits declared.now.constant.now (scope_of scope.now) (branches_of (map plain_block branches.now)))) }
{
    for branch in branches {
        add_visits_in(branch, declared, scope, out)?;
    }
    Ok(())
}

#[cycle(walk)]
#[tactic(auto, using(crate::proofs::Mets::both))]
fn add_visits_at(
    statement: &Statement,
    declared: &Declared,
    scope: &Inside,
    out: &mut Vec<Met>,
) -> Result<(), NoMemory>
    ensures { OnOk result (out.new.items ≡ out.old.items ++ map (met (role_names declared.now.roles.now)) (stmt_visits declared.now.constant.now (scope_of scope.now) (plain_statement statement.now))) }
{
    match statement {
        Statement::Message {
            label,
            from,
            to,
            ..
        } => add_message(label, from, to, declared, scope, out),
        Statement::Foreach {
            var,
            range,
            items,
            ..
        } => {
            bind(var, NameKind::Variable, scope, out)?;
            add_range(range, declared, scope, out)?;
            let variables = Around::Inside(var.name, &*scope.variables);
            let inside = Inside {
                loops: &*scope.loops,
                variables: &variables,
            };
            add_visits_in(items, declared, &inside, out)
        }
        Statement::Rec { name, body, .. } => {
            bind(name, NameKind::Loop, scope, out)?;
            let loops = Around::Inside(name.name, &*scope.loops);
            let inside = Inside {
                loops: &loops,
                variables: &*scope.variables,
            };
            add_visits_in(body, declared, &inside, out)
        }
        Statement::Continue { name, .. } => mention(name, NameKind::Loop, out),
        Statement::Choice {
            kernel,
            at,
            branches,
            ..
        } => {
            mention(kernel, NameKind::ChoiceKernel, out)?;
            add_plain_end(at, declared, scope, out)?;
            add_visits_among(branches, declared, scope, out)
        }
        Statement::Compute { kernel, at, .. } => {
            mention(kernel, NameKind::ComputeKernel, out)?;
            add_plain_end(at, declared, scope, out)
        }
        Statement::Barrier { .. } => Ok(()),
        Statement::Broadcast { label, from, .. } => {
            mention(label, NameKind::Label, out)?;
            add_plain_end(from, declared, scope, out)
        }
        Statement::Reduce { label, to, .. } => {
            mention(label, NameKind::Label, out)?;
            add_plain_end(to, declared, scope, out)
        }
        Statement::Allreduce { label, .. } => mention(label, NameKind::Label, out),
    }
}

fn add_role(
    role: &RoleText,
    declared: &Declared,
    scope: &Inside,
    out: &mut Vec<Met>,
) -> Result<(), NoMemory>
    requires { scope_of scope.now ≡ no_scope }
    ensures { OnOk result (out.new.items ≡ out.old.items ++ map (met (role_names declared.now.roles.now)) (role_visits declared.now.constant.now role.now)) }
{
    declare(&role.role, NameKind::Role, out)?;
    match &role.range {
        None => Ok(()),
        Some(range) => add_range(range, declared, scope, out),
    }
}

#[tactic(auto, using(crate::proofs::Mets::step))]
fn add_roles(
    roles: &[RoleText],
    declared: &Declared,
    scope: &Inside,
    out: &mut Vec<Met>,
) -> Result<(), NoMemory>
    requires { scope_of scope.now ≡ no_scope }
    ensures { OnOk result (out.new.items ≡ out.old.items ++ map (met (role_names declared.now.roles.now)) (roles_visits declared.now.constant.now roles.now)) }
{
    for role in roles {
        add_role(role, declared, scope, out)?;
    }
    Ok(())
}

/// All names of the file, in its order.
#[tactic(auto, using(crate::proofs::Mets::both))]
pub fn names_met(alloc: Global, file: &FileTree) -> Result<Vec<Met>, NoMemory>
    ensures { IfOk result (λ v. v.items ≡ map (met (role_names file.now.roles.items)) (visits (plain_file file.now))) }
{
    let declared = Declared {
        constant: &file.constant.name,
        roles: &file.roles,
    };
    let nothing = Around::Nothing;
    let scope = Inside {
        loops: &nothing,
        variables: &nothing,
    };
    let mut out = Vec::new(alloc);
    declare(&file.constant, NameKind::Constant, &mut out)?;
    declare(&file.protocol, NameKind::Protocol, &mut out)?;
    add_roles(&file.roles, &declared, &scope, &mut out)?;
    add_visits_in(&file.body, &declared, &scope, &mut out)?;
    Ok(out)
}
