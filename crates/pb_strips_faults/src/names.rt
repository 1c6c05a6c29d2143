ghost use Rattle.std.specs.Prelude.{◌≡◌, ◌++◌, [], ◌∷◌, map, OnOk, IfOk};
ghost use Rattle.pb_strips_syntax.specs.Strips.{branches_of};
ghost use Rattle.pb_strips_syntax.specs.Plain.{plain_block, plain_statement, plain_file};
ghost use Rattle.pb_strips_faults.specs.Spelled.{of_some, of_range, of_rows, of_index, of_col, of_end, of_roles, spelled_at, spelled_in, spelled_among, spelled};

use pb_strips_syntax::{Col, StripBlock, StripEnd, StripRole, StripStatement, StripTree};
use pb_syntax::{IndexText, RangeText};
use pb_text::{NoMemory, Spot};
use std::alloc::Global;

fn add_name(spot: &Spot, out: &mut Vec<Spot>) -> Result<(), NoMemory>
    ensures { OnOk result (out.new.items ≡ out.old.items ++ (spot.now ∷ [])) }
{
    out.push(*spot)?;
    Ok(())
}

fn add_some(spot: &Option<Spot>, out: &mut Vec<Spot>) -> Result<(), NoMemory>
    ensures { OnOk result (out.new.items ≡ out.old.items ++ of_some spot.now) }
{
    match spot {
        Some(spot) => add_name(spot, out),
        None => Ok(()),
    }
}

fn add_range(range: &RangeText, out: &mut Vec<Spot>) -> Result<(), NoMemory>
    ensures { OnOk result (out.new.items ≡ out.old.items ++ of_range range.now) }
{
    add_some(&range.low.base, out)?;
    add_some(&range.high.base, out)
}

fn add_rows(rows: &Option<RangeText>, out: &mut Vec<Spot>) -> Result<(), NoMemory>
    ensures { OnOk result (out.new.items ≡ out.old.items ++ of_rows rows.now) }
{
    match rows {
        Some(range) => add_range(range, out),
        None => Ok(()),
    }
}

fn add_bound(var: &Spot, range: &RangeText, out: &mut Vec<Spot>) -> Result<(), NoMemory>
    ensures { OnOk result (out.new.items ≡ out.old.items ++ (var.now ∷ of_range range.now)) }
{
    add_name(var, out)?;
    add_range(range, out)
}

fn add_index(index: &IndexText, out: &mut Vec<Spot>) -> Result<(), NoMemory>
    ensures { OnOk result (out.new.items ≡ out.old.items ++ of_index index.now) }
{
    match index {
        IndexText::Zero => Ok(()),
        IndexText::At(at) => add_some(&at.base, out),
        IndexText::Bind(var, range) => add_bound(var, range, out),
    }
}

fn add_col(col: &Option<Col>, out: &mut Vec<Spot>) -> Result<(), NoMemory>
    ensures { OnOk result (out.new.items ≡ out.old.items ++ of_col col.now) }
{
    match col {
        Some(col) => add_some(&col.var, out),
        None => Ok(()),
    }
}

fn add_end(end: &StripEnd, out: &mut Vec<Spot>) -> Result<(), NoMemory>
    ensures { OnOk result (out.new.items ≡ out.old.items ++ of_end end.now) }
{
    add_name(&end.role, out)?;
    add_index(&end.index, out)?;
    add_col(&end.col, out)
}

fn add_name_and_end(name: &Spot, end: &StripEnd, out: &mut Vec<Spot>) -> Result<(), NoMemory>
    ensures { OnOk result (out.new.items ≡ out.old.items ++ (name.now ∷ of_end end.now)) }
{
    add_name(name, out)?;
    add_end(end, out)
}

fn add_message(
    label: &Spot,
    from: &StripEnd,
    to: &StripEnd,
    out: &mut Vec<Spot>,
) -> Result<(), NoMemory>
    ensures { OnOk result (out.new.items ≡ out.old.items ++ (label.now ∷ (of_end from.now ++ of_end to.now))) }
{
    add_name_and_end(label, from, out)?;
    add_end(to, out)
}

fn add_role(role: &StripRole, out: &mut Vec<Spot>) -> Result<(), NoMemory>
    ensures { OnOk result (out.new.items ≡ out.old.items ++ (role.now.role ∷ of_rows role.now.range)) }
{
    add_name(&role.role, out)?;
    add_rows(&role.range, out)
}

fn add_roles(roles: &[StripRole], out: &mut Vec<Spot>) -> Result<(), NoMemory>
    ensures { OnOk result (out.new.items ≡ out.old.items ++ of_roles roles.now) }
{
    for role in roles {
        add_role(role, out)?;
    }
    Ok(())
}

#[cycle(spelling)]
fn add_names_in(block: &StripBlock, out: &mut Vec<Spot>) -> Result<(), NoMemory>
    ensures { OnOk result (out.new.items ≡ out.old.items ++ spelled_in (plain_block block.now).list) }
{
    for statement in &block.list {
        add_names_at(statement, out)?;
    }
    Ok(())
}

#[cycle(spelling)]
fn add_names_among(branches: &[StripBlock], out: &mut Vec<Spot>) -> Result<(), NoMemory>
    ensures { OnOk result (out.new.items ≡ out.old.items ++ spelled_among (branches_of (map plain_block branches.now))) }
{
    for branch in branches {
        add_names_in(branch, out)?;
    }
    Ok(())
}

#[cycle(spelling)]
fn add_named(body: &StripBlock, name: &Spot, out: &mut Vec<Spot>) -> Result<(), NoMemory>
    ensures { OnOk result (out.new.items ≡ out.old.items ++ (name.now ∷ spelled_in (plain_block body.now).list)) }
{
    add_name(name, out)?;
    add_names_in(body, out)
}

#[cycle(spelling)]
fn add_foreach(
    items: &StripBlock,
    var: &Spot,
    range: &RangeText,
    out: &mut Vec<Spot>,
) -> Result<(), NoMemory>
    ensures { OnOk result (out.new.items ≡ out.old.items ++ (var.now ∷ (of_range range.now ++ spelled_in (plain_block items.now).list))) }
{
    add_bound(var, range, out)?;
    add_names_in(items, out)
}

#[cycle(spelling)]
fn add_choice(
    branches: &[StripBlock],
    kernel: &Spot,
    at: &StripEnd,
    out: &mut Vec<Spot>,
) -> Result<(), NoMemory>
    ensures { OnOk result (out.new.items ≡ out.old.items ++ (kernel.now ∷ (of_end at.now ++ spelled_among (branches_of (map plain_block branches.now))))) }
{
    add_name_and_end(kernel, at, out)?;
    add_names_among(branches, out)
}

#[cycle(spelling)]
fn add_names_at(statement: &StripStatement, out: &mut Vec<Spot>) -> Result<(), NoMemory>
    ensures { OnOk result (out.new.items ≡ out.old.items ++ spelled_at (plain_statement statement.now)) }
{
    match statement {
        StripStatement::Message {
            label,
            from,
            to,
            ..
        } => add_message(label, from, to, out),
        StripStatement::Foreach {
            var,
            range,
            items,
            ..
        } => add_foreach(items, var, range, out),
        StripStatement::Rec { name, body, .. } => add_named(body, name, out),
        StripStatement::Continue { name, .. } => add_name(name, out),
        StripStatement::Choice {
            kernel,
            at,
            branches,
            ..
        } => add_choice(branches, kernel, at, out),
        StripStatement::Compute { kernel, at, .. } => add_name_and_end(kernel, at, out),
        StripStatement::Barrier { .. } => Ok(()),
        StripStatement::Broadcast { label, from, .. } => add_name_and_end(label, from, out),
        StripStatement::Reduce { label, to, .. } => add_name_and_end(label, to, out),
        StripStatement::Allreduce { label, .. } => add_name(label, out),
        StripStatement::Columns { var, body, .. } => add_named(body, var, out),
    }
}

/// The names that are spelled in a file, in its order.
pub fn spelled_names(alloc: Global, strips: &StripTree) -> Result<Vec<Spot>, NoMemory>
    ensures { IfOk result (λ list. list.items ≡ spelled (plain_file strips.now)) }
{
    let mut list = Vec::new(alloc);
    add_name(&strips.constant, &mut list)?;
    add_name(&strips.protocol, &mut list)?;
    add_roles(&strips.roles, &mut list)?;
    add_names_in(&strips.body, &mut list)?;
    Ok(list)
}
