ghost use Rattle.std.specs.Prelude.{◌≡◌, ◌++◌, [], ◌∷◌, map, OnOk, IfOk};
ghost use Rattle.pb_strips_syntax.specs.Strips.{branches_of};
ghost use Rattle.pb_strips_syntax.specs.Plain.{plain_block, plain_statement, plain_file};
ghost use Rattle.pb_strips_faults.specs.Sites.{site, around_by, sites_at, sites_in, sites_among};
ghost use Rattle.pb_strips_faults.specs.Faults.{sites};

use crate::site::{Around, EndSite};
use pb_strips_syntax::{Col, StripBlock, StripEnd, StripStatement, StripTree};
use pb_text::{NoMemory, Spot};
use std::alloc::Global;

fn col_of(col: &Option<Col>) -> Option<Col>
    ensures { result ≡ col.now }
{
    match col {
        Some(col) => Some(Col {
            var: col.var,
            off: col.off,
        }),
        None => None,
    }
}

fn around_of(around: &Option<Around>) -> Option<Around>
    ensures { result ≡ around.now }
{
    match around {
        Some(around) => Some(Around {
            var: around.var,
            low: around.low,
            high: around.high,
        }),
        None => None,
    }
}

fn around_by(var: &Spot, low: &u32, high: &u32) -> Option<Around>
    ensures { result ≡ around_by var.now low.now high.now }
{
    Some(Around {
        var: var.name,
        low: *low,
        high: *high,
    })
}

fn site(end: &StripEnd, around: &Option<Around>) -> EndSite
    ensures { result ≡ site around.now end.now }
{
    EndSite {
        role: end.role,
        col: col_of(&end.col),
        around: around_of(around),
    }
}

fn add_end(end: &StripEnd, around: &Option<Around>, out: &mut Vec<EndSite>) -> Result<(), NoMemory>
    ensures { OnOk result (out.new.items ≡ out.old.items ++ (site around.now end.now ∷ [])) }
{
    let next = site(end, around);
    let _place = &next.role.place;
    out.push(next)?;
    Ok(())
}

fn add_both_ends(
    from: &StripEnd,
    to: &StripEnd,
    around: &Option<Around>,
    out: &mut Vec<EndSite>,
) -> Result<(), NoMemory>
    ensures { OnOk result (out.new.items ≡ out.old.items ++ (site around.now from.now ∷ site around.now to.now ∷ [])) }
{
    add_end(from, around, out)?;
    add_end(to, around, out)
}

#[cycle(walk)]
fn add_ends_in(
    block: &StripBlock,
    around: &Option<Around>,
    out: &mut Vec<EndSite>,
) -> Result<(), NoMemory>
    ensures { OnOk result (out.new.items ≡ out.old.items ++ sites_in around.now (plain_block block.now).list) }
{
    for statement in &block.list {
        add_ends_at(statement, around, out)?;
    }
    Ok(())
}

#[cycle(walk)]
fn add_ends_among(
    branches: &[StripBlock],
    around: &Option<Around>,
    out: &mut Vec<EndSite>,
) -> Result<(), NoMemory>
    ensures { OnOk result (out.new.items ≡ out.old.items ++ sites_among around.now (branches_of (map plain_block branches.now))) }
{
    for branch in branches {
        add_ends_in(branch, around, out)?;
    }
    Ok(())
}

#[cycle(walk)]
fn add_ends_of_choice(
    branches: &[StripBlock],
    at: &StripEnd,
    around: &Option<Around>,
    out: &mut Vec<EndSite>,
) -> Result<(), NoMemory>
    ensures { OnOk result (out.new.items ≡ out.old.items ++ (site around.now at.now ∷ sites_among around.now (branches_of (map plain_block branches.now)))) }
{
    add_end(at, around, out)?;
    add_ends_among(branches, around, out)
}

#[cycle(walk)]
fn add_ends_at(
    statement: &StripStatement,
    around: &Option<Around>,
    out: &mut Vec<EndSite>,
) -> Result<(), NoMemory>
    ensures { OnOk result (out.new.items ≡ out.old.items ++ sites_at around.now (plain_statement statement.now)) }
{
    match statement {
        StripStatement::Message { from, to, .. } => add_both_ends(from, to, around, out),
        StripStatement::Foreach { items, .. } => add_ends_in(items, around, out),
        StripStatement::Rec { body, .. } => add_ends_in(body, around, out),
        StripStatement::Choice { at, branches, .. } => {
            add_ends_of_choice(branches, at, around, out)
        }
        StripStatement::Compute { at, .. } => add_end(at, around, out),
        StripStatement::Broadcast { from, .. } => add_end(from, around, out),
        StripStatement::Reduce { to, .. } => add_end(to, around, out),
        StripStatement::Columns {
            var,
            low,
            high,
            body,
            ..
        } => add_ends_in(body, &around_by(var, low, high), out),
        StripStatement::Continue { .. }
        | StripStatement::Barrier { .. }
        | StripStatement::Allreduce { .. } => Ok(()),
    }
}

/// The ends of a file in its order, each with the `columns` around it.
pub fn collected_ends(alloc: Global, strips: &StripTree) -> Result<Vec<EndSite>, NoMemory>
    ensures { IfOk result (λ list. list.items ≡ sites (plain_file strips.now)) }
{
    let mut list = Vec::new(alloc);
    add_ends_in(&strips.body, &None, &mut list)?;
    Ok(list)
}
