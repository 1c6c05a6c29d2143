ghost use Rattle.std.specs.Prelude.{map};
ghost use Rattle.pb_strips_syntax.specs.Strips.{foreach, loop, choice, branches_of};
ghost use Rattle.pb_strips_syntax.specs.Plain.{plain_block, plain_statement};
ghost use Rattle.pb_strips_syntax.specs.Columns.{numbers};
ghost use Rattle.pb_strips_flatten.specs.Parts.{part_at, part_in, part_among, part_for, IsLeaf};
ghost use Rattle.pb_strips_flatten.specs.Ends.{written, offered, behind, Ends};

use crate::count::Count;
use crate::leaves::{iteration, named_loop, offer};
use crate::output::{Offer, Output};
use crate::round::Round;
use crate::stop::Stop;
use pb_strips_syntax::{StripBlock, StripEnd, StripStatement};
use pb_syntax::RangeText;
use pb_text::{Place, Spot};

/// Adds what comes of the statements of a block, in this copy.
#[cycle(flat)]
pub(crate) fn put_block(block: &StripBlock, round: Round, out: &mut Output) -> Result<(), Stop>
    ensures { Ends result (λ _. written out.new) (part_in (plain_block block.now).list round.value) (written out.old) }
{
    for statement in &block.list {
        put_statement(statement, round, out)?;
    }
    Ok(())
}

#[cycle(flat)]
fn put_statement(statement: &StripStatement, round: Round, out: &mut Output) -> Result<(), Stop>
    ensures { Ends result (λ _. written out.new) (part_at (plain_statement statement.now) round.value) (written out.old) }
{
    match statement {
        StripStatement::Foreach {
            place,
            var,
            range,
            items,
        } => put_foreach(items, round, *place, var, range, out),
        StripStatement::Rec { place, name, body } => put_loop(body, round, *place, name, out),
        StripStatement::Choice {
            place,
            kernel,
            at,
            branches,
        } => put_choice(branches, round, *place, kernel, at, out),
        StripStatement::Columns {
            low,
            high,
            body,
            ..
        } => put_columns(body, round, *low, *high, out),
        StripStatement::Message { .. }
        | StripStatement::Continue { .. }
        | StripStatement::Compute { .. }
        | StripStatement::Barrier { .. }
        | StripStatement::Broadcast { .. }
        | StripStatement::Reduce { .. }
        | StripStatement::Allreduce { .. } => put_leaf(statement, round, out),
    }
}

// Adds a statement without braces. It does nothing with others.
fn put_leaf(statement: &StripStatement, round: Round, out: &mut Output) -> Result<(), Stop>
    ensures { IsLeaf (plain_statement statement.now) → Ends result (λ _. written out.new) (part_at (plain_statement statement.now) round.value) (written out.old) }
{
    match statement {
        StripStatement::Message {
            label,
            payload,
            from,
            to,
        } => out.message(round, label, *payload, from, to),
        StripStatement::Continue { place, name } => out.again(round, *place, name),
        StripStatement::Compute { place, kernel, at } => out.compute(round, *place, kernel, at),
        StripStatement::Barrier { place } => out.barrier(round, *place),
        StripStatement::Broadcast {
            place,
            label,
            payload,
            from,
        } => out.broadcast(round, *place, label, *payload, from),
        StripStatement::Reduce {
            place,
            label,
            payload,
            op,
            to,
        } => out.reduce(round, *place, label, *payload, *op, to),
        StripStatement::Allreduce {
            place,
            label,
            payload,
            op,
        } => out.allreduce(round, *place, label, *payload, *op),
        StripStatement::Foreach { .. }
        | StripStatement::Rec { .. }
        | StripStatement::Choice { .. }
        | StripStatement::Columns { .. } => Ok(()),
    }
}

#[cycle(flat)]
fn put_foreach(
    items: &StripBlock,
    round: Round,
    place: Place,
    var: &Spot,
    range: &RangeText,
    out: &mut Output,
) -> Result<(), Stop>
    ensures { Ends result (λ _. written out.new) (part_at (foreach place var.now range.now (plain_block items.now).place (plain_block items.now).list) round.value) (written out.old) }
{
    out.count_one(place)?;
    let inner = inner_block(items, round, out.count)?;
    let Output { list, count } = inner;
    out.close(iteration(place, var, range, items.place, list), count)?;
    Ok(())
}

#[cycle(flat)]
fn put_loop(
    body: &StripBlock,
    round: Round,
    place: Place,
    name: &Spot,
    out: &mut Output,
) -> Result<(), Stop>
    ensures { Ends result (λ _. written out.new) (part_at (loop place name.now (plain_block body.now).place (plain_block body.now).list) round.value) (written out.old) }
{
    out.count_one(place)?;
    let inner = inner_block(body, round, out.count)?;
    let Output { list, count } = inner;
    out.close(named_loop(place, name, body.place, list), count)?;
    Ok(())
}

#[cycle(flat)]
fn put_choice(
    branches: &[StripBlock],
    round: Round,
    place: Place,
    kernel: &Spot,
    at: &StripEnd,
    out: &mut Output,
) -> Result<(), Stop>
    ensures { Ends result (λ _. written out.new) (part_at (choice place kernel.now at.now (branches_of (map plain_block branches.now))) round.value) (written out.old) }
{
    let at = round.end(at)?;
    out.count_one(place)?;
    let inner = inner_branches(branches, round, out.count)?;
    let Offer { list, count } = inner;
    out.close(offer(place, kernel, at, list), count)?;
    Ok(())
}

/// Adds what comes of a `columns`: its body once for each value, from the least one up.
#[cycle(flat)]
fn put_columns(
    body: &StripBlock,
    round: Round,
    low: u32,
    high: u32,
    out: &mut Output,
) -> Result<(), Stop>
    ensures { Ends result (λ _. written out.new) (part_for (numbers low high) (plain_block body.now).list) (written out.old) }
{
    if body.list.is_empty() {
        return Ok(());
    }
    for column in u64::from(low)..u64::from(high) + 1 {
        put_block(body, round.at(column as u32), out)?;
    }
    Ok(())
}

// The statements of a block that begins behind so many.
#[cycle(flat)]
fn inner_block(block: &StripBlock, round: Round, count: Count) -> Result<Output, Stop>
    ensures { Ends result (λ o. written o) (part_in (plain_block block.now).list round.value) (behind count.n) }
{
    let mut inner = Output::behind(round.alloc, count);
    put_block(block, round, &mut inner)?;
    Ok(inner)
}

#[cycle(flat)]
fn inner_branches(branches: &[StripBlock], round: Round, count: Count) -> Result<Offer, Stop>
    ensures { Ends result (λ o. offered o) (part_among (branches_of (map plain_block branches.now)) round.value) (behind count.n) }
{
    let mut offer = Offer {
        list: Vec::new(round.alloc),
        count,
    };
    for branch in branches {
        let inner = inner_block(branch, round, offer.count)?;
        offer.branch(branch.place, inner)?;
    }
    Ok(offer)
}
