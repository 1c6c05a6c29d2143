//! What a rank may find first in a block.

use crate::found::{Deed, Found};
use crate::iterations::{in_foreach, in_plain};
use crate::scope::{Open, takes_in, takes_loop};
use crate::seat::Seat;
use pb_syntax::{Block, Statement};
use pb_text::{Name, NoMemory, Place};

/// Adds a finding. Nothing behind it is found first.
fn add(
    out: &mut Vec<Found>,
    deed: Deed,
    name: Option<Name>,
    place: Place,
) -> Result<bool, NoMemory> {
    out.push(Found {
        deed,
        name,
        place,
        source: None,
    })?;
    Ok(false)
}

fn add_some(out: &mut Vec<Found>, found: Option<Found>) -> Result<bool, NoMemory> {
    match found {
        Some(found) => {
            let _name = &found.name;
            out.push(found)?;
            Ok(false)
        }
        None => Ok(true),
    }
}

/// Adds what the rank may find first in the block, and tells whether it may find nothing there.
#[cycle(firsts)]
pub fn firsts_in(
    block: &Block,
    seat: &Seat,
    loops: &mut Vec<Open>,
    out: &mut Vec<Found>,
) -> Result<bool, NoMemory> {
    for statement in &block.list {
        if !firsts_at(statement, seat, loops, out)? {
            return Ok(false);
        }
    }
    Ok(true)
}

#[cycle(firsts)]
fn firsts_among(
    branches: &[Block],
    seat: &Seat,
    loops: &mut Vec<Open>,
    out: &mut Vec<Found>,
) -> Result<bool, NoMemory> {
    let mut is_open = false;
    for branch in branches {
        if firsts_in(branch, seat, loops, out)? {
            is_open = true;
        }
    }
    Ok(is_open)
}

#[cycle(firsts)]
fn firsts_in_loop(
    body: &Block,
    name: &Name,
    seat: &Seat,
    loops: &mut Vec<Open>,
    out: &mut Vec<Found>,
) -> Result<bool, NoMemory> {
    let takes = takes_in(body, seat, loops.as_slice());
    if !takes {
        return Ok(true);
    }
    loops.push(Open { name: *name, takes })?;
    let is_open = firsts_in(body, seat, loops, out)?;
    loops.pop();
    Ok(is_open)
}

#[cycle(firsts)]
fn firsts_at(
    statement: &Statement,
    seat: &Seat,
    loops: &mut Vec<Open>,
    out: &mut Vec<Found>,
) -> Result<bool, NoMemory> {
    match statement {
        Statement::Message {
            label,
            from,
            to,
            ..
        } => { add_some(out, in_plain(seat, label, from, to)) }
        Statement::Foreach {
            var,
            range,
            items,
            ..
        } => add_some(out, in_foreach(seat, var, range, items)),
        Statement::Rec { name, body, .. } => { firsts_in_loop(body, &name.name, seat, loops, out) }
        Statement::Continue { name, place } => {
            if takes_loop(loops.as_slice(), &name.name) {
                add(out, Deed::Continues, Some(name.name), *place)
            } else {
                Ok(true)
            }
        }
        Statement::Choice {
            place,
            kernel,
            at,
            branches,
        } => {
            if seat.is(at, None) {
                add(out, Deed::Chooses, Some(kernel.name), *place)
            } else {
                firsts_among(branches, seat, loops, out)
            }
        }
        Statement::Compute { place, kernel, at } => {
            if seat.is(at, None) {
                add(out, Deed::Computes, Some(kernel.name), *place)
            } else {
                Ok(true)
            }
        }
        Statement::Barrier { place } => add(out, Deed::Enters, None, *place),
        Statement::Broadcast { place, label, .. }
        | Statement::Reduce { place, label, .. }
        | Statement::Allreduce { place, label, .. } => {
            add(out, Deed::Enters, Some(label.name), *place)
        }
    }
}
