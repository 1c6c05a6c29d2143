use crate::firsts::firsts_in;
use crate::found::{Deed, Found};
use crate::scope::{Open, loops_on};
use crate::seat::Seat;
use crate::tell::{tell_labels, tell_nothing, tell_other, tell_sources};
use pb_explain_ranks::Setting;
use pb_explain_source::Page;
use pb_explain_tree::{Step, path_to};
use pb_syntax::{Block, End, Statement};
use pb_text::{Name, NoMemory, Place};
use std::alloc::Global;

/// What the rank finds first in a branch.
fn found_in(
    alloc: Global,
    branch: &Block,
    seat: &Seat,
    loops: &mut Vec<Open>,
) -> Result<Vec<Found>, NoMemory> {
    let mut out = Vec::new(alloc);
    let _is_open = firsts_in(branch, seat, loops, &mut out)?;
    Ok(out)
}

/// What the rank finds first in the branches before the one at the place.
fn found_before(
    alloc: Global,
    branches: &[Block],
    place: Place,
    seat: &Seat,
    loops: &mut Vec<Open>,
) -> Result<Vec<Found>, NoMemory> {
    let mut out = Vec::new(alloc);
    for branch in branches {
        if branch.place == place {
            break;
        }
        let _is_open = firsts_in(branch, seat, loops, &mut out)?;
    }
    Ok(out)
}

/// What the rank finds first in some branch.
fn found_elsewhere(
    alloc: Global,
    branches: &[Block],
    seat: &Seat,
    loops: &mut Vec<Open>,
) -> Result<Option<Found>, NoMemory> {
    for branch in branches {
        let found = found_in(alloc, branch, seat, loops)?;
        if let Some(first) = found.first() {
            return Ok(Some(*first));
        }
    }
    Ok(None)
}

/// The branch at the place.
fn branch_at(branches: &[Block], place: Place) -> Option<&Block> {
    for branch in branches {
        if branch.place == place {
            return Some(branch);
        }
    }
    None
}

/// The first of them that isn't a message to the rank.
fn other(found: &[Found]) -> Option<Found> {
    for one in found {
        if !matches!(one.deed, Deed::Receives) {
            return Some(*one);
        }
    }
    None
}

/// A branch of a choice, and the choice.
#[derive(Clone, Copy)]
struct Chosen<'a> {
    place: Place,
    chooser: &'a End,
    branches: &'a [Block],
    branch: &'a Block,
}

/// Writes that the rank isn't told of the branch: it finds something else first, or nothing.
fn tell_ten(
    alloc: Global,
    page: &mut Page,
    seat: &Seat,
    chosen: &Chosen,
    here: &[Found],
    loops: &mut Vec<Open>,
) -> Result<(), NoMemory> {
    match other(here) {
        Some(found) => tell_other(page, seat, chosen.place, chosen.chooser, &found),
        None => {
            let elsewhere = found_elsewhere(alloc, chosen.branches, seat, loops)?;
            tell_nothing(page, seat, chosen.place, chosen.chooser, elsewhere.as_ref())
        }
    }
}

/// Writes that the rank is told of the choice by two ranks.
fn tell_eleven(
    alloc: Global,
    page: &mut Page,
    seat: &Seat,
    chosen: &Chosen,
    loops: &mut Vec<Open>,
) -> Result<(), NoMemory> {
    let mut all = found_before(alloc, chosen.branches, chosen.place, seat, loops)?;
    let _is_open = firsts_in(chosen.branch, seat, loops, &mut all)?;
    tell_sources(page, seat, chosen.place, all.as_slice())
}

/// Writes that the branch begins with the label of an earlier one.
fn tell_twelve(
    alloc: Global,
    page: &mut Page,
    seat: &Seat,
    chosen: &Chosen,
    here: &[Found],
    loops: &mut Vec<Open>,
) -> Result<(), NoMemory> {
    let before = found_before(alloc, chosen.branches, chosen.place, seat, loops)?;
    tell_labels(page, seat, chosen.place, before.as_slice(), here)
}

/// Writes why the branch breaks this rule, where these loops are around it.
fn tell_chosen(
    alloc: Global,
    page: &mut Page,
    seat: &Seat,
    rule: u8,
    chosen: &Chosen,
    loops: &mut Vec<Open>,
) -> Result<(), NoMemory> {
    let here = found_in(alloc, chosen.branch, seat, loops)?;
    match rule {
        10 => tell_ten(alloc, page, seat, chosen, here.as_slice(), loops),
        11 => tell_eleven(alloc, page, seat, chosen, loops),
        12 => tell_twelve(alloc, page, seat, chosen, here.as_slice(), loops),
        _ => Ok(()),
    }
}

/// Writes why the branch that opens at the place breaks this rule, where the path leads to its choice.
fn tell_choice_on(
    alloc: Global,
    page: &mut Page,
    seat: &Seat,
    rule: u8,
    place: Place,
    path: &[Step],
) -> Result<(), NoMemory> {
    let Some(step) = path.last() else {
        return Ok(());
    };
    let Statement::Choice { at, branches, .. } = step.statement else {
        return Ok(());
    };
    let Some(branch) = branch_at(branches, place) else {
        return Ok(());
    };
    let chosen = Chosen {
        place,
        chooser: at,
        branches,
        branch,
    };
    let mut loops = loops_on(alloc, path, seat)?;
    tell_chosen(alloc, page, seat, rule, &chosen, &mut loops)
}

/// Writes why the branch that opens at the place breaks this rule, one from 10 to 12, at the N of the setting for this rank.
/// Nothing is written for another rule, nor where no branch opens there.
pub fn tell_choice_rule(
    alloc: Global,
    page: &mut Page,
    setting: &Setting,
    rule: u8,
    place: Place,
    role: Name,
    index: i64,
) -> Result<(), NoMemory> {
    let seat = Seat {
        setting: *setting,
        role,
        index,
    };
    let path = path_to(alloc, &setting.file.body, place)?;
    tell_choice_on(alloc, page, &seat, rule, place, path.as_slice())
}
