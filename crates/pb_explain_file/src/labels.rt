//! Rule 2: a label has one payload.

use crate::words::say_payload;
use pb_explain_source::{Page, Part};
use pb_explain_tree::is_same;
use pb_syntax::{Block, FileTree, Op, Payload, Statement};
use pb_text::{NoMemory, Place, Spot};
use std::alloc::Global;

/// What a labelled statement is.
#[derive(Clone, Copy)]
enum Sort {
    Message,
    Broadcast,
    Reduction(Op),
}

/// A label with its payload.
#[derive(Clone, Copy)]
struct Labelled {
    label: Spot,
    payload: Payload,
    sort: Sort,
}

#[cycle(labels)]
fn add_in(block: &Block, out: &mut Vec<Labelled>) -> Result<(), NoMemory> {
    for statement in &block.list {
        add_at(statement, out)?;
    }
    Ok(())
}

#[cycle(labels)]
fn add_among(branches: &[Block], out: &mut Vec<Labelled>) -> Result<(), NoMemory> {
    for branch in branches {
        add_in(branch, out)?;
    }
    Ok(())
}

fn add(label: Spot, payload: Payload, sort: Sort, out: &mut Vec<Labelled>) -> Result<(), NoMemory> {
    out.push(Labelled {
        label,
        payload,
        sort,
    })?;
    Ok(())
}

#[cycle(labels)]
fn add_at(statement: &Statement, out: &mut Vec<Labelled>) -> Result<(), NoMemory> {
    match statement {
        Statement::Message { label, payload, .. } => add(*label, *payload, Sort::Message, out),
        Statement::Broadcast { label, payload, .. } => {
            add(*label, *payload, Sort::Broadcast, out)
        }
        Statement::Reduce {
            label,
            payload,
            op,
            ..
        } => add(*label, *payload, Sort::Reduction(*op), out),
        Statement::Allreduce {
            label,
            payload,
            op,
            ..
        } => add(*label, *payload, Sort::Reduction(*op), out),
        Statement::Foreach { items, .. } => add_in(items, out),
        Statement::Rec { body, .. } => add_in(body, out),
        Statement::Choice { branches, .. } => add_among(branches, out),
        Statement::Continue { .. } | Statement::Compute { .. } | Statement::Barrier { .. } => {
            Ok(())
        }
    }
}

fn labelled_at(all: &[Labelled], place: Place) -> Option<Labelled> {
    for one in all {
        if one.label.place == place {
            return Some(*one);
        }
    }
    None
}

/// Where the label stands first.
fn first_of(all: &[Labelled], here: &Labelled) -> Option<Labelled> {
    for one in all {
        if is_same(&one.label.name, &here.label.name) {
            return Some(*one);
        }
    }
    None
}

/// A collective without numbers.
fn tell_empty(page: &mut Page, here: &Labelled) -> Result<(), NoMemory> {
    page.point(
        here.label.place,
        &[
            Part::Text("rule 2: `"),
            Part::Name(&here.label.name),
            Part::Text("` carries nothing, and a broadcast or a reduction has numbers"),
        ],
    )?;
    page.help(&[Part::Text(
        "give it a payload such as `(int32)`; where all ranks only wait for each other, write `barrier;`",
    )])
}

/// A sum of signed numbers.
fn tell_sum(page: &mut Page, here: &Labelled) -> Result<(), NoMemory> {
    page.point(
        here.label.place,
        &[
            Part::Text("rule 2: `"),
            Part::Name(&here.label.name),
            Part::Text("` is a sum of `int32`, and `sum` goes with `uint32` alone"),
        ],
    )?;
    page.help(&[Part::Text(
        "write `uint32`: sums are taken modulo 2^32, which is the sum of signed numbers too, read back as such",
    )])
}

/// Two payloads of one label.
fn tell_two(page: &mut Page, here: &Labelled, first: &Labelled) -> Result<(), NoMemory> {
    page.open(here.label.place)?;
    page.say(&[
        Part::Text("rule 2: `"),
        Part::Name(&here.label.name),
        Part::Text("` carries "),
    ])?;
    say_payload(page, here.payload)?;
    page.say(&[Part::Text(" here, and ")])?;
    say_payload(page, first.payload)?;
    page.say(&[Part::Text(" where it stands first")])?;
    page.close(here.label.place)?;
    page.note(first.label.place, &[Part::Text("it stands first here")])?;
    page.help(&[Part::Text(
        "a label has one payload in the whole file: write the same one, or take another label",
    )])
}

/// Writes why the label at the place breaks rule 2.
pub fn tell_label(
    alloc: Global,
    page: &mut Page,
    file: &FileTree,
    place: Place,
) -> Result<(), NoMemory> {
    let mut all = Vec::new(alloc);
    add_in(&file.body, &mut all)?;
    let Some(here) = labelled_at(all.as_slice(), place) else {
        return Ok(());
    };
    if !matches!(here.sort, Sort::Message) && here.payload == Payload::Unit {
        return tell_empty(page, &here);
    }
    if matches!(here.sort, Sort::Reduction(Op::Sum)) && matches!(here.payload, Payload::Int32(_)) {
        return tell_sum(page, &here);
    }
    match first_of(all.as_slice(), &here) {
        Some(first) => tell_two(page, &here, &first),
        None => Ok(()),
    }
}
