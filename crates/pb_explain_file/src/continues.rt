//! Rule 3: a `continue` is last and inside its loop.

use pb_explain_source::{Page, Part};
use pb_explain_tree::{Step, is_same, path_to, place_of};
use pb_syntax::{FileTree, Statement};
use pb_text::{Name, NoMemory, Place, Spot};
use std::alloc::Global;

/// Appends the names of the loops around, innermost last, and tells how many there are.
fn say_loops(page: &mut Page, path: &[Step]) -> Result<usize, NoMemory> {
    let mut count = 0usize;
    for step in path {
        if let Statement::Rec { name, .. } = step.statement {
            page.say(&[
                Part::Text(if count > 0 { ", `" } else { "`" }),
                Part::Name(&name.name),
                Part::Text("`"),
            ])?;
            count = count.saturating_add(1);
        }
    }
    Ok(count)
}

/// Whether the loop is one of those around.
fn is_inside(path: &[Step], loop_name: &Spot) -> bool {
    for step in path {
        if let Statement::Rec { name, .. } = step.statement
            && is_same(&name.name, &loop_name.name)
        {
            return true;
        }
    }
    false
}

/// Appends the loops that are open.
fn help_around(page: &mut Page, loops: &[u8]) -> Result<(), NoMemory> {
    page.help(&[Part::Text("the loops around it are "), Part::Bytes(loops)])
}

/// Appends the remedy where no loop is open.
fn help_open(page: &mut Page, name: &Name) -> Result<(), NoMemory> {
    page.help(&[
        Part::Text("no loop is open here: put it inside of `rec "),
        Part::Name(name),
        Part::Text(" { .. }`"),
    ])
}

/// The `continue` stands in no loop of its name.
fn tell_outside(
    alloc: Global,
    page: &mut Page,
    path: &[Step],
    name: &Spot,
    place: Place,
) -> Result<(), NoMemory> {
    page.point(
        place,
        &[
            Part::Text("rule 3: this `continue` stands in no loop `"),
            Part::Name(&name.name),
            Part::Text("`"),
        ],
    )?;
    let mut loops = Page::new(alloc);
    let count = say_loops(&mut loops, path)?;
    if count == 0 {
        return help_open(page, &name.name);
    }
    help_around(page, loops.words())
}

/// The `continue` isn't the last statement of its block.
fn tell_early(page: &mut Page, next: Option<&Statement>, place: Place) -> Result<(), NoMemory> {
    page.point(
        place,
        &[Part::Text("rule 3: this `continue` isn't the last statement of its block")],
    )?;
    if let Some(next) = next {
        page.note(
            place_of(next),
            &[Part::Text("what stands behind it would never be done")],
        )?;
    }
    page.help(&[Part::Text(
        "move what follows in front of the `continue`, or into a branch of a choice that doesn't continue",
    )])
}

/// Writes why the `continue` at the place breaks rule 3.
pub fn tell_continue(
    alloc: Global,
    page: &mut Page,
    file: &FileTree,
    place: Place,
) -> Result<(), NoMemory> {
    let path = path_to(alloc, &file.body, place)?;
    let Some(step) = path.last() else {
        return Ok(());
    };
    let Statement::Continue { name, .. } = step.statement else {
        return Ok(());
    };
    if is_inside(path.as_slice(), name) {
        tell_early(page, step.next, place)
    } else {
        tell_outside(alloc, page, path.as_slice(), name, place)
    }
}
