//! Rule 8: sender and receiver of a message differ.

use crate::ends::{Moved, range_around, say_moved, say_with, variable_of};
use crate::setting::{Setting, say_rank};
use pb_explain_source::{Page, Part};
use pb_explain_tree::path_to;
use pb_syntax::{End, RangeText, Statement};
use pb_text::{Name, NoMemory, Place};
use std::alloc::Global;

/// Says how the variable's range leaves the value out.
fn help_value(
    page: &mut Page,
    setting: &Setting,
    range: Option<&RangeText>,
    moved: &Moved,
    value: i64,
) -> Result<(), NoMemory> {
    let ends = match range {
        Some(range) => setting.span(range),
        None => None,
    };
    page.say(&[
        Part::Text("help: leave this value out of the range of `"),
        Part::Name(&moved.name),
        Part::Text("`"),
    ])?;
    match (range, ends) {
        (Some(range), Some(span)) if span.low == value => {
            page.say(&[Part::Text(": begin at `")])?;
            say_moved(page, Some(&range.low), 1)?;
        }
        (Some(range), Some(span)) if span.high == value => {
            page.say(&[Part::Text(": run up to `")])?;
            say_moved(page, Some(&range.high), -1)?;
        }
        _ => return page.say(&[Part::Text("\n")]),
    }
    page.say(&[Part::Text("`\n")])
}

/// Says from which N on the ends differ.
fn help_constant(page: &mut Page, constant: &Name, n: i64) -> Result<(), NoMemory> {
    page.help(&[
        Part::Text("let `"),
        Part::Name(constant),
        Part::Text("` begin at "),
        Part::Number(n),
        Part::Text(", or choose ends that differ at each of its values"),
    ])
}

/// Says how an end of a role is another rank than its first one.
fn help_role(page: &mut Page, role: &Name) -> Result<(), NoMemory> {
    page.help(&[
        Part::Text("choose two ends that differ; `"),
        Part::Name(role),
        Part::Text("` alone is `"),
        Part::Rank(role, 0),
        Part::Text("`, and many ranks are `"),
        Part::Name(role),
        Part::Text("[i:1..N-1]`, say"),
    ])
}

/// Says how ends without a variable differ that are one rank at N: from the next N on, or by other indices.
fn help_ends(page: &mut Page, setting: &Setting, from: &End, to: &End) -> Result<(), NoMemory> {
    let next = Setting {
        file: setting.file,
        n: setting.n.saturating_add(1),
    };
    if next.index(from, None) == next.index(to, None) {
        return help_role(page, &to.role.name);
    }
    help_constant(page, &setting.file.constant.name, next.n)
}

/// Writes why the message with its label at the place breaks rule 8, where this rank is both.
pub fn tell_same(
    alloc: Global,
    page: &mut Page,
    setting: &Setting,
    place: Place,
    role: &Name,
    index: i64,
) -> Result<(), NoMemory> {
    let path = path_to(alloc, &setting.file.body, place)?;
    let Some(step) = path.last() else {
        return Ok(());
    };
    let Statement::Message {
        label,
        from,
        to,
        ..
    } = step.statement
    else {
        return Ok(());
    };
    let moved = match variable_of(setting, from) {
        Some(moved) => Some(moved),
        None => variable_of(setting, to),
    };
    page.open(place)?;
    page.say(&[Part::Text("rule 8: at N = "), Part::Number(setting.n)])?;
    if let Some(moved) = &moved {
        say_with(page, moved, index)?;
    }
    page.say(&[Part::Text(" ")])?;
    say_rank(page, setting, role, index)?;
    page.say(&[
        Part::Text(" would send `"),
        Part::Name(&label.name),
        Part::Text("` to itself: it is both `"),
        Part::End(from),
        Part::Text("` and `"),
        Part::End(to),
        Part::Text("`"),
    ])?;
    page.close(place)?;
    match &moved {
        Some(moved) => {
            let value = index.saturating_sub(moved.off);
            help_value(page, setting, range_around(path.as_slice()), moved, value)
        }
        None => help_ends(page, setting, from, to),
    }
}
