//! Rule 7: each end has an index of its role.

use crate::setting::{Setting, Span};
use pb_explain_source::{Page, Part};
use pb_explain_tree::{Step, is_same, path_to};
use pb_syntax::{End, IndexText, LinText, RangeText, RoleText, Statement};
use pb_text::{Name, NoMemory, Place};
use std::alloc::Global;

/// The end of the statement at the place.
fn end_at(statement: &Statement, place: Place) -> Option<&End> {
    match statement {
        Statement::Message { from, to, .. } => {
            if from.role.place == place {
                Some(from)
            } else {
                Some(to)
            }
        }
        Statement::Choice { at, .. } | Statement::Compute { at, .. } => Some(at),
        Statement::Broadcast { from, .. } => Some(from),
        Statement::Reduce { to, .. } => Some(to),
        Statement::Foreach { .. }
        | Statement::Rec { .. }
        | Statement::Continue { .. }
        | Statement::Barrier { .. }
        | Statement::Allreduce { .. } => None,
    }
}

/// A variable of an end, and what is added to it there.
#[derive(Clone, Copy)]
pub struct Moved {
    pub name: Name,
    pub off: i64,
}

/// The variable on which the end's index depends.
pub fn variable_of(setting: &Setting, end: &End) -> Option<Moved> {
    match &end.index {
        IndexText::Zero => None,
        IndexText::Bind(variable, _) => Some(Moved {
            name: variable.name,
            off: 0,
        }),
        IndexText::At(lin) => {
            let base = lin.base.as_ref()?;
            if is_same(&base.name, &setting.file.constant.name) {
                return None;
            }
            Some(Moved {
                name: base.name,
                off: i64::from(lin.off),
            })
        }
    }
}

/// The range that a binding end runs over.
fn bound_range(end: &End) -> Option<&RangeText> {
    match &end.index {
        IndexText::Bind(_, range) => Some(range),
        IndexText::Zero | IndexText::At(_) => None,
    }
}

/// The range over which the variables of the last statement on the way run.
pub fn range_around<'a>(path: &[Step<'a>]) -> Option<&'a RangeText> {
    for step in path.iter().rev() {
        match step.statement {
            Statement::Foreach { range, .. } => return Some(range),
            Statement::Message { from, to, .. } => {
                if let Some(range) = bound_range(from) {
                    return Some(range);
                }
                if let Some(range) = bound_range(to) {
                    return Some(range);
                }
            }
            Statement::Rec { .. }
            | Statement::Continue { .. }
            | Statement::Choice { .. }
            | Statement::Compute { .. }
            | Statement::Barrier { .. }
            | Statement::Broadcast { .. }
            | Statement::Reduce { .. }
            | Statement::Allreduce { .. } => {}
        }
    }
    None
}

/// Appends the role's range, with its values.
fn say_range(page: &mut Page, role: &RoleText, span: Span) -> Result<(), NoMemory> {
    match &role.range {
        None => page.say(&[
            Part::Name(&role.role.name),
            Part::Text("` has the index 0 alone"),
        ]),
        Some(range) => page.say(&[
            Part::Name(&role.role.name),
            Part::Text("` has the indices "),
            Part::Range(range),
            Part::Text(", there "),
            Part::Number(span.low),
            Part::Text(".."),
            Part::Number(span.high),
        ]),
    }
}

/// Appends a lin with another offset.
pub fn say_moved(page: &mut Page, lin: Option<&LinText>, by: i64) -> Result<(), NoMemory> {
    let Some(lin) = lin else {
        return page.say(&[Part::Number(by)]);
    };
    let off = i64::from(lin.off).saturating_add(by);
    let Some(base) = &lin.base else {
        return page.say(&[Part::Number(off)]);
    };
    page.say(&[Part::Name(&base.name)])?;
    if off == 0 {
        return Ok(());
    }
    page.say(&[
        Part::Text(if off > 0 { "+" } else { "" }),
        Part::Number(off),
    ])
}

/// Says how far the variable may run.
fn help_variable(
    page: &mut Page,
    role: &RoleText,
    span: Span,
    moved: &Moved,
    index: i64,
) -> Result<(), NoMemory> {
    let is_above = index > span.high;
    page.say(&[
        Part::Text("help: let `"),
        Part::Name(&moved.name),
        Part::Text(if is_above {
            "` run up to `"
        } else {
            "` begin at `"
        }),
    ])?;
    let limit = match &role.range {
        Some(range) if is_above => Some(&range.high),
        Some(range) => Some(&range.low),
        None => None,
    };
    say_moved(page, limit, 0i64.saturating_sub(moved.off))?;
    page.say(&[Part::Text(if is_above {
        "` at most\n"
    } else {
        "` at least\n"
    })])
}

/// Appends the variable's value.
pub fn say_with(page: &mut Page, moved: &Moved, index: i64) -> Result<(), NoMemory> {
    page.say(&[
        Part::Text(" with "),
        Part::Name(&moved.name),
        Part::Text(" = "),
        Part::Number(index.saturating_sub(moved.off)),
    ])
}

/// Appends which rank an end with a variable would be.
fn say_moved_end(page: &mut Page, end: &End, index: i64) -> Result<(), NoMemory> {
    page.say(&[
        Part::Text(" the end `"),
        Part::End(end),
        Part::Text("` is `"),
        Part::Rank(&end.role.name, index),
        Part::Text("`, and `"),
    ])
}

/// Appends which rank the end would be.
fn say_end(page: &mut Page, end: &End, moved: Option<&Moved>, index: i64) -> Result<(), NoMemory> {
    match moved {
        Some(moved) => {
            say_with(page, moved, index)?;
            say_moved_end(page, end, index)
        }
        None => page.say(&[
            Part::Text(" there is no `"),
            Part::Rank(&end.role.name, index),
            Part::Text("`: `"),
        ]),
    }
}

/// How far above the N's that are looked at the last one is.
const FAR: i64 = 1_000_000;

/// Whether the end's index is one of the role's at N.
fn is_there(setting: &Setting, role: &RoleText, end: &End) -> bool {
    match (setting.indices(role), setting.index(end, None)) {
        (Some(span), Some(index)) => span.has(index),
        _ => false,
    }
}

/// The number N from which on the end's index, which is this one at an N without it, is one of the role's.
fn first_with(setting: &Setting, role: &RoleText, end: &End, index: i64) -> Option<i64> {
    let span = setting.indices(role)?;
    let short = if index > span.high {
        index.saturating_sub(span.high)
    } else {
        span.low.saturating_sub(index)
    };
    let n = setting.n.saturating_add(short);
    let first = Setting {
        file: setting.file,
        n,
    };
    let last = Setting {
        file: setting.file,
        n: n.saturating_add(FAR),
    };
    if is_there(&first, role, end) && is_there(&last, role, end) {
        Some(n)
    } else {
        None
    }
}

/// Says from which N on there is an index.
fn help_constant(page: &mut Page, constant: &Name, n: i64) -> Result<(), NoMemory> {
    page.help(&[
        Part::Text("let `"),
        Part::Name(constant),
        Part::Text("` begin at "),
        Part::Number(n),
        Part::Text(" or higher, or take another index of the role"),
    ])
}

/// Says which index there is, where N doesn't help.
fn help_role(page: &mut Page, role: &RoleText) -> Result<(), NoMemory> {
    match &role.range {
        None => page.help(&[
            Part::Text("write `"),
            Part::Name(&role.role.name),
            Part::Text("` alone: it is one rank"),
        ]),
        Some(_) => page.help(&[Part::Text("take an index that the role has at each N")]),
    }
}

/// Writes why the end at the place breaks rule 7, where its index is this.
pub fn tell_end(
    alloc: Global,
    page: &mut Page,
    setting: &Setting,
    place: Place,
    index: i64,
) -> Result<(), NoMemory> {
    let path = path_to(alloc, &setting.file.body, place)?;
    let Some(step) = path.last() else {
        return Ok(());
    };
    let Some(end) = end_at(step.statement, place) else {
        return Ok(());
    };
    let Some(role) = setting.role(&end.role.name) else {
        return Ok(());
    };
    let span = setting.indices(role).unwrap_or(Span { low: 0, high: 0 });
    let moved = variable_of(setting, end);
    page.open(place)?;
    page.say(&[Part::Text("rule 7: at N = "), Part::Number(setting.n)])?;
    say_end(page, end, moved.as_ref(), index)?;
    say_range(page, role, span)?;
    page.close(place)?;
    match &moved {
        Some(moved) => {
            if let Some(range) = range_around(path.as_slice())
                && range.low.place.line != place.line
            {
                page.note(
                    range.low.place,
                    &[Part::Text("this is the variable's range")],
                )?;
            }
            help_variable(page, role, span, moved, index)
        }
        None => match first_with(setting, role, end, index) {
            Some(n) => help_constant(page, &setting.file.constant.name, n),
            None => help_role(page, role),
        },
    }
}
