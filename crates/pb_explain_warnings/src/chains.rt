//! Exchanges in one role that are written as chains.

use pb_explain_source::{Page, Part};
use pb_explain_tree::is_same;
use pb_syntax::{End, IndexText, Statement};
use pb_text::{Name, NoMemory, Spot};

/// What an end's index adds to the variable that the message binds.
fn offset(end: &End, variable: &Name) -> Option<i64> {
    match &end.index {
        IndexText::Zero => None,
        IndexText::Bind(_, _) => Some(0),
        IndexText::At(lin) => {
            let base = lin.base.as_ref()?;
            if is_same(&base.name, variable) {
                Some(i64::from(lin.off))
            } else {
                None
            }
        }
    }
}

/// The variable that an end binds.
fn bound(end: &End) -> Option<Name> {
    match &end.index {
        IndexText::Bind(variable, _) => Some(variable.name),
        IndexText::Zero | IndexText::At(_) => None,
    }
}

/// How far a message of a role to itself goes for each value of its variable.
#[derive(Drop)]
struct Shift<'a> {
    label: &'a Spot,
    role: &'a Name,
    by: i64,
}

fn shift_of(statement: &Statement) -> Option<Shift<'_>> {
    let Statement::Message {
        label,
        from,
        to,
        ..
    } = statement
    else {
        return None;
    };
    if !is_same(&from.role.name, &to.role.name) {
        return None;
    }
    let variable = match bound(from) {
        Some(variable) => variable,
        None => bound(to)?,
    };
    let here = offset(from, &variable)?;
    let there = offset(to, &variable)?;
    Some(Shift {
        label,
        role: &from.role.name,
        by: there.saturating_sub(here),
    })
}

/// Whether the one goes up, the other down, and both carry one label in one role.
fn is_exchange(up: &Shift, down: &Shift) -> bool {
    up.by > 0
        && down.by < 0
        && is_same(up.role, down.role)
        && is_same(&up.label.name, &down.label.name)
}

/// Writes a warning where the statement passes a message up one role, and the next one the same label down.
pub fn warn_chain(
    page: &mut Page,
    statement: &Statement,
    next: Option<&Statement>,
) -> Result<(), NoMemory> {
    let Some(next) = next else {
        return Ok(());
    };
    let (Some(up), Some(down)) = (shift_of(statement), shift_of(next)) else {
        return Ok(());
    };
    if !is_exchange(&up, &down) {
        return Ok(());
    }
    page.warn(
        up.label.place,
        &[
            Part::Text("these messages go one after the other: each rank of `"),
            Part::Name(up.role),
            Part::Text("` receives before it sends"),
        ],
    )?;
    page.note(
        down.label.place,
        &[Part::Text("the next statement goes the other way, as in an exchange")],
    )?;
    page.help(&[Part::Text(
        "with the ranks in two roles, as `Even[0..N-1]` and `Odd[0..N-1]`, the messages of each pair run at once",
    )])
}
