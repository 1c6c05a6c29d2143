//! Rule 6: each role has an index.

use crate::setting::{Setting, Span};
use pb_explain_source::{Page, Part};
use pb_explain_tree::is_same;
use pb_syntax::{LinText, RangeText, RoleText};
use pb_text::{NoMemory, Place};

fn role_at<'a>(setting: &Setting<'a>, place: Place) -> Option<&'a RoleText> {
    for role in &setting.file.roles {
        if role.role.place == place {
            return Some(role);
        }
    }
    None
}

fn moves(setting: &Setting, lin: &LinText) -> bool {
    match &lin.base {
        Some(base) => is_same(&base.name, &setting.file.constant.name),
        None => false,
    }
}

/// The number from which on the range isn't empty, or up to which.
fn help_range(page: &mut Page, setting: &Setting, range: &RangeText) -> Result<(), NoMemory> {
    let low = i64::from(range.low.off);
    let high = i64::from(range.high.off);
    match (moves(setting, &range.low), moves(setting, &range.high)) {
        (false, true) => page.help(&[
            Part::Text("let `"),
            Part::Name(&setting.file.constant.name),
            Part::Text("` begin at "),
            Part::Number(low.saturating_sub(high)),
            Part::Text(" or higher"),
        ]),
        (true, false) => page.help(&[
            Part::Text("let `"),
            Part::Name(&setting.file.constant.name),
            Part::Text("` end at "),
            Part::Number(high.saturating_sub(low)),
            Part::Text(" or lower"),
        ]),
        (true, true) | (false, false) => {
            page.help(&[Part::Text("a range goes from its lesser end to its greater end")])
        }
    }
}

/// Writes why the role declared at the place breaks rule 6.
pub fn tell_role(page: &mut Page, setting: &Setting, place: Place) -> Result<(), NoMemory> {
    let Some(role) = role_at(setting, place) else {
        return Ok(());
    };
    let Some(range) = &role.range else {
        return Ok(());
    };
    let span = setting.span(range).unwrap_or(Span { low: 0, high: 0 });
    page.point(
        place,
        &[
            Part::Text("rule 6: at N = "),
            Part::Number(setting.n),
            Part::Text(" the role `"),
            Part::Name(&role.role.name),
            Part::Text("` has no index: its range "),
            Part::Range(range),
            Part::Text(" is "),
            Part::Number(span.low),
            Part::Text(".."),
            Part::Number(span.high),
            Part::Text(" there"),
        ],
    )?;
    help_range(page, setting, range)
}
