//! In which iteration a rank is an end of a message first.

use crate::found::{Deed, Found, From};
use crate::seat::Seat;
use pb_explain_ranks::{Bound, Span};
use pb_explain_tree::is_same;
use pb_syntax::{Block, End, IndexText, RangeText, Statement};
use pb_text::{Name, Spot};

/// A finding, and its iteration.
#[derive(Clone, Copy)]
pub struct Timed {
    pub iteration: i64,
    pub found: Found,
}

/// The first iteration in which an end is the rank.
fn iteration(seat: &Seat, end: &End, variable: &Name, span: Span) -> Option<i64> {
    if !is_same(&end.role.name, &seat.role) {
        return None;
    }
    let at = match &end.index {
        IndexText::Bind(_, _) => seat.index,
        IndexText::At(lin) => match &lin.base {
            Some(base) if is_same(&base.name, variable) => {
                seat.index.saturating_sub(i64::from(lin.off))
            }
            _ => span.low,
        },
        IndexText::Zero => span.low,
    };
    let bound = Bound {
        name: *variable,
        value: at,
    };
    if span.has(at) && seat.is(end, Some(&bound)) {
        Some(at)
    } else {
        None
    }
}

/// The sender of a message in an iteration.
fn sender(seat: &Seat, from: &End, variable: &Name, iteration: i64) -> Option<From> {
    let bound = Bound {
        name: *variable,
        value: iteration,
    };
    let index = seat.setting.index(from, Some(&bound))?;
    Some(From {
        role: from.role.name,
        index,
    })
}

/// What the rank does first in a message that is repeated.
fn in_message(
    seat: &Seat,
    label: &Spot,
    from: &End,
    to: &End,
    variable: &Name,
    span: Span,
) -> Option<Timed> {
    let sends = iteration(seat, from, variable, span);
    let takes = iteration(seat, to, variable, span);
    let is_sender = match (sends, takes) {
        (Some(sent), Some(taken)) => sent < taken,
        (Some(_), None) => true,
        (None, _) => false,
    };
    let at = if is_sender { sends? } else { takes? };
    let source = if is_sender {
        None
    } else {
        sender(seat, from, variable, at)
    };
    Some(Timed {
        iteration: at,
        found: Found {
            deed: if is_sender {
                Deed::Sends
            } else {
                Deed::Receives
            },
            name: Some(label.name),
            place: label.place,
            source,
        },
    })
}

/// What the rank does first in an item of a `foreach`.
fn in_item(seat: &Seat, item: &Statement, variable: &Name, span: Span) -> Option<Timed> {
    match item {
        Statement::Message {
            label,
            from,
            to,
            ..
        } => { in_message(seat, label, from, to, variable, span) }
        Statement::Compute { place, kernel, at } => {
            let at = iteration(seat, at, variable, span)?;
            Some(Timed {
                iteration: at,
                found: Found {
                    deed: Deed::Computes,
                    name: Some(kernel.name),
                    place: *place,
                    source: None,
                },
            })
        }
        Statement::Foreach { .. }
        | Statement::Rec { .. }
        | Statement::Continue { .. }
        | Statement::Choice { .. }
        | Statement::Barrier { .. }
        | Statement::Broadcast { .. }
        | Statement::Reduce { .. }
        | Statement::Allreduce { .. } => None,
    }
}

fn sooner(a: Option<Timed>, b: Option<Timed>) -> Option<Timed> {
    match (a, b) {
        (Some(first), Some(second)) => {
            if second.iteration < first.iteration {
                Some(second)
            } else {
                Some(first)
            }
        }
        (Some(first), None) => Some(first),
        (None, second) => second,
    }
}

/// What the rank does first in a `foreach`.
pub fn in_foreach(seat: &Seat, variable: &Spot, range: &RangeText, items: &Block) -> Option<Found> {
    let span = seat.setting.span(range)?;
    let mut first = None;
    for item in &items.list {
        first = sooner(first, in_item(seat, item, &variable.name, span));
    }
    let timed = first?;
    Some(timed.found)
}

/// The variable that an end binds, and its range.
fn bound_by(end: &End) -> Option<(&Spot, &RangeText)> {
    match &end.index {
        IndexText::Bind(variable, range) => Some((variable, range)),
        IndexText::Zero | IndexText::At(_) => None,
    }
}

/// What the rank does first in a message, one that binds or not.
pub fn in_plain(seat: &Seat, label: &Spot, from: &End, to: &End) -> Option<Found> {
    let bound = match bound_by(from) {
        Some(bound) => Some(bound),
        None => bound_by(to),
    };
    let timed = match bound {
        Some((variable, range)) => {
            let span = seat.setting.span(range)?;
            in_message(seat, label, from, to, &variable.name, span)?
        }
        None => {
            let once = Span { low: 0, high: 0 };
            in_message(seat, label, from, to, &label.name, once)?
        }
    };
    Some(timed.found)
}
