//! The messages.

use crate::found::{Deed, Found, From};
use crate::seat::Seat;
use pb_explain_ranks::say_rank;
use pb_explain_source::{Page, Part};
use pb_explain_tree::is_same;
use pb_syntax::End;
use pb_text::{NoMemory, Place};

/// What the rank does first.
fn deed(deed: Deed) -> &'static str {
    match deed {
        Deed::Receives => "receives ",
        Deed::Sends => "sends ",
        Deed::Computes => "runs the kernel ",
        Deed::Chooses => "makes the choice ",
        Deed::Enters => "enters the collective ",
        Deed::Continues => "goes on with the loop ",
    }
}

/// Appends what the rank does first.
fn say_deed(page: &mut Page, found: &Found) -> Result<(), NoMemory> {
    match &found.name {
        Some(name) => page.say(&[
            Part::Text(deed(found.deed)),
            Part::Text("`"),
            Part::Name(name),
            Part::Text("`"),
        ]),
        None => page.say(&[Part::Text("enters the barrier")]),
    }
}

/// The beginning of each message: the rule, N and the rank.
fn begin(page: &mut Page, seat: &Seat, place: Place, rule: u8) -> Result<(), NoMemory> {
    page.open(place)?;
    page.say(&[
        Part::Text("rule "),
        Part::Number(i64::from(rule)),
        Part::Text(": at N = "),
        Part::Number(seat.setting.n),
        Part::Text(" "),
    ])?;
    say_rank(page, &seat.setting, &seat.role, seat.index)
}

/// Appends the rank.
fn say_seat(page: &mut Page, seat: &Seat) -> Result<(), NoMemory> {
    page.say(&[
        Part::Text("`"),
        Part::Rank(&seat.role, seat.index),
        Part::Text("` "),
    ])
}

/// Appends from whom it receives.
fn say_from(page: &mut Page, from: &From) -> Result<(), NoMemory> {
    page.say(&[
        Part::Text(" from `"),
        Part::Rank(&from.role, from.index),
        Part::Text("`"),
    ])
}

/// Points at what the rank does first somewhere.
fn note_found(
    page: &mut Page,
    seat: &Seat,
    found: &Found,
    front: &'static str,
) -> Result<(), NoMemory> {
    page.open(found.place)?;
    page.say(&[Part::Text("note: "), Part::Text(front)])?;
    say_seat(page, seat)?;
    say_deed(page, found)?;
    if let Some(from) = &found.source {
        say_from(page, from)?;
    }
    page.close(found.place)
}

/// The rank finds something else than a message in this branch.
pub fn tell_other(
    page: &mut Page,
    seat: &Seat,
    place: Place,
    chooser: &End,
    found: &Found,
) -> Result<(), NoMemory> {
    begin(page, seat, place, 10)?;
    page.say(&[Part::Text(" isn't told of this branch before it ")])?;
    say_deed(page, found)?;
    page.close(place)?;
    note_found(page, seat, found, "in this branch ")?;
    page.help(&[
        Part::Text("let it receive a message first, such as one from the chooser, `"),
        Part::End(chooser),
        Part::Text("`, with a label that no other branch begins with for it"),
    ])
}

/// The rank finds nothing in this branch, and something in another.
pub fn tell_nothing(
    page: &mut Page,
    seat: &Seat,
    place: Place,
    chooser: &End,
    elsewhere: Option<&Found>,
) -> Result<(), NoMemory> {
    begin(page, seat, place, 10)?;
    page.say(&[Part::Text(
        " isn't told of this branch: no message reaches it here, and it takes part in another branch",
    )])?;
    page.close(place)?;
    if let Some(found) = elsewhere {
        note_found(page, seat, found, "in another branch ")?;
    }
    page.help(&[
        Part::Text("send it a message in this branch too, such as one from the chooser, `"),
        Part::End(chooser),
        Part::Text("`, with a label that no other branch begins with for it"),
    ])
}

fn is_one(a: &From, b: &From) -> bool {
    is_same(&a.role, &b.role) && a.index == b.index
}

/// The first finding that has a sender.
fn first_sent(found: &[Found]) -> Option<Found> {
    for one in found {
        if one.source.is_some() {
            return Some(*one);
        }
    }
    None
}

/// The first finding from another sender.
fn sent_by_another(found: &[Found], known: &From) -> Option<Found> {
    for one in found {
        if let Some(source) = &one.source
            && !is_one(known, source)
        {
            return Some(*one);
        }
    }
    None
}

/// Two findings from different senders.
fn two_sources(found: &[Found]) -> Option<(Found, Found)> {
    let first = first_sent(found)?;
    let known = first.source?;
    let second = sent_by_another(found, &known)?;
    Some((first, second))
}

/// The rank hears from two ranks.
pub fn tell_sources(
    page: &mut Page,
    seat: &Seat,
    place: Place,
    found: &[Found],
) -> Result<(), NoMemory> {
    let Some((first, second)) = two_sources(found) else {
        return Ok(());
    };
    begin(page, seat, place, 11)?;
    page.say(&[Part::Text(
        " would be told of this choice by two ranks, and can't tell from which to receive first",
    )])?;
    page.close(place)?;
    note_found(page, seat, &first, "")?;
    note_found(page, seat, &second, "")?;
    page.help(&[Part::Text("let one rank send the first message that it gets in every branch")])
}

/// A finding among the first that has the label of one among the second.
fn same_label(before: &[Found], here: &Found) -> Option<Found> {
    let name = here.name?;
    for one in before {
        if let Some(known) = &one.name
            && is_same(known, &name)
        {
            return Some(*one);
        }
    }
    None
}

fn clash(before: &[Found], here: &[Found]) -> Option<(Found, Found)> {
    for one in here {
        if let Some(known) = same_label(before, one) {
            return Some((known, *one));
        }
    }
    None
}

/// Two branches begin with one label.
pub fn tell_labels(
    page: &mut Page,
    seat: &Seat,
    place: Place,
    before: &[Found],
    here: &[Found],
) -> Result<(), NoMemory> {
    let Some((first, second)) = clash(before, here) else {
        return Ok(());
    };
    begin(page, seat, place, 12)?;
    page.say(&[Part::Text(
        " can't tell this branch from an earlier one: both begin with the same label for it",
    )])?;
    page.close(place)?;
    note_found(page, seat, &first, "in the earlier branch ")?;
    note_found(page, seat, &second, "in this branch ")?;
    page.help(&[Part::Text("rename one of the two labels")])
}
