//! Rule 1: names are declared once, used in scope, and have one kind each.

use crate::words::kind;
use pb_explain_source::{Page, Part};
use pb_explain_tree::{Duty, Kind, Seen, is_same, names_of};
use pb_syntax::FileTree;
use pb_text::{Name, NoMemory, Place};
use std::alloc::Global;
use strsim::generic_levenshtein;

/// What stands at the place.
fn seen_at(seen: &[Seen], place: Place) -> Option<Seen> {
    for one in seen {
        if one.spot.place == place {
            return Some(*one);
        }
    }
    None
}

/// Where the name stands first before this one.
fn first_before(seen: &[Seen], here: &Seen) -> Option<Seen> {
    for one in seen {
        if one.spot.place == here.spot.place {
            return None;
        }
        if is_same(&one.spot.name, &here.spot.name) {
            return Some(*one);
        }
    }
    None
}

/// Where else the name is bound as a variable: the last place before, or else the first one behind.
fn bound_elsewhere(seen: &[Seen], here: &Seen) -> Option<Seen> {
    let mut found = None;
    let mut is_past = false;
    for one in seen {
        if one.spot.place == here.spot.place {
            is_past = true;
        }
        let binds = one.duty == Duty::Binds && one.kind == Kind::Variable;
        if binds && is_same(&one.spot.name, &here.spot.name) {
            if is_past && found.is_some() {
                return found;
            }
            found = Some(*one);
        }
    }
    found
}

/// The name of that duty that is spelled almost as this one.
fn near(alloc: Global, seen: &[Seen], name: &Name, duty: Duty) -> Result<Option<Name>, NoMemory> {
    for one in seen {
        if one.duty != duty || one.kind == Kind::Protocol || one.kind == Kind::Constant {
            continue;
        }
        let edits = generic_levenshtein(alloc, one.spot.name.bytes(), name.bytes())?;
        if edits <= 2 && edits < name.bytes().len() {
            return Ok(Some(one.spot.name));
        }
    }
    Ok(None)
}

/// Appends the roles that there are.
fn say_roles(page: &mut Page, file: &FileTree) -> Result<(), NoMemory> {
    page.say(&[Part::Text("help: the roles are ")])?;
    for (at, role) in file.roles.iter().enumerate() {
        page.say(&[
            Part::Text(if at > 0 { ", `" } else { "`" }),
            Part::Name(&role.role.name),
            Part::Text("`"),
        ])?;
    }
    page.say(&[Part::Text("\n")])
}

/// No role has the name of an end.
fn tell_no_role(
    alloc: Global,
    page: &mut Page,
    file: &FileTree,
    seen: &[Seen],
    here: &Seen,
) -> Result<(), NoMemory> {
    let name = &here.spot.name;
    page.point(
        here.spot.place,
        &[
            Part::Text("rule 1: no role is called `"),
            Part::Name(name),
            Part::Text("`"),
        ],
    )?;
    match near(alloc, seen, name, Duty::Declares)? {
        Some(role) => page.help(&[
            Part::Text("perhaps `"),
            Part::Name(&role),
            Part::Text("` is meant"),
        ]),
        None => say_roles(page, file),
    }
}

/// Appends that the name is neither the constant nor a variable in scope.
fn say_neither<'x>(page: &mut Page, name: &'x Name, constant: &'x Name) -> Result<(), NoMemory> {
    page.say(&[
        Part::Text("rule 1: `"),
        Part::Name(name),
        Part::Text("` is neither the constant `"),
    ])?;
    page.say(&[
        Part::Name(constant),
        Part::Text("` nor a variable in scope"),
    ])
}

/// Points at where else the name is bound.
fn note_bound(page: &mut Page, name: &Name, place: Place) -> Result<(), NoMemory> {
    page.note(
        place,
        &[
            Part::Text("`"),
            Part::Name(name),
            Part::Text(
                "` is bound here: in scope for this message or `foreach` alone, and not in its own range",
            ),
        ],
    )?;
    page.help(&[Part::Text(
        "bind it here too, with its range, or put both messages into one `foreach`",
    )])
}

fn help_bind<'x>(page: &mut Page, name: &'x Name, constant: &'x Name) -> Result<(), NoMemory> {
    page.say(&[
        Part::Text("help: bind it in one end of a message, as `["),
        Part::Name(name),
        Part::Text(":0.."),
    ])?;
    page.say(&[
        Part::Name(constant),
        Part::Text("-1]`, or by a `foreach` around it\n"),
    ])
}

/// A name in a lin is neither the constant nor a variable in scope.
fn tell_no_variable(
    page: &mut Page,
    file: &FileTree,
    seen: &[Seen],
    here: &Seen,
) -> Result<(), NoMemory> {
    page.open(here.spot.place)?;
    say_neither(page, &here.spot.name, &file.constant.name)?;
    page.close(here.spot.place)?;
    match bound_elsewhere(seen, here) {
        Some(bound) => note_bound(page, &here.spot.name, bound.spot.place),
        None => help_bind(page, &here.spot.name, &file.constant.name),
    }
}

/// The name stood before as another kind.
fn tell_kinds(page: &mut Page, here: &Seen, first: &Seen) -> Result<(), NoMemory> {
    let name = &here.spot.name;
    page.point(
        here.spot.place,
        &[
            Part::Text("rule 1: `"),
            Part::Name(name),
            Part::Text("` is "),
            Part::Text(kind(here.kind)),
            Part::Text(" here, and stood before as "),
            Part::Text(kind(first.kind)),
        ],
    )?;
    page.note(
        first.spot.place,
        &[Part::Text("here it is "), Part::Text(kind(first.kind))],
    )?;
    page.help(&[Part::Text("a name is one kind of thing in the whole file: rename one of the two")])
}

/// The name is declared, or bound in its own scope, a second time.
fn tell_again(page: &mut Page, here: &Seen, first: &Seen) -> Result<(), NoMemory> {
    let inner = here.duty == Duty::Binds;
    page.point(
        here.spot.place,
        &[
            Part::Text("rule 1: `"),
            Part::Name(&here.spot.name),
            Part::Text(if inner {
                "` is bound again inside its own scope"
            } else {
                "` is declared a second time"
            }),
        ],
    )?;
    page.note(first.spot.place, &[Part::Text("it stands first here")])?;
    page.help(&[Part::Text("rename one of the two")])
}

/// Writes why the name at the place breaks rule 1.
pub fn tell_name(
    alloc: Global,
    page: &mut Page,
    file: &FileTree,
    place: Place,
) -> Result<(), NoMemory> {
    let seen = names_of(alloc, file)?;
    let Some(here) = seen_at(seen.as_slice(), place) else {
        return Ok(());
    };
    let first = first_before(seen.as_slice(), &here);
    if let Some(first) = &first
        && first.kind != here.kind
    {
        return tell_kinds(page, &here, first);
    }
    match here.duty {
        Duty::Seats => tell_no_role(alloc, page, file, seen.as_slice(), &here),
        Duty::Counts => tell_no_variable(page, file, seen.as_slice(), &here),
        Duty::Declares | Duty::Binds | Duty::Mentions => match &first {
            Some(first) => tell_again(page, &here, first),
            None => Ok(()),
        },
    }
}
