//! What is told of a text that was renewed, or would be.

ghost use Rattle.std.specs.Prelude.{◌≤◌};
ghost use Rattle.pb_ctree.specs.Trees.{IsTree};
ghost use Rattle.pb_renew_store.specs.Deeds.{DidNothing};

use crate::doing::Doing;
use crate::help::warn;
use crate::naming::{name_of, old_name};
use crate::renewing::Renewal;
use crate::request::Request;
use pb_explain_source::{Page, Part};
use pb_io::{Folder, Sink, read_all, write_all};
use pb_kernels::{Dialect, KName, KernelFile, Kind, read_bodies};
use pb_renew::Plan;
use pb_renew_merge::{changed_names, default_names};
use pb_renew_put::left_name;
use pb_renew_store::Store;
use pb_text::{MOST_TEXT_BYTES, NoMemory};
use std::alloc::Global;

/// Writes what has changed, or would, and of what the compiler warns.
pub fn tell_done<S: Store, F: Folder, T: Sink>(
    alloc: Global,
    request: &Request<'_>,
    renewal: &Renewal,
    store: &mut S,
    again: &mut F,
    told: &mut T,
)
    requires { IsTree renewal.now.wanted.tree }
    ensures nothing { DidNothing (S.deeds store.old) (S.deeds store.new) (S.holds store.old) (S.holds store.new) }
    ensures later { S.faults store.old ≤ S.faults store.new }
{
    if let Ok(out) = name_of(alloc, store, request.out) {
        let old = old_of(alloc, request, renewal, store);
        if let Ok(page) = page_of(alloc, request.doing, renewal, &out, &old, again) {
            let _written = write_all(told, page.words());
        }
    }
    warn(alloc, request, again, told);
}

/// The name of the file that keeps the old OUT, where one was made for it.
fn old_of<S: Store>(
    alloc: Global,
    request: &Request<'_>,
    renewal: &Renewal,
    store: &mut S,
) -> Option<String>
    ensures nothing { DidNothing (S.deeds store.old) (S.deeds store.new) (S.holds store.old) (S.holds store.new) }
    ensures later { S.faults store.old ≤ S.faults store.new }
{
    if !renewal.plan.job.keeps_old {
        return None;
    }
    let Ok(out) = name_of(alloc, store, request.out) else {
        return None;
    };
    old_name(alloc, store, &out, request.doing).ok()?
}

/// What is told. Of a text that had no body before that is nothing.
fn page_of<F: Folder>(
    alloc: Global,
    doing: Doing,
    renewal: &Renewal,
    out: &str,
    old: &Option<String>,
    again: &mut F,
) -> Result<Page, NoMemory>
    requires { IsTree renewal.now.wanted.tree }
{
    let mut page = Page::new(alloc);
    match doing {
        Doing::Renew => {}
        Doing::Tell => page.say(&[
            Part::Text(out),
            Part::Text(": would be renewed; nothing was written\n"),
        ])?,
    }
    if renewal.plan.old.len() > 0 {
        let left = left_name(alloc, out)?;
        let new = lacking(alloc, &renewal.plan.kept, &renewal.plan.old)?;
        say_moved(alloc, &mut page, &renewal.plan, out, &left, &new, again)?;
        say_kept(alloc, &mut page, renewal, out, &new)?;
    }
    if let Some(old) = old {
        say_old(&mut page, out, old)?;
    }
    Ok(page)
}

/// Appends where the old text stands.
fn say_old<'a>(page: &mut Page, out: &'a str, old: &'a str) -> Result<(), NoMemory> {
    page.say(&[
        Part::Text(old),
        Part::Text(": the old text stands there whole, with the lines that "),
        Part::Text(out),
        Part::Text(" has no more\n"),
    ])
}

/// Appends which functions are new, which are gone, and which are back.
fn say_moved<F: Folder>(
    alloc: Global,
    page: &mut Page,
    plan: &Plan,
    out: &str,
    left: &str,
    new: &[KName],
    again: &mut F,
) -> Result<(), NoMemory> {
    say_names(page, out, ": new functions, with default bodies:", new)?;
    say_names(page, left, ": bodies whose functions are gone:", &plan.gone)?;
    say_back(alloc, again, page, out, left, new)
}

/// Appends which of these functions have bodies in OUT.left.
fn say_back<'a, F: Folder>(
    alloc: Global,
    again: &mut F,
    page: &mut Page,
    out: &'a str,
    left: &'a str,
    new: &[KName],
) -> Result<(), NoMemory> {
    let Some(bodies) = bodies_in(alloc, again, left) else {
        return Ok(());
    };
    let back = among(alloc, new, &bodies)?;
    say_names(page, left, ": bodies whose functions are back:", &back)?;
    if back.is_empty() {
        return Ok(());
    }
    page.help(&[
        Part::Text("copy them to their places in "),
        Part::Text(out),
        Part::Text(", and take them out of "),
        Part::Text(left),
    ])
}

/// Appends which kept bodies may no longer fit, and which functions have default bodies still.
fn say_kept(
    alloc: Global,
    page: &mut Page,
    renewal: &Renewal,
    out: &str,
    new: &[KName],
) -> Result<(), NoMemory>
    requires { IsTree renewal.now.wanted.tree }
{
    let plan = &renewal.plan;
    if let Some(before) = &plan.before {
        let changed = changed_names(
            alloc,
            &before.tree.local.labels,
            &renewal.wanted.tree,
            &plan.old,
            &plan.kept,
        )?;
        let front = ": bodies kept, though what their labels carry has changed:";
        say_names(page, out, front, &without(alloc, &changed, new)?)?;
    }
    let defaults = default_names(alloc, &renewal.wanted, &plan.kept)?;
    let front = ": functions whose bodies are still the default ones:";
    say_names(page, out, front, &without(alloc, &defaults, new)?)
}

// ---- names of bodies

/// The bodies of a file; none where it can't be read as a kernel file.
fn bodies_in<F: Folder>(alloc: Global, folder: &mut F, file: &str) -> Option<KernelFile> {
    let Ok(bytes) = read_all(alloc, folder, file, MOST_TEXT_BYTES) else {
        return None;
    };
    read_bodies(alloc, &bytes, Dialect::Program).ok()
}

/// Those of the names of which a file has bodies.
fn among(alloc: Global, names: &[KName], file: &KernelFile) -> Result<Vec<KName>, NoMemory> {
    let mut list = Vec::new(alloc);
    for name in names {
        if file.has(name) {
            list.push(*name)?;
        }
    }
    Ok(list)
}

/// Those of the names that aren't among the others.
fn without(alloc: Global, names: &[KName], others: &[KName]) -> Result<Vec<KName>, NoMemory> {
    let mut list = Vec::new(alloc);
    for name in names {
        if !others.contains(name) {
            list.push(*name)?;
        }
    }
    Ok(list)
}

/// The names of the functions of a file that another file has no body of.
fn lacking(alloc: Global, file: &KernelFile, other: &KernelFile) -> Result<Vec<KName>, NoMemory> {
    let mut names = Vec::new(alloc);
    for place in 0..file.len() {
        let name = file.name_at(place);
        if name.kind != Kind::Prelude && !other.has(&name) {
            names.push(name)?;
        }
    }
    Ok(names)
}

/// Appends a line with the names; nothing where there are none.
fn say_names(page: &mut Page, file: &str, front: &str, names: &[KName]) -> Result<(), NoMemory> {
    if names.is_empty() {
        return Ok(());
    }
    page.say(&[Part::Text(file), Part::Text(front)])?;
    for name in names {
        say_name(page, name)?;
    }
    page.say(&[Part::Text("\n")])
}

/// Appends a space, and the name of a function.
fn say_name(page: &mut Page, name: &KName) -> Result<(), NoMemory> {
    page.say(&[Part::Text(front_of(name.kind))])?;
    match &name.name {
        Some(word) => page.say(&[Part::Name(word)]),
        None => Ok(()),
    }
}

fn front_of(kind: Kind) -> &'static str {
    match kind {
        Kind::Prelude => " prelude",
        Kind::Compute => " k_",
        Kind::Choice => " c_",
        Kind::Make => " make_",
        Kind::Take => " take_",
        Kind::Room => " room_",
    }
}
