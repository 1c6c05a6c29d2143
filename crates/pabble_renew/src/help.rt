//! What helps a person beside the line of a fault: why FILE isn't accepted, as `pabble` tells it, or why OUT can't be renewed.

ghost use Rattle.std.specs.Prelude.{◌≤◌};
ghost use Rattle.pb_renew_store.specs.Deeds.{DidNothing};

use crate::fault::Fault;
use crate::naming::{is_there, name_of};
use crate::request::Request;
use pb_cli_status::Status;
use pb_explain_again::text_unread;
use pb_explain_protocol::{Ask, text_of_file, text_of_merge};
use pb_explain_source::{Page, Part, Place, Source};
use pb_io::{Folder, Sink, read_all, write_all};
use pb_kernels::KernelFault;
use pb_renew::Unrenewed;
use pb_renew_put::{left_name, new_name};
use pb_renew_store::{FileKind, Store};
use pb_text::{MOST_TEXT_BYTES, NoMemory};
use std::alloc::Global;

/// Writes what helps where OUT isn't renewed.
pub fn help<S: Store, F: Folder, T: Sink>(
    alloc: Global,
    fault: Fault,
    request: &Request<'_>,
    store: &mut S,
    again: &mut F,
    told: &mut T,
)
    ensures nothing { DidNothing (S.deeds store.old) (S.deeds store.new) (S.holds store.old) (S.holds store.new) }
    ensures later { S.faults store.old ≤ S.faults store.new }
{
    let Ok(out) = name_of(alloc, store, request.out) else {
        return;
    };
    let named = Named {
        file: request.file,
        out: &out,
    };
    match fault {
        Fault::Usage | Fault::NoMemory => {}
        Fault::Written => say(told, page_on(alloc, &named, &WRITTEN)),
        Fault::NoFile => say(told, page_on(alloc, &named, &IRREGULAR_FILE)),
        Fault::File(refusal) => explain_file(alloc, named.file, refusal.status(), again, told),
        Fault::Out(why) => help_out(alloc, why, &named, store, again, told),
    }
}

/// Writes of what the compiler warns in FILE.
pub fn warn<F: Folder, T: Sink>(alloc: Global, request: &Request<'_>, again: &mut F, told: &mut T) {
    explain_file(alloc, request.file, Status::Done, again, told);
}

/// The names of FILE and OUT, as a person is told them.
#[derive(Clone, Copy)]
struct Named<'a> {
    file: &'a str,
    out: &'a str,
}

/// Writes what helps where OUT can't be renewed.
fn help_out<S: Store, F: Folder, T: Sink>(
    alloc: Global,
    why: Unrenewed,
    named: &Named<'_>,
    store: &mut S,
    again: &mut F,
    told: &mut T,
)
    ensures nothing { DidNothing (S.deeds store.old) (S.deeds store.new) (S.holds store.old) (S.holds store.new) }
    ensures later { S.faults store.old ≤ S.faults store.new }
{
    match why {
        Unrenewed::NoMemory => {}
        Unrenewed::ReadFault => explain_unread(alloc, named.out, again, told),
        Unrenewed::NoFile => say(told, page_on(alloc, named, irregular(store, named.out))),
        Unrenewed::Shared => say(told, page_on(alloc, named, shared(store, named.out))),
        Unrenewed::TooLong => say(told, page_on(alloc, named, &TOO_LONG)),
        Unrenewed::Indented(line) => point_at(alloc, named.out, line, &INDENTED, again, told),
        Unrenewed::Out(KernelFault::Missing(_)) => say(told, page_on(alloc, named, &NO_BODY)),
        Unrenewed::Out(_) => explain_kernels(alloc, named.file, named.out, again, told),
        Unrenewed::Outside(line) => point_outside(alloc, named.out, line, again, told),
        Unrenewed::LeftIndented(line) => point_in_left(alloc, named.out, line, again, told),
        Unrenewed::Left(KernelFault::BadMarker(_)) => explain_left(alloc, named, again, told),
        Unrenewed::Left(_) => say(told, page_on(alloc, named, &ANOTHER)),
        Unrenewed::Busy => say(told, page_on(alloc, named, busy(alloc, store, named.out))),
        Unrenewed::Changed => say(told, page_on(alloc, named, &CHANGED)),
        Unrenewed::Olds => say(told, page_on(alloc, named, &OLDS)),
        Unrenewed::WriteFault => say(told, page_on(alloc, named, &UNWRITTEN)),
        Unrenewed::Halfway => say(told, page_on(alloc, named, &HALFWAY)),
    }
}

// ---- what the compiler explains

/// Writes why FILE isn't accepted, or of what it warns there.
fn explain_file<F: Folder, T: Sink>(
    alloc: Global,
    file: &str,
    status: Status,
    again: &mut F,
    told: &mut T,
) {
    let text = if status == Status::ReadFault {
        text_unread(alloc, file)
    } else {
        text_of_file(alloc, again, file, status, Ask::Verdict)
    };
    write_text(told, text);
}

/// Writes why a kernel file doesn't fit FILE.
fn explain_kernels<F: Folder, T: Sink>(
    alloc: Global,
    file: &str,
    kernels: &str,
    again: &mut F,
    told: &mut T,
) {
    let text = text_of_merge(alloc, again, file, kernels, Status::Kernel);
    write_text(told, text);
}

/// The same of OUT.left as the kernel file.
fn explain_left<F: Folder, T: Sink>(alloc: Global, named: &Named<'_>, again: &mut F, told: &mut T) {
    if let Ok(left) = left_name(alloc, named.out) {
        explain_kernels(alloc, named.file, &left, again, told);
    }
}

/// Writes which of OUT and OUT.left can't be read.
fn explain_unread<F: Folder, T: Sink>(alloc: Global, out: &str, again: &mut F, told: &mut T) {
    if read_all(alloc, again, out, MOST_TEXT_BYTES).is_err() {
        write_text(told, text_unread(alloc, out));
    } else if let Ok(left) = left_name(alloc, out) {
        write_text(told, text_unread(alloc, &left));
    }
}

/// Writes a text, as far as the sink takes it.
fn write_text<T: Sink>(told: &mut T, text: Result<Vec<u8>, NoMemory>) {
    if let Ok(text) = text {
        let _written = write_all(told, &text);
    }
}

// ---- a line that would be lost

/// A sentence on a line of a file, and a remedy.
struct Remark {
    sentence: &'static str,
    remedy: &'static str,
}

const INDENTED: Remark = Remark {
    sentence: "this line looks like a marker, and is none: blanks stand in front of it",
    remedy: "take the blanks in front away; `// clang-format off` as the first line of the prelude keeps a formatter from what follows",
};

const OUTSIDE: &str =
    "this line stands outside of bodies, and would be lost: the compiler doesn't write it";

/// Writes a remark on a line of a file.
fn point_at<F: Folder, T: Sink>(
    alloc: Global,
    file: &str,
    line: u32,
    remark: &Remark,
    again: &mut F,
    told: &mut T,
) {
    let mut page = Page::new(alloc);
    if page
        .point(place_at(line), &[Part::Text(remark.sentence)])
        .is_ok()
        && page.help(&[Part::Text(remark.remedy)]).is_ok()
    {
        write_on(alloc, &page, file, again, told);
    }
}

/// Writes the same of OUT.left.
fn point_in_left<F: Folder, T: Sink>(
    alloc: Global,
    out: &str,
    line: u32,
    again: &mut F,
    told: &mut T,
) {
    if let Ok(left) = left_name(alloc, out) {
        point_at(alloc, &left, line, &INDENTED, again, told);
    }
}

/// Writes that a line of OUT stands outside of bodies.
fn point_outside<F: Folder, T: Sink>(
    alloc: Global,
    out: &str,
    line: u32,
    again: &mut F,
    told: &mut T,
) {
    let mut page = Page::new(alloc);
    let remedy = [
        Part::Text(
            "put it between `/*@ prelude */` and its `/*@ end */`, or into a body; `--force` drops it, and keeps the old text whole in ",
        ),
        Part::Text(out),
        Part::Text(".old"),
    ];
    if page.point(place_at(line), &[Part::Text(OUTSIDE)]).is_ok() && page.help(&remedy).is_ok() {
        write_on(alloc, &page, out, again, told);
    }
}

fn place_at(line: u32) -> Place {
    Place { line, col: 1 }
}

/// Writes a page on a file.
fn write_on<F: Folder, T: Sink>(
    alloc: Global,
    page: &Page,
    file: &str,
    again: &mut F,
    told: &mut T,
) {
    if let Ok(bytes) = read_all(alloc, again, file, MOST_TEXT_BYTES) {
        let source = Source {
            file,
            bytes: &bytes,
        };
        write_text(told, page.text(alloc, &source));
    }
}

// ---- what is told of OUT

/// The name of a file, for a sentence.
#[derive(Clone, Copy)]
enum Called {
    File,
    Out,
    Left,
    Fresh,
    Spare,
    Olds,
}

/// A sentence about a file, which names others, and a remedy.
struct Advice {
    on: Called,
    front: &'static str,
    other: Called,
    behind: &'static str,
    remedy: &'static str,
}

const WRITTEN: Advice = Advice {
    on: Called::File,
    front: "it would be written: it is the same file as ",
    other: Called::Out,
    behind: ", its `.left`, or one of the two with `.new` behind these names",
    remedy: "give the text another name",
};

const IRREGULAR_FILE: Advice = Advice {
    on: Called::File,
    front: "it is a folder, a device or a pipe, or a link that leads nowhere; so ",
    other: Called::Out,
    behind: " isn't renewed",
    remedy: "write the protocol to a file first",
};

const IRREGULAR: Advice = Advice {
    on: Called::Out,
    front: "it is a folder, a device or a pipe, or a link that leads nowhere; ",
    other: Called::File,
    behind: " isn't renewed into it",
    remedy: "give a file that is there, or a name that is free",
};

const IRREGULAR_LEFT: Advice = Advice {
    on: Called::Left,
    front: "it is a link, a folder, a device or a pipe, so no body of ",
    other: Called::Out,
    behind: " can go there",
    remedy: "take it away, or give it another name",
};

/// Which of OUT and OUT.left is no regular file.
fn irregular<S: Store>(store: &mut S, out: &str) -> &'static Advice
    ensures nothing { DidNothing (S.deeds store.old) (S.deeds store.new) (S.holds store.old) (S.holds store.new) }
    ensures later { S.faults store.old ≤ S.faults store.new }
{
    match store.kind(out) {
        Ok(FileKind::Other) | Err(_) => &IRREGULAR,
        Ok(FileKind::Missing | FileKind::Regular | FileKind::Shared) => &IRREGULAR_LEFT,
    }
}

const SHARED: Advice = Advice {
    on: Called::Out,
    front: "it has another name, a hard link, which would keep the old text of ",
    other: Called::Out,
    behind: "",
    remedy: "take the other name away, or copy the file; `--force` parts the two names",
};

const SHARED_LEFT: Advice = Advice {
    on: Called::Left,
    front: "it has another name, a hard link, which wouldn't get the bodies of ",
    other: Called::Out,
    behind: " that are gone",
    remedy: "take the other name away, or copy the file",
};

/// Which of OUT and OUT.left has another name.
fn shared<S: Store>(store: &mut S, out: &str) -> &'static Advice
    ensures nothing { DidNothing (S.deeds store.old) (S.deeds store.new) (S.holds store.old) (S.holds store.new) }
    ensures later { S.faults store.old ≤ S.faults store.new }
{
    match store.kind(out) {
        Ok(FileKind::Shared) | Err(_) => &SHARED,
        Ok(FileKind::Missing | FileKind::Regular | FileKind::Other) => &SHARED_LEFT,
    }
}

const TOO_LONG: Advice = Advice {
    on: Called::Out,
    front: "it, or ",
    other: Called::Left,
    behind: ", has more than 67108864 bytes, or would have",
    remedy: "take bodies out that aren't needed any more",
};

const NO_BODY: Advice = Advice {
    on: Called::Out,
    front: "it has bytes and no body between markers: nothing of it would stand in the new text or in ",
    other: Called::Left,
    behind: "",
    remedy: "is it the text of a protocol, or a kernel file? if it isn't needed, take it away first",
};

const ANOTHER: Advice = Advice {
    on: Called::Out,
    front: "a body of it has no function any more, and ",
    other: Called::Left,
    behind: " has another one of that name",
    remedy: "rename that one there, or take it out",
};

const BUSY: Advice = Advice {
    on: Called::Fresh,
    front: "it is there: another call is at work on ",
    other: Called::Out,
    behind: ", or was ended in the middle, or it is a file of yours",
    remedy: "try again; if no other call is at work, look at it, and take it away",
};

const BUSY_LEFT: Advice = Advice {
    on: Called::Spare,
    front: "it is there: a call was ended in the middle that put bodies of ",
    other: Called::Out,
    behind: " there, or it is a file of yours",
    remedy: "look at it, and take it away",
};

/// Which of OUT.new and OUT.left.new is there.
fn busy<S: Store>(alloc: Global, store: &mut S, out: &str) -> &'static Advice
    ensures nothing { DidNothing (S.deeds store.old) (S.deeds store.new) (S.holds store.old) (S.holds store.new) }
    ensures later { S.faults store.old ≤ S.faults store.new }
{
    match new_name(alloc, out) {
        Ok(fresh) if !is_there(store, &fresh) => &BUSY_LEFT,
        Ok(_) | Err(NoMemory) => &BUSY,
    }
}

const CHANGED: Advice = Advice {
    on: Called::Out,
    front: "it, ",
    other: Called::Left,
    behind: " or the protocol was changed while this call was at work; nothing was done",
    remedy: "call it again",
};

const OLDS: Advice = Advice {
    on: Called::Olds,
    front: "it is there, and so are all others up to the number 9999 that may keep the old text of ",
    other: Called::Out,
    behind: "",
    remedy: "take those away that aren't needed any more",
};

const UNWRITTEN: Advice = Advice {
    on: Called::Out,
    front: "it, or a file beside it, can't be written; it and ",
    other: Called::Left,
    behind: " are as they were",
    remedy: "may files be made in this folder, and has the disk room for them?",
};

const HALFWAY: Advice = Advice {
    on: Called::Out,
    front: "it can't be written, and is as it was; ",
    other: Called::Left,
    behind: " has the bodies whose functions are gone already",
    remedy: "call this again when files can be written: no body goes there twice",
};

fn page_on(alloc: Global, named: &Named<'_>, advice: &Advice) -> Result<Page, NoMemory> {
    let mut page = Page::new(alloc);
    say_called(&mut page, named, advice.on)?;
    page.say(&[Part::Text(": "), Part::Text(advice.front)])?;
    say_called(&mut page, named, advice.other)?;
    page.say(&[Part::Text(advice.behind), Part::Text("\n")])?;
    page.help(&[Part::Text(advice.remedy)])?;
    Ok(page)
}

/// Appends the name of a file.
fn say_called(page: &mut Page, named: &Named<'_>, called: Called) -> Result<(), NoMemory> {
    match called {
        Called::File => page.say(&[Part::Text(named.file)]),
        Called::Out => page.say(&[Part::Text(named.out)]),
        Called::Left => page.say(&[Part::Text(named.out), Part::Text(".left")]),
        Called::Fresh => page.say(&[Part::Text(named.out), Part::Text(".new")]),
        Called::Spare => page.say(&[Part::Text(named.out), Part::Text(".left.new")]),
        Called::Olds => page.say(&[Part::Text(named.out), Part::Text(".old")]),
    }
}

fn say<T: Sink>(told: &mut T, page: Result<Page, NoMemory>) {
    if let Ok(page) = page {
        let _written = write_all(told, page.words());
    }
}
