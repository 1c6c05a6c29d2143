//! The messages.

use crate::functions::{Function, functions_of};
use crate::markers::{Marks, Slip, marks_of};
use pb_explain_source::{Page, Part, Source};
use pb_syntax::{CoreKernel, CoreLabel};
use pb_text::{NoMemory, Place};
use std::alloc::Global;

fn slip(slip: Slip) -> &'static str {
    match slip {
        Slip::Malformed => "this line begins as a marker, and is none",
        Slip::Inside => "this line opens a body inside of another one",
        Slip::Outside => "this line closes a body, and none is open",
        Slip::Unclosed => "the body that this line opens is never closed",
        Slip::Twice => "this line opens a second body of that name",
    }
}

fn remedy(slip: Slip) -> &'static str {
    match slip {
        Slip::Malformed =>
            "the markers are `/*@ prelude */`, `/*@ kernel NAME */` and `/*@ end */`",
        Slip::Inside | Slip::Unclosed => "close each body by a line `/*@ end */`",
        Slip::Outside => "open each body by a line `/*@ kernel NAME */`",
        Slip::Twice => "keep one of the two",
    }
}

fn tell_slip(page: &mut Page, fault: Slip, line: u32) -> Result<(), NoMemory> {
    page.point(Place { line, col: 1 }, &[Part::Text(slip(fault))])?;
    page.help(&[Part::Text(remedy(fault))])
}

/// Whether the file has the body of a function.
fn is_given(marks: &Marks, function: &Function) -> bool {
    for name in marks.names.as_slice() {
        if function.is(name) {
            return true;
        }
    }
    false
}

/// Whether one of the functions has the name.
fn is_wanted(functions: &[Function], name: &[u8]) -> bool {
    for function in functions {
        if function.is(name) {
            return true;
        }
    }
    name == b"prelude".as_slice()
}

/// Appends the body of a function, with its head and its markers.
fn say_stub(page: &mut Page, function: &Function) -> Result<(), NoMemory> {
    let purpose = function.purpose;
    page.say(&[
        Part::Text(purpose.head()),
        Part::Name(&function.name),
        Part::Text(purpose.parameters()),
        Part::Text("{\n/*@ kernel "),
        Part::Bytes(purpose.front()),
        Part::Name(&function.name),
        Part::Text(" */\n"),
        Part::Text(purpose.body()),
        Part::Text("/*@ end */\n}\n"),
    ])
}

/// Tells of the first line that would begin as a marker, if there is one.
fn tell_indented(page: &mut Page, marks: &Marks) -> Result<(), NoMemory> {
    let Some(line) = marks.indented else {
        return Ok(());
    };
    page.point(
        Place { line, col: 1 },
        &[Part::Text("this line looks like a marker, and is none: blanks stand in front of it")],
    )?;
    page.help(&[Part::Text(
        "take the blanks in front away; `// clang-format off` as the first line of the prelude keeps a formatter from what follows",
    )])
}

fn tell_missing(
    page: &mut Page,
    source: &Source,
    marks: &Marks,
    functions: &[Function],
) -> Result<(), NoMemory> {
    let mut is_first = true;
    for function in functions {
        if is_given(marks, function) {
            continue;
        }
        if is_first {
            tell_indented(page, marks)?;
            page.say(&[
                Part::Text(source.file),
                Part::Text(
                    ": these functions are missing; paste them into it, and fill them in:\n",
                ),
            ])?;
            is_first = false;
        }
        say_stub(page, function)?;
    }
    Ok(())
}

fn say_extra<'x>(page: &mut Page, file: &'x str, name: &'x [u8]) -> Result<(), NoMemory> {
    page.say(&[
        Part::Text(file),
        Part::Text(": the protocol has no function `"),
    ])?;
    page.say(&[Part::Bytes(name), Part::Text("`\n")])
}

fn tell_extra(
    page: &mut Page,
    source: &Source,
    marks: &Marks,
    functions: &[Function],
) -> Result<(), NoMemory> {
    let mut is_any = false;
    for name in marks.names.as_slice() {
        if !is_wanted(functions, name) {
            say_extra(page, source.file, name)?;
            is_any = true;
        }
    }
    if !is_any {
        return Ok(());
    }
    page.help(&[Part::Text(
        "the functions are `make_L` and `take_L` of each label with numbers, `k_K` of each compute and `c_K` of each choice: rename the body, or leave it out",
    )])
}

/// Writes why a kernel file doesn't fit the protocol with these labels and kernels. Nothing is written where it fits.
pub fn tell_kernels(
    alloc: Global,
    page: &mut Page,
    source: &Source,
    labels: &[CoreLabel],
    kernels: &[CoreKernel],
) -> Result<(), NoMemory> {
    let marks = marks_of(alloc, source.bytes)?;
    if let Some((fault, line)) = marks.slip {
        return tell_slip(page, fault, line);
    }
    let functions = functions_of(alloc, labels, kernels)?;
    tell_missing(page, source, &marks, functions.as_slice())?;
    tell_extra(page, source, &marks, functions.as_slice())
}
