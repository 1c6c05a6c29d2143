//! The entry.

ghost use Rattle.std.specs.Prelude.{[], IfOk};
ghost use Rattle.pb_explain_source.specs.Pages.{IsPageOf};
ghost use Rattle.pb_explain_again.specs.Told.{IsTold};
ghost use Rattle.pb_explain.specs.Told.{AppendsSome, Tells};

use crate::files::{text_of_files, text_of_read_fault};
use pb_cli_status::Status;
use pb_cli_words::command_in;
use pb_explain_again::text_of_words;
use pb_explain_source::{NoMemory, Page};
use pb_explain_words::{read_words, tell_usage, tell_version};
use pb_io::{Folder, Sink, write_all};
use std::alloc::Global;

/// Writes to `err` why a call of the program with these words, those after its name, ended with this status. The files are read
/// once more from `folder`.
///
/// `answers` are those of the call: word number `count` of a rank, from 0, by a seed, the rank and that number. After `Done`
/// warnings are written on a protocol that was checked, generated or run, and nothing where there are none. Nothing is written
/// after `WriteFault` and `NoMemory`, where memory runs out, and where a file isn't any more what it was.
#[tactic(auto, using(crate::proofs::Taken::unchanged, crate::proofs::Taken::written))]
pub fn explain<F: Folder, E: Sink, A: Fn(u64, u32, u64) -> u32 + Drop>(
    alloc: Global,
    words: &[String],
    status: Status,
    folder: &mut F,
    err: &mut E,
    answers: A,
)
    requires { A.IsAlwaysCallable answers }
    ensures { Tells (F.holds folder.old) (E.taken err.old) (E.taken err.new) }
{
    match text_of(alloc, words, status, folder, answers) {
        Ok(text) => write_text(err, &text),
        Err(_) => {}
    }
}

/// Writes a text, as far as the sink takes it.
#[tactic(auto, using(crate::proofs::Taken::of_result))]
fn write_text<E: Sink>(err: &mut E, text: &[u8])
    ensures { AppendsSome (E.taken err.old) (E.taken err.new) text.now }
{
    let _written = write_all(err, text);
}

/// What is to be written.
#[tactic(auto, using(pb_explain_again::proofs::Pages::of_words))]
fn text_of<F: Folder, A: Fn(u64, u32, u64) -> u32 + Drop>(
    alloc: Global,
    words: &[String],
    status: Status,
    folder: &mut F,
    answers: A,
) -> Result<Vec<u8>, NoMemory>
    requires { A.IsAlwaysCallable answers }
    ensures { IfOk result (λ text. IsTold (F.holds folder.old) text.items) }
{
    match status {
        Status::Usage => text_of_usage(alloc, words),
        Status::WriteFault | Status::NoMemory => text_of_words(alloc, &Page::new(alloc)),
        Status::Done
        | Status::Refused
        | Status::ReadFault
        | Status::Limit
        | Status::Kernel
        | Status::Text
        | Status::Schedule
        | Status::Stuck
        | Status::Turns
        | Status::OutOfRange
        | Status::CallFault
        | Status::StripFault
        | Status::CostFault
        | Status::NotCovered
        | Status::Log => text_of_call(alloc, words, status, folder, answers),
    }
}

/// Words in no form; or the name and the version, where they are asked for.
fn text_of_usage(alloc: Global, words: &[String]) -> Result<Vec<u8>, NoMemory>
    ensures { IfOk result (λ text. IsPageOf [] [] text.items) }
{
    let reading = read_words(alloc, words)?;
    let mut page = Page::new(alloc);
    match reading.wrong_option() {
        Some("--version") | Some("-V") => tell_version(&mut page)?,
        _ => tell_usage(alloc, &mut page, &reading)?,
    }
    text_of_words(alloc, &page)
}

/// Words in a form.
#[tactic(auto, using(pb_explain_again::proofs::Pages::of_words))]
fn text_of_call<F: Folder, A: Fn(u64, u32, u64) -> u32 + Drop>(
    alloc: Global,
    words: &[String],
    status: Status,
    folder: &mut F,
    answers: A,
) -> Result<Vec<u8>, NoMemory>
    requires { A.IsAlwaysCallable answers }
    ensures { IfOk result (λ text. IsTold (F.holds folder.old) text.items) }
{
    let Some(command) = command_in(alloc, words)? else {
        return text_of_words(alloc, &Page::new(alloc));
    };
    if status == Status::ReadFault {
        text_of_read_fault(alloc, folder, command)
    } else {
        text_of_files(alloc, folder, command, status, answers)
    }
}
