//! Answers to a protocol file.

ghost use Rattle.std.specs.Prelude.{IfOk};
ghost use Rattle.pb_explain_source.specs.Pages.{IsPageOf};
ghost use Rattle.pb_explain_again.specs.Told.{IsTold};

use crate::running::{tell_many, tell_values};
use crate::verdict::{tell_refused, tree_of};
use pb_cli_status::Status;
use pb_cli_words::Options;
use pb_explain_again::{Again, MOST_FILE_BYTES, read_again, text_of_loss};
use pb_explain_runs::tell_turns;
use pb_explain_source::{NoMemory, Page, Source};
use pb_explain_warnings::tell_warnings;
use pb_io::Folder;
use std::alloc::Global;

/// What was asked of a protocol.
#[derive(Clone, Copy)]
pub enum Ask {
    /// Its verdict, its text, or its endpoint program.
    Verdict,
    /// A simulation.
    Run(Options),
    /// The ruling on a log at this N.
    Judge(u32),
}

/// Writes the warnings on an accepted protocol.
pub fn warn(alloc: Global, page: &mut Page, source: &Source) -> Result<(), NoMemory> {
    match tree_of(alloc, source.bytes)? {
        Some(file) => tell_warnings(page, &file),
        None => Ok(()),
    }
}

/// Explains a limit: one of the protocol, or else one of its simulation.
fn tell_limits(alloc: Global, page: &mut Page, source: &Source, ask: Ask) -> Result<(), NoMemory> {
    if tell_refused(alloc, page, source, Status::Limit)? {
        return Ok(());
    }
    match (ask, tree_of(alloc, source.bytes)?) {
        (Ask::Run(options), Some(file)) => {
            tell_many(alloc, page, source, &file, i64::from(options.n))
        }
        (Ask::Judge(n), Some(file)) => tell_many(alloc, page, source, &file, i64::from(n)),
        _ => Ok(()),
    }
}

/// Explains that N isn't in the protocol's range.
fn tell_range(alloc: Global, page: &mut Page, source: &Source, n: u32) -> Result<(), NoMemory> {
    match tree_of(alloc, source.bytes)? {
        Some(file) => tell_values(alloc, page, &file, i64::from(n)),
        None => Ok(()),
    }
}

/// Explains what a simulation of the protocol came to.
fn tell_run(
    alloc: Global,
    page: &mut Page,
    source: &Source,
    status: Status,
    options: Options,
) -> Result<(), NoMemory> {
    if status == Status::Turns {
        return tell_turns(page, source.file, u64::from(options.turns));
    }
    tell_range(alloc, page, source, options.n)
}

/// Explains what came of an accepted protocol at the N that was asked for.
fn tell_at(
    alloc: Global,
    page: &mut Page,
    source: &Source,
    status: Status,
    ask: Ask,
) -> Result<(), NoMemory> {
    match ask {
        Ask::Verdict => Ok(()),
        Ask::Run(options) => tell_run(alloc, page, source, status, options),
        Ask::Judge(n) => tell_range(alloc, page, source, n),
    }
}

/// Explains the answer to a protocol of these bytes.
pub fn tell_protocol(
    alloc: Global,
    page: &mut Page,
    source: &Source,
    status: Status,
    ask: Ask,
) -> Result<(), NoMemory> {
    match status {
        Status::Done => warn(alloc, page, source),
        Status::Refused => {
            let _refused = tell_refused(alloc, page, source, status)?;
            Ok(())
        }
        Status::Limit => tell_limits(alloc, page, source, ask),
        Status::Turns | Status::OutOfRange => tell_at(alloc, page, source, status, ask),
        _ => Ok(()),
    }
}

/// What is told of the bytes of a protocol file.
fn text_of_protocol(
    alloc: Global,
    source: &Source,
    status: Status,
    ask: Ask,
) -> Result<Vec<u8>, NoMemory>
    ensures { IfOk result (λ text. IsPageOf source.now.file.now source.now.bytes.now text.items) }
{
    let mut page = Page::new(alloc);
    tell_protocol(alloc, &mut page, source, status, ask)?;
    page.text(alloc, source)
}

/// What is told of a protocol file.
#[tactic(auto, using(pb_explain_again::proofs::Pages::of_file, pb_explain_again::proofs::Pages::of_words))]
pub fn text_of_file<F: Folder>(
    alloc: Global,
    folder: &mut F,
    file: &str,
    status: Status,
    ask: Ask,
) -> Result<Vec<u8>, NoMemory>
    ensures { IfOk result (λ text. IsTold (F.holds folder.old) text.items) }
{
    match read_again(alloc, folder, file, MOST_FILE_BYTES)? {
        Again::Bytes(bytes) => {
            let source = Source {
                file,
                bytes: &bytes,
            };
            text_of_protocol(alloc, &source, status, ask)
        }
        Again::Lost(loss) => text_of_loss(alloc, file, loss, status),
    }
}
