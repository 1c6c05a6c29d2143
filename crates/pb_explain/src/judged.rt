//! Logs that aren't ones of their protocol.

ghost use Rattle.std.specs.Prelude.{IfOk};
ghost use Rattle.pb_explain_source.specs.Pages.{IsPageOf};
ghost use Rattle.pb_explain_again.specs.Told.{IsTold};

use pb_cli_judge::line_in;
use pb_cli_status::{Refusal, Status};
use pb_explain_again::{Again, MOST_FILE_BYTES, read_again, tell_long, tell_once, text_of_loss};
use pb_explain_protocol::{Ask, tell_protocol, text_of_file};
use pb_explain_runs::{tell_beyond, tell_differs, tell_log_line};
use pb_explain_source::{NoMemory, Page, Source};
use pb_io::Folder;
use pb_text::MOST_TEXT_BYTES;
use std::alloc::Global;

/// What `judge` is asked for.
#[derive(Clone, Copy)]
pub struct Judged<'a> {
    pub file: &'a str,
    pub log: &'a str,
    pub n: u32,
}

/// Writes what is wrong with a line of the log.
fn tell_line(page: &mut Page, log: &Source, why: Refusal) -> Result<(), NoMemory> {
    match why {
        Refusal::LogDiffers { line, rank } => tell_differs(page, line, rank),
        Refusal::LogBeyond { line, rank } => tell_beyond(page, line, rank),
        Refusal::LogMalformed(line) => tell_log_line(page, log, line),
        _ => Ok(()),
    }
}

/// Writes the ruling on a log, as the program finds it in the folder, where the program ends with this status for it.
fn tell_ruling<F: Folder>(
    alloc: Global,
    page: &mut Page,
    folder: &mut F,
    asked: &Judged,
    log: &Source,
    status: Status,
) -> Result<(), NoMemory> {
    match line_in(alloc, folder, asked.file, asked.log, asked.n) {
        Err(why) if why.status() == status => tell_line(page, log, why),
        Err(Refusal::ReadFault) => tell_once(page, asked.file),
        _ => Ok(()),
    }
}

/// What is told of a log of these bytes.
fn text_of_ruling<F: Folder>(
    alloc: Global,
    folder: &mut F,
    asked: &Judged,
    log: &Source,
    status: Status,
) -> Result<Vec<u8>, NoMemory>
    ensures { IfOk result (λ text. IsPageOf log.now.file.now log.now.bytes.now text.items) }
{
    let mut page = Page::new(alloc);
    tell_ruling(alloc, &mut page, folder, asked, log, status)?;
    page.text(alloc, log)
}

/// What is told of a log.
fn text_of_log<F: Folder>(
    alloc: Global,
    folder: &mut F,
    asked: &Judged,
    status: Status,
) -> Result<Vec<u8>, NoMemory>
    ensures { IfOk result (λ text. IsTold (F.holds folder.old) text.items) }
{
    // The bytes that are told of are those before the folder is used again.
    match read_again(alloc, folder, asked.log, MOST_TEXT_BYTES)? {
        Again::Bytes(bytes) => {
            let source = Source {
                file: asked.log,
                bytes: &bytes,
            };
            text_of_ruling(alloc, folder, asked, &source, status)
        }
        Again::Lost(loss) => text_of_loss(alloc, asked.log, loss, status),
    }
}

/// Whether the log has more bytes than it may have. The protocol file hasn't.
fn is_long_log<F: Folder>(alloc: Global, folder: &mut F, asked: &Judged) -> bool {
    match line_in(alloc, folder, asked.file, asked.log, asked.n) {
        Err(Refusal::FileBytes) => true,
        _ => false,
    }
}

/// Writes which limit is passed: that on the log's bytes, or else one of the protocol or of its ranks.
fn tell_limits<F: Folder>(
    alloc: Global,
    page: &mut Page,
    folder: &mut F,
    asked: &Judged,
    protocol: &Source,
) -> Result<(), NoMemory> {
    if is_long_log(alloc, folder, asked) {
        return tell_long(page, asked.log);
    }
    tell_protocol(alloc, page, protocol, Status::Limit, Ask::Judge(asked.n))
}

/// What is told of a limit, where the protocol has these bytes.
fn text_of_excess<F: Folder>(
    alloc: Global,
    folder: &mut F,
    asked: &Judged,
    protocol: &Source,
) -> Result<Vec<u8>, NoMemory>
    ensures { IfOk result (λ text. IsPageOf protocol.now.file.now protocol.now.bytes.now text.items) }
{
    let mut page = Page::new(alloc);
    tell_limits(alloc, &mut page, folder, asked, protocol)?;
    page.text(alloc, protocol)
}

/// What is told of a limit.
fn text_of_limits<F: Folder>(
    alloc: Global,
    folder: &mut F,
    asked: &Judged,
) -> Result<Vec<u8>, NoMemory>
    ensures { IfOk result (λ text. IsTold (F.holds folder.old) text.items) }
{
    match read_again(alloc, folder, asked.file, MOST_FILE_BYTES)? {
        Again::Bytes(bytes) => {
            let source = Source {
                file: asked.file,
                bytes: &bytes,
            };
            text_of_excess(alloc, folder, asked, &source)
        }
        Again::Lost(loss) => text_of_loss(alloc, asked.file, loss, Status::Limit),
    }
}

/// What is told of a protocol file and a log.
pub fn text_of_judged<F: Folder>(
    alloc: Global,
    folder: &mut F,
    asked: &Judged,
    status: Status,
) -> Result<Vec<u8>, NoMemory>
    ensures { IfOk result (λ text. IsTold (F.holds folder.old) text.items) }
{
    match status {
        Status::NotCovered | Status::Log => text_of_log(alloc, folder, asked, status),
        Status::Limit => text_of_limits(alloc, folder, asked),
        _ => text_of_file(alloc, folder, asked.file, status, Ask::Judge(asked.n)),
    }
}
