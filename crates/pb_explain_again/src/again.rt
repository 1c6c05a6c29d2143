//! Files that are read once more.

ghost use Rattle.std.specs.Prelude.{◌≡◌, [], IfOk};
ghost use Rattle.pb_explain_source.specs.Pages.{IsPageOf};
ghost use Rattle.pb_explain_again.specs.Told.{IsAgain};

use pb_cli_status::{Quantity, Status};
use pb_explain_source::{NoMemory, Page, Part, Source};
use pb_explain_syntax::tell_limit;
use pb_io::{Folder, InFault, read_all};
use std::alloc::Global;

/// The greatest number of bytes of a protocol file and of a kernel file.
pub const MOST_FILE_BYTES: u32 = 1_048_576;

/// Why a file gives no bytes once more.
#[derive(Clone, Copy)]
pub enum Loss {
    /// It has more bytes than it may have.
    TooLong,
    /// It can't be read.
    Unread,
}

/// What a file gives that is read once more.
#[derive(Drop)]
pub enum Again {
    Bytes(Vec<u8>),
    Lost(Loss),
}

/// Reads a file once more.
pub fn read_again<F: Folder>(
    alloc: Global,
    folder: &mut F,
    file: &str,
    limit: u32,
) -> Result<Again, NoMemory>
    ensures again { IfOk result (IsAgain (F.holds folder.old) file.now) }
    ensures holds { F.holds folder.new ≡ F.holds folder.old }
{
    match read_all(alloc, folder, file, limit) {
        Ok(bytes) => Ok(Again::Bytes(bytes)),
        Err(InFault::TooLong) => Ok(Again::Lost(Loss::TooLong)),
        Err(InFault::ReadFault) => Ok(Again::Lost(Loss::Unread)),
        Err(InFault::NoMemory) => Err(NoMemory),
    }
}

/// The text of a page that has words alone.
pub fn text_of_words(alloc: Global, page: &Page) -> Result<Vec<u8>, NoMemory>
    ensures { IfOk result (λ text. IsPageOf [] [] text.items) }
{
    page.text(alloc, &Source::unread(""))
}

/// What is told of a file that can't be read.
pub fn text_unread(alloc: Global, file: &str) -> Result<Vec<u8>, NoMemory>
    ensures { IfOk result (λ text. IsPageOf [] [] text.items) }
{
    let mut page = Page::new(alloc);
    page.say(&[Part::Text(file), Part::Text(": this file can't be read\n")])?;
    page.help(&[Part::Text("is it there, under this name, as a file that may be read?")])?;
    text_of_words(alloc, &page)
}

/// Writes that a file can't be read a second time.
pub fn tell_once(page: &mut Page, file: &str) -> Result<(), NoMemory> {
    page.say(&[
        Part::Text(file),
        Part::Text(": it can't be read a second time, as a pipe can't, so no more is told of it\n"),
    ])
}

/// What is told of a file that can't be read a second time.
fn text_once(alloc: Global, file: &str) -> Result<Vec<u8>, NoMemory>
    ensures { IfOk result (λ text. IsPageOf [] [] text.items) }
{
    let mut page = Page::new(alloc);
    tell_once(&mut page, file)?;
    text_of_words(alloc, &page)
}

/// Writes that a file has too many bytes.
pub fn tell_long(page: &mut Page, file: &str) -> Result<(), NoMemory> {
    tell_limit(page, &Source::unread(file), Quantity::FileBytes, None)
}

/// What is told of a file that has too many bytes.
fn text_long(alloc: Global, file: &str) -> Result<Vec<u8>, NoMemory>
    ensures { IfOk result (λ text. IsPageOf [] [] text.items) }
{
    let mut page = Page::new(alloc);
    tell_long(&mut page, file)?;
    text_of_words(alloc, &page)
}

/// What is told of a file that gives no bytes once more, where the call ended with this status.
pub fn text_of_loss(
    alloc: Global,
    file: &str,
    loss: Loss,
    status: Status,
) -> Result<Vec<u8>, NoMemory>
    ensures { IfOk result (λ text. IsPageOf [] [] text.items) }
{
    match loss {
        Loss::TooLong if status == Status::Limit => text_long(alloc, file),
        Loss::Unread if status != Status::Done => text_once(alloc, file),
        Loss::TooLong | Loss::Unread => text_of_words(alloc, &Page::new(alloc)),
    }
}
