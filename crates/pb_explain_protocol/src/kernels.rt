//! Answers to a protocol file with a kernel file.

ghost use Rattle.std.specs.Prelude.{IfOk};
ghost use Rattle.pb_io.specs.Files.{IsContent};
ghost use Rattle.pb_explain_source.specs.Pages.{IsPageOf};
ghost use Rattle.pb_explain_again.specs.Told.{IsTold};

use crate::protocol::warn;
use crate::verdict::tell_refused;
use pb_cli_status::Status;
use pb_compile::accept;
use pb_explain_again::{Again, MOST_FILE_BYTES, read_again, text_of_loss};
use pb_explain_kernels::tell_kernels;
use pb_explain_source::{NoMemory, Page, Source};
use pb_io::Folder;
use pb_text::MOST_TEXT_BYTES;
use std::alloc::Global;

/// Writes why the kernel file of these bytes doesn't fit the protocol.
fn tell_misfit(
    alloc: Global,
    page: &mut Page,
    protocol: &[u8],
    kernels: &Source,
) -> Result<(), NoMemory> {
    if protocol.len() > MOST_TEXT_BYTES as usize {
        return Ok(());
    }
    match accept(alloc, protocol) {
        Ok(core) => tell_kernels(
            alloc,
            page,
            kernels,
            core.labels.as_slice(),
            core.kernels.as_slice(),
        ),
        Err(_) => Ok(()),
    }
}

/// What is told of a kernel file.
fn text_of_misfit(
    alloc: Global,
    protocol: &[u8],
    kernels: &Source,
    status: Status,
) -> Result<Vec<u8>, NoMemory>
    ensures { IfOk result (λ text. IsPageOf kernels.now.file.now kernels.now.bytes.now text.items) }
{
    let mut page = Page::new(alloc);
    if status == Status::Kernel {
        tell_misfit(alloc, &mut page, protocol, kernels)?;
    }
    page.text(alloc, kernels)
}

/// Reads the kernel file, and tells why it doesn't fit.
#[tactic(auto, using(pb_explain_again::proofs::Pages::of_file, pb_explain_again::proofs::Pages::of_words))]
fn text_of_kernels<F: Folder>(
    alloc: Global,
    folder: &mut F,
    protocol: &[u8],
    kernels: &str,
    status: Status,
) -> Result<Vec<u8>, NoMemory>
    ensures { IfOk result (λ text. IsTold (F.holds folder.old) text.items) }
{
    match read_again(alloc, folder, kernels, MOST_FILE_BYTES)? {
        Again::Bytes(bytes) => {
            let source = Source {
                file: kernels,
                bytes: &bytes,
            };
            text_of_misfit(alloc, protocol, &source, status)
        }
        Again::Lost(loss) => text_of_loss(alloc, kernels, loss, status),
    }
}

/// What is told of a protocol of these bytes with a kernel file.
#[tactic(auto, using(pb_explain_again::proofs::Pages::of_file, pb_explain_again::proofs::Pages::of_same))]
fn text_of_both<F: Folder>(
    alloc: Global,
    folder: &mut F,
    protocol: &Source,
    kernels: &str,
    status: Status,
) -> Result<Vec<u8>, NoMemory>
    requires { IsContent (F.holds folder.old) protocol.now.file.now protocol.now.bytes.now }
    ensures { IfOk result (λ text. IsTold (F.holds folder.old) text.items) }
{
    let mut page = Page::new(alloc);
    if status == Status::Done {
        warn(alloc, &mut page, protocol)?;
        return page.text(alloc, protocol);
    }
    if tell_refused(alloc, &mut page, protocol, status)? {
        return page.text(alloc, protocol);
    }
    text_of_kernels(alloc, folder, protocol.bytes, kernels, status)
}

/// What is told of a protocol file with a kernel file.
#[tactic(auto, using(pb_explain_again::proofs::Pages::of_file, pb_explain_again::proofs::Pages::of_words, pb_explain_again::proofs::Pages::of_same))]
pub fn text_of_merge<F: Folder>(
    alloc: Global,
    folder: &mut F,
    file: &str,
    kernels: &str,
    status: Status,
) -> Result<Vec<u8>, NoMemory>
    ensures { IfOk result (λ text. IsTold (F.holds folder.old) text.items) }
{
    match read_again(alloc, folder, file, MOST_FILE_BYTES)? {
        Again::Bytes(bytes) => {
            let source = Source {
                file,
                bytes: &bytes,
            };
            text_of_both(alloc, folder, &source, kernels, status)
        }
        Again::Lost(loss) => text_of_loss(alloc, file, loss, status),
    }
}
