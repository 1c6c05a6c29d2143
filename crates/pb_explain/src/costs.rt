//! Costs that aren't told.

ghost use Rattle.std.specs.Prelude.{IfOk};
ghost use Rattle.pb_explain_source.specs.Pages.{IsPageOf};
ghost use Rattle.pb_explain_again.specs.Told.{IsTold};

use pb_cli_cost::lines_in;
use pb_cli_status::{Quantity, Refusal, Status};
use pb_explain_again::{Again, MOST_FILE_BYTES, read_again, text_of_loss};
use pb_explain_protocol::{Ask, tell_protocol};
use pb_explain_source::{NoMemory, Page, Part, Source};
use pb_explain_syntax::tell_limit;
use pb_io::Folder;
use pb_text::Place;
use std::alloc::Global;

/// Writes that the protocol has a loop at this place.
fn tell_loop(page: &mut Page, place: Place) -> Result<(), NoMemory> {
    page.point(
        place,
        &[Part::Text(
            "costs are told of a protocol without loops: how often one goes round this one isn't known",
        )],
    )?;
    page.help(&[Part::Text(
        "take the costs of one round: those of a protocol that has what is in the loop, without the loop",
    )])
}

/// Writes why there are no costs, as the program finds it in the folder.
fn tell_cost<F: Folder>(
    alloc: Global,
    page: &mut Page,
    folder: &mut F,
    source: &Source,
    status: Status,
) -> Result<(), NoMemory> {
    match (status, lines_in(alloc, folder, source.file).err()) {
        (Status::CostFault, Some(Refusal::CostLoop(place))) => tell_loop(page, place),
        (Status::Limit, Some(Refusal::Pieces)) => {
            tell_limit(page, source, Quantity::Pieces, None)
        }
        _ => tell_protocol(alloc, page, source, status, Ask::Verdict),
    }
}

/// What is told of the costs of a protocol of these bytes.
fn text_of_counts<F: Folder>(
    alloc: Global,
    folder: &mut F,
    source: &Source,
    status: Status,
) -> Result<Vec<u8>, NoMemory>
    ensures { IfOk result (λ text. IsPageOf source.now.file.now source.now.bytes.now text.items) }
{
    let mut page = Page::new(alloc);
    tell_cost(alloc, &mut page, folder, source, status)?;
    page.text(alloc, source)
}

/// What is told of the costs of the protocol in a file.
pub fn text_of_cost<F: Folder>(
    alloc: Global,
    folder: &mut F,
    file: &str,
    status: Status,
) -> Result<Vec<u8>, NoMemory>
    ensures { IfOk result (λ text. IsTold (F.holds folder.old) text.items) }
{
    // The bytes that are told of are those before the folder is used again.
    match read_again(alloc, folder, file, MOST_FILE_BYTES)? {
        Again::Bytes(bytes) => {
            let source = Source {
                file,
                bytes: &bytes,
            };
            text_of_counts(alloc, folder, &source, status)
        }
        Again::Lost(loss) => text_of_loss(alloc, file, loss, status),
    }
}
