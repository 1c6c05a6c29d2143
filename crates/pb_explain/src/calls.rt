//! Files with subprotocols that aren't expanded.

ghost use Rattle.std.specs.Prelude.{IfOk};
ghost use Rattle.pb_explain_source.specs.Pages.{IsPageOf};
ghost use Rattle.pb_explain_again.specs.Told.{IsTold};

use crate::named::{Sentence, point_at_word};
use pb_cli_expand::refusal_in;
use pb_cli_status::{CallWrong, Refusal, Status};
use pb_explain_again::{Again, MOST_FILE_BYTES, read_again, text_of_loss};
use pb_explain_source::{NoMemory, Page, Part, Source};
use pb_explain_syntax::tell_limit;
use pb_io::Folder;
use pb_text::{MOST_TEXT_BYTES, Place};
use std::alloc::Global;

/// What is wrong with a call or a subprotocol, around the name at the place.
fn reason(wrong: CallWrong) -> Sentence<'static> {
    match wrong {
        CallWrong::Twice => Sentence {
            front: "the name `",
            behind: "` is taken: subprotocols have names of their own, and so have the parameters of one",
        },
        CallWrong::Unknown => Sentence {
            front: "there is no subprotocol `",
            behind: "`",
        },
        CallWrong::Arity => Sentence {
            front: "this call of `",
            behind: "` has another number of arguments than its subprotocol has parameters",
        },
        CallWrong::Stranger => Sentence {
            front: "`",
            behind: "` stands for nothing here",
        },
        CallWrong::Cycle => Sentence {
            front: "this call of `",
            behind: "` goes in a circle: what it calls comes back to where it stands",
        },
    }
}

/// What to do about it.
fn remedy(wrong: CallWrong) -> &'static str {
    match wrong {
        CallWrong::Twice => "give it another name",
        CallWrong::Unknown => {
            "write `protocol NAME(role A, ..) { .. }` between the constant and `global`, or call one that is there"
        }
        CallWrong::Arity => "give one role for each parameter",
        CallWrong::Stranger => {
            "a subprotocol speaks of its parameters alone, and `continue` of a loop around it; the protocol hands on declared roles"
        }
        CallWrong::Cycle => "say it by a loop, `rec X { .. continue X; }`",
    }
}

/// Writes that a file with subprotocols doesn't go on so.
fn tell_stop(page: &mut Page, place: Place) -> Result<(), NoMemory> {
    page.point(place, &[Part::Text("no file with subprotocols goes on so")])?;
    page.help(&[Part::Text(
        "docs/LANGUAGE.md has the grammar: `protocol NAME(role A, ..) { .. }` in front of `global`, and `do NAME(A, ..);` in a block",
    )])
}

/// Writes why these bytes aren't expanded.
fn tell_refusal(page: &mut Page, source: &Source, why: &Refusal) -> Result<(), NoMemory> {
    match why {
        Refusal::Call(wrong, place) => {
            point_at_word(page, source, *place, &reason(*wrong))?;
            page.help(&[Part::Text(remedy(*wrong))])
        }
        Refusal::Syntax(place) => tell_stop(page, *place),
        Refusal::Limit(limit, place) => tell_limit(page, source, *limit, Some(*place)),
        _ => Ok(()),
    }
}

/// Writes why these bytes aren't expanded, where the program ends with this status for it.
fn tell_due(
    alloc: Global,
    page: &mut Page,
    source: &Source,
    status: Status,
) -> Result<(), NoMemory> {
    if source.bytes.len() > MOST_TEXT_BYTES as usize {
        return Ok(());
    }
    match refusal_in(alloc, source.bytes) {
        Some(why) if why.status() == status => tell_refusal(page, source, &why),
        Some(_) | None => Ok(()),
    }
}

/// What is told of the bytes of a file with subprotocols.
fn text_of_calls(alloc: Global, source: &Source, status: Status) -> Result<Vec<u8>, NoMemory>
    ensures { IfOk result (λ text. IsPageOf source.now.file.now source.now.bytes.now text.items) }
{
    let mut page = Page::new(alloc);
    tell_due(alloc, &mut page, source, status)?;
    page.text(alloc, source)
}

/// What is told of a file with subprotocols.
pub fn text_of_expand<F: Folder>(
    alloc: Global,
    folder: &mut F,
    file: &str,
    status: Status,
) -> Result<Vec<u8>, NoMemory>
    ensures { IfOk result (λ text. IsTold (F.holds folder.old) text.items) }
{
    match read_again(alloc, folder, file, MOST_FILE_BYTES)? {
        Again::Bytes(bytes) => {
            let source = Source {
                file,
                bytes: &bytes,
            };
            text_of_calls(alloc, &source, status)
        }
        Again::Lost(loss) => text_of_loss(alloc, file, loss, status),
    }
}
