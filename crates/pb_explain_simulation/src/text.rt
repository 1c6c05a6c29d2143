//! Answers to a C text.

ghost use Rattle.std.specs.Prelude.{IfOk};
ghost use Rattle.pb_ctree.specs.Trees.{IsTree};
ghost use Rattle.pb_explain_source.specs.Pages.{IsPageOf};
ghost use Rattle.pb_explain_again.specs.Told.{IsTold};

use crate::played::tell_by_seed;
use crate::running::{tell_many_in, tell_values_in};
use pb_cli_simulate::read_text;
use pb_cli_status::{Refusal, Status};
use pb_cli_words::Options;
use pb_ctree::CTree;
use pb_explain_again::{Again, read_again, text_of_loss};
use pb_explain_runs::tell_turns;
use pb_explain_source::{NoMemory, Page, Source};
use pb_explain_syntax::tell_limit;
use pb_explain_texts::tell_text_line;
use pb_io::Folder;
use pb_text::MOST_TEXT_BYTES;
use std::alloc::Global;

/// Writes why bytes are no text, where the program ends with this status for it.
pub fn tell_no_text(
    alloc: Global,
    page: &mut Page,
    source: &Source,
    refusal: Refusal,
    status: Status,
) -> Result<(), NoMemory> {
    if refusal.status() != status {
        return Ok(());
    }
    match refusal {
        Refusal::Text(place) => tell_text_line(alloc, page, source, place),
        Refusal::Limit(quantity, place) => tell_limit(page, source, quantity, Some(place)),
        _ => Ok(()),
    }
}

/// Explains what a simulation of a tree came to.
fn tell_simulation<A: Fn(u64, u32, u64) -> u32 + Drop>(
    alloc: Global,
    page: &mut Page,
    source: &Source,
    tree: CTree,
    status: Status,
    options: Options,
    answers: A,
) -> Result<(), NoMemory>
    requires callable { A.IsAlwaysCallable answers }
    requires tree { IsTree tree }
{
    match status {
        Status::Limit => tell_many_in(alloc, page, source, &tree, i64::from(options.n)),
        Status::OutOfRange => tell_values_in(alloc, page, &tree, i64::from(options.n)),
        Status::Turns => tell_turns(page, source.file, u64::from(options.turns)),
        Status::Stuck => tell_by_seed(alloc, page, source.file, tree, options, answers),
        Status::Done
        | Status::Refused
        | Status::Usage
        | Status::ReadFault
        | Status::WriteFault
        | Status::NoMemory
        | Status::Kernel
        | Status::Text
        | Status::Schedule
        | Status::CallFault
        | Status::StripFault
        | Status::CostFault
        | Status::NotCovered
        | Status::Log => Ok(()),
    }
}

/// What is told of a C text.
#[tactic(auto, using(pb_cli_simulate::proofs::Taken::made))]
fn text_of_source<A: Fn(u64, u32, u64) -> u32 + Drop>(
    alloc: Global,
    source: &Source,
    status: Status,
    options: Options,
    answers: A,
) -> Result<Vec<u8>, NoMemory>
    requires { A.IsAlwaysCallable answers }
    ensures { IfOk result (λ text. IsPageOf source.now.file.now source.now.bytes.now text.items) }
{
    let mut page = Page::new(alloc);
    match read_text(alloc, source.bytes) {
        Ok(tree) => tell_simulation(alloc, &mut page, source, tree, status, options, answers)?,
        Err(refusal) => tell_no_text(alloc, &mut page, source, refusal, status)?,
    }
    page.text(alloc, source)
}

/// What is told of the file of a C text.
#[tactic(auto, using(pb_explain_again::proofs::Pages::of_file, pb_explain_again::proofs::Pages::of_words))]
pub fn text_of_text<F: Folder, A: Fn(u64, u32, u64) -> u32 + Drop>(
    alloc: Global,
    folder: &mut F,
    file: &str,
    status: Status,
    options: Options,
    answers: A,
) -> Result<Vec<u8>, NoMemory>
    requires { A.IsAlwaysCallable answers }
    ensures { IfOk result (λ text. IsTold (F.holds folder.old) text.items) }
{
    match read_again(alloc, folder, file, MOST_TEXT_BYTES)? {
        Again::Bytes(bytes) => {
            let source = Source {
                file,
                bytes: &bytes,
            };
            text_of_source(alloc, &source, status, options, answers)
        }
        Again::Lost(loss) => text_of_loss(alloc, file, loss, status),
    }
}
