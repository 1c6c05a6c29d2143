//! Answers to a C text with a schedule.

ghost use Rattle.std.specs.Prelude.{IfOk};
ghost use Rattle.pb_ctree.specs.Trees.{IsTree};
ghost use Rattle.pb_io.specs.Files.{IsContent};
ghost use Rattle.pb_explain_source.specs.Pages.{IsPageOf};
ghost use Rattle.pb_explain_again.specs.Told.{IsTold};

use crate::played::tell_by_schedule;
use crate::running::{tell_many_in, tell_values_in};
use crate::text::tell_no_text;
use pb_cli_simulate::{read_text, read_turns};
use pb_cli_status::{Quantity, Refusal, Status};
use pb_ctree::CTree;
use pb_explain_again::{Again, read_again, text_of_loss};
use pb_explain_runs::{tell_events, tell_schedule_line};
use pb_explain_source::{NoMemory, Page, Source};
use pb_explain_syntax::tell_limit;
use pb_io::Folder;
use pb_text::MOST_TEXT_BYTES;
use std::alloc::Global;

/// What `replay` is asked for.
#[derive(Clone, Copy)]
pub struct Replay<'a> {
    pub text: &'a str,
    pub schedule: &'a str,
    pub n: u32,
}

/// Writes why bytes are no schedule, where the program ends with this status for it.
fn tell_no_schedule(
    page: &mut Page,
    source: &Source,
    refusal: Refusal,
    status: Status,
) -> Result<(), NoMemory> {
    if refusal.status() != status {
        return Ok(());
    }
    match refusal {
        Refusal::Schedule(line) => tell_schedule_line(page, source, line),
        Refusal::Events => tell_limit(page, source, Quantity::Events, None),
        _ => Ok(()),
    }
}

/// Explains the answer to a tree with a schedule.
fn tell_schedule<A: Fn(u64, u32, u64) -> u32 + Drop>(
    alloc: Global,
    page: &mut Page,
    asked: &Replay,
    source: &Source,
    tree: CTree,
    status: Status,
    answers: A,
) -> Result<(), NoMemory>
    requires callable { A.IsAlwaysCallable answers }
    requires tree { IsTree tree }
{
    match read_turns(alloc, source.bytes) {
        Ok(schedule) => match status {
            Status::Turns => tell_events(page, asked.schedule),
            Status::Schedule | Status::Stuck => tell_by_schedule(
                alloc,
                page,
                asked.text,
                i64::from(asked.n),
                tree,
                &schedule,
                answers,
            ),
            _ => Ok(()),
        },
        Err(refusal) => tell_no_schedule(page, source, refusal, status),
    }
}

/// What is told of a schedule, for a tree.
fn text_of_schedule<A: Fn(u64, u32, u64) -> u32 + Drop>(
    alloc: Global,
    asked: &Replay,
    source: &Source,
    tree: CTree,
    status: Status,
    answers: A,
) -> Result<Vec<u8>, NoMemory>
    requires callable { A.IsAlwaysCallable answers }
    requires tree { IsTree tree }
    ensures { IfOk result (λ text. IsPageOf source.now.file.now source.now.bytes.now text.items) }
{
    let mut page = Page::new(alloc);
    tell_schedule(alloc, &mut page, asked, source, tree, status, answers)?;
    page.text(alloc, source)
}

/// What is told of a C text that isn't for this N, or whose simulation is too large.
fn text_of_bounds(
    alloc: Global,
    text: &Source,
    tree: &CTree,
    n: i64,
    status: Status,
) -> Result<Vec<u8>, NoMemory>
    ensures { IfOk result (λ page. IsPageOf text.now.file.now text.now.bytes.now page.items) }
{
    let mut page = Page::new(alloc);
    if status == Status::OutOfRange {
        tell_values_in(alloc, &mut page, tree, n)?;
    } else {
        tell_many_in(alloc, &mut page, text, tree, n)?;
    }
    page.text(alloc, text)
}

/// Whether bytes are a schedule.
fn is_schedule(alloc: Global, bytes: &[u8]) -> bool {
    read_turns(alloc, bytes).is_ok()
}

/// What is told of a tree and a schedule.
fn text_of_tree<F: Folder, A: Fn(u64, u32, u64) -> u32 + Drop>(
    alloc: Global,
    folder: &mut F,
    asked: &Replay,
    text: &Source,
    tree: CTree,
    status: Status,
    answers: A,
) -> Result<Vec<u8>, NoMemory>
    requires callable { A.IsAlwaysCallable answers }
    requires tree { IsTree tree }
    requires content { IsContent (F.holds folder.old) text.now.file.now text.now.bytes.now }
    ensures { IfOk result (λ page. IsTold (F.holds folder.old) page.items) }
{
    let n = i64::from(asked.n);
    if status == Status::OutOfRange {
        return text_of_bounds(alloc, text, &tree, n, status);
    }
    let bytes = match read_again(alloc, folder, asked.schedule, MOST_TEXT_BYTES)? {
        Again::Bytes(bytes) => bytes,
        Again::Lost(loss) => return text_of_loss(alloc, asked.schedule, loss, status),
    };
    if status == Status::Limit && is_schedule(alloc, &bytes) {
        return text_of_bounds(alloc, text, &tree, n, status);
    }
    let source = Source {
        file: asked.schedule,
        bytes: &bytes,
    };
    text_of_schedule(alloc, asked, &source, tree, status, answers)
}

/// What is told of a C text of these bytes that isn't one.
fn text_of_no_text(
    alloc: Global,
    text: &Source,
    refusal: Refusal,
    status: Status,
) -> Result<Vec<u8>, NoMemory>
    ensures { IfOk result (λ page. IsPageOf text.now.file.now text.now.bytes.now page.items) }
{
    let mut page = Page::new(alloc);
    tell_no_text(alloc, &mut page, text, refusal, status)?;
    page.text(alloc, text)
}

/// What is told of the file of a C text and a schedule.
#[tactic(auto, using(pb_explain_again::proofs::Pages::of_file, pb_explain_again::proofs::Pages::of_words, pb_cli_simulate::proofs::Taken::made, pb_explain_again::proofs::Pages::of_same))]
pub fn text_of_replay<F: Folder, A: Fn(u64, u32, u64) -> u32 + Drop>(
    alloc: Global,
    folder: &mut F,
    asked: &Replay,
    status: Status,
    answers: A,
) -> Result<Vec<u8>, NoMemory>
    requires { A.IsAlwaysCallable answers }
    ensures { IfOk result (λ page. IsTold (F.holds folder.old) page.items) }
{
    let bytes = match read_again(alloc, folder, asked.text, MOST_TEXT_BYTES)? {
        Again::Bytes(bytes) => bytes,
        Again::Lost(loss) => return text_of_loss(alloc, asked.text, loss, status),
    };
    let source = Source {
        file: asked.text,
        bytes: &bytes,
    };
    match read_text(alloc, &bytes) {
        Ok(tree) => text_of_tree(alloc, folder, asked, &source, tree, status, answers),
        Err(refusal) => text_of_no_text(alloc, &source, refusal, status),
    }
}
