//! The files of each command.

ghost use Rattle.std.specs.Prelude.{[], IfOk};
ghost use Rattle.pb_explain_source.specs.Pages.{IsPageOf};
ghost use Rattle.pb_explain_again.specs.Told.{IsTold};

use crate::calls::text_of_expand;
use crate::costs::text_of_cost;
use crate::judged::{Judged, text_of_judged};
use crate::strips::text_of_strips;
use pb_cli_status::Status;
use pb_cli_words::Command;
use pb_explain_again::{Again, Loss, read_again, text_of_words, text_unread};
use pb_explain_protocol::{Ask, text_of_file, text_of_merge};
use pb_explain_simulation::{Replay, text_of_replay, text_of_text};
use pb_explain_source::{NoMemory, Page};
use pb_io::Folder;
use pb_text::MOST_TEXT_BYTES;
use std::alloc::Global;

/// Whether warnings come with what the command writes.
fn is_warned(command: Command) -> bool {
    match command {
        Command::Check(_) | Command::Gen(_) | Command::GenWith(_, _) | Command::Run(_, _) => true,
        Command::Project(_)
        | Command::Sim(_, _)
        | Command::Replay(_, _, _)
        | Command::Demo(_)
        | Command::Expand(_)
        | Command::Strips(_)
        | Command::Cost(_)
        | Command::Judge(_, _, _) => false,
    }
}

/// What is told of a command that ended so.
#[tactic(auto, using(pb_explain_again::proofs::Pages::of_words))]
pub fn text_of_files<F: Folder, A: Fn(u64, u32, u64) -> u32 + Drop>(
    alloc: Global,
    folder: &mut F,
    command: Command,
    status: Status,
    answers: A,
) -> Result<Vec<u8>, NoMemory>
    requires { A.IsAlwaysCallable answers }
    ensures { IfOk result (λ text. IsTold (F.holds folder.old) text.items) }
{
    if status == Status::Done && !is_warned(command) {
        return text_of_words(alloc, &Page::new(alloc));
    }
    match command {
        Command::Check(file) | Command::Gen(file) | Command::Project(file) => {
            text_of_file(alloc, folder, file, status, Ask::Verdict)
        }
        Command::Run(file, options) => {
            text_of_file(alloc, folder, file, status, Ask::Run(options))
        }
        Command::GenWith(file, kernels) => text_of_merge(alloc, folder, file, kernels, status),
        Command::Sim(text, options) => {
            text_of_text(alloc, folder, text, status, options, answers)
        }
        Command::Replay(text, schedule, n) => {
            let asked = Replay { text, schedule, n };
            text_of_replay(alloc, folder, &asked, status, answers)
        }
        // a demo reads no file
        Command::Demo(_) => text_of_words(alloc, &Page::new(alloc)),
        Command::Expand(file) => text_of_expand(alloc, folder, file, status),
        Command::Strips(file) => text_of_strips(alloc, folder, file, status),
        Command::Cost(file) => text_of_cost(alloc, folder, file, status),
        Command::Judge(file, log, n) => {
            let asked = Judged { file, log, n };
            text_of_judged(alloc, folder, &asked, status)
        }
    }
}

/// Whether a file can be read.
fn is_read<F: Folder>(alloc: Global, folder: &mut F, file: &str) -> Result<bool, NoMemory> {
    match read_again(alloc, folder, file, MOST_TEXT_BYTES)? {
        Again::Bytes(_) => Ok(true),
        Again::Lost(loss) => Ok(loss != Loss::Unread),
    }
}

/// Which of two files can't be read, the first one first.
fn text_of_unread<F: Folder>(
    alloc: Global,
    folder: &mut F,
    first: &str,
    second: &str,
) -> Result<Vec<u8>, NoMemory>
    ensures { IfOk result (λ text. IsPageOf [] [] text.items) }
{
    if is_read(alloc, folder, first)? {
        text_unread(alloc, second)
    } else {
        text_unread(alloc, first)
    }
}

/// Which file of the command can't be read.
pub fn text_of_read_fault<F: Folder>(
    alloc: Global,
    folder: &mut F,
    command: Command,
) -> Result<Vec<u8>, NoMemory>
    ensures { IfOk result (λ text. IsPageOf [] [] text.items) }
{
    match command {
        Command::Check(file)
        | Command::Gen(file)
        | Command::Project(file)
        | Command::Run(file, _)
        | Command::Sim(file, _)
        | Command::Expand(file)
        | Command::Strips(file)
        | Command::Cost(file) => text_unread(alloc, file),
        Command::GenWith(file, kernels) => text_of_unread(alloc, folder, file, kernels),
        Command::Replay(text, schedule, _) => text_of_unread(alloc, folder, text, schedule),
        Command::Judge(file, log, _) => text_of_unread(alloc, folder, file, log),
        Command::Demo(_) => text_of_words(alloc, &Page::new(alloc)),
    }
}
