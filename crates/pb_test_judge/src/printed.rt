//! The line of an action of the slow run.

use pb_compile::Core;
use pb_plain::Collective;
use pb_plain_run::{FullAction, RankAction};
use pb_syntax::Payload;
use pb_text::NoMemory;
use std::alloc::Global;

fn label_name(core: &Core, label: u32) -> &[u8] {
    match core.labels.get(label as usize) {
        Some(row) => row.name.bytes(),
        None => b"",
    }
}

fn kernel_name(core: &Core, kernel: u32) -> &[u8] {
    match core.kernels.get(kernel as usize) {
        Some(row) => row.name.bytes(),
        None => b"",
    }
}

fn is_signed(core: &Core, label: u32) -> bool {
    match core.labels.get(label as usize) {
        Some(row) => matches!(row.payload, Payload::Int32(_)),
        None => false,
    }
}

/// Appends a word and the space before it.
fn put(out: &mut Vec<u8>, word: &[u8]) -> Result<(), NoMemory> {
    out.push(b' ')?;
    out.extend_from_slice(word)?;
    Ok(())
}

fn put_number(out: &mut Vec<u8>, n: i64) -> Result<(), NoMemory> {
    out.push(b' ')?;
    pb_text::push_number(out, n)
}

fn put_count(out: &mut Vec<u8>, n: u64) -> Result<(), NoMemory> {
    put_number(out, i64::try_from(n).unwrap_or(i64::MAX))
}

fn put_label(out: &mut Vec<u8>, core: &Core, label: u32, words: &[u32]) -> Result<(), NoMemory> {
    put(out, label_name(core, label))?;
    let is_signed = is_signed(core, label);
    for word in words {
        if is_signed {
            put_number(out, i64::from(word.cast_signed()))?;
        } else {
            put_number(out, i64::from(*word))?;
        }
    }
    Ok(())
}

fn put_joint(
    out: &mut Vec<u8>,
    core: &Core,
    joint: &Collective,
    words: &[u32],
) -> Result<(), NoMemory> {
    match joint {
        Collective::Barrier => put(out, b"barrier"),
        Collective::Broadcast { label, .. }
        | Collective::Reduce { label, .. }
        | Collective::Allreduce { label, .. } => put_label(out, core, *label, words),
    }
}

fn put_action(out: &mut Vec<u8>, core: &Core, action: &FullAction) -> Result<(), NoMemory> {
    match action {
        FullAction::Choose { kernel, branch, .. } => {
            put(out, b"choose")?;
            put(out, kernel_name(core, *kernel))?;
            put_count(out, *branch)
        }
        FullAction::Run { kernel } => {
            put(out, b"run")?;
            put(out, kernel_name(core, *kernel))
        }
        FullAction::Send { to, label, words } => {
            put(out, b"send")?;
            put_count(out, *to)?;
            put_label(out, core, *label, words.list())
        }
        FullAction::Recv { from, label, words } => {
            put(out, b"recv")?;
            put_count(out, *from)?;
            put_label(out, core, *label, words.list())
        }
        FullAction::Enter { joint, words } => {
            put(out, b"enter")?;
            put_joint(out, core, joint, words.list())
        }
        FullAction::Leave { joint, words } => {
            put(out, b"leave")?;
            put_joint(out, core, joint, words.list())
        }
    }
}

/// The line of an action, without its line feed.
pub fn line_of(alloc: Global, core: &Core, done: &RankAction) -> Result<Vec<u8>, NoMemory> {
    let mut out = Vec::new(alloc);
    let rank = i64::try_from(done.rank).unwrap_or(i64::MAX);
    pb_text::push_number(&mut out, rank)?;
    put_action(&mut out, core, &done.action)?;
    Ok(out)
}
