use crate::text::Text;
use pb_core_language::{Core, CoreKernel, CoreLabel};
use pb_plain::Collective;
use pb_plain_run::{FullAction, RankAction};
use pb_syntax::Payload;
use pb_text::NoMemory;

/// The line of an action: its rank, what it is, the other rank, the label and the words.
pub fn put_action(text: &mut Text, core: &Core, done: &RankAction) -> Result<(), NoMemory> {
    text.put_number(done.rank)?;
    match &done.action {
        FullAction::Choose { kernel, branch, .. } => {
            put_kernel(text, b" choose ", &core.kernels, *kernel)?;
            text.put(b" ")?;
            text.put_number(*branch)?;
        }
        FullAction::Run { kernel } => put_kernel(text, b" run ", &core.kernels, *kernel)?,
        FullAction::Send { to, label, words } => {
            put_message(text, b" send ", *to, &core.labels, *label, words.list())?;
        }
        FullAction::Recv { from, label, words } => {
            put_message(text, b" recv ", *from, &core.labels, *label, words.list())?;
        }
        FullAction::Enter { joint, words } => {
            put_joint(text, b" enter ", &core.labels, joint, words.list())?;
        }
        FullAction::Leave { joint, words } => {
            put_joint(text, b" leave ", &core.labels, joint, words.list())?;
        }
    }
    text.put(b"\n")
}

fn put_kernel(
    text: &mut Text,
    what: &[u8],
    kernels: &[CoreKernel],
    kernel: u32,
) -> Result<(), NoMemory> {
    text.put(what)?;
    match kernels.get(kernel as usize) {
        Some(row) => text.put(row.name.bytes()),
        None => Ok(()),
    }
}

fn put_message(
    text: &mut Text,
    what: &[u8],
    peer: u64,
    labels: &[CoreLabel],
    label: u32,
    words: &[u32],
) -> Result<(), NoMemory> {
    text.put(what)?;
    text.put_number(peer)?;
    text.put(b" ")?;
    put_words(text, labels, label, words)
}

fn put_joint(
    text: &mut Text,
    what: &[u8],
    labels: &[CoreLabel],
    joint: &Collective,
    words: &[u32],
) -> Result<(), NoMemory> {
    text.put(what)?;
    match joint {
        Collective::Barrier => text.put(b"barrier"),
        Collective::Broadcast { label, .. }
        | Collective::Reduce { label, .. }
        | Collective::Allreduce { label, .. } => put_words(text, labels, *label, words),
    }
}

/// The label and its words, which have a sign where the label carries int32.
fn put_words(
    text: &mut Text,
    labels: &[CoreLabel],
    label: u32,
    words: &[u32],
) -> Result<(), NoMemory> {
    text.put_label(labels, label)?;
    let sign = sign_of(labels, label);
    for word in words {
        text.put(b" ")?;
        put_word(text, sign, *word)?;
    }
    Ok(())
}

/// How a word is read.
#[derive(Clone, Copy)]
enum Sign {
    /// As a number from 0 on.
    Unsigned,
    /// In two's complement.
    Signed,
}

fn sign_of(labels: &[CoreLabel], label: u32) -> Sign {
    match labels.get(label as usize) {
        Some(row) => match row.payload {
            Payload::Unit | Payload::Uint32(_) => Sign::Unsigned,
            Payload::Int32(_) => Sign::Signed,
        },
        None => Sign::Unsigned,
    }
}

fn put_word(text: &mut Text, sign: Sign, word: u32) -> Result<(), NoMemory> {
    match sign {
        Sign::Signed if 0x8000_0000 <= word => text.put_signed(i64::from(word) - 0x1_0000_0000),
        Sign::Signed | Sign::Unsigned => text.put_number(u64::from(word)),
    }
}
