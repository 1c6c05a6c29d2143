//! The lines of a log.

ghost use Rattle.std.specs.Prelude.{◌≡◌, ◌++◌, OnOk, IfOk, codes, decimal};
ghost use Rattle.pb_local.specs.Tables.{label_at, kernel_at};
ghost use Rattle.pb_local.specs.Tree.{program_of};
ghost use Rattle.pb_sched.specs.Logged.{signed_text, word_text, words_text, label_text, joint_text, action_text, log_line};

use pb_ctree::{CTree, Local, Payload};
use pb_text::{Action, Joint, NoMemory, push_decimal};
use std::alloc::Global;

fn push_signed(out: &mut Vec<u8>, word: u32) -> Result<(), NoMemory>
    ensures { OnOk result (out.new.items ≡ out.old.items ++ signed_text word) }
{
    if word < 2_147_483_648 {
        return push_decimal(out, u64::from(word));
    }
    out.push(b'-')?;
    push_decimal(out, 4_294_967_296 - u64::from(word))
}

fn push_word(out: &mut Vec<u8>, payload: Payload, word: u32) -> Result<(), NoMemory>
    ensures { OnOk result (out.new.items ≡ out.old.items ++ word_text payload word) }
{
    match payload {
        Payload::Int32(_) => push_signed(out, word),
        Payload::Unit => push_decimal(out, u64::from(word)),
        Payload::Uint32(_) => push_decimal(out, u64::from(word)),
    }
}

fn push_words(out: &mut Vec<u8>, payload: Payload, words: &[u32]) -> Result<(), NoMemory>
    ensures { OnOk result (out.new.items ≡ out.old.items ++ words_text payload words.now) }
{
    for word in words {
        out.push(b' ')?;
        push_word(out, payload, *word)?;
    }
    Ok(())
}

fn push_label(out: &mut Vec<u8>, local: &Local, label: u32, words: &[u32]) -> Result<(), NoMemory>
    ensures { OnOk result (out.new.items ≡ out.old.items ++ label_text (label_at (program_of local.now) label) words.now) }
{
    out.extend_from_slice(local.label_name(label))?;
    push_words(out, local.payload(label), words)
}

fn push_joint(out: &mut Vec<u8>, local: &Local, what: Joint, words: &[u32]) -> Result<(), NoMemory>
    ensures { OnOk result (out.new.items ≡ out.old.items ++ joint_text (program_of local.now) what words.now) }
{
    match what {
        Joint::Barrier => {
            out.extend_from_slice(b"barrier")?;
            push_words(out, Payload::Unit, words)
        }
        Joint::Labelled(label) => push_label(out, local, label, words),
    }
}

/// Appends a rank and what it does.
fn push_rank(out: &mut Vec<u8>, rank: u32, does: &[u8]) -> Result<(), NoMemory>
    ensures { OnOk result (out.new.items ≡ out.old.items ++ (decimal rank ++ does.now)) }
{
    push_decimal(out, u64::from(rank))?;
    out.extend_from_slice(does)?;
    Ok(())
}

fn push_choice(
    out: &mut Vec<u8>,
    local: &Local,
    rank: u32,
    kernel: u32,
    answer: u32,
) -> Result<(), NoMemory>
    ensures { OnOk result (out.new.items ≡ out.old.items ++ (decimal rank ++ codes " choose " ++ (kernel_at (program_of local.now) kernel).name ++ codes " " ++ decimal answer)) }
{
    push_rank(out, rank, b" choose ")?;
    out.extend_from_slice(local.kernel_name(kernel))?;
    out.push(b' ')?;
    push_decimal(out, u64::from(answer))
}

/// Appends a message's line: the rank, what it does, the other rank, the label and the words.
fn push_message(
    out: &mut Vec<u8>,
    local: &Local,
    rank: u32,
    does: &[u8],
    other: u32,
    label: u32,
    words: &[u32],
) -> Result<(), NoMemory>
    ensures { OnOk result (out.new.items ≡ out.old.items ++ (decimal rank ++ does.now ++ decimal other ++ codes " " ++ label_text (label_at (program_of local.now) label) words.now)) }
{
    push_rank(out, rank, does)?;
    push_rank(out, other, b" ")?;
    push_label(out, local, label, words)
}

fn push_action(out: &mut Vec<u8>, local: &Local, action: &Action) -> Result<(), NoMemory>
    ensures { OnOk result (out.new.items ≡ out.old.items ++ action_text (program_of local.now) action.now) }
{
    match action {
        Action::Choose {
            rank,
            kernel,
            answer,
        } => push_choice(out, local, *rank, *kernel, *answer),
        Action::Run { rank, kernel } => {
            push_rank(out, *rank, b" run ")?;
            out.extend_from_slice(local.kernel_name(*kernel))?;
            Ok(())
        }
        Action::Send {
            rank,
            to,
            label,
            words,
        } => { push_message(out, local, *rank, b" send ", *to, *label, words.list()) }
        Action::Recv {
            rank,
            from,
            label,
            words,
        } => { push_message(out, local, *rank, b" recv ", *from, *label, words.list()) }
        Action::Enter { rank, what, words } => {
            push_rank(out, *rank, b" enter ")?;
            push_joint(out, local, *what, words.list())
        }
        Action::Leave { rank, what, words } => {
            push_rank(out, *rank, b" leave ")?;
            push_joint(out, local, *what, words.list())
        }
    }
}

/// Appends the line of an action in a log, as `log_line` gives it. Where memory runs out some first bytes of it are there.
pub fn push_line(out: &mut Vec<u8>, tree: &CTree, action: &Action) -> Result<(), NoMemory>
    ensures { OnOk result (out.new.items ≡ out.old.items ++ log_line (program_of tree.now.local) action.now) }
{
    push_action(out, &tree.local, action)?;
    out.push(b'\n')?;
    Ok(())
}

/// The line of an action in a log, with its line feed: the rank, what it does, and the other rank, the label's or
/// kernel's name and the words where it has them, each after one space. Words of an `int32` label are printed signed.
/// A number that the tables lack has an empty name.
pub fn log_line(alloc: Global, tree: &CTree, action: &Action) -> Result<Vec<u8>, NoMemory>
    ensures { IfOk result (λ line. line.items ≡ log_line (program_of tree.now.local) action.now) }
{
    let mut out = Vec::new(alloc);
    push_line(&mut out, tree, action)?;
    Ok(out)
}
