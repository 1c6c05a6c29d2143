ghost use Rattle.std.specs.Prelude.{◌≡◌, ℕ, List, IfOk, OnOk};
ghost use Rattle.pb_syntax.specs.Laws.{IsTextOf};
ghost use Rattle.pb_syntax.specs.Layout.{printed};
ghost use Rattle.pb_syntax.specs.Plain.{plain_file};
ghost use Rattle.pb_syntax.specs.Printed.{constant_tokens, head_tokens, file_tokens};

use crate::layout::lay_out;
use crate::statements::push_block;
use crate::tokens::{push_high, push_key, push_mark, push_number, push_roles, push_word};
use crate::{FileTree, NoMemory};
use pb_text::{Key, Mark, TokenKind};
use std::alloc::Global;

/// The tree in the printed layout.
///
/// A line for each statement and each closing brace, two spaces for each open brace, and a line feed behind each line.
/// For a tree that parsing gives, places aside, the bytes are a text of that tree, places aside.
#[tactic(auto, using(crate::proofs::PrintedText::printed_is_text))]
pub fn print_file(alloc: Global, file: &FileTree) -> Result<Vec<u8>, NoMemory>
    ensures layout { IfOk result (λ out. out.items ≡ printed (plain_file file.now)) }
    ensures text { IfOk result (λ out. (bytes : List ℕ) → IsTextOf bytes (plain_file file.now) → IsTextOf out.items (plain_file file.now)) }
{
    lay_out(alloc, &tokens_of(alloc, file)?)
}

fn tokens_of(alloc: Global, file: &FileTree) -> Result<Vec<TokenKind>, NoMemory>
    ensures { IfOk result (λ list. list.items ≡ file_tokens (plain_file file.now)) }
{
    let mut out = Vec::new(alloc);
    push_head(file, &mut out)?;
    push_block(&file.body, &mut out)?;
    Ok(out)
}

// The tokens up to the block.
fn push_head(file: &FileTree, out: &mut Vec<TokenKind>) -> Result<(), NoMemory>
    ensures { OnOk result (out.new.items ≡ head_tokens (plain_file file.now) out.old.items) }
{
    push_constant(file, out)?;
    push_key(Key::Global, out)?;
    push_key(Key::Protocol, out)?;
    push_word(&file.protocol, out)?;
    push_mark(Mark::LeftParen, out)?;
    push_roles(&file.roles, out)?;
    push_mark(Mark::RightParen, out)
}

fn push_constant(file: &FileTree, out: &mut Vec<TokenKind>) -> Result<(), NoMemory>
    ensures { OnOk result (out.new.items ≡ constant_tokens (plain_file file.now) out.old.items) }
{
    push_key(Key::Const, out)?;
    push_word(&file.constant, out)?;
    push_mark(Mark::Equals, out)?;
    push_number(file.low, out)?;
    push_mark(Mark::Dots, out)?;
    push_high(file.high, out)?;
    push_mark(Mark::Semicolon, out)
}
