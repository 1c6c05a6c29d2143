ghost use Rattle.std.specs.Prelude.{◌≡◌, OnOk, map};
ghost use Rattle.pb_syntax.specs.Plain.{plain_statement, plain_block, plain_file};
ghost use Rattle.pb_syntax.specs.Tree.{statements_of, branches_of};
ghost use Rattle.pb_syntax.specs.Printed.{statement_tokens, statements_tokens, branches_tokens, or_at, block_tokens, message_tokens, foreach_tokens, kernel_tokens, broadcast_tokens, reduce_tokens, allreduce_tokens};

use crate::tokens::{push_end, push_key, push_mark, push_op, push_payload, push_range, push_word};
use crate::{Block, End, NoMemory, Op, Payload, RangeText, Spot, Statement};
use pb_text::{Key, Mark, TokenKind};

#[cycle(push)]
fn push_statement(statement: &Statement, out: &mut Vec<TokenKind>) -> Result<(), NoMemory>
    ensures { OnOk result (out.new.items ≡ statement_tokens (plain_statement statement.now) out.old.items) }
{
    match statement {
        Statement::Message {
            label,
            payload,
            from,
            to,
        } => push_message(label, *payload, from, to, out),
        Statement::Foreach {
            place: _,
            var,
            range,
            items,
        } => {
            push_foreach(var, range, out)?;
            push_block(items, out)
        }
        Statement::Rec {
            place: _,
            name,
            body,
        } => {
            push_key(Key::Rec, out)?;
            push_word(name, out)?;
            push_block(body, out)
        }
        Statement::Continue { place: _, name } => {
            push_key(Key::Continue, out)?;
            push_word(name, out)?;
            push_mark(Mark::Semicolon, out)
        }
        Statement::Choice {
            place: _,
            kernel,
            at,
            branches,
        } => {
            push_at(Key::Choice, kernel, at, out)?;
            push_branches(branches, out)
        }
        Statement::Compute {
            place: _,
            kernel,
            at,
        } => {
            push_at(Key::Compute, kernel, at, out)?;
            push_mark(Mark::Semicolon, out)
        }
        Statement::Barrier { place: _ } => {
            push_key(Key::Barrier, out)?;
            push_mark(Mark::Semicolon, out)
        }
        Statement::Broadcast {
            place: _,
            label,
            payload,
            from,
        } => push_broadcast(label, *payload, from, out),
        Statement::Reduce {
            place: _,
            label,
            payload,
            op,
            to,
        } => push_reduce(label, *payload, *op, to, out),
        Statement::Allreduce {
            place: _,
            label,
            payload,
            op,
        } => push_allreduce(label, *payload, *op, out),
    }
}

#[cycle(push)]
fn push_statements(list: &[Statement], out: &mut Vec<TokenKind>) -> Result<(), NoMemory>
    ensures { OnOk result (out.new.items ≡ statements_tokens (statements_of (map plain_statement list.now)) out.old.items) }
{
    for statement in list {
        push_statement(statement, out)?;
    }
    Ok(())
}

#[cycle(push)]
pub(crate) fn push_block(block: &Block, out: &mut Vec<TokenKind>) -> Result<(), NoMemory>
    ensures { OnOk result (out.new.items ≡ block_tokens (plain_block block.now) out.old.items) }
{
    push_mark(Mark::LeftBrace, out)?;
    push_statements(&block.list, out)?;
    push_mark(Mark::RightBrace, out)
}

#[cycle(push)]
fn push_branches(branches: &[Block], out: &mut Vec<TokenKind>) -> Result<(), NoMemory>
    ensures { OnOk result (out.new.items ≡ branches_tokens (branches_of (map plain_block branches.now)) out.old.items) }
{
    for (i, branch) in branches.iter().enumerate() {
        push_or(i, out)?;
        push_block(branch, out)?;
    }
    Ok(())
}

// `or` before each branch but the first.
fn push_or(i: usize, out: &mut Vec<TokenKind>) -> Result<(), NoMemory>
    ensures { OnOk result (out.new.items ≡ or_at i out.old.items) }
{
    if i == 0 {
        return Ok(());
    }
    push_key(Key::Or, out)
}

fn push_message(
    label: &Spot,
    payload: Payload,
    from: &End,
    to: &End,
    out: &mut Vec<TokenKind>,
) -> Result<(), NoMemory>
    ensures { OnOk result (out.new.items ≡ message_tokens label.now payload from.now to.now out.old.items) }
{
    push_word(label, out)?;
    push_payload(payload, out)?;
    push_key(Key::From, out)?;
    push_end(from, out)?;
    push_key(Key::To, out)?;
    push_end(to, out)?;
    push_mark(Mark::Semicolon, out)
}

// `foreach` up to its block.
fn push_foreach(var: &Spot, range: &RangeText, out: &mut Vec<TokenKind>) -> Result<(), NoMemory>
    ensures { OnOk result (out.new.items ≡ foreach_tokens var.now range.now out.old.items) }
{
    push_key(Key::Foreach, out)?;
    push_mark(Mark::LeftParen, out)?;
    push_word(var, out)?;
    push_mark(Mark::Colon, out)?;
    push_range(range, out)?;
    push_mark(Mark::RightParen, out)
}

// A keyword, a kernel and where it runs.
fn push_at(key: Key, kernel: &Spot, at: &End, out: &mut Vec<TokenKind>) -> Result<(), NoMemory>
    ensures { OnOk result (out.new.items ≡ kernel_tokens key kernel.now at.now out.old.items) }
{
    push_key(key, out)?;
    push_word(kernel, out)?;
    push_key(Key::At, out)?;
    push_end(at, out)
}

fn push_broadcast(
    label: &Spot,
    payload: Payload,
    from: &End,
    out: &mut Vec<TokenKind>,
) -> Result<(), NoMemory>
    ensures { OnOk result (out.new.items ≡ broadcast_tokens label.now payload from.now out.old.items) }
{
    push_key(Key::Broadcast, out)?;
    push_word(label, out)?;
    push_payload(payload, out)?;
    push_key(Key::From, out)?;
    push_end(from, out)?;
    push_mark(Mark::Semicolon, out)
}

fn push_reduce(
    label: &Spot,
    payload: Payload,
    op: Op,
    to: &End,
    out: &mut Vec<TokenKind>,
) -> Result<(), NoMemory>
    ensures { OnOk result (out.new.items ≡ reduce_tokens label.now payload op to.now out.old.items) }
{
    push_key(Key::Reduce, out)?;
    push_word(label, out)?;
    push_payload(payload, out)?;
    push_key(Key::With, out)?;
    push_op(op, out)?;
    push_key(Key::To, out)?;
    push_end(to, out)?;
    push_mark(Mark::Semicolon, out)
}

fn push_allreduce(
    label: &Spot,
    payload: Payload,
    op: Op,
    out: &mut Vec<TokenKind>,
) -> Result<(), NoMemory>
    ensures { OnOk result (out.new.items ≡ allreduce_tokens label.now payload op out.old.items) }
{
    push_key(Key::Allreduce, out)?;
    push_word(label, out)?;
    push_payload(payload, out)?;
    push_key(Key::With, out)?;
    push_op(op, out)?;
    push_mark(Mark::Semicolon, out)
}
