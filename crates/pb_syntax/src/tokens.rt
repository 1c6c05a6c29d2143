ghost use Rattle.std.specs.Prelude.{◌≡◌, ◌++◌, ◌∷◌, [], OnOk};
ghost use Rattle.pb_syntax.specs.Printed.{mark, key, word, number, offset_tokens, lin_tokens, range_tokens, over_tokens, role_tokens, comma_tokens, roles_tokens, high_tokens, count_tokens, carried_tokens, payload_tokens, op_tokens, bracketed_tokens, index_tokens, end_tokens};

use crate::{End, High, IndexText, LinText, NoMemory, Op, Payload, RangeText, RoleText, Spot};
use pb_text::{Key, Mark, TokenKind};

pub(crate) fn push_mark(symbol: Mark, out: &mut Vec<TokenKind>) -> Result<(), NoMemory>
    ensures { OnOk result (out.new.items ≡ mark symbol out.old.items) }
{
    out.push(TokenKind::Mark(symbol))?;
    Ok(())
}

pub(crate) fn push_key(keyword: Key, out: &mut Vec<TokenKind>) -> Result<(), NoMemory>
    ensures { OnOk result (out.new.items ≡ key keyword out.old.items) }
{
    out.push(TokenKind::Key(keyword))?;
    Ok(())
}

pub(crate) fn push_word(spot: &Spot, out: &mut Vec<TokenKind>) -> Result<(), NoMemory>
    ensures { OnOk result (out.new.items ≡ word spot.now.name out.old.items) }
{
    out.push(TokenKind::Word(spot.name))?;
    Ok(())
}

pub(crate) fn push_number(n: u32, out: &mut Vec<TokenKind>) -> Result<(), NoMemory>
    ensures { OnOk result (out.new.items ≡ number n out.old.items) }
{
    out.push(TokenKind::Number(n))?;
    Ok(())
}

fn push_offset(off: i32, out: &mut Vec<TokenKind>) -> Result<(), NoMemory>
    ensures { OnOk result (out.new.items ≡ offset_tokens off out.old.items) }
{
    if off == 0 {
        return Ok(());
    }
    if off > 0 {
        push_mark(Mark::Plus, out)?;
    } else {
        push_mark(Mark::Minus, out)?;
    }
    push_number(off.unsigned_abs(), out)
}

fn push_lin(lin: &LinText, out: &mut Vec<TokenKind>) -> Result<(), NoMemory>
    ensures { OnOk result (out.new.items ≡ lin_tokens lin.now out.old.items) }
{
    match &lin.base {
        None => push_number(lin.off.unsigned_abs(), out),
        Some(base) => {
            push_word(base, out)?;
            push_offset(lin.off, out)
        }
    }
}

pub(crate) fn push_range(range: &RangeText, out: &mut Vec<TokenKind>) -> Result<(), NoMemory>
    ensures { OnOk result (out.new.items ≡ range_tokens range.now out.old.items) }
{
    push_lin(&range.low, out)?;
    push_mark(Mark::Dots, out)?;
    push_lin(&range.high, out)
}

fn push_role(role: &RoleText, out: &mut Vec<TokenKind>) -> Result<(), NoMemory>
    ensures { OnOk result (out.new.items ≡ role_tokens role.now out.old.items) }
{
    push_key(Key::Role, out)?;
    push_word(&role.role, out)?;
    match &role.range {
        None => Ok(()),
        Some(range) => {
            push_mark(Mark::LeftBracket, out)?;
            push_range(range, out)?;
            push_mark(Mark::RightBracket, out)
        }
    }
}

// The roles behind a first one.
fn push_others(roles: &[RoleText], out: &mut Vec<TokenKind>) -> Result<(), NoMemory>
    ensures { OnOk result (out.new.items ≡ comma_tokens roles.now out.old.items) }
{
    for role in roles {
        push_mark(Mark::Comma, out)?;
        push_role(role, out)?;
    }
    Ok(())
}

pub(crate) fn push_roles(roles: &[RoleText], out: &mut Vec<TokenKind>) -> Result<(), NoMemory>
    ensures { OnOk result (out.new.items ≡ roles_tokens roles.now out.old.items) }
{
    let Some((first, others)) = roles.split_first() else {
        return Ok(());
    };
    push_role(first, out)?;
    push_others(others, out)
}

pub(crate) fn push_high(high: High, out: &mut Vec<TokenKind>) -> Result<(), NoMemory>
    ensures { OnOk result (out.new.items ≡ high_tokens high out.old.items) }
{
    match high {
        High::Upto(n) => push_number(n, out),
        High::Max => push_key(Key::Max, out),
    }
}

fn push_count(n: u32, out: &mut Vec<TokenKind>) -> Result<(), NoMemory>
    ensures { OnOk result (out.new.items ≡ count_tokens n out.old.items) }
{
    if n == 1 {
        return Ok(());
    }
    push_mark(Mark::LeftBracket, out)?;
    push_number(n, out)?;
    push_mark(Mark::RightBracket, out)
}

fn push_carried(payload: Payload, out: &mut Vec<TokenKind>) -> Result<(), NoMemory>
    ensures { OnOk result (out.new.items ≡ carried_tokens payload out.old.items) }
{
    match payload {
        Payload::Unit => Ok(()),
        Payload::Int32(n) => {
            push_key(Key::Int32, out)?;
            push_count(n, out)
        }
        Payload::Uint32(n) => {
            push_key(Key::Uint32, out)?;
            push_count(n, out)
        }
    }
}

pub(crate) fn push_payload(payload: Payload, out: &mut Vec<TokenKind>) -> Result<(), NoMemory>
    ensures { OnOk result (out.new.items ≡ payload_tokens payload out.old.items) }
{
    push_mark(Mark::LeftParen, out)?;
    push_carried(payload, out)?;
    push_mark(Mark::RightParen, out)
}

pub(crate) fn push_op(op: Op, out: &mut Vec<TokenKind>) -> Result<(), NoMemory>
    ensures { OnOk result (out.new.items ≡ op_tokens op out.old.items) }
{
    match op {
        Op::Min => push_key(Key::Min, out),
        Op::Max => push_key(Key::Max, out),
        Op::Sum => push_key(Key::Sum, out),
    }
}

fn push_index(index: &IndexText, out: &mut Vec<TokenKind>) -> Result<(), NoMemory>
    ensures { OnOk result (out.new.items ≡ index_tokens index.now out.old.items) }
{
    match index {
        IndexText::Zero => Ok(()),
        IndexText::At(lin) => {
            push_mark(Mark::LeftBracket, out)?;
            push_lin(lin, out)?;
            push_mark(Mark::RightBracket, out)
        }
        IndexText::Bind(var, range) => {
            push_mark(Mark::LeftBracket, out)?;
            push_word(var, out)?;
            push_mark(Mark::Colon, out)?;
            push_range(range, out)?;
            push_mark(Mark::RightBracket, out)
        }
    }
}

pub(crate) fn push_end(end: &End, out: &mut Vec<TokenKind>) -> Result<(), NoMemory>
    ensures { OnOk result (out.new.items ≡ end_tokens end.now out.old.items) }
{
    push_word(&end.role, out)?;
    push_index(&end.index, out)
}
