//! Numbers, lins, guards and ranks as the printed endpoint has them.

ghost use Rattle.std.specs.Prelude.{◌≡◌, ◌++◌, OnOk, decimal};
ghost use Rattle.std.specs.Fmt.{signed_decimal};
ghost use Rattle.pb_local.specs.Layout.{offset_text, lin_text, is_same_base, is_same_lin, index_text, from_text, to_text, guard_text, others_text, guards_text, peer_text, op_text};
ghost use Rattle.pb_local.specs.Tree.{program_of};

use crate::{Base, Guard, Lin, Local, NoMemory, Op, Peer, push_pieces};
use pb_text::{push_decimal, push_number};

/// Appends an offset with its sign, or nothing for 0.
pub fn push_offset(out: &mut Vec<u8>, off: i32) -> Result<(), NoMemory>
    ensures { OnOk result (out.new.items ≡ out.old.items ++ offset_text off) }
{
    if off < 0 {
        out.push(b'-')?;
        push_decimal(out, u64::from(off.unsigned_abs()))?;
    } else if 0 < off {
        out.push(b'+')?;
        push_decimal(out, u64::from(off.unsigned_abs()))?;
    }
    Ok(())
}

/// Appends a lin: a number, or `N` or `i` and the offset.
pub fn push_lin(out: &mut Vec<u8>, lin: Lin) -> Result<(), NoMemory>
    ensures { OnOk result (out.new.items ≡ out.old.items ++ lin_text lin) }
{
    match lin.base {
        Base::Fixed => push_number(out, i64::from(lin.off)),
        Base::Param => {
            out.push(b'N')?;
            push_offset(out, lin.off)
        }
        Base::Var => {
            out.push(b'i')?;
            push_offset(out, lin.off)
        }
    }
}

fn is_same_base(a: Base, b: Base) -> bool
    ensures { result ≡ is_same_base a b }
{
    match (a, b) {
        (Base::Fixed, Base::Fixed) => true,
        (Base::Param, Base::Param) => true,
        (Base::Var, Base::Var) => true,
        (Base::Fixed, _) => false,
        (Base::Param, _) => false,
        (Base::Var, _) => false,
    }
}

/// True where both are the same lin.
pub fn is_same_lin(a: Lin, b: Lin) -> bool
    ensures { result ≡ is_same_lin a b }
{
    is_same_base(a.base, b.base) && a.off == b.off
}

fn push_index(out: &mut Vec<u8>, low: Option<Lin>, high: Option<Lin>) -> Result<(), NoMemory>
    ensures { OnOk result (out.new.items ≡ out.old.items ++ index_text low high) }
{
    match (low, high) {
        (None, None) => Ok(()),
        (Some(low), None) => push_from_on(out, low),
        (None, Some(high)) => push_up_to(out, high),
        (Some(low), Some(high)) => push_range(out, low, high),
    }
}

fn push_from_on(out: &mut Vec<u8>, low: Lin) -> Result<(), NoMemory>
    ensures { OnOk result (out.new.items ≡ out.old.items ++ index_text (Some low) None) }
{
    out.push(b'[')?;
    push_lin(out, low)?;
    push_pieces(out, &[b"..]"])
}

fn push_up_to(out: &mut Vec<u8>, high: Lin) -> Result<(), NoMemory>
    ensures { OnOk result (out.new.items ≡ out.old.items ++ index_text None (Some high)) }
{
    push_pieces(out, &[b"[.."])?;
    push_lin(out, high)?;
    out.push(b']')?;
    Ok(())
}

fn push_range(out: &mut Vec<u8>, low: Lin, high: Lin) -> Result<(), NoMemory>
    ensures { OnOk result (out.new.items ≡ out.old.items ++ index_text (Some low) (Some high)) }
{
    out.push(b'[')?;
    push_lin(out, low)?;
    if !is_same_lin(low, high) {
        push_pieces(out, &[b".."])?;
        push_lin(out, high)?;
    }
    out.push(b']')?;
    Ok(())
}

fn push_from(out: &mut Vec<u8>, from: Option<u32>) -> Result<(), NoMemory>
    ensures { OnOk result (out.new.items ≡ out.old.items ++ from_text from) }
{
    if let Some(n) = from {
        push_pieces(out, &[b" N>="])?;
        push_decimal(out, u64::from(n))?;
    }
    Ok(())
}

fn push_to(out: &mut Vec<u8>, to: Option<u32>) -> Result<(), NoMemory>
    ensures { OnOk result (out.new.items ≡ out.old.items ++ to_text to) }
{
    if let Some(n) = to {
        push_pieces(out, &[b" N<="])?;
        push_decimal(out, u64::from(n))?;
    }
    Ok(())
}

/// Appends a guard: its role, its ends in brackets, and its bounds on N, where it has them.
pub fn push_guard(local: &Local, out: &mut Vec<u8>, guard: Guard) -> Result<(), NoMemory>
    ensures { OnOk result (out.new.items ≡ out.old.items ++ guard_text (program_of local.now) guard) }
{
    out.extend_from_slice(local.role_name(guard.role))?;
    push_index(out, guard.low, guard.high)?;
    push_from(out, guard.from)?;
    push_to(out, guard.to)
}

fn push_others(local: &Local, out: &mut Vec<u8>, guards: &[Guard]) -> Result<(), NoMemory>
    ensures { OnOk result (out.new.items ≡ out.old.items ++ others_text (program_of local.now) guards.now) }
{
    for guard in guards {
        push_pieces(out, &[b" or "])?;
        push_guard(local, out, *guard)?;
    }
    Ok(())
}

/// Appends guards with ` or ` between them.
pub fn push_guards(local: &Local, out: &mut Vec<u8>, guards: &[Guard]) -> Result<(), NoMemory>
    ensures { OnOk result (out.new.items ≡ out.old.items ++ guards_text (program_of local.now) guards.now) }
{
    match guards {
        [] => Ok(()),
        [first, others @ ..] => {
            push_guard(local, out, *first)?;
            push_others(local, out, others)
        }
    }
}

/// Appends a rank: the name of its role, and its lin in brackets.
pub fn push_peer(local: &Local, out: &mut Vec<u8>, peer: Peer) -> Result<(), NoMemory>
    ensures { OnOk result (out.new.items ≡ out.old.items ++ peer_text (program_of local.now) peer) }
{
    push_pieces(out, &[local.role_name(peer.role), b"["])?;
    push_lin(out, peer.at)?;
    out.push(b']')?;
    Ok(())
}

/// The word of an operation.
pub fn op_name(op: Op) -> &'static [u8]
    ensures { result.now ≡ op_text op }
{
    match op {
        Op::Min => b"min",
        Op::Max => b"max",
        Op::Sum => b"sum",
    }
}
