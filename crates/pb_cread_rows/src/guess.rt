//! What the lines of the tables may say.

ghost use Rattle.std.specs.Prelude.{◌≡◌};
ghost use Rattle.pb_cread_rows.specs.Guesses.{protocol_guess, high_at, range_guess, role_guess, payload_at, label_guess, kernel_at, kernel_guess};

use crate::cursor::Cursor;
use pb_ctree::{CoreKernel, CoreLabel, KernelKind, NRange, Name, Payload, Role};

/// What the line says if it is the protocol's. It doesn't look at the line's end.
pub fn protocol_guess(line: &[u8]) -> Option<Name>
    ensures { result ≡ protocol_guess line.now }
{
    let mut cursor = Cursor { rest: line };
    if !cursor.strip(b"/* protocol ") {
        return None;
    }
    cursor.name()
}

fn high(bytes: &[u8]) -> Option<Option<u32>>
    ensures { result ≡ high_at bytes.now }
{
    let mut cursor = Cursor { rest: bytes };
    if cursor.strip(b"max") {
        return Some(None);
    }
    let high = cursor.number()?;
    Some(Some(high))
}

/// What the line says if it is that of the range of N. It doesn't look at the line's end.
pub fn range_guess(line: &[u8]) -> Option<NRange>
    ensures { result ≡ range_guess line.now }
{
    let mut cursor = Cursor { rest: line };
    if !cursor.strip(b"/* N ") {
        return None;
    }
    let low = cursor.number()?;
    if !cursor.strip(b" to ") {
        return None;
    }
    let high = high(cursor.rest)?;
    Some(NRange { low, high })
}

/// What the line says if it is a role's. It doesn't look at the line's end.
pub fn role_guess(line: &[u8]) -> Option<Role>
    ensures { result ≡ role_guess line.now }
{
    let mut cursor = Cursor { rest: line };
    if !cursor.strip(b"/* role ") {
        return None;
    }
    let name = cursor.name()?;
    if !cursor.strip(b" ") {
        return None;
    }
    let low = cursor.lin()?;
    if !cursor.strip(b" to ") {
        return None;
    }
    let high = cursor.lin()?;
    Some(Role { name, low, high })
}

fn payload(bytes: &[u8]) -> Option<Payload>
    ensures { result ≡ payload_at bytes.now }
{
    let mut cursor = Cursor { rest: bytes };
    if cursor.strip(b"()") {
        return Some(Payload::Unit);
    }
    if cursor.strip(b"int32[") {
        let count = cursor.number()?;
        return Some(Payload::Int32(count));
    }
    if cursor.strip(b"uint32[") {
        let count = cursor.number()?;
        return Some(Payload::Uint32(count));
    }
    None
}

/// What the line says if it is a label's. It doesn't look at the line's end.
pub fn label_guess(line: &[u8]) -> Option<CoreLabel>
    ensures { result ≡ label_guess line.now }
{
    let mut cursor = Cursor { rest: line };
    if !cursor.strip(b"/* label ") {
        return None;
    }
    let name = cursor.name()?;
    if !cursor.strip(b" ") {
        return None;
    }
    let payload = payload(cursor.rest)?;
    Some(CoreLabel { name, payload })
}

fn kernel(kind: KernelKind, bytes: &[u8]) -> Option<CoreKernel>
    ensures { result ≡ kernel_at kind bytes.now }
{
    let mut cursor = Cursor { rest: bytes };
    let name = cursor.name()?;
    Some(CoreKernel { name, kind })
}

/// What the line says if it is the first of a kernel's function. It doesn't look at the line's end.
pub fn kernel_guess(line: &[u8]) -> Option<CoreKernel>
    ensures { result ≡ kernel_guess line.now }
{
    let mut cursor = Cursor { rest: line };
    if cursor.strip(b"static void k_") {
        return kernel(KernelKind::Compute, cursor.rest);
    }
    if cursor.strip(b"static int32_t c_") {
        return kernel(KernelKind::Choice, cursor.rest);
    }
    None
}
