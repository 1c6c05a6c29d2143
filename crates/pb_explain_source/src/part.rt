use pb_syntax::{End, IndexText, LinText, RangeText};
use pb_text::{Name, NoMemory, push_number};

/// A part of a sentence.
#[derive(Clone, Copy)]
pub enum Part<'a> {
    /// Words as they stand.
    Text(&'a str),
    /// Bytes as they stand, such as a keyword.
    Bytes(&'a [u8]),
    /// A name of the file.
    Name(&'a Name),
    /// A number in decimal.
    Number(i64),
    /// A number, or a name with an offset, as `i+1`.
    Lin(&'a LinText),
    /// Both ends of a range, as `0..N-1`.
    Range(&'a RangeText),
    /// A role with its index, as `W[i+1]`.
    End(&'a End),
    /// A rank by its role and its index, as `W[2]`.
    Rank(&'a Name, i64),
}

/// Appends bytes.
pub fn push_bytes(out: &mut Vec<u8>, bytes: &[u8]) -> Result<(), NoMemory> {
    out.extend_from_slice(bytes)?;
    Ok(())
}

/// Appends a lin as it is printed: without spaces, and without an offset 0.
fn push_lin(out: &mut Vec<u8>, lin: &LinText) -> Result<(), NoMemory> {
    let off = i64::from(lin.off);
    let Some(base) = &lin.base else {
        return push_number(out, off);
    };
    push_bytes(out, base.name.bytes())?;
    if off == 0 {
        return Ok(());
    }
    if off > 0 {
        push_bytes(out, b"+")?;
    }
    push_number(out, off)
}

fn push_range(out: &mut Vec<u8>, range: &RangeText) -> Result<(), NoMemory> {
    push_lin(out, &range.low)?;
    push_bytes(out, b"..")?;
    push_lin(out, &range.high)
}

fn push_index(out: &mut Vec<u8>, index: &IndexText) -> Result<(), NoMemory> {
    match index {
        IndexText::Zero => Ok(()),
        IndexText::At(lin) => {
            push_bytes(out, b"[")?;
            push_lin(out, lin)?;
            push_bytes(out, b"]")
        }
        IndexText::Bind(spot, range) => {
            push_bytes(out, b"[")?;
            push_bytes(out, spot.name.bytes())?;
            push_bytes(out, b":")?;
            push_range(out, range)?;
            push_bytes(out, b"]")
        }
    }
}

fn push_end(out: &mut Vec<u8>, end: &End) -> Result<(), NoMemory> {
    push_bytes(out, end.role.name.bytes())?;
    push_index(out, &end.index)
}

fn push_rank(out: &mut Vec<u8>, role: &Name, index: i64) -> Result<(), NoMemory> {
    push_bytes(out, role.bytes())?;
    push_bytes(out, b"[")?;
    push_number(out, index)?;
    push_bytes(out, b"]")
}

/// Appends a part.
pub fn push_part(out: &mut Vec<u8>, part: &Part) -> Result<(), NoMemory> {
    match part {
        Part::Text(text) => push_bytes(out, text.as_bytes()),
        Part::Bytes(bytes) => push_bytes(out, bytes),
        Part::Name(name) => push_bytes(out, name.bytes()),
        Part::Number(n) => push_number(out, *n),
        Part::Lin(lin) => push_lin(out, lin),
        Part::Range(range) => push_range(out, range),
        Part::End(end) => push_end(out, end),
        Part::Rank(role, index) => push_rank(out, role, *index),
    }
}
