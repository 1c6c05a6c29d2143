//! The lines of functions.

use crate::line::{before, word};
use crate::rows::{LabelRow, Rows};
use pb_cprint::{push_make_head, push_take_head};
use pb_ctree::CoreLabel;
use pb_text::{Name, NoMemory};

/// What a line outside of bodies opens.
#[derive(Clone, Copy)]
pub enum Opening {
    /// A function that plain texts don't have.
    Room,
    /// One that makes the words of a label.
    Make(CoreLabel),
    /// One that takes them.
    Take(CoreLabel),
    Main,
    /// It is as in a plain text.
    Other,
}

/// What a line opens.
pub fn opening_of(rows: &Rows, line: &[u8]) -> Opening {
    let head = before(b'(', line);
    if head == b"int main".as_slice() {
        return Opening::Main;
    }
    if !line.starts_with(b"static ") {
        return Opening::Other;
    }
    let function = last_word(head);
    if let Some(label) = label_behind(rows, b"make_", function) {
        Opening::Make(label)
    } else if let Some(label) = label_behind(rows, b"take_", function) {
        Opening::Take(label)
    } else if label_behind(rows, b"room_", function).is_some() {
        Opening::Room
    } else {
        Opening::Other
    }
}

/// The label whose name stands behind a front.
fn label_behind(rows: &Rows, front: &[u8], function: &[u8]) -> Option<CoreLabel> {
    let name = Name::of(function.strip_prefix(front)?)?;
    let LabelRow { payload, .. } = rows.label(&name)?;
    Some(CoreLabel { name, payload })
}

/// The last word of a head.
fn last_word(head: &[u8]) -> &[u8] {
    let mut found: &[u8] = b"";
    for at in 0..head.len() {
        let (_, rest) = head.split_at(at);
        if begins_word(head, at) {
            (found, _) = word(rest);
        }
    }
    found
}

/// Whether a word begins at a place.
fn begins_word(head: &[u8], at: usize) -> bool {
    if at == 0 {
        return true;
    }
    match head.get(at - 1) {
        Some(byte) => *byte == b' ' || *byte == b'*',
        None => false,
    }
}

/// Appends the plain head of a function.
pub fn push_head(out: &mut Vec<u8>, opening: Opening, line: &[u8]) -> Result<(), NoMemory> {
    match opening {
        Opening::Make(label) => push_make_head(out, &label),
        Opening::Take(label) => push_take_head(out, &label),
        Opening::Room => Ok(()),
        Opening::Main | Opening::Other => {
            out.extend_from_slice(line)?;
            Ok(())
        }
    }
}
