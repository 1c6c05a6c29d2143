ghost use Rattle.std.specs.Prelude.{◌≡◌, IfOk};
ghost use Rattle.pb_renew_lines.specs.Lines.{first_indented};
ghost use Rattle.pb_renew_lines.specs.Outside.{IsOutside, IsUnread};

use crate::NoMemory;
use crate::scan::{Sought, first_number};
use pb_cread::{CText, TextFault, read_c};
use std::alloc::Global;

/// The lines of a text that stand outside of bodies.
#[derive(Drop)]
pub enum Outside {
    /// They are the compiler's: this is the text's tree, with its bodies.
    Text(CText),
    /// Each of them is blank.
    Blank,
    /// Some would be lost, and this is the first line that tells it, from 1.
    Line(u32),
}

/// The number of the first line whose first bytes behind some blanks are `/*@`, from 1: it looks like a marker and is none. Numbers
/// stop at 4,294,967,295.
pub fn first_indented(bytes: &[u8]) -> Option<u32>
    ensures { result ≡ first_indented bytes.now }
{
    first_number(Sought::Indented, bytes)
}

/// What the lines outside of bodies are, in a kernel file with these bytes.
///
/// `Line` comes where the compiler doesn't spell the bytes and one of these lines isn't blank. Where the first line is that of a text,
/// it is the first line with which no text goes on, and else the first line outside of bodies that isn't blank.
pub fn outside_of(alloc: Global, bytes: &[u8]) -> Result<Outside, NoMemory>
    ensures { IfOk result (IsOutside bytes.now) }
{
    match read_c(alloc, bytes) {
        Ok(text) => Ok(Outside::Text(text)),
        Err(TextFault::NoMemory) => Err(NoMemory),
        Err(TextFault::Unexpected(place)) => Ok(unread(bytes, place.line)),
        Err(TextFault::TooDeep(place)) => Ok(unread(bytes, place.line)),
        Err(TextFault::TooMany(place)) => Ok(unread(bytes, place.line)),
    }
}

/// What the lines are where a text goes no further than this line.
fn unread(bytes: &[u8], line: u32) -> Outside
    ensures { IsUnread bytes.now line → IsOutside bytes.now result }
{
    match first_number(Sought::Stray, bytes) {
        None => Outside::Blank,
        Some(stray) => {
            if bytes.starts_with(b"/* pabble 1 */\n") {
                Outside::Line(line)
            } else {
                Outside::Line(stray)
            }
        }
    }
}
