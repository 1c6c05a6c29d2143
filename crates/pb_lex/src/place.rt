ghost use Rattle.std.specs.Prelude.{◌≡◌, ◌≤◌, length, take};
ghost use Rattle.pb_text.specs.Places.{first_place, place_after, place_behind};
ghost use Rattle.pb_text.specs.declared.limits.TheConstants.{MOST_TEXT_BYTES};
ghost use Rattle.pb_lex.specs.Seen.{HasNoFeed, IsLevel};

use crate::lexeme::{Lexeme, Sort};
use pb_text::Place;

/// The place of the first byte.
pub const FIRST: Place = Place { line: 1, col: 1 };

/// The place after the last byte. Takes no memory.
pub fn end_place(bytes: &[u8]) -> Place
    ensures { result ≡ place_after first_place bytes.now }
{
    place_after(FIRST, bytes)
}

/// The place behind the lexeme that the text begins with, which is at a place.
pub fn behind(place: Place, lexeme: Lexeme, text: &[u8]) -> Place
    requires most { length text.now ≤ MOST_TEXT_BYTES }
    requires within { lexeme.len ≤ length text.now }
    requires level { IsLevel lexeme.sort lexeme.len text.now }
    ensures { result ≡ place_after place (take lexeme.len text.now) }
{
    let front = &text[..lexeme.len];
    match lexeme.sort {
        Sort::Gap | Sort::Bad(_) => place_after(place, front),
        Sort::Line | Sort::Name | Sort::Key(_) | Sort::Number(_) | Sort::Mark(_) => {
            place_beside(place, front)
        }
    }
}

// The place after the bytes, in which no line ends.
#[tactic(auto, using(crate::proofs::Levels::beside))]
fn place_beside(place: Place, bytes: &[u8]) -> Place
    requires most { length bytes.now ≤ MOST_TEXT_BYTES }
    requires level { HasNoFeed bytes.now }
    ensures { result ≡ place_after place bytes.now }
{
    Place {
        line: place.line,
        col: place.col.saturating_add(bytes.len() as u32),
    }
}

fn place_after(place: Place, bytes: &[u8]) -> Place
    ensures { result ≡ place_after place bytes.now }
{
    let mut place = place;
    for byte in bytes {
        place = place_behind(place, *byte);
    }
    place
}

fn place_behind(place: Place, byte: u8) -> Place
    ensures { result ≡ place_behind place byte }
{
    if byte == b'\n' {
        Place {
            line: place.line.saturating_add(1),
            col: 1,
        }
    } else {
        Place {
            line: place.line,
            col: place.col.saturating_add(1),
        }
    }
}
