//! The messages on bytes that are no tokens.

use pb_explain_source::{Page, Part, Source};
use pb_text::{NoMemory, Place};

/// The remedy for a byte that begins no token.
fn remedy(byte: u8) -> &'static str {
    match byte {
        b'.' => "a range is written with two points, as `0..N-1`",
        b'*' =>
            "an index is a number, or a name with one offset, as `N-1` or `i+1`; even and odd ranks are two roles, as `Even[0..N-1]` and `Odd[0..N-1]`",
        b'%' =>
            "there are no remainders; a ring is `A() from W[i:0..N-2] to W[i+1];` and, to close it, `A() from W[N-1] to W[0];`; even and odd ranks are two roles, as `Even[0..N-1]` and `Odd[0..N-1]`",
        b'/' => {
            "an index has no quotients; a comment is `// ..` up to the line's end, or `/* .. */`"
        }
        b'#' => "a comment is `// ..` up to the line's end, or `/* .. */`",
        b'<' | b'>' | b'!' | b'&' | b'|' | b'?' => {
            "there are no conditions; ranks are told apart by their roles and indices, and a `choice` is made by a kernel"
        }
        b'"' | b'\'' => "names stand without quotes",
        _ => "names have letters, digits and `_`, all ASCII",
    }
}

/// Writes why a byte begins no token.
pub fn tell_byte(page: &mut Page, source: &Source, place: Place) -> Result<(), NoMemory> {
    let line = source.line(place.line);
    let at = (place.col as usize).saturating_sub(1);
    let Some(byte) = line.get(at) else {
        return page.point(place, &[Part::Text("no token begins here")]);
    };
    let byte = *byte;
    if byte > b' ' && byte < 127 {
        page.point(
            place,
            &[
                Part::Text("no token begins with `"),
                Part::Bytes(&[byte]),
                Part::Text(if byte == b'.' { "` alone" } else { "`" }),
            ],
        )?;
    } else {
        page.point(
            place,
            &[
                Part::Text("no token begins with the byte "),
                Part::Number(i64::from(byte)),
            ],
        )?;
    }
    page.help(&[Part::Text(remedy(byte))])
}

/// Writes that a comment isn't closed.
pub fn tell_comment(page: &mut Page, place: Place) -> Result<(), NoMemory> {
    page.point(
        place,
        &[Part::Text("this comment isn't closed: no `*/` stands behind its `/*`")],
    )?;
    page.help(&[Part::Text("close it by `*/`; comments don't nest, so the first `*/` ends it")])
}
