ghost use Rattle.std.specs.Prelude.{◌≡◌, true, []};
ghost use Rattle.pb_text.specs.Places.{place_behind};
ghost use Rattle.pb_explain_source.specs.Pages.{IsPlaceOf};

use pb_text::Place;

/// A file that messages point into.
#[derive(Clone, Copy)]
pub struct Source<'a> {
    /// Its name, as the words have it.
    pub file: &'a str,
    /// Its bytes.
    pub bytes: &'a [u8],
}

/// The place of the first byte.
const FIRST: Place = Place { line: 1, col: 1 };

/// The place behind a byte.
fn place_behind(place: Place, byte: u8) -> Place
    ensures { result ≡ place_behind place byte }
{
    if byte == b'\n' {
        Place {
            line: place.line.saturating_add(1),
            col: 1,
        }
    } else {
        Place {
            line: place.line,
            col: place.col.saturating_add(1),
        }
    }
}

/// Whether a byte stands in names, keywords and numbers.
pub fn is_word(byte: u8) -> bool {
    byte.is_ascii_alphanumeric() || byte == b'_'
}

/// How many bytes the word has that stands in front.
fn word_len(bytes: &[u8]) -> usize {
    let mut len = 0;
    for byte in bytes {
        if !is_word(*byte) {
            return len;
        }
        len = len.saturating_add(1);
    }
    len
}

/// How many bytes the brackets have that stand in front, with what is in them; 0 where none do.
fn brackets_len(bytes: &[u8]) -> usize {
    if bytes.first() != Some(&b'[') {
        return 0;
    }
    let mut len = 1;
    for byte in bytes {
        if *byte == b']' {
            return len;
        }
        len = len.saturating_add(1);
    }
    0
}

/// How many bytes stand before the first line feed.
fn line_len(bytes: &[u8]) -> usize {
    let mut len = 0;
    for byte in bytes {
        if *byte == b'\n' {
            return len;
        }
        len = len.saturating_add(1);
    }
    len
}

/// The bytes behind the first so many line feeds, or none.
fn behind_lines(bytes: &[u8], lines: u32) -> &[u8] {
    let mut left = lines;
    for (at, byte) in bytes.iter().enumerate() {
        if left == 0 {
            return bytes.get(at..).unwrap_or_default();
        }
        if *byte == b'\n' {
            left = left.saturating_sub(1);
        }
    }
    &[]
}

impl<'a> Source<'a> {
    /// A file whose bytes aren't known. Of its places only the first is one.
    pub fn unread(file: &'a str) -> Source<'a>
        ensures file { result.file.now ≡ file.now }
        ensures bytes { result.bytes.now ≡ [] }
    {
        Source { file, bytes: &[] }
    }

    /// Whether a place is that of one of the file's bytes, or the one behind the last.
    pub fn has(&self, place: Place) -> bool
        ensures { result ≡ true → IsPlaceOf self.now.bytes.now place }
    {
        let mut here = FIRST;
        for byte in self.bytes {
            if here == place {
                return true;
            }
            here = place_behind(here, *byte);
        }
        here == place
    }

    /// The bytes of a line, counted from 1, without its line feed. None where the file has no such line.
    pub fn line(&self, line: u32) -> &'a [u8] {
        let rest = behind_lines(self.bytes, line.saturating_sub(1));
        let len = line_len(rest);
        rest.get(..len).unwrap_or_default()
    }

    /// What stands at a place and behind it, up to the end of the line.
    fn behind(&self, place: Place) -> &'a [u8] {
        let line = self.line(place.line);
        let at = (place.col as usize).saturating_sub(1);
        line.get(at..).unwrap_or_default()
    }

    /// The word at a place, without brackets; no bytes where none begins there.
    pub fn word(&self, place: Place) -> &'a [u8] {
        let rest = self.behind(place);
        rest.get(..word_len(rest)).unwrap_or_default()
    }

    /// How many bytes the word at a place has, with the brackets right behind it; 1 where there is none.
    pub fn width(&self, place: Place) -> usize {
        let rest = self.behind(place);
        let word = word_len(rest);
        let behind = rest.get(word..).unwrap_or_default();
        word.saturating_add(brackets_len(behind)).max(1)
    }
}
