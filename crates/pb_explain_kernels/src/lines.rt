/// The lines of a file, one after the other.
#[derive(Drop)]
pub struct Lines<'a> {
    rest: Option<&'a [u8]>,
}

/// How many bytes stand before the first line feed.
fn line_len(bytes: &[u8]) -> usize {
    let mut len = 0;
    for byte in bytes {
        if *byte == b'\n' {
            return len;
        }
        len = len.saturating_add(1);
    }
    len
}

impl<'a> Lines<'a> {
    /// The lines of these bytes.
    pub fn of(bytes: &'a [u8]) -> Lines<'a> {
        Lines { rest: Some(bytes) }
    }

    /// The next line, without its line feed.
    pub fn next_line(&mut self) -> Option<&'a [u8]> {
        let rest = self.rest?;
        let len = line_len(rest);
        self.rest = rest.get(len.saturating_add(1)..);
        rest.get(..len)
    }
}
