ghost use Rattle.std.specs.Prelude.{◌≡◌, ◌≤◌, IfSome, MatchOption, length};
ghost use Rattle.std.specs.List.{prefix_len};
ghost use Rattle.pb_cread_frame.specs.Rows.{is_nothing};
ghost use Rattle.pb_text.specs.Places.{one_more};
ghost use Rattle.pb_cread.specs.Rows.{HasNoLine, IsFirst, is_inner};

use pb_text::Place;

/// The lines of a text that aren't taken yet.
#[derive(Drop)]
pub(crate) struct Lines<'a> {
    pub(crate) rest: &'a [u8],
    /// The number of the line that comes next.
    pub(crate) line: u32,
}

/// The number of bytes before the first line feed, and of all bytes where none is there.
fn before_feed(bytes: &[u8]) -> usize
    ensures count { result ≡ prefix_len is_inner bytes.now }
    ensures within { result ≤ length bytes.now }
{
    bytes.iter().take_while(|byte| **byte != b'\n').count()
}

impl<'a> Lines<'a> {
    /// All lines of a text.
    pub(crate) fn of(text: &'a [u8]) -> Lines<'a>
        ensures rest { result.rest.now ≡ text.now }
        ensures line { result.line ≡ 1 }
    {
        Lines {
            rest: text,
            line: 1,
        }
    }

    /// The place of the line that comes next.
    pub(crate) fn place(&self) -> Place
        ensures line { result.line ≡ self.now.line }
        ensures col { result.col ≡ 1 }
    {
        Place {
            line: self.line,
            col: 1,
        }
    }

    /// Takes the next line, with its line feed. None where no line feed is left.
    #[tactic(auto, using(crate::proofs::Feeds::no_line, crate::proofs::Feeds::first_is))]
    pub(crate) fn take(&mut self) -> Option<&'a [u8]>
        ensures line { MatchOption result (HasNoLine self.old.rest.now) (λ line. IsFirst self.old.rest.now line.now self.new.rest.now) }
        ensures number { IfSome result (λ line. self.new.line ≡ one_more self.old.line) }
    {
        let count = before_feed(self.rest);
        if count == self.rest.len() {
            return None;
        }
        let (line, rest) = self.rest.split_at(count + 1);
        self.rest = rest;
        self.line = self.line.saturating_add(1);
        Some(line)
    }

    /// True where nothing is left.
    pub(crate) fn is_empty(&self) -> bool
        ensures { result ≡ is_nothing self.now.rest.now }
    {
        self.rest.is_empty()
    }
}
