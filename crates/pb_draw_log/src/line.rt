//! One line of a log.

ghost use Rattle.std.specs.Prelude.{◌≤◌, ℕ, List, length, MatchOption};
ghost use Rattle.pb_text.specs.declared.limits.TheConstants.{MOST_TEXT_BYTES};
ghost use Rattle.pb_draw_log.specs.declared.line.Line.{Line as LineValue};
ghost use Rattle.pb_draw_log.specs.Lines.{IsLine};

use crate::entry::Head;
use crate::heads::head;
use crate::words::words_of;
use pb_text_read::strip;

/// What a line says.
#[derive(Clone, Copy)]
pub struct Line {
    /// All but its words.
    pub head: Head,
    /// How many words it has.
    pub words: u32,
}

/// The line in front of a text, what stands behind its head, and what stands behind its line feed.
#[tactic(auto, using(crate::proofs::Worded::no_head, crate::proofs::Worded::no_words, crate::proofs::Worded::made))]
pub fn line_in(text: &[u8]) -> Option<(Line, &[u8], &[u8])>
    requires { length text.now ≤ MOST_TEXT_BYTES }
    ensures { MatchOption result ((line : LineValue) (tail rest : List ℕ) → IsLine text.now line tail rest → ⊥) (λ x. IsLine text.now x.0 x.1.now x.2.now) }
{
    match head(text) {
        Some((head, tail)) => {
            let (words, rest) = words_of(head.deed, tail)?;
            let rest = strip(b"\n", rest)?;
            Some((Line { head, words }, tail, rest))
        }
        None => None,
    }
}
