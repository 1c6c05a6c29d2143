//! The words of a line.

ghost use Rattle.std.specs.Prelude.{◌≡◌, ◌≤◌, ℕ, List, length, MatchOption};
ghost use Rattle.pb_text.specs.declared.limits.TheConstants.{MOST_TEXT_BYTES};
ghost use Rattle.pb_draw_log.specs.Parts.{word_at, GivesTo};
ghost use Rattle.pb_draw_log.specs.Lines.{HasWords, WordsOf};

use crate::entry::Deed;
use crate::parts::number;
use pb_text_read::strip;

/// The greatest number behind a minus sign.
const MOST_BELOW: u32 = 2_147_483_648;

/// What stands behind a word: a number of 32 bits, or one below zero in two's complement.
fn word(text: &[u8]) -> Option<&[u8]>
    ensures { GivesTo (λ rest. rest.now) result (word_at text.now) }
{
    match strip(b"-", text) {
        Some(digits) => {
            let (n, rest) = number(digits)?;
            if 0 < n && n <= MOST_BELOW {
                Some(rest)
            } else {
                None
            }
        }
        None => {
            let (_, rest) = number(text)?;
            Some(rest)
        }
    }
}

/// How many words stand in front of a text, each after one space, and the rest.
#[tactic(auto, using(crate::proofs::Worded::counts_none, crate::proofs::Worded::counts_more, crate::proofs::Worded::counts_all, crate::proofs::Worded::counts_bad, crate::proofs::Shorter::spaced_shorter))]
pub fn words(text: &[u8]) -> Option<(u32, &[u8])>
    requires { length text.now ≤ MOST_TEXT_BYTES }
    ensures { MatchOption result ((count : ℕ) (rest : List ℕ) → HasWords text.now count rest → ⊥) (λ x. HasWords text.now x.0 x.1.now) }
{
    let mut count: u32 = 0;
    let mut rest = text;
    while let Some(next) = strip(b" ", rest) {
        rest = word(next)?;
        count += 1;
    }
    Some((count, rest))
}

/// The words behind the head of a line.
pub fn words_of(deed: Deed, text: &[u8]) -> Option<(u32, &[u8])>
    requires { length text.now ≤ MOST_TEXT_BYTES }
    ensures { MatchOption result ((count : ℕ) (rest : List ℕ) → WordsOf deed text.now count rest → ⊥) (λ x. WordsOf deed text.now x.0 x.1.now) }
{
    match deed {
        Deed::Choose(_) => Some((0, text)),
        Deed::Run => Some((0, text)),
        Deed::Send(_) => words(text),
        Deed::Recv(_) => words(text),
        Deed::Enter => words(text),
        Deed::Leave => words(text),
    }
}
