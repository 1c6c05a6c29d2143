//! What may stand behind the lines of actions.

ghost use Rattle.std.specs.Prelude.{◌≡◌, ◌↔◌, [], Some, codes, IsTrue};
ghost use Rattle.pb_text_read.specs.Fronts.{strip};
ghost use Rattle.pb_draw_log.specs.Ends.{IsEnd, IsOneLine, TellsWhy};

use pb_text_read::strip;

/// Whether the rest is nothing, or one line that tells how the run ended: `ended`, or one that begins with `pabble: `.
#[tactic(auto, using(crate::proofs::Ended::ends_empty, crate::proofs::Ended::ends_ended, crate::proofs::Ended::ends_told))]
pub fn is_end(rest: &[u8]) -> bool
    ensures { IsTrue result ↔ IsEnd rest.now }
{
    if rest.is_empty() {
        return true;
    }
    if is_ended(rest) {
        return true;
    }
    tells_why(rest)
}

fn is_ended(rest: &[u8]) -> bool
    ensures { IsTrue result ↔ (strip (codes "ended\n") rest.now ≡ Some []) }
{
    match strip(b"ended\n", rest) {
        Some(behind) => behind.is_empty(),
        None => false,
    }
}

fn tells_why(rest: &[u8]) -> bool
    ensures { IsTrue result ↔ TellsWhy rest.now }
{
    match strip(b"pabble: ", rest) {
        Some(told) => is_one_line(told),
        None => false,
    }
}

/// Whether a text has one line feed, at its end.
fn is_one_line(text: &[u8]) -> bool
    ensures { IsTrue result ↔ IsOneLine text.now }
{
    match text.split_last() {
        Some((last, front)) => *last == b'\n' && !front.contains(&b'\n'),
        None => false,
    }
}
