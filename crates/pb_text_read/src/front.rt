//! A fixed text in front.

ghost use Rattle.std.specs.Prelude.{◌≡◌, Some, None, MatchOption};
ghost use Rattle.pb_text_read.specs.Fronts.{strip};

/// The bytes behind a text, or None where it doesn't stand in front of them.
#[tactic(auto, using(crate::proofs::Strips::strip_is))]
pub fn strip<'a>(text: &[u8], bytes: &'a [u8]) -> Option<&'a [u8]>
    ensures { MatchOption result (strip text.now bytes.now ≡ None) (λ rest. strip text.now bytes.now ≡ Some rest.now) }
{
    bytes.strip_prefix(text)
}
