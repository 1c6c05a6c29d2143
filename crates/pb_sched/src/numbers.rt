//! Numbers in decimal.

ghost use Rattle.pb_sched.specs.Parts.{number_at, GivesTo};

/// Numbers fit 64 bits.
const LIMIT: u128 = 18_446_744_073_709_551_616;

/// The number in front of a text, without leading zeros, and the rest.
pub fn number(text: &[u8]) -> Option<(u64, &[u8])>
    ensures { GivesTo (λ x. (x.0, x.1.now)) result (number_at text.now) }
{
    match text {
        [] => None,
        [first, others @ ..] => {
            if *first == b'0' {
                Some((0, others))
            } else {
                pb_text_read::number(LIMIT, text)
            }
        }
    }
}
