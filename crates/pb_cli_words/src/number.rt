//! Numbers as words.

ghost use Rattle.std.specs.Prelude.{◌≡◌, ◌≤◌, IfSome};
ghost use Rattle.pb_cli_words.specs.Numbers.{number_behind, number_in};

/// The most digits of a number.
const MOST_DIGITS: usize = 20;

/// The number of these digits, where it fits.
#[tactic(auto, using(crate::proofs::Digits::step))]
fn digits(text: &[u8]) -> Option<u64>
    ensures { result ≡ number_behind 0 text.now }
{
    let mut n = 0;
    for at in 0..text.len() {
        let byte = text[at];
        if !byte.is_ascii_digit() {
            return None;
        }
        let more = 10 * u128::from(n) + u128::from(byte - b'0');
        if more >= 18_446_744_073_709_551_616 {
            return None;
        }
        n = more as u64;
    }
    Some(n)
}

#[tactic(auto, using(crate::proofs::Digits::no_number, crate::proofs::Digits::is_digits))]
/// The number that 1 to 20 decimal digits make, leading zeros allowed, where it is from `low` to `high`.
pub fn number_in(text: &[u8], low: u64, high: u64) -> Option<u64>
    ensures number { result ≡ number_in low high text.now }
    ensures least { IfSome result (λ n. low ≤ n) }
    ensures most { IfSome result (λ n. n ≤ high) }
{
    if text.is_empty() || text.len() > MOST_DIGITS {
        return None;
    }
    let n = digits(text)?;
    if low <= n && n <= high { Some(n) } else { None }
}
