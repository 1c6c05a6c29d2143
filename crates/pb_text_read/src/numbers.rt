//! A number in front.

ghost use Rattle.std.specs.Prelude.{◌≡◌, ◌≤◌, ◌<◌, ◌^◌, Some, None, IfSome, MatchOption, length, drop};
ghost use Rattle.pb_text_read.specs.Fronts.{digits_below, number_below};

/// The number that these digits go on, and how many digits those are.
fn digits(limit: u128, start: u64, bytes: &[u8]) -> Option<(u64, usize)>
    requires most { limit ≤ 2 ^ 64 }
    requires begun { start < limit }
    ensures within { IfSome result (λ x. x.1 ≤ length bytes.now) }
    ensures found { MatchOption result (digits_below limit start bytes.now ≡ None) (λ x. digits_below limit start bytes.now ≡ Some (x.0, drop x.1 bytes.now)) }
    ensures below { IfSome result (λ x. x.0 < limit) }
{
    let mut n = start;
    for at in 0..bytes.len() {
        let byte = bytes[at];
        if !byte.is_ascii_digit() {
            return Some((n, at));
        }
        let more = u128::from(n) * 10 + u128::from(byte - b'0');
        if more >= limit {
            return None;
        }
        n = more as u64;
    }
    Some((n, bytes.len()))
}

/// The number that the digits in front make, and the bytes behind them.
///
/// Leading zeros are allowed. None where no digit stands in front, or where the number isn't below the limit.
pub fn number(limit: u128, text: &[u8]) -> Option<(u64, &[u8])>
    requires least { 10 ≤ limit }
    requires most { limit ≤ 2 ^ 64 }
    ensures found { MatchOption result (number_below limit text.now ≡ None) (λ x. number_below limit text.now ≡ Some (x.0, x.1.now)) }
    ensures below { IfSome result (λ x. x.0 < limit) }
{
    match text {
        [] => None,
        [first, others @ ..] => {
            if !first.is_ascii_digit() {
                return None;
            }
            let (n, count) = digits(limit, u64::from(*first - b'0'), others)?;
            Some((n, &others[count..]))
        }
    }
}
