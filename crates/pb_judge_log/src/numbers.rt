//! Numbers in decimal, which fill a field.

ghost use Rattle.std.specs.Prelude.{◌≡◌, ◌≤◌, ◌^◌};
ghost use Rattle.pb_sched.specs.Parts.{number_at, GivesTo};
ghost use Rattle.pb_judge_log.specs.Reading.{whole_number, word_in, signed_in, negative_in};

use pb_syntax::Payload;
use pb_text_read::strip;

/// Numbers fit 64 bits.
const LIMIT: u128 = 18_446_744_073_709_551_616;

/// The number in front of a text, without leading zeros, and the rest.
fn front(text: &[u8]) -> Option<(u64, &[u8])>
    ensures { GivesTo (λ x. (x.0, x.1.now)) result (number_at text.now) }
{
    match text {
        [] => None,
        [first, others @ ..] => {
            if *first == b'0' {
                Some((0, others))
            } else {
                pb_text_read::number(LIMIT, text)
            }
        }
    }
}

/// The number that a field is, where it is below the limit.
pub fn number(limit: u64, field: &[u8]) -> Option<u32>
    requires { limit ≤ 2 ^ 32 }
    ensures { result ≡ whole_number limit field.now }
{
    let (n, rest) = front(field)?;
    if rest.is_empty() && n < limit {
        Some(n as u32)
    } else {
        None
    }
}

/// The word that a field is. It has a sign where the payload is of int32.
pub fn word(payload: Payload, field: &[u8]) -> Option<u32>
    ensures { result ≡ word_in payload field.now }
{
    match payload {
        Payload::Int32(_) => signed(field),
        Payload::Unit => number(4_294_967_296, field),
        Payload::Uint32(_) => number(4_294_967_296, field),
    }
}

fn signed(field: &[u8]) -> Option<u32>
    ensures { result ≡ signed_in field.now }
{
    match strip(b"-", field) {
        None => number(2_147_483_648, field),
        Some(digits) => negative(digits),
    }
}

fn negative(digits: &[u8]) -> Option<u32>
    ensures { result ≡ negative_in digits.now }
{
    let n = number(2_147_483_649, digits)?;
    if n == 0 {
        None
    } else {
        Some((4_294_967_296 - u64::from(n)) as u32)
    }
}
