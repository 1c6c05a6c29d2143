ghost use Rattle.std.specs.Prelude.{◌≡◌, ◌≤◌, ◌<◌, true, length, slice_index, Some, None, nat_le, if◌then◌else◌};
ghost use Rattle.std.specs.List.{prefix_len, All};
ghost use Rattle.std.specs.Char.{is_ascii_digit};
ghost use Rattle.pb_text.specs.Lexemes.{number, value_from};
ghost use Rattle.pb_lex.specs.Seen.{lexeme_seen, IsSound, IsLevel};

use crate::lexeme::{Fault, Lexeme, Sort};
use pb_text::MOST_NUMBER;

/// A number: digits, of which leading zeros count for nothing.
#[tactic(auto, using(crate::proofs::Prefixes::prefix_passes))]
pub fn number(text: &[u8]) -> Lexeme
    requires some { 0 < length text.now }
    requires begun { is_ascii_digit (slice_index text.now 0) ≡ true }
    ensures seen { lexeme_seen result.sort result.len text.now ≡ number text.now }
    ensures some { 0 < result.len }
    ensures within { result.len ≤ length text.now }
    ensures sound { IsSound result.sort result.len text.now }
    ensures level { IsLevel result.sort result.len text.now }
{
    let len = digits_len(text);
    match value_of(&text[..len]) {
        Some(value) => Lexeme {
            sort: Sort::Number(value),
            len,
        },
        None => Lexeme {
            sort: Sort::Bad(Fault::NumberTooLarge),
            len,
        },
    }
}

fn digits_len(text: &[u8]) -> usize
    ensures { result ≡ prefix_len is_ascii_digit text.now }
{
    text.iter().take_while(|byte| byte.is_ascii_digit()).count()
}

#[tactic(auto, using(crate::proofs::Values::too_large))]
fn value_of(digits: &[u8]) -> Option<u32>
    requires { All (λ byte. is_ascii_digit byte ≡ true) digits.now }
    ensures { let value = value_from 0 digits.now in result ≡ (if nat_le value MOST_NUMBER then Some value else None) }
{
    let mut value: u64 = 0;
    for digit in digits {
        value = 10 * value + u64::from(*digit - b'0');
        if value > u64::from(MOST_NUMBER) {
            return None;
        }
    }
    Some(value as u32)
}
