//! What a line is made of: numbers and names.

ghost use Rattle.std.specs.Prelude.{◌≡◌, ◌<◌, ◌≤◌, length, IfSome};
ghost use Rattle.std.specs.List.{prefix_len};
ghost use Rattle.pb_draw_log.specs.Parts.{goes_on_name, number_at, name_at, GivesTo};

use pb_text::Name;

/// Numbers fit 32 bits.
const LIMIT: u128 = 4_294_967_296;

/// The number in front of a text, without leading zeros, and the rest.
pub fn number(text: &[u8]) -> Option<(u32, &[u8])>
    ensures read { GivesTo (λ x. (x.0, x.1.now)) result (number_at text.now) }
{
    match text {
        [] => None,
        [first, others @ ..] => {
            if *first == b'0' {
                return Some((0, others));
            }
            let (n, rest) = pb_text_read::number(LIMIT, text)?;
            Some((n as u32, rest))
        }
    }
}

fn goes_on_name(byte: u8) -> bool
    ensures { result ≡ goes_on_name byte }
{
    byte.is_ascii_alphanumeric() || byte == b'_'
}

fn name_len(text: &[u8]) -> usize
    ensures { result ≡ prefix_len goes_on_name text.now }
{
    text.iter().take_while(|byte| goes_on_name(**byte)).count()
}

/// The name in front of a text, as long as possible, and the rest: 1 to 64 letters, digits and `_`, the first no digit.
pub fn name(text: &[u8]) -> Option<(Name, &[u8])>
    ensures read { GivesTo (λ x. (x.0, x.1.now)) result (name_at text.now) }
{
    match text {
        [] => None,
        [first, ..] => {
            if first.is_ascii_digit() {
                return None;
            }
            let len = name_len(text);
            let name = Name::of(&text[..len])?;
            Some((name, &text[len..]))
        }
    }
}
