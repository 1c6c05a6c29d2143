//! The lines of a text, and the fields of a line, between its spaces.

ghost use Rattle.std.specs.Prelude.{◌≡◌, ◌≤◌, ◌<◌, ◌∷◌, length, IfSome};
ghost use Rattle.std.specs.List.{prefix_len};
ghost use Rattle.pb_judge_log.specs.Reading.{Gives, is_inside, is_within_line, fields, fields_behind, some_fields, line_at};

fn field_len(text: &[u8]) -> usize
    ensures count { result ≡ prefix_len is_inside text.now }
    ensures within { result ≤ length text.now }
{
    text.iter().take_while(|byte| **byte != b' ').count()
}

/// The first field of a line, and what stands behind it, from its space on.
pub fn split(text: &[u8]) -> (&[u8], &[u8])
    ensures fields { fields text.now ≡ result.0.now ∷ fields_behind result.1.now }
    ensures within { length result.1.now ≤ length text.now }
{
    let len = field_len(text);
    (&text[..len], &text[len..])
}

/// The field behind a space, and what stands behind it, from the next space on. None where nothing is left.
pub fn next(text: &[u8]) -> Option<(&[u8], &[u8])>
    ensures fields { Gives (λ x. x.0.now ∷ fields_behind x.1.now) result (some_fields (fields_behind text.now)) }
    ensures shorter { IfSome result (λ x. length x.1.now < length text.now) }
{
    match text {
        [] => None,
        [_, line @ ..] => Some(split(line)),
    }
}

fn line_len(text: &[u8]) -> usize
    ensures count { result ≡ prefix_len is_within_line text.now }
    ensures within { result ≤ length text.now }
{
    text.iter().take_while(|byte| **byte != b'\n').count()
}

/// The first line of a text without its line feed, and what stands behind that. None where no line feed is there.
#[tactic(auto, using(crate::proofs::Splits::no_line))]
pub fn line(text: &[u8]) -> Option<(&[u8], &[u8])>
    ensures line { Gives (λ x. (x.0.now, x.1.now)) result (line_at text.now) }
    ensures shorter { IfSome result (λ x. length x.1.now < length text.now) }
{
    let len = line_len(text);
    if len == text.len() {
        None
    } else {
        Some((&text[..len], &text[len + 1..]))
    }
}
