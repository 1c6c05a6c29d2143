//! Which words are names.

ghost use Rattle.std.specs.Prelude.{◌≡◌, nat_eq, map};
ghost use Rattle.std.specs.Cmp.Lexicographic.{pointwise};
ghost use Rattle.std.specs.List.{list_any, list_all};
ghost use Rattle.pb_local.specs.Names.{is_letter, is_word, is_keyword, is_name};
ghost use Rattle.pb_text.specs.Spellings.{key_spelling};
ghost use Rattle.pb_cread_rows.specs.Parts.{goes_on_name};

use pb_text::Key;

fn is_letter(byte: u8) -> bool
    ensures { result ≡ is_letter byte }
{
    (b'A' <= byte && byte <= b'Z') || (b'a' <= byte && byte <= b'z') || byte == b'_'
}

/// Whether the byte is a letter, a digit or an underscore.
pub fn goes_on_name(byte: u8) -> bool
    ensures { result ≡ goes_on_name byte }
{
    is_letter(byte) || (b'0' <= byte && byte <= b'9')
}

fn go_on_name(bytes: &[u8]) -> bool
    ensures { result ≡ list_all goes_on_name bytes.now }
{
    bytes.iter().all(|byte| goes_on_name(*byte))
}

fn is_word(word: &[u8]) -> bool
    ensures { result ≡ is_word word.now }
{
    match word {
        [] => false,
        [first, others @ ..] => is_letter(*first) && go_on_name(others),
    }
}

fn is_one_of(keys: &[Key], word: &[u8]) -> bool
    ensures { result ≡ list_any (λ k. pointwise nat_eq k word.now) (map key_spelling keys.now) }
{
    for key in keys {
        if key.spelling() == word {
            return true;
        }
    }
    false
}

fn is_keyword(word: &[u8]) -> bool
    ensures { result ≡ is_keyword word.now }
{
    is_one_of(Key::all(), word)
}

/// True where the word is a name: at most 64 letters, digits and underscores, no digit first, and no keyword.
pub fn is_name(word: &[u8]) -> bool
    ensures { result ≡ is_name word.now }
{
    is_word(word) && word.len() < 65 && !is_keyword(word)
}
