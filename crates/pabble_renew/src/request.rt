//! What the words of the command line ask for.

ghost use Rattle.std.specs.Prelude.{◌≡◌, ◌≤◌, ◌∷◌, [], None, length, map, IfSome};
ghost use Rattle.std.specs.Option.{option_map};
ghost use Rattle.std.specs.List.{list_any};
ghost use Rattle.std.specs.String.{string_bytes};
ghost use Rattle.pabble_renew.specs.Asked.{asked, asked_by, count_of, doing_of, files_of, is_option, is_unknown, losing_of, pair_of};

use crate::doing::Doing;
use pb_renew::Losing;

/// The two files that are named, and how one is to be renewed.
#[derive(Clone, Copy)]
pub struct Request<'a> {
    /// The protocol.
    pub file: &'a str,
    /// The text that is to be renewed.
    pub out: &'a str,
    pub losing: Losing,
    pub doing: Doing,
}

/// What the words behind the program's name ask for: two files, neither of which begins with `-`, and `--force` and `--dry-run`
/// anywhere, each once at most. None where they are in no such form.
pub fn read_request(words: &[String]) -> Option<Request<'_>>
    ensures { option_map asked_by result ≡ asked (map string_bytes words.now) }
{
    let forces = count_of(words, "--force");
    let tells = count_of(words, "--dry-run");
    if has_unknown(words) || forces > 1 || tells > 1 {
        return None;
    }
    let (file, out) = two_files(words)?;
    Some(Request {
        file,
        out,
        losing: losing_of(forces),
        doing: doing_of(tells),
    })
}

/// How often the option stands among the words.
fn count_of(words: &[String], option: &str) -> usize
    ensures count { result ≡ count_of option.now (map string_bytes words.now) }
    ensures most { result ≤ length words.now }
{
    match words {
        [] => 0,
        [first, rest @ ..] => {
            let more = count_of(rest, option);
            if first.as_str() == option {
                more + 1
            } else {
                more
            }
        }
    }
}

/// True where one of the words is an option that there isn't.
fn has_unknown(words: &[String]) -> bool
    ensures { result ≡ list_any is_unknown (map string_bytes words.now) }
{
    match words {
        [] => false,
        [first, rest @ ..] => is_unknown(first.as_str()) || has_unknown(rest),
    }
}

fn is_unknown(word: &str) -> bool
    ensures { result ≡ is_unknown word.now }
{
    is_option(word) && !(word == "--force" || word == "--dry-run")
}

/// True where the word is in the form of an option.
fn is_option(word: &str) -> bool
    ensures { result ≡ is_option word.now }
{
    word.as_bytes().starts_with(b"-")
}

/// The words that are no options, if these are two.
fn two_files(words: &[String]) -> Option<(&str, &str)>
    ensures { option_map (λ it. (it.0.now, it.1.now)) result ≡ pair_of (files_of (map string_bytes words.now)) }
{
    let (file, behind) = next_file(words)?;
    let (out, behind) = next_file(behind)?;
    match next_file(behind) {
        Some(_) => None,
        None => Some((file, out)),
    }
}

/// The first word that is no option, and the words behind it.
fn next_file(words: &[String]) -> Option<(&str, &[String])>
    ensures none { result ≡ None → files_of (map string_bytes words.now) ≡ [] }
    ensures some { IfSome result (λ it. files_of (map string_bytes words.now) ≡ it.0.now ∷ files_of (map string_bytes it.1.now)) }
{
    match words {
        [] => None,
        [first, rest @ ..] => {
            if is_option(first.as_str()) {
                next_file(rest)
            } else {
                Some((first.as_str(), rest))
            }
        }
    }
}

fn losing_of(count: usize) -> Losing
    ensures { result ≡ losing_of count }
{
    match count {
        0 => Losing::Refused,
        _ => Losing::Kept,
    }
}

fn doing_of(count: usize) -> Doing
    ensures { result ≡ doing_of count }
{
    match count {
        0 => Doing::Renew,
        _ => Doing::Tell,
    }
}
