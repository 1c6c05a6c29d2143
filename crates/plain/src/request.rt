ghost use Rattle.std.specs.Prelude.{◌≤◌, IfSome};

use pb_text::MOST_NUMBER;

/// The greatest number of actions that can be asked for.
const MOST_ACTIONS: u32 = 1_000_000;

/// How many actions are shown where the words name no number.
const USUAL_ACTIONS: u32 = 20;

/// What the words after the program's name ask for.
#[derive(Clone, Copy)]
pub struct Request<'a> {
    /// The file of the protocol.
    pub file: &'a str,
    /// N, at most 2,000,000,000.
    pub n: u32,
    /// How many actions of the sequential run are shown, at most 1,000,000.
    pub actions: u32,
}

/// What the words FILE N or FILE N M ask for. None where they are in no such form.
pub fn read_request(words: &[String]) -> Option<Request<'_>>
    ensures { IfSome result (λ request. request.n ≤ MOST_NUMBER) }
{
    match words {
        [file, n] => {
            let n = number(n.as_str(), MOST_NUMBER);
            request_of(file.as_str(), n, Some(USUAL_ACTIONS))
        }
        [file, n, actions] => {
            let n = number(n.as_str(), MOST_NUMBER);
            let actions = number(actions.as_str(), MOST_ACTIONS);
            request_of(file.as_str(), n, actions)
        }
        _ => None,
    }
}

fn request_of(file: &str, n: Option<u32>, actions: Option<u32>) -> Option<Request<'_>>
    requires { IfSome n (λ x. x ≤ MOST_NUMBER) }
    ensures { IfSome result (λ request. request.n ≤ MOST_NUMBER) }
{
    match (n, actions) {
        (Some(n), Some(actions)) => Some(Request { file, n, actions }),
        (Some(_), None) => None,
        (None, _) => None,
    }
}

/// The number that the word writes in decimal digits, where it is at most `most`.
fn number(word: &str, most: u32) -> Option<u32>
    ensures { IfSome result (λ n. n ≤ most) }
{
    if word.as_bytes().first() == Some(&b'+') {
        return None;
    }
    match word.parse::<u32>() {
        Ok(n) if n <= most => Some(n),
        Ok(_) => None,
        Err(_) => None,
    }
}
