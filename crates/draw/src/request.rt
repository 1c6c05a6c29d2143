//! What the words of the command line ask for.

ghost use Rattle.std.specs.Prelude.{IfSome};
ghost use Rattle.draw.specs.Cuts.{IsCut};

use pb_draw_layout::Cut;

/// How many events are drawn where no lines are named.
pub const USUAL_EVENTS: usize = 2_000;

/// How many events are drawn where lines are named.
pub const MOST_EVENTS: usize = 100_000;

/// What is asked for.
#[derive(Clone, Copy)]
pub struct Request<'a> {
    /// The file of the log.
    pub file: &'a str,
    /// Which events are drawn.
    pub cut: Cut,
}

/// The options and the file so far.
#[derive(Clone, Copy)]
struct Said<'a> {
    file: Option<&'a str>,
    from: Option<u32>,
    to: Option<u32>,
    ranks: Option<(u32, u32)>,
}

/// What the words behind the program's name ask for. Options stand in any order, each at most once. None where the words are in
/// no such form.
pub fn read_request(words: &[String]) -> Option<Request<'_>>
    ensures { IfSome result (λ request. IsCut request.cut) }
{
    let mut said = Said {
        file: None,
        from: None,
        to: None,
        ranks: None,
    };
    let mut rest = words;
    for _ in 0..words.len() {
        rest = match rest {
            [] => break,
            [option, value, behind @ ..] if option.as_bytes().starts_with(b"--") => {
                said = said.with_option(option.as_str(), value.as_str())?;
                behind
            }
            [file, behind @ ..] => {
                said = said.with_file(file.as_str())?;
                behind
            }
        };
    }
    said.request()
}

impl<'a> Said<'a> {
    /// One more file, which must be the only one.
    fn with_file(self, file: &'a str) -> Option<Said<'a>> {
        if self.file.is_some() || file.as_bytes().starts_with(b"-") {
            return None;
        }
        Some(Said {
            file: Some(file),
            ..self
        })
    }

    /// One more option with its value.
    fn with_option(self, option: &str, value: &str) -> Option<Said<'a>> {
        match option {
            "--from" if self.from.is_none() => Some(Said {
                from: Some(number(value)?),
                ..self
            }),
            "--to" if self.to.is_none() => Some(Said {
                to: Some(number(value)?),
                ..self
            }),
            "--ranks" if self.ranks.is_none() => Some(Said {
                ranks: Some(range(value)?),
                ..self
            }),
            _ => None,
        }
    }

    /// What is asked for. None without a file, and where a range has nothing in it.
    fn request(self) -> Option<Request<'a>>
        ensures { IfSome result (λ request. IsCut request.cut) }
    {
        let file = self.file?;
        let is_usual = self.from.is_none() && self.to.is_none();
        let (low, high) = self.ranks.unwrap_or((0, u32::MAX));
        let cut = Cut {
            from: self.from.unwrap_or(1),
            to: self.to.unwrap_or(u32::MAX),
            low,
            high,
            most: if is_usual { USUAL_EVENTS } else { MOST_EVENTS },
        };
        if cut.from == 0 || cut.to < cut.from || high < low {
            return None;
        }
        Some(Request { file, cut })
    }
}

/// The number that a word writes in decimal digits.
fn number(word: &str) -> Option<u32> {
    if word.as_bytes().first() == Some(&b'+') {
        return None;
    }
    word.parse::<u32>().ok()
}

/// The two numbers of `A..B`.
fn range(word: &str) -> Option<(u32, u32)> {
    let (low, high) = word.split_once("..")?;
    Some((number(low)?, number(high)?))
}
