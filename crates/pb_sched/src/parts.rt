//! The lines of a schedule, read from the front of a text.

ghost use Rattle.pb_sched.specs.Parts.{head_at, seed_at, mode_at, turn_at, GivesTo};

use crate::format::Format;
use crate::numbers::number;
use crate::schedule::Turn;
use pb_text::Mode;
use pb_text_read::strip;

/// The format that the first line tells, and the rest.
pub fn head(text: &[u8]) -> Option<(Format, &[u8])>
    ensures { GivesTo (λ x. (x.0, x.1.now)) result (head_at text.now) }
{
    if let Some(rest) = strip(b"pabble schedule 2\n", text) {
        return Some((Format::Two, rest));
    }
    let rest = strip(b"pabble schedule 1\n", text)?;
    Some((Format::One, rest))
}

/// The seed of the second line, and the rest.
pub fn seed(text: &[u8]) -> Option<(u64, &[u8])>
    ensures { GivesTo (λ x. (x.0, x.1.now)) result (seed_at text.now) }
{
    let digits = strip(b"seed ", text)?;
    let (seed, end) = number(digits)?;
    let rest = strip(b"\n", end)?;
    Some((seed, rest))
}

fn mode(format: Format, text: &[u8]) -> Option<(Mode, &[u8])>
    ensures { GivesTo (λ x. (x.0, x.1.now)) result (mode_at format text.now) }
{
    match format {
        Format::One => {
            let rest = strip(b"\n", text)?;
            Some((Mode::Eager, rest))
        }
        Format::Two => {
            if let Some(rest) = strip(b" e\n", text) {
                return Some((Mode::Eager, rest));
            }
            let rest = strip(b" w\n", text)?;
            Some((Mode::Waiting, rest))
        }
    }
}

/// The event of the line in front, and the rest.
pub fn turn(format: Format, text: &[u8]) -> Option<(Turn, &[u8])>
    ensures { GivesTo (λ x. (x.0, x.1.now)) result (turn_at format text.now) }
{
    let (rank, end) = number(text)?;
    if rank >= 4_294_967_296 {
        return None;
    }
    let (mode, rest) = mode(format, end)?;
    Some((
        Turn {
            rank: rank as u32,
            mode,
        },
        rest,
    ))
}
