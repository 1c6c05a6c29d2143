//! What a line says in front of its words.

ghost use Rattle.std.specs.Prelude.{◌≡◌};
ghost use Rattle.pb_draw_log.specs.Parts.{GivesTo};
ghost use Rattle.pb_draw_log.specs.Heads.{head_at, chosen_at, named_at, sent_at, taken_at};

use crate::entry::{Deed, Head};
use crate::parts::{name, number};
use pb_text_read::strip;

/// A rank, what it does and a name, and the rest.
pub fn head(text: &[u8]) -> Option<(Head, &[u8])>
    ensures { GivesTo (λ x. (x.0, x.1.now)) result (head_at text.now) }
{
    let (rank, rest) = number(text)?;
    if let Some(rest) = strip(b" run ", rest) {
        return named(rank, Deed::Run, rest);
    }
    if let Some(rest) = strip(b" send ", rest) {
        return sent(rank, rest);
    }
    if let Some(rest) = strip(b" recv ", rest) {
        return taken(rank, rest);
    }
    if let Some(rest) = strip(b" enter ", rest) {
        return named(rank, Deed::Enter, rest);
    }
    if let Some(rest) = strip(b" leave ", rest) {
        return named(rank, Deed::Leave, rest);
    }
    chosen(rank, strip(b" choose ", rest)?)
}

fn named(rank: u32, deed: Deed, text: &[u8]) -> Option<(Head, &[u8])>
    ensures { GivesTo (λ x. (x.0, x.1.now)) result (named_at rank deed text.now) }
{
    match name(text) {
        Some((name, rest)) => Some((Head { rank, deed, name }, rest)),
        None => None,
    }
}

fn sent(rank: u32, text: &[u8]) -> Option<(Head, &[u8])>
    ensures { GivesTo (λ x. (x.0, x.1.now)) result (sent_at rank text.now) }
{
    let (to, rest) = number(text)?;
    named(rank, Deed::Send(to), strip(b" ", rest)?)
}

fn taken(rank: u32, text: &[u8]) -> Option<(Head, &[u8])>
    ensures { GivesTo (λ x. (x.0, x.1.now)) result (taken_at rank text.now) }
{
    let (from, rest) = number(text)?;
    named(rank, Deed::Recv(from), strip(b" ", rest)?)
}

fn chosen(rank: u32, text: &[u8]) -> Option<(Head, &[u8])>
    ensures { GivesTo (λ x. (x.0, x.1.now)) result (chosen_at rank text.now) }
{
    match name(text) {
        Some((name, rest)) => {
            let (branch, rest) = number(strip(b" ", rest)?)?;
            let deed = Deed::Choose(branch);
            Some((Head { rank, deed, name }, rest))
        }
        None => None,
    }
}
