ghost use Rattle.std.specs.Prelude.{◌≡◌};
ghost use Rattle.pb_core_language.specs.Collectives.{word_count};
ghost use Rattle.pb_cost_laws.specs.Flats.{of_label};
ghost use Rattle.pb_cost_blocks.specs.Asked.{choosing, counted, size_in};

use pb_core_language::{CoreLabel, Payload};
use pb_cost_joins::{Join, Span};

/// The least or the most.
#[derive(Clone, Copy)]
pub enum Way {
    Least,
    Most,
}

/// What is counted of a message: that it is one, or its words.
#[derive(Clone, Copy)]
pub enum Counted {
    Messages,
    Words,
}

/// One of the four counts, on these numbers.
#[derive(Clone, Copy)]
pub struct Asked {
    pub way: Way,
    pub what: Counted,
    pub span: Span,
}

impl Asked {
    /// What is made of two branches.
    pub(crate) fn choosing(self) -> Join
        ensures { result ≡ choosing self.way }
    {
        match self.way {
            Way::Least => Join::Least,
            Way::Most => Join::Most,
        }
    }

    /// What one message with this label counts; a label that isn't there has no words.
    pub(crate) fn of_label(self, labels: &[CoreLabel], label: u32) -> u32
        ensures { result ≡ of_label (counted self.what) (size_in labels.now) label }
    {
        match self.what {
            Counted::Messages => 1,
            Counted::Words => words_of(labels, label),
        }
    }
}

/// How many words a label has.
fn words_of(labels: &[CoreLabel], label: u32) -> u32
    ensures { result ≡ size_in labels.now label }
{
    let at = label as usize;
    if at < labels.len() {
        word_count(labels[at].payload)
    } else {
        0
    }
}

/// How many words a payload has.
fn word_count(payload: Payload) -> u32
    ensures { result ≡ word_count payload }
{
    match payload {
        Payload::Unit => 0,
        Payload::Int32(count) | Payload::Uint32(count) => count,
    }
}
