ghost use Rattle.std.specs.Prelude.{◌≡◌};

use pb_core_language::Place;
use pb_rules::At;

/// The number and the place of a statement or a block.
#[derive(Clone, Copy)]
pub struct Mark {
    pub number: u32,
    pub place: Place,
}

/// A breach at one N.
#[derive(Clone, Copy)]
pub struct Found {
    pub rule: u8,
    pub mark: Mark,
    pub n: i64,
    pub at: Option<At>,
}

impl Found {
    ghost use Rattle.pb_core_language.specs.Verdict.{is_before};
    ghost use Rattle.pb_choice.specs.Found.{broken_of, earlier_of};

    /// By rule, then by place, then by N, then by role and index.
    fn is_before(&self, other: &Found) -> bool
        ensures { result ≡ is_before (broken_of self.now) (broken_of other.now) }
    {
        self.rule < other.rule
            || (self.rule == other.rule
                && (self.mark.number < other.mark.number
                    || (self.mark.number == other.mark.number && is_sooner(self, other))))
    }

    // This breach, or the other where that is before it.
    fn or_earlier(self, other: Found) -> Found
        ensures { result ≡ earlier_of self other }
    {
        if other.is_before(&self) { other } else { self }
    }
}

ghost use Rattle.std.specs.Prelude.{◌||◌, ◌&&◌, int_lt};
ghost use Rattle.std.specs.Ordering.{int_eq};
ghost use Rattle.pb_core_language.specs.Verdict.{is_before_seat};
ghost use Rattle.pb_rules.specs.Verdict.{seat_if};
ghost use Rattle.pb_choice.specs.Found.{earlier};

fn is_sooner(a: &Found, b: &Found) -> bool
    ensures { result ≡ (int_lt a.now.n b.now.n || (int_eq a.now.n b.now.n && is_before_seat (seat_if a.now.at) (seat_if b.now.at))) }
{
    a.n < b.n || (a.n == b.n && is_before_seat(a.at, b.at))
}

fn is_before_seat(a: Option<At>, b: Option<At>) -> bool
    ensures { result ≡ is_before_seat (seat_if a) (seat_if b) }
{
    match a {
        None => false,
        Some(a) => match b {
            None => false,
            Some(b) => a.role < b.role || (a.role == b.role && a.index < b.index),
        },
    }
}

/// The best so far, or the other where that is before it.
pub fn earlier(best: Option<Found>, found: Found) -> Option<Found>
    ensures { result ≡ earlier best found }
{
    match best {
        None => Some(found),
        Some(best) => Some(best.or_earlier(found)),
    }
}
