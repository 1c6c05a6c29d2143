ghost use Rattle.std.specs.Prelude.{◌≡◌, ◌++◌, map, OnOk};
ghost use Rattle.pb_core_language.specs.Rules.{nobody, somebody, ranked};
ghost use Rattle.pb_plain.specs.View.{mark_of, seat_of, asked_of};
ghost use Rattle.pb_plain_rules.specs.Breaches.{breach_of};

use crate::{Asked, Mark, NoMemory, Seat};

/// A rule that is broken at one N: where, and by which rank or by which role with an index.
#[derive(Clone, Copy, Debug, PartialEq, Eq)]
pub struct Breach {
    /// From 6 to 12.
    pub rule: u8,
    pub mark: Mark,
    /// Of rule 7 the role with an index out of its range, of rule 8 the rank that is both, of the rules 10 to 12 the rank that is
    /// told; none of the rules 6 and 9.
    pub at: Option<Seat>,
}

/// Adds the marks as places where the rule is broken.
pub fn add_marks(rule: u8, marks: &[Mark], out: &mut Vec<Breach>) -> Result<(), NoMemory>
    ensures { OnOk result (map breach_of out.new.items ≡ map breach_of out.old.items ++ map (nobody rule) (map mark_of marks.now)) }
{
    for mark in marks {
        out.push(Breach {
            rule,
            mark: *mark,
            at: None,
        })?;
    }
    Ok(())
}

/// Adds the ends as places where the rule is broken, each with its seat.
pub fn add_ends(rule: u8, ends: &[Asked], out: &mut Vec<Breach>) -> Result<(), NoMemory>
    ensures { OnOk result (map breach_of out.new.items ≡ map breach_of out.old.items ++ map (somebody rule) (map asked_of ends.now)) }
{
    for end in ends {
        out.push(Breach {
            rule,
            mark: end.mark,
            at: Some(end.seat),
        })?;
    }
    Ok(())
}

/// Adds the marks as places where the rank with this seat breaks the rule.
pub fn add_ranked(
    rule: u8,
    seat: Seat,
    marks: &[Mark],
    out: &mut Vec<Breach>,
) -> Result<(), NoMemory>
    ensures { OnOk result (map breach_of out.new.items ≡ map breach_of out.old.items ++ map (ranked rule (seat_of seat)) (map mark_of marks.now)) }
{
    for mark in marks {
        out.push(Breach {
            rule,
            mark: *mark,
            at: Some(seat),
        })?;
    }
    Ok(())
}
