ghost use Rattle.std.specs.Prelude.{◌≡◌, ◌+◌, ◌*◌, map};
ghost use Rattle.pb_affine.specs.Values.{IsNear};
ghost use Rattle.pb_core_language.specs.Ranks.{seats};
ghost use Rattle.pb_core_language.specs.FlatOf as F;
ghost use Rattle.pb_core_language.specs.Plain.{plain_stmt};
ghost use Rattle.pb_plain.specs.Small.{IsTurn};
ghost use Rattle.pb_plain.specs.View.{mark_of, seat_of, asked_of, origin_of};

use crate::{Asked, Ends, Mark, Origin, Seat, number_in, value};
use pb_core_language::{CoreEnd, CoreRole, CoreStmt};

/// Where a protocol is flattened: its roles and ranks at N = n.
#[derive(Clone, Copy)]
pub struct Site<'a> {
    pub roles: &'a [CoreRole],
    pub seats: &'a [Seat],
    pub n: i64,
}

/// The number of an end's rank, with i for the variable. N is within 2^40 of zero and i within 2^41, here and below.
pub fn rank_of(end: &CoreEnd, site: &Site, i: i64) -> u64
    requires seats { map seat_of site.now.seats.now ≡ seats site.now.roles.now site.now.n }
    requires n { IsNear site.now.n }
    requires i { IsTurn i }
    ensures { result ≡ F.rank_of site.now.roles.now site.now.n end.now i }
{
    let index = value(end.at, site.n, i);
    let seat = Seat {
        role: u64::from(end.role),
        index,
    };
    number_in(&seat, site.seats)
}

/// The end as it stands in the file, with this number.
pub fn asked(end: &CoreEnd, number: u64, n: i64, i: i64) -> Asked
    requires n { IsNear n }
    requires i { IsTurn i }
    ensures { asked_of result ≡ F.asked end.now number n i }
{
    let index = value(end.at, n, i);
    Asked {
        mark: Mark {
            number,
            place: end.place,
        },
        seat: Seat {
            role: u64::from(end.role),
            index,
        },
    }
}

/// The number and the place of a statement.
pub fn mark(stmt: &CoreStmt) -> Mark
    ensures { mark_of result ≡ (plain_stmt stmt.now).mark }
{
    Mark {
        number: u64::from(stmt.number),
        place: stmt.place,
    }
}

/// Where a statement with one end comes from.
pub fn from_one(stmt: &CoreStmt, end: &CoreEnd, n: i64, i: i64) -> Origin
    requires n { IsNear n }
    requires i { IsTurn i }
    ensures { origin_of result ≡ F.from_one (plain_stmt stmt.now).mark end.now n i }
{
    let first = asked(end, 2 * u64::from(stmt.number), n, i);
    Origin {
        mark: mark(stmt),
        ends: Ends::One(first),
    }
}

/// Where a message comes from.
pub fn from_two(stmt: &CoreStmt, from: &CoreEnd, to: &CoreEnd, n: i64, i: i64) -> Origin
    requires n { IsNear n }
    requires i { IsTurn i }
    ensures { origin_of result ≡ F.from_two (plain_stmt stmt.now).mark from.now to.now n i }
{
    let first = asked(from, 2 * u64::from(stmt.number), n, i);
    let second = asked(to, 2 * u64::from(stmt.number) + 1, n, i);
    Origin {
        mark: mark(stmt),
        ends: Ends::Two(first, second),
    }
}
