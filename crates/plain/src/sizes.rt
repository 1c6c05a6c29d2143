ghost use Rattle.pb_affine.specs.Values.{IsNear};

use crate::parts::{Parts, Rounds};
use pb_affine::Lin;
use pb_core_language::CoreRole;
use pb_plain::value;

/// How many ranks there are at N = n, within 2^40 of zero.
pub fn rank_count(roles: &[CoreRole], n: i64) -> i64
    requires { IsNear n }
{
    let mut total: i64 = 0;
    for role in roles {
        total = total.saturating_add(count_between(role.low, role.high, n));
    }
    total
}

/// How many statements there are at N = n, within 2^40 of zero: those of the file, and the items of each foreach once more
/// for each of its numbers.
pub fn statement_count(parts: &Parts, n: i64) -> i64
    requires { IsNear n }
{
    let unrolled = item_count(&parts.rounds, n);
    unrolled.saturating_add_unsigned(parts.statements.len() as u64)
}

fn item_count(rounds: &[Rounds], n: i64) -> i64
    requires { IsNear n }
{
    let mut total: i64 = 0;
    for round in rounds {
        let turns = count_between(round.low, round.high, n);
        total = total.saturating_add(turns.saturating_mul(i64::from(round.items)));
    }
    total
}

/// How many whole numbers there are from low to high.
fn count_between(low: Lin, high: Lin, n: i64) -> i64
    requires { IsNear n }
{
    let first = value(low, n, 0);
    let last = value(high, n, 0);
    last.saturating_sub(first).saturating_add(1).max(0)
}
