//! The numbers of ranks.

ghost use Rattle.std.specs.Prelude.{◌≡◌};
ghost use Rattle.pb_core_language.specs.FlatOf.{rank_of};
ghost use Rattle.pb_judge_blocks.specs.Places.{IsSite, IsTurn};

use crate::numbers::{behind, count, place, value};
use crate::site::Site;
use pb_core_language::CoreEnd;

/// The number of an end's rank, with i for the variable; that of all ranks where there is no such rank. It takes time
/// linear in the roles.
pub fn rank_of(end: &CoreEnd, site: &Site, i: &i64) -> u32
    ensures { IsSite site.now → IsTurn i.now → result ≡ rank_of site.now.roles.now site.now.n end.now i.now }
{
    let index = value(&end.at, &site.n, i);
    let mut before = 0u32;
    for (number, role) in site.roles.iter().enumerate() {
        let low = value(&role.low, &site.n, &0);
        let high = value(&role.high, &site.n, &0);
        match place(number, end.role, &low, &high, &index) {
            Some(far) => return behind(&before, &far),
            None => before = behind(&before, &count(&low, &high)),
        }
    }
    before
}
