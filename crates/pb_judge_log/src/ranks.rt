//! How many ranks there are.

ghost use Rattle.std.specs.Prelude.{◌≡◌, ◌≤◌, true, length, nat_le, pos};
ghost use Rattle.pb_affine.specs.Values.{IsNear, value, range, count_of};
ghost use Rattle.pb_core_language.specs.Plain.{plain};
ghost use Rattle.pb_core_language.specs.Ranks.{total};
ghost use Rattle.pb_core_language.specs.Sound.{is_bound, is_sound, are_roles};

use pb_core_language::{Core, CoreRole};

/// The most ranks of a log.
const MOST_RANKS: u64 = 1024;

/// The number, or 0 where it is negative.
fn count_of(many: i64) -> u64
    ensures { result ≡ count_of many }
{
    if many < 0 { 0 } else { many as u64 }
}

/// How many indices a role has at N = n.
fn indices(role: &CoreRole, n: i64) -> u64
    requires low { is_bound role.now.low ≡ true }
    requires high { is_bound role.now.high ≡ true }
    requires near { IsNear n }
    ensures { result ≡ length (range (value role.now.low n (pos 0)) (value role.now.high n (pos 0))) }
{
    let low = role.low.value(n, 0);
    let high = role.high.value(n, 0);
    count_of(high + 1 - low)
}

/// The number of all ranks at N = n, within 2^40 of zero, where they are at most 1,024.
pub fn total(roles: &[CoreRole], n: i64) -> u32
    requires roles { are_roles roles.now ≡ true }
    requires near { IsNear n }
    requires few { total roles.now n ≤ 1024 }
    ensures { result ≡ total roles.now n }
{
    let mut count = 0;
    for role in roles {
        count += indices(role, n);
    }
    count as u32
}

/// Whether the roles have at most 1,024 ranks at N = n, within 2^40 of zero.
fn are_few(roles: &[CoreRole], n: i64) -> bool
    requires roles { are_roles roles.now ≡ true }
    requires near { IsNear n }
    ensures { result ≡ nat_le (total roles.now n) 1024 }
{
    let mut room = MOST_RANKS;
    for role in roles {
        let more = indices(role, n);
        if more > room {
            return false;
        }
        room -= more;
    }
    true
}

/// Whether a sound protocol has at most 1,024 ranks at N = n, within 2^40 of zero. Takes no memory.
pub fn has_few_ranks(core: &Core, n: i64) -> bool
    requires sound { is_sound (plain core.now) ≡ true }
    requires near { IsNear n }
    ensures { result ≡ nat_le (total core.now.roles.items n) 1024 }
{
    are_few(&core.roles, n)
}
