ghost use Rattle.std.specs.Prelude.{◌≡◌, true, map, IfOk};
ghost use Rattle.pb_affine.specs.Values.{IsNear};
ghost use Rattle.pb_core_language.specs.Plain.{plain};
ghost use Rattle.pb_core_language.specs.Ranks.{seats};
ghost use Rattle.pb_core_language.specs.Sound.{is_sound};
ghost use Rattle.pb_core_language.specs.Parts.{takes_part_in, firsts_in};
ghost use Rattle.pb_plain.specs.Finds.{outcome_of};
ghost use Rattle.pb_plain.specs.View.{seat_of};

use crate::first_parts::{add_firsts_if, add_firsts_within};
use crate::{Held, NoMemory, Opens, Outcome, Seat, Site, takes_part_within};
use pb_core_language::Core;
use std::alloc::Global;

/// Whether the rank takes part in the statement with this number of a sound core at N = n, within 2^40 of zero. The
/// ranks are all ranks at n. False where the
/// statement stands in a foreach.
#[tactic(auto, using(crate::proofs::Smalls::sound_small))]
pub fn takes_part_in(
    alloc: Global,
    core: &Core,
    ranks: &[Seat],
    n: i64,
    number: u32,
    rank: u64,
) -> Result<bool, NoMemory>
    requires sound { is_sound (plain core.now) ≡ true }
    requires n { IsNear n }
    requires seats { map seat_of ranks.now ≡ seats core.now.roles.items n }
    ensures { IfOk result (λ b. b ≡ takes_part_in (plain core.now) n number rank) }
{
    let site = Site {
        roles: &core.roles,
        seats: ranks,
        n,
    };
    takes_part_within(
        alloc,
        &core.body,
        number,
        &Opens::Top,
        &Held::Top,
        &site,
        rank,
    )
}

/// What the rank finds first in the block with this number of a sound core at N = n, within 2^40 of zero. The
/// ranks are all ranks at n. Nothing is listed where the
/// block stands in a foreach.
#[tactic(auto, using(crate::proofs::Smalls::sound_small))]
pub fn firsts_in(
    alloc: Global,
    core: &Core,
    ranks: &[Seat],
    n: i64,
    number: u32,
    rank: u64,
) -> Result<Vec<Outcome>, NoMemory>
    requires sound { is_sound (plain core.now) ≡ true }
    requires n { IsNear n }
    requires seats { map seat_of ranks.now ≡ seats core.now.roles.items n }
    ensures { IfOk result (λ v. map outcome_of v.items ≡ firsts_in (plain core.now) n number rank) }
{
    let site = Site {
        roles: &core.roles,
        seats: ranks,
        n,
    };
    let mut list = Vec::new(alloc);
    add_firsts_if(
        alloc,
        &core.body,
        number,
        &Opens::Top,
        &Held::Top,
        &site,
        rank,
        &mut list,
    )?;
    add_firsts_within(
        alloc,
        &core.body,
        number,
        &Opens::Top,
        &Held::Top,
        &site,
        rank,
        &mut list,
    )?;
    Ok(list)
}
