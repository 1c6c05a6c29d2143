ghost use Rattle.std.specs.Prelude.{◌≡◌, [], ◌++◌, true, map, length, OnOk, IfOk};
ghost use Rattle.pb_affine.specs.Values.{IsNear};
ghost use Rattle.pb_core_language.specs.Plain.{plain};
ghost use Rattle.pb_core_language.specs.Ranks.{seats, seat_at};
ghost use Rattle.pb_core_language.specs.Sound.{is_sound};
ghost use Rattle.pb_core_language.specs.Lists.{over_below};
ghost use Rattle.pb_core_language.specs.Rules.{breaches, ranked, misfits, each_origin, somebody, nobody, deserted};
ghost use Rattle.pb_plain.specs.View.{view, mark_of, seat_of};
ghost use Rattle.pb_plain_rules.specs.Breaches.{breach_of, all_broken};
ghost use Rattle.pb_plain_rules.specs.Ends.{breaks};
ghost use Rattle.pb_plain_rules.specs.Fits.{fits};

use crate::{
    Breach, Core, EndRule, Flat, Held, Mark, NoMemory, Seat, TellRule, add_breaks, add_deserted,
    add_ends, add_marks, add_ranked, empty_roles, misfits,
};
use pb_plain::{flat_of, seats};
use std::alloc::Global;

/// Every place at which a sound core breaks one of the rules 6 to 12 at N = n, within 2^40 of zero: one rule after the other, each
/// in the order of the file, and the rules 10 to 12 rank by rank.
pub fn breaches(alloc: Global, core: &Core, n: i64) -> Result<Vec<Breach>, NoMemory>
    requires sound { is_sound (plain core.now) ≡ true }
    requires n { IsNear n }
    ensures { IfOk result (λ v. map breach_of v.items ≡ breaches (plain core.now) n) }
{
    let ranks = seats(alloc, &core.roles, n)?;
    let block = flat_of(alloc, core, &ranks, n)?;
    let empty = empty_roles(alloc, &core.roles, n)?;
    let list = all_broken(alloc, &empty, &ranks, &block)?;
    Ok(list)
}

/// The roles without an index as places where rule 6 is broken, and those of the other rules in a flat protocol among these ranks.
fn all_broken(
    alloc: Global,
    empty: &[Mark],
    ranks: &[Seat],
    block: &Flat,
) -> Result<Vec<Breach>, NoMemory>
    ensures { IfOk result (λ v. map breach_of v.items ≡ all_broken (map mark_of empty.now) (map seat_of ranks.now) (view block.now)) }
{
    let mut list = Vec::new(alloc);
    add_marks(6, empty, &mut list)?;
    add_broken_ends(alloc, 7, &EndRule::InRange(ranks), block, &mut list)?;
    add_broken_ends(alloc, 8, &EndRule::Apart, block, &mut list)?;
    add_deserts(alloc, 9, block, ranks.len() as u64, &mut list)?;
    add_misfits(alloc, 10, TellRule::ReceivesOnly, block, ranks, &mut list)?;
    add_misfits(alloc, 11, TellRule::OneSource, block, ranks, &mut list)?;
    add_misfits(alloc, 12, TellRule::OwnLabels, block, ranks, &mut list)?;
    Ok(list)
}

fn add_broken_ends(
    alloc: Global,
    rule: u8,
    which: &EndRule,
    block: &Flat,
    out: &mut Vec<Breach>,
) -> Result<(), NoMemory>
    ensures { OnOk result (map breach_of out.new.items ≡ map breach_of out.old.items ++ map (somebody rule) (each_origin (breaks which.now) (view block.now))) }
{
    let mut ends = Vec::new(alloc);
    add_breaks(block, which, &mut ends)?;
    add_ends(rule, &ends, out)
}

fn add_deserts(
    alloc: Global,
    rule: u8,
    block: &Flat,
    total: u64,
    out: &mut Vec<Breach>,
) -> Result<(), NoMemory>
    ensures { OnOk result (map breach_of out.new.items ≡ map breach_of out.old.items ++ map (nobody rule) (deserted total [] (view block.now))) }
{
    let mut marks = Vec::new(alloc);
    add_deserted(alloc, block, &Held::Top, total, &mut marks)?;
    add_marks(rule, &marks, out)
}

/// Adds the places at which a rank breaks the rule, rank by rank.
fn add_misfits(
    alloc: Global,
    rule: u8,
    which: TellRule,
    block: &Flat,
    ranks: &[Seat],
    out: &mut Vec<Breach>,
) -> Result<(), NoMemory>
    ensures { OnOk result (map breach_of out.new.items ≡ map breach_of out.old.items ++ over_below (length ranks.now) (λ r. map (ranked rule (seat_at r (map seat_of ranks.now))) (misfits (fits which) [] r (view block.now)))) }
{
    for (rank, seat) in ranks.iter().enumerate() {
        let marks = misfits(alloc, block, which, &Held::Top, rank as u64)?;
        add_ranked(rule, *seat, &marks, out)?;
    }
    Ok(())
}
