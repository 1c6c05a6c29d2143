ghost use Rattle.std.specs.Prelude.{◌≡◌, true};
ghost use Rattle.pb_affine.specs.Values.{IsNear};
ghost use Rattle.pb_core_language.specs.Plain.{plain};
ghost use Rattle.pb_core_language.specs.Sound.{is_sound};

use crate::fault::Fault;
use crate::parts::parts_of;
use crate::ranks::put_ranks;
use crate::rules::put_broken;
use crate::run::{first_actions, put_run};
use crate::sizes::{rank_count, statement_count};
use crate::text::Text;
use crate::worked::{put_blocks, put_statements};
use pb_core_language::Core;
use pb_plain::{Flat, flat_of, seats};
use pb_plain_rules::breaches;
use pb_plain_run::Setting;
use pb_text::Quantity;
use std::alloc::Global;

/// The greatest number of ranks.
const MOST_RANKS: i64 = 10_000;

/// The greatest number of statements, with each foreach written out. The slow programs go down a list of statements by
/// recursion, and so take stack for each.
const MOST_STATEMENTS: i64 = 10_000;

/// What a sound core means at N = n, within 2^40 of zero: its ranks; the takers of each statement; what each rank finds
/// first in each block; each broken rule; and the first actions of the sequential run, at most so many.
///
/// `Limit` comes where there are more than 10,000 ranks, or more than 10,000 statements with each foreach written out.
pub fn report(alloc: Global, core: &Core, n: i64, actions: usize) -> Result<Text, Fault>
    requires sound { is_sound (plain core.now) ≡ true }
    requires n { IsNear n }
{
    if MOST_RANKS < rank_count(&core.roles, n) {
        return Err(Fault::Limit(Quantity::Ranks));
    }
    let parts = parts_of(alloc, core)?;
    if MOST_STATEMENTS < statement_count(&parts, n) {
        return Err(Fault::Limit(Quantity::Statements));
    }
    let ranks = seats(alloc, &core.roles, n)?;
    let mut text = Text::new(alloc);
    text.put(b"protocol ")?;
    text.put(core.protocol.bytes())?;
    text.put(b", N = ")?;
    text.put_signed(n)?;
    text.put(b"\n")?;
    put_ranks(&mut text, &core.roles, &ranks)?;
    put_statements(&mut text, alloc, core, &ranks, n, &parts.statements)?;
    put_blocks(&mut text, alloc, core, &ranks, n, &parts.blocks)?;
    let broken = breaches(alloc, core, n)?;
    put_broken(&mut text, &core.roles, n, &broken)?;
    let block = flat_of(alloc, core, &ranks, n)?;
    put_actions(&mut text, alloc, core, &block, ranks.len(), actions)?;
    Ok(text)
}

/// The lines of the first actions of the flat protocol's run.
fn put_actions(
    text: &mut Text,
    alloc: Global,
    core: &Core,
    block: &Flat,
    total: usize,
    actions: usize,
) -> Result<(), Fault> {
    let setting = Setting {
        total: total as u64,
        labels: &core.labels,
    };
    let run = first_actions(alloc, &setting, block, total, actions)?;
    put_run(text, core, &run, actions)?;
    Ok(())
}
