ghost use Rattle.std.specs.Prelude.{◌≡◌, ◌≤◌, ◌++◌, ℕ, ℤ, pos, Bool, length, List, [], ◌∷◌, true, IfOk, OnOk, IfSome};
ghost use Rattle.std.specs.List.{All, list_any};
ghost use Rattle.pb_choice_entries.specs.Clashes.{same_base};
ghost use Rattle.pb_core_language.specs.Sound.{is_small};
ghost use Rattle.pb_core_language.specs.Tree.{BranchTrees};
ghost use Rattle.pb_core_language.specs.Verdict.{IsIn};
ghost use Rattle.pb_core_flat.specs.Seated.{is_rank};
ghost use Rattle.pb_local.specs.Tree.{Program};
ghost use Rattle.pb_local.specs.WellMade.{IsRange, IsRelay};
ghost use Rattle.pb_project_piece.specs.Standing.{Stands, IsOpen};
ghost use Rattle.pb_shape.specs.Places.{Scope, Here};
ghost use Rattle.pb_shape.specs.Loops.{Around};
ghost use Rattle.pb_shape.specs.Choices.{Tests, Relays, is_told};
ghost use Rattle.pb_project_choice.specs.Found.{IsFoundIn, all_entries};
ghost use Rattle.pb_project_choice.specs.Sayable.{IsPlainLin, IsSayable};
ghost use Rattle.pb_project_choice.specs.Sources.{OneSource, same_source, source_at, is_from, is_listed, are_once};
ghost use Rattle.pb_project_choice.specs.Heard.{IsCutOut, AreOthers, AreStrangers, AddsHeard, IsHeard};
ghost use Rattle.pb_project_choice.specs.Relayed.{HaveCallers, IsRelayed, AreRelayed};

use crate::entries::Branch;
use crate::guards::guards_in;
use pb_affine::{Base, Lin};
use pb_choice_entries::agreement;
use pb_core_language::CoreEnd;
use pb_local::{Peer, Relay, Test};
use pb_part_areas::{Area, gather_all, one, without};
use pb_part_firsts::{Entry, Kind, Source};
use pb_part_takers::end_area;
use pb_project_piece::{Setting, is_somebody};
use pb_text::{LEAST_OFFSET, MOST_OFFSET, NoMemory};
use std::alloc::Global;

fn is_same_base(a: Base, b: Base) -> bool
    ensures { result ≡ same_base a b }
{
    match a {
        Base::Fixed => b == Base::Fixed,
        Base::Param => b == Base::Param,
        Base::Var => b == Base::Var,
    }
}

fn is_same(a: Source, b: Source) -> bool
    ensures { result ≡ same_source a b }
{
    a.role == b.role && is_same_base(a.at.base, b.at.base) && a.at.off == b.at.off
}

/// Adds the entries behind the others.
fn add_entries(list: &mut Vec<Entry>, entries: &[Entry]) -> Result<(), NoMemory>
    ensures { OnOk result (list.new.items ≡ list.old.items ++ entries.now) }
{
    for entry in entries {
        list.push(*entry)?;
    }
    Ok(())
}

/// The entries of all branches.
fn entries_of(alloc: Global, branches: &[Branch]) -> Result<Vec<Entry>, NoMemory>
    ensures { IfOk result (λ v. v.items ≡ all_entries branches.now) }
{
    let mut list = Vec::new(alloc);
    for branch in branches {
        add_entries(&mut list, &branch.entries)?;
    }
    Ok(list)
}

fn is_there(list: &[Source], source: Source) -> bool
    ensures { result ≡ is_listed source list.now }
{
    for other in list {
        if is_same(source, *other) {
            return true;
        }
    }
    false
}

#[tactic(auto, using(crate::proofs::Hearing::once_pushed))]
fn add_source(list: &mut Vec<Source>, source: Source) -> Result<(), NoMemory>
    ensures kept { OnOk result ((s : Source) → is_listed s list.old.items ≡ true → is_listed s list.new.items ≡ true) }
    ensures there { OnOk result (is_listed source list.new.items ≡ true) }
    ensures once { OnOk result (are_once list.old.items ≡ true → are_once list.new.items ≡ true) }
{
    if !is_there(list, source) {
        list.push(source)?;
    }
    Ok(())
}

fn add_source_of(list: &mut Vec<Source>, entry: Entry) -> Result<(), NoMemory>
    ensures kept { OnOk result ((s : Source) → is_listed s list.old.items ≡ true → is_listed s list.new.items ≡ true) }
    ensures there { OnOk result ((s : Source) → is_from s entry.kind ≡ true → is_listed s list.new.items ≡ true) }
    ensures once { OnOk result (are_once list.old.items ≡ true → are_once list.new.items ≡ true) }
{
    match entry.kind {
        Kind::Receive { from, .. } => add_source(list, from),
        Kind::Other => Ok(()),
        Kind::Again => Ok(()),
    }
}

/// The sources of the receives, each once.
fn sources_of(alloc: Global, entries: &[Entry]) -> Result<Vec<Source>, NoMemory>
    ensures there { IfOk result (λ v. (s : Source) → list_any (λ e. is_from s e.kind) entries.now ≡ true → is_listed s v.items ≡ true) }
    ensures once { IfOk result (λ v. are_once v.items ≡ true) }
{
    let mut list = Vec::new(alloc);
    for entry in entries {
        add_source_of(&mut list, *entry)?;
    }
    Ok(list)
}

fn is_plain_lin(lin: Lin) -> bool
    ensures { result ≡ true → IsPlainLin lin }
{
    lin.base != Base::Var && LEAST_OFFSET < lin.off && lin.off <= MOST_OFFSET
}

fn is_plain_until(until: Option<u32>) -> bool
    ensures { result ≡ true → IfSome until (λ n. n ≤ 1000000) }
{
    match until {
        None => true,
        Some(n) => n <= 1_000_000,
    }
}

fn are_plain_ends(a: Area) -> bool
    ensures { result ≡ true → IsPlainLin a.low × IsPlainLin a.end }
{
    is_plain_lin(a.low) && is_plain_lin(a.end)
}

fn is_early(a: Area) -> bool
    ensures { result ≡ true → (a.from ≤ 1000000) × IfSome a.until (λ n. n ≤ 1000000) }
{
    a.from <= 1_000_000 && is_plain_until(a.until)
}

/// Whether guards can say the area, whatever the other areas are.
#[tactic(auto, using(crate::proofs::Plain::plain_area))]
fn is_plain(a: Area) -> bool
    ensures { result ≡ true → IsSayable a }
{
    if are_plain_ends(a) {
        is_early(a)
    } else {
        false
    }
}

/// The areas without this one, as far as guards can say that.
fn cut_out(alloc: Global, list: Vec<Area>, area: Area) -> Result<Vec<Area>, NoMemory>
    ensures { IfOk result (λ v. IsCutOut list.items area v.items) }
{
    if is_plain(area) {
        let rest = without(alloc, list, &[area])?;
        Ok(rest)
    } else {
        Ok(list)
    }
}

fn source_at(chooser: CoreEnd) -> Source
    ensures { result ≡ source_at chooser }
{
    Source {
        role: chooser.role,
        at: chooser.at,
    }
}

/// The ranks of the area, but the chooser and those for which the source is the chooser, as far as guards can say that.
fn others(
    alloc: Global,
    chooser: CoreEnd,
    area: Area,
    source: Source,
) -> Result<Vec<Area>, NoMemory>
    ensures { IfOk result (λ v. AreOthers chooser area source v.items) }
{
    let from = source_at(chooser);
    let all = one(alloc, area)?;
    let left = cut_out(alloc, all, agreement(area, source, from))?;
    let rest = cut_out(alloc, left, end_area(chooser))?;
    Ok(rest)
}

fn is_of(kind: Kind, source: Source) -> bool
    ensures { result ≡ is_from source kind }
{
    match kind {
        Kind::Receive { from, .. } => is_same(source, from),
        Kind::Other => false,
        Kind::Again => false,
    }
}

/// Adds the others of an entry with this source.
fn add_heard(
    alloc: Global,
    chooser: CoreEnd,
    entry: Entry,
    source: Source,
    areas: &mut Vec<Area>,
) -> Result<(), NoMemory>
    ensures { OnOk result (AddsHeard chooser source entry areas.old.items areas.new.items) }
{
    if is_of(entry.kind, source) {
        let new = others(alloc, chooser, entry.area, source)?;
        gather_all(alloc, areas, &new)?;
    }
    Ok(())
}

/// The ranks that hear from this source, but the chooser and those for which the source is the chooser.
fn heard_from(
    alloc: Global,
    chooser: CoreEnd,
    entries: &[Entry],
    source: Source,
) -> Result<Vec<Area>, NoMemory>
    ensures { IfOk result (λ v. IsHeard chooser source entries.now v.items) }
{
    let mut areas = Vec::new(alloc);
    for entry in entries {
        add_heard(alloc, chooser, *entry, source, &mut areas)?;
    }
    Ok(areas)
}

/// The ranks of the area, but the chooser and those for which the source is the chooser, be there guards for them or not.
fn strangers_of(
    alloc: Global,
    chooser: CoreEnd,
    area: Area,
    source: Source,
) -> Result<Vec<Area>, NoMemory>
    ensures { IfOk result (λ v. AreStrangers chooser source (area ∷ []) v.items) }
{
    let from = source_at(chooser);
    let all = one(alloc, area)?;
    let left = without(alloc, all, &[agreement(area, source, from)])?;
    let rest = without(alloc, left, &[end_area(chooser)])?;
    Ok(rest)
}

/// Those of all the areas.
fn strangers(
    alloc: Global,
    chooser: CoreEnd,
    areas: &[Area],
    source: Source,
) -> Result<Vec<Area>, NoMemory>
    ensures { IfOk result (λ v. AreStrangers chooser source areas.now v.items) }
{
    let mut list = Vec::new(alloc);
    for area in areas {
        let more = strangers_of(alloc, chooser, *area, source)?;
        gather_all(alloc, &mut list, &more)?;
    }
    Ok(list)
}

/// Adds the relay of a source, unless the source is the chooser for each rank of which it would hold.
fn put_relay(
    alloc: Global,
    setting: &Setting,
    chooser: CoreEnd,
    entries: &[Entry],
    source: Source,
    relays: &mut Vec<Relay>,
) -> Result<(), NoMemory>
    ensures { OnOk result (IsRelayed setting.now.range setting.now.roles setting.now.whole.now chooser entries.now source relays.old.items relays.new.items) }
{
    let areas = heard_from(alloc, chooser, entries, source)?;
    let others = strangers(alloc, chooser, &areas, source)?;
    let there = is_somebody(alloc, setting, &others)?;
    if there {
        let guards = guards_in(alloc, &areas, setting.range, setting.roles)?;
        let from = Peer {
            role: source.role,
            at: source.at,
        };
        relays.push(Relay { guards, from })?;
    }
    Ok(())
}

/// Adds the relays of these sources.
fn put_relays(
    alloc: Global,
    setting: &Setting,
    chooser: CoreEnd,
    entries: &[Entry],
    sources: &[Source],
) -> Result<Vec<Relay>, NoMemory>
    ensures { IfOk result (λ v. AreRelayed setting.now.range setting.now.roles setting.now.whole.now chooser entries.now sources.now v.items) }
{
    let mut relays = Vec::new(alloc);
    for source in sources {
        put_relay(alloc, setting, chooser, entries, *source, &mut relays)?;
    }
    Ok(relays)
}

/// The relays of a choice with these tests, by what the ranks find first in each branch: who hears of it first from another
/// rank than the chooser. Each holds of somebody who is told and for whom it doesn't name the chooser. Where there are no tests,
/// nobody is told, and there are none.
pub fn relays_of(
    alloc: Global,
    setting: &Setting,
    chooser: CoreEnd,
    branches: &[Branch],
    tests: &[Test],
) -> Result<Vec<Relay>, NoMemory>
    ensures is { IfOk result (λ v. (sc : Scope) (h : Here) (a : Around) (bs : BranchTrees) → Stands setting.now.range setting.now.roles setting.now.whole.now sc → IsOpen h → IsRange setting.now.range →
        is_small chooser.at.off ≡ true → IsFoundIn sc a bs branches.now → OneSource sc a chooser bs → Tests sc h a bs tests.now → Relays sc a chooser bs v.items) }
    ensures each { IfOk result (λ v. (p : Program) (sc : Scope) (a : Around) (bs : BranchTrees) → Stands setting.now.range setting.now.roles setting.now.whole.now sc → IsRange setting.now.range →
        is_small chooser.at.off ≡ true → IsFoundIn sc a bs branches.now → OneSource sc a chooser bs → length p.roles ≡ setting.now.roles → All (IsRelay p) v.items) }
    ensures told { IfOk result (λ v. tests.now ≡ [] → v.items ≡ []) }
    ensures called { IfOk result (λ v. (sc : Scope) (a : Around) (bs : BranchTrees) (such : ℤ → ℕ → ℤ → Bool) → Stands setting.now.range setting.now.roles setting.now.whole.now sc → IsRange setting.now.range →
        is_small chooser.at.off ≡ true → IsFoundIn sc a bs branches.now → OneSource sc a chooser bs →
        ((k l : ℕ) (n : ℤ) (role : ℕ) (x : ℤ) → IsIn sc.range n → is_rank sc.roles n role x ≡ true → is_told sc a bs k l n (pos 0) role x ≡ true → such n role x ≡ true) → HaveCallers setting.now.range sc.roles such chooser v.items) }
{
    if tests.is_empty() {
        return Ok(Vec::new(alloc));
    }
    let entries = entries_of(alloc, branches)?;
    let sources = sources_of(alloc, &entries)?;
    let relays = put_relays(alloc, setting, chooser, &entries, &sources)?;
    Ok(relays)
}
