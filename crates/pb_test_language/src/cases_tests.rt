ghost use Rattle.std.specs.Prelude.{◌≡◌, ◌≢◌, ◌<◌, ◌≤◌, pos, length, true, IfOk, OnOk};
ghost use Rattle.std.specs.List.{All, Contains};
ghost use Rattle.pb_affine.specs.declared.lin.Base.TheVariants.{Var};
ghost use Rattle.pb_affine.specs.Values.{is_up_to, IsSmall, IsSmallGuard};
ghost use Rattle.pb_cases.specs.Breakpoints.{IsCut};
ghost use Rattle.pb_cases.specs.Bounds.{after, IsAligned, IsEdgeIf};
ghost use Rattle.pb_cases.specs.Tested.{IsInner};

use crate::columns::{pair, word};
use pb_affine::{Base, Guard, Lin, NRange};
use pb_cases::{Bad, CaseFault, Cases, NoMemory};
use std::alloc::Global;

fn cut_of(base: Base, offset: i8) -> Lin
    requires { base ≢ Var }
    ensures { IsInner result }
{
    Lin {
        base,
        off: i32::from(offset),
    }
}

fn push_cut(list: &mut Vec<Lin>, base: Base, offset: i8) -> Result<(), NoMemory>
    requires base { base ≢ Var }
    requires old { All IsInner list.old.items }
    ensures { OnOk result (All IsInner list.new.items) }
{
    let cut = cut_of(base, offset);
    list.push(cut)?;
    Ok(())
}

/// Adds the base with each offset.
fn push_all(list: &mut Vec<Lin>, base: Base, offsets: &[i8]) -> Result<(), NoMemory>
    requires base { base ≢ Var }
    requires old { All IsInner list.old.items }
    ensures { OnOk result (All IsInner list.new.items) }
{
    for offset in offsets {
        push_cut(list, base, *offset)?;
    }
    Ok(())
}

fn cuts_of(alloc: Global, fixed: &[i8], moving: &[i8]) -> Result<Vec<Lin>, NoMemory>
    ensures { IfOk result (λ v. All IsInner v.items) }
{
    let mut list = Vec::new(alloc);
    push_all(&mut list, Base::Fixed, fixed)?;
    push_all(&mut list, Base::Param, moving)?;
    Ok(list)
}

fn cases_of(alloc: Global, range: NRange, cuts: &[Lin]) -> Result<Cases, CaseFault>
    requires cuts { All IsInner cuts.now }
    requires some { is_up_to (pos range.low) range.high ≡ true }
    ensures { IfOk result (λ s. s.cuts ≡ cuts.now) }
{
    Cases::of(alloc, range, cuts)
}

/// A guard from the cut at place `low` up to below the cut at `next`, from the breakpoint at `from` up to below the one
/// at `to`, where there are such breakpoints.
#[derive(Clone, Copy)]
struct Row {
    role: u32,
    low: usize,
    next: usize,
    from: usize,
    to: usize,
}

fn from_at(cases: &Cases, place: usize) -> Option<u32>
    ensures { IsEdgeIf cases.now (pos 0) result }
{
    let breakpoints = cases.breakpoints();
    if place >= breakpoints.len() {
        return None;
    }
    u32::try_from(breakpoints[place]).ok()
}

fn to_below(cases: &Cases, place: usize) -> Option<u32>
    ensures { IsEdgeIf cases.now (pos 1) result }
{
    let breakpoints = cases.breakpoints();
    if place >= breakpoints.len() {
        return None;
    }
    u32::try_from(breakpoints[place] - 1).ok()
}

/// The lin that is one below.
fn one_below(next: Lin) -> Lin
    requires { IsInner next }
    ensures is { after result ≡ next }
    ensures small { IsSmall result.off }
{
    next.shift(-1)
}

fn guard_of(cases: &Cases, low: Lin, next: Lin, row: Row) -> Guard
    requires low_in { Contains cases.now.cuts low }
    requires next_in { Contains cases.now.cuts next }
    requires low { IsInner low }
    requires next { IsInner next }
    ensures aligned { IsAligned cases.now result }
    ensures small { IsSmallGuard result }
{
    let high = one_below(next);
    let from = from_at(cases, row.from);
    let to = to_below(cases, row.to);
    Guard {
        role: row.role,
        low: Some(low),
        high: Some(high),
        from,
        to,
    }
}

fn add_guard(list: &mut Vec<Guard>, cases: &Cases, cuts: &[Lin], row: Row) -> Result<(), NoMemory>
    requires cuts { cases.now.cuts ≡ cuts.now }
    requires inner { All IsInner cuts.now }
    requires aligned { All (IsAligned cases.now) list.old.items }
    requires small { All IsSmallGuard list.old.items }
    ensures aligned { OnOk result (All (IsAligned cases.now) list.new.items) }
    ensures small { OnOk result (All IsSmallGuard list.new.items) }
{
    if row.low >= cuts.len() || row.next >= cuts.len() {
        return Ok(());
    }
    let guard = guard_of(cases, cuts[row.low], cuts[row.next], row);
    list.push(guard)?;
    Ok(())
}

fn guards_of(
    alloc: Global,
    cases: &Cases,
    cuts: &[Lin],
    rows: &[Row],
) -> Result<Vec<Guard>, NoMemory>
    requires cuts { cases.now.cuts ≡ cuts.now }
    requires inner { All IsInner cuts.now }
    ensures aligned { IfOk result (λ v. All (IsAligned cases.now) v.items) }
    ensures small { IfOk result (λ v. All IsSmallGuard v.items) }
{
    let mut list = Vec::new(alloc);
    for row in rows {
        add_guard(&mut list, cases, cuts, *row)?;
    }
    Ok(list)
}

fn hold(guards: &[Guard], n: i64, role: u32, index: i64) -> bool
    requires { All IsSmallGuard guards.now }
{
    if n < -1_000 || n > 1_000 {
        return false;
    }
    for guard in guards {
        if guard.holds(n, 0, role, index) {
            return true;
        }
    }
    false
}

/// The first rank of a plain walk over N, role and index.
fn walked(low: u8, high: u8, meet: bool, a: &[Guard], b: &[Guard]) -> Option<Bad>
    requires a { All IsSmallGuard a.now }
    requires b { All IsSmallGuard b.now }
{
    for n in low..=high {
        for role in 0..3 {
            for index in -10..30 {
                let n = i64::from(n);
                if hold(a, n, role, index) && hold(b, n, role, index) == meet {
                    return Some(Bad { n, role, index });
                }
            }
        }
    }
    None
}

/// 0, 1, 5, 6, N - 3, N - 2, N - 1 and N, at places 0 to 7.
fn some_cuts(alloc: Global) -> Result<Vec<Lin>, NoMemory>
    ensures { IfOk result (λ v. All IsInner v.items) }
{
    cuts_of(alloc, &[0, 1, 5, 6], &[-3, -2, -1, 0])
}

/// A guard of role 0 for every N.
fn always(low: usize, next: usize) -> Row {
    Row {
        role: 0,
        low,
        next,
        from: 99,
        to: 99,
    }
}

/// The range from `low` on, which ends `more` above it where that is given.
fn range_of(low: u8, more: Option<u8>) -> NRange
    ensures { is_up_to (pos result.low) result.high ≡ true }
{
    NRange {
        low: u32::from(low),
        high: more.map(|more| u32::from(low) + u32::from(more)),
    }
}

/// Whether these are the breakpoints for N from `low` to `more` above it.
fn are_breakpoints(
    alloc: Global,
    low: u8,
    more: Option<u8>,
    want: &[i64],
) -> Result<bool, CaseFault> {
    let cuts = some_cuts(alloc)?;
    let cases = cases_of(alloc, range_of(low, more), &cuts)?;
    Ok(cases.breakpoints() == want)
}

#[test]
fn breakpoints(rt: HostRuntime) {
    let all = [2, 3, 4, 5, 6, 7, 8, 9, 10];
    assert!(rt; are_breakpoints(rt.alloc(), 2, None, &all) == Ok(true));
    assert!(rt; are_breakpoints(rt.alloc(), 4, Some(2), &[4, 5, 6]) == Ok(true));
    assert!(rt; are_breakpoints(rt.alloc(), 20, Some(0), &[20]) == Ok(true));
}

/// What the two questions answer.
#[derive(Clone, Copy)]
struct Answers {
    bad: Option<Bad>,
    meet: Option<Bad>,
}

fn both(alloc: Global, cases: &Cases, a: &[Guard], b: &[Guard]) -> Result<Answers, NoMemory>
    requires a { All (IsAligned cases.now) a.now }
    requires b { All (IsAligned cases.now) b.now }
    requires a_small { All IsSmallGuard a.now }
    requires b_small { All IsSmallGuard b.now }
{
    let bad = cases.first_bad(alloc, a, b)?;
    let meet = cases.first_meet(alloc, a, b)?;
    Ok(Answers { bad, meet })
}

fn both_of(
    alloc: Global,
    cases: &Cases,
    cuts: &[Lin],
    a: &[Row],
    b: &[Row],
) -> Result<Answers, NoMemory>
    requires cuts { cases.now.cuts ≡ cuts.now }
    requires inner { All IsInner cuts.now }
{
    let a = guards_of(alloc, cases, cuts, a)?;
    let b = guards_of(alloc, cases, cuts, b)?;
    both(alloc, cases, &a, &b)
}

/// What the questions on `a` and `b` answer, for N from `low` to `more` above it.
fn asked(
    alloc: Global,
    low: u8,
    more: Option<u8>,
    a: &[Row],
    b: &[Row],
) -> Result<Answers, CaseFault> {
    let cuts = some_cuts(alloc)?;
    let cases = cases_of(alloc, range_of(low, more), &cuts)?;
    Ok(both_of(alloc, &cases, &cuts, a, b)?)
}

/// The least N and how many more; for one guard in each list the places of the cuts at which it begins and ends; the first rank of
/// one that is not of the other, and the first of both, each by its N and index. Behind that may stand why.
const QUESTIONS: &str = "2 - 2 3 0 7 2 5 6 5 index 5 isn't there before N = 6
2 - 4 5 0 7 2 -1 3 0 N - 3 isn't there before N = 3
2 - 6 7 0 7 - - 2 1
2 - 2 3 4 5 2 5 8 5 they meet at N = 8 alone, which is inside a stretch of the role's own ends
9 - 2 3 4 5 9 5 - -
2 - 2 7 3 3 6 5 - - from 5 to N - 1: empty for N below 6
2 3 2 7 3 3 - - - -
4 0 4 5 2 3 4 1 - - one N
8 0 4 5 2 3 - - 8 5
20 - 0 7 0 3 20 6 20 0 the least index is the one past an end of a guard of the second list";

/// The guard between the cuts that a row names at this place and the next.
fn guard_at(row: &str, place: usize) -> Row {
    let low = word(row, place).parse().unwrap_or(99);
    let next = word(row, place.saturating_add(1)).parse().unwrap_or(99);
    always(low, next)
}

fn bad_at(row: &str, place: usize) -> Option<Bad> {
    let (n, index) = pair(row, place)?;
    Some(Bad { n, role: 0, index })
}

fn is_row_answered(alloc: Global, row: &str) -> Result<bool, CaseFault> {
    let low = word(row, 0).parse().unwrap_or(0);
    let more = word(row, 1).parse().ok();
    let answers = asked(alloc, low, more, &[guard_at(row, 2)], &[guard_at(row, 4)])?;
    Ok(answers.bad == bad_at(row, 6) && answers.meet == bad_at(row, 8))
}

#[test]
fn questions(rt: HostRuntime) {
    for row in QUESTIONS.lines() {
        assert!(rt; is_row_answered(rt.alloc(), row) == Ok(true), "{row}");
    }
}

/// One of many guards of two roles, by digits of the seed.
fn row_of(seed: u64) -> Row {
    Row {
        role: (seed % 2) as u32,
        low: (seed / 2 % 8) as usize,
        next: (seed / 16 % 8) as usize,
        from: (seed / 128 % 11) as usize,
        to: (seed / 1_408 % 13) as usize,
    }
}

/// The questions are answered as a plain walk answers them.
fn agree(alloc: Global, cases: &Cases, a: &[Guard], b: &[Guard]) -> Result<bool, NoMemory>
    requires a { All (IsAligned cases.now) a.now }
    requires b { All (IsAligned cases.now) b.now }
    requires a_small { All IsSmallGuard a.now }
    requires b_small { All IsSmallGuard b.now }
{
    let answers = both(alloc, cases, a, b)?;
    Ok(answers.bad == walked(2, 14, false, a, b) && answers.meet == walked(2, 14, true, a, b))
}

fn agree_at(alloc: Global, cases: &Cases, cuts: &[Lin], seed: u16) -> Result<bool, NoMemory>
    requires cuts { cases.now.cuts ≡ cuts.now }
    requires inner { All IsInner cuts.now }
{
    let seed = u64::from(seed);
    let a = guards_of(
        alloc,
        cases,
        cuts,
        &[row_of(seed * 7_919), row_of(seed * 104_729)],
    )?;
    let b = guards_of(
        alloc,
        cases,
        cuts,
        &[row_of(seed * 1_299_709), row_of(seed * 611_953)],
    )?;
    agree(alloc, cases, &a, &b)
}

/// The first seed whose guards a walk answers otherwise.
fn first_stray(alloc: Global, cases: &Cases, cuts: &[Lin]) -> Result<Option<u16>, NoMemory>
    requires cuts { cases.now.cuts ≡ cuts.now }
    requires inner { All IsInner cuts.now }
{
    for seed in 0..500 {
        if !agree_at(alloc, cases, cuts, seed)? {
            return Ok(Some(seed));
        }
    }
    Ok(None)
}

fn stray_of_some_cuts(alloc: Global) -> Result<Option<u16>, CaseFault> {
    let cuts = some_cuts(alloc)?;
    let cases = cases_of(alloc, range_of(2, Some(12)), &cuts)?;
    Ok(first_stray(alloc, &cases, &cuts)?)
}

#[test]
fn as_a_walk_answers(rt: HostRuntime) {
    assert!(rt; stray_of_some_cuts(rt.alloc()) == Ok(None));
}
