ghost use Rattle.std.specs.Prelude.{◌≡◌, [], ◌∷◌};
ghost use Rattle.pb_affine.specs.Values.{IsNear};
ghost use Rattle.pb_rules.specs.Lines.{line_of, raised, IsShort};
ghost use Rattle.pb_rules.specs.Traps.{reach, still, alive, met_with, stray_trap, stray_traps, end_traps, alike_trap, alike_traps, message_traps, kept_all, IsFair, role_trap};

use crate::found::{Found, kept};
use crate::line::Line;
use crate::span::Span;
use crate::trap::{Moving, Trap};
use pb_affine::{Base, Lin, NRange};
use pb_core_language::{Bounds, CoreEnd, CoreRole, Place};

/// The indices of an end: the first and the last, which are one unless the end varies.
#[derive(Clone, Copy)]
pub struct Reach {
    pub varies: bool,
    pub first: Line,
    pub last: Line,
}

/// The range of N, and the roles.
#[derive(Clone, Copy)]
pub struct Setting<'a> {
    pub range: NRange,
    pub roles: &'a [CoreRole],
}

impl Reach {
    fn still(line: Line) -> Reach
        requires { IsShort line.off }
        ensures is { result ≡ still line }
        ensures first { IsShort result.first.off }
        ensures last { IsShort result.last.off }
    {
        Reach {
            varies: false,
            first: line,
            last: line,
        }
    }

    /// The indices of a lin in a foreach, or outside.
    fn of(at: Lin, over: Option<Bounds>) -> Reach
        ensures is { result ≡ reach over at }
        ensures first { IsShort result.first.off }
        ensures last { IsShort result.last.off }
    {
        match at.base {
            Base::Fixed | Base::Param => Reach::still(Line::of(at)),
            Base::Var => match over {
                None => Reach::still(Line::of(at)),
                Some(over) => Reach {
                    varies: true,
                    first: Line::of(over.low).raised(at.off),
                    last: Line::of(over.high).raised(at.off),
                },
            },
        }
    }

    // Where it can meet the other: both vary with one variable, and so meet at its first value if at any.
    fn met_with(self, other: Reach) -> Reach
        requires first { IsShort self.first.off }
        requires last { IsShort self.last.off }
        ensures is { result ≡ met_with self other }
        ensures first { IsShort result.first.off }
        ensures last { IsShort result.last.off }
    {
        if self.varies && other.varies {
            Reach {
                varies: self.varies,
                first: self.first,
                last: self.first,
            }
        } else {
            self
        }
    }
}

/// The N at which a foreach has a value, or all.
fn alive(range: NRange, over: Option<Bounds>) -> Span
    ensures is { result ≡ alive range over }
    ensures near { IsNear result.from }
{
    match over {
        None => Span::whole(range),
        Some(over) => Span::whole(range).at_most(Line::of(over.low), Line::of(over.high)),
    }
}

fn stray_trap(number: u64, end: &CoreEnd, index: Line, span: Span) -> Trap
    requires index { IsShort index.off }
    requires near { IsNear span.from }
    ensures is { result ≡ stray_trap number end.now index span }
    ensures fair { IsFair result }
{
    Trap {
        rule: 7,
        number,
        place: end.place,
        at: Some(Moving {
            role: end.role,
            index,
        }),
        span,
    }
}

// Whether the end leaves its role's range.
fn stray_kept(
    live: Span,
    number: u64,
    end: &CoreEnd,
    role: &CoreRole,
    reach: Reach,
    best: Option<Found>,
) -> Option<Found>
    requires near { IsNear live.from }
    requires first { IsShort reach.first.off }
    requires last { IsShort reach.last.off }
    ensures { result ≡ kept_all (stray_traps live number end.now (line_of role.now.low) (line_of role.now.high) reach) best }
{
    let low = Line::of(role.low);
    let high = Line::of(role.high);
    let behind = high.raised(1);
    let under = stray_trap(number, end, reach.first, live.below(reach.first, low));
    let above = stray_trap(number, end, reach.first, live.below(high, reach.first));
    let across = live
        .at_most(reach.first, behind)
        .at_most(behind, reach.last);
    let last = stray_trap(number, end, behind, across);
    kept(&last, kept(&above, kept(&under, best)))
}

/// The earlier of the best so far and the first breach of rule 7 at the end with this number.
pub fn end_kept(
    setting: &Setting,
    over: Option<Bounds>,
    number: u64,
    end: &CoreEnd,
    best: Option<Found>,
) -> Option<Found>
    ensures { result ≡ kept_all (end_traps setting.now.range setting.now.roles.now over number end.now) best }
{
    match setting.roles.get(end.role as usize) {
        None => best,
        Some(role) => {
            let live = alive(setting.range, over);
            stray_kept(live, number, end, role, Reach::of(end.at, over), best)
        }
    }
}

fn alike_trap(number: u32, place: Place, role: u32, index: Line, span: Span) -> Trap
    requires index { IsShort index.off }
    requires near { IsNear span.from }
    ensures is { result ≡ alike_trap (record { number = number; place = place }) role index span }
    ensures fair { IsFair result }
{
    Trap {
        rule: 8,
        number: u64::from(number),
        place,
        at: Some(Moving { role, index }),
        span,
    }
}

// Whether two ends of one role meet.
fn alike_kept(
    live: Span,
    number: u32,
    place: Place,
    role: u32,
    from: Reach,
    to: Reach,
    best: Option<Found>,
) -> Option<Found>
    requires near { IsNear live.from }
    requires from_first { IsShort from.first.off }
    requires from_last { IsShort from.last.off }
    requires to_first { IsShort to.first.off }
    requires to_last { IsShort to.last.off }
    ensures { result ≡ kept_all (alike_traps live (record { number = number; place = place }) role from to) best }
{
    let within_to = live
        .at_most(to.first, from.first)
        .at_most(from.first, to.last);
    let within_from = live
        .at_most(from.first, to.first)
        .at_most(to.first, from.last);
    let a = alike_trap(number, place, role, from.first, within_to);
    let b = alike_trap(number, place, role, to.first, within_from);
    kept(&b, kept(&a, best))
}

/// The earlier of the best so far and the first breach of rule 8 at the message.
pub fn message_kept(
    setting: &Setting,
    over: Option<Bounds>,
    number: u32,
    place: Place,
    from: &CoreEnd,
    to: &CoreEnd,
    best: Option<Found>,
) -> Option<Found>
    ensures { result ≡ kept_all (message_traps setting.now.range over (record { number = number; place = place }) from.now to.now) best }
{
    if from.role != to.role {
        return best;
    }
    let a = Reach::of(from.at, over);
    let b = Reach::of(to.at, over);
    let live = alive(setting.range, over);
    alike_kept(
        live,
        number,
        place,
        from.role,
        a.met_with(b),
        b.met_with(a),
        best,
    )
}

/// The earlier of the best so far and the first breach of rule 6 at the role with this number.
pub fn role_kept(range: NRange, number: u64, role: &CoreRole, best: Option<Found>) -> Option<Found>
    ensures { result ≡ kept_all (role_trap range number role.now ∷ []) best }
{
    let span = Span::whole(range).below(Line::of(role.high), Line::of(role.low));
    kept(&role_trap(number, role.place, span), best)
}

fn role_trap(number: u64, place: Place, span: Span) -> Trap
    requires { IsNear span.from }
    ensures is { result ≡ record { rule = 6; number = number; place = place; at = None; span = span } }
    ensures fair { IsFair result }
{
    Trap {
        rule: 6,
        number,
        place,
        at: None,
        span,
    }
}
