//! Numbers that a builder goes on with, on which two lines are joined.

ghost use Rattle.std.specs.Prelude.{◌≡◌, ◌≤ℤ◌, ◌<ℤ◌, ◌+ℤ◌, pos, OnOk, Some};
ghost use Rattle.pb_cost_pieces.specs.Lines.{value_at};
ghost use Rattle.pb_cost_pieces.specs.Joined.{both, ray_at, switched};
ghost use Rattle.pb_cost_joins.specs.Adding.{GoesOn, Added, Continues, JoinsOn, IsKept, first_end};

use crate::span::Span;
use pb_cost_pieces::{Builder, Join, NoMemory, Ray, Stretch, Switch, least_of, most_of};

/// The numbers behind the latest one, up to the end of the stretch that ends first, with both stretches joined.
pub(crate) fn add_part(
    builder: &mut Builder,
    join: Join,
    s: &Stretch,
    t: &Stretch,
) -> Result<(), NoMemory>
    requires { Continues join builder.old.latest s.now t.now }
    ensures { OnOk result (JoinsOn join s.now t.now builder.old.done.items builder.old.latest builder.new.done.items builder.new.latest) }
{
    let to = end_of(s, t);
    if builder.latest.to < to {
        let span = Span {
            from: builder.latest.to + 1,
            to,
        };
        add_stretches(builder, join, s, t, span)?;
    }
    Ok(())
}

/// Where the first of the two ends.
fn end_of(s: &Stretch, t: &Stretch) -> i64
    ensures is { result ≡ first_end s.now t.now }
    ensures high { result ≤ℤ pos 900000000000 }
{
    s.to.min(t.to)
}

/// The numbers of the span, which both stretches have.
fn add_stretches(
    builder: &mut Builder,
    join: Join,
    s: &Stretch,
    t: &Stretch,
    span: Span,
) -> Result<(), NoMemory>
    requires continues { Continues join builder.old.latest s.now t.now }
    requires next { span.from ≡ builder.old.latest.to +ℤ pos 1 }
    requires to { span.to ≡ first_end s.now t.now }
    ensures { OnOk result (JoinsOn join s.now t.now builder.old.done.items builder.old.latest builder.new.done.items builder.new.latest) }
{
    let a = s.ray_at(span.from);
    let b = t.ray_at(span.from);
    add_lines(builder, join, a, b, span)?;
    Ok(())
}

/// The numbers of the span, on which two lines are joined.
pub(crate) fn add_lines(
    builder: &mut Builder,
    join: Join,
    a: Ray,
    b: Ray,
    span: Span,
) -> Result<(), NoMemory>
    requires { GoesOn (both join span.from a b) builder.old.latest span }
    ensures { OnOk result (Added (both join span.from a b) span.to builder.old.done.items builder.old.latest builder.new.done.items builder.new.latest) }
{
    match join {
        Join::Sum => add_sum(builder, a, b, span),
        Join::Least => add_least(builder, a, b, span),
        Join::Most => add_most(builder, a, b, span),
    }
}

/// The numbers of the span, on which two lines are added.
fn add_sum(builder: &mut Builder, a: Ray, b: Ray, span: Span) -> Result<(), NoMemory>
    requires { GoesOn (both Join.Sum span.from a b) builder.old.latest span }
    ensures { OnOk result (Added (both Join.Sum span.from a b) span.to builder.old.done.items builder.old.latest builder.new.done.items builder.new.latest) }
{
    let sum = sum_of(a, b);
    builder.add(span.to, sum.start, sum.slope)?;
    Ok(())
}

/// A line, however steep.
#[derive(Clone, Copy)]
struct Steep {
    start: i64,
    slope: i64,
}

/// The sum of two lines.
fn sum_of(a: Ray, b: Ray) -> Steep
    ensures start { result.start ≡ a.start +ℤ b.start }
    ensures slope { result.slope ≡ a.slope +ℤ b.slope }
{
    Steep {
        start: a.start + b.start,
        slope: a.slope + b.slope,
    }
}

/// The numbers of the span, with the least of two lines.
fn add_least(builder: &mut Builder, a: Ray, b: Ray, span: Span) -> Result<(), NoMemory>
    requires { GoesOn (both Join.Least span.from a b) builder.old.latest span }
    ensures { OnOk result (Added (both Join.Least span.from a b) span.to builder.old.done.items builder.old.latest builder.new.done.items builder.new.latest) }
{
    let switch = least_of(a, b);
    add_switch(builder, switch, span)?;
    Ok(())
}

/// The numbers of the span, with the most of two lines.
fn add_most(builder: &mut Builder, a: Ray, b: Ray, span: Span) -> Result<(), NoMemory>
    requires { GoesOn (both Join.Most span.from a b) builder.old.latest span }
    ensures { OnOk result (Added (both Join.Most span.from a b) span.to builder.old.done.items builder.old.latest builder.new.done.items builder.new.latest) }
{
    let switch = most_of(a, b);
    add_switch(builder, switch, span)?;
    Ok(())
}

/// The numbers of the span, on one line and then on another.
fn add_switch(builder: &mut Builder, switch: Switch, span: Span) -> Result<(), NoMemory>
    requires { GoesOn (switched switch.steps span.from switch.kept switch.other) builder.old.latest span }
    ensures { OnOk result (Added (switched switch.steps span.from switch.kept switch.other) span.to builder.old.done.items builder.old.latest builder.new.done.items builder.new.latest) }
{
    let part = kept_part(switch.steps, span);
    add_ray(builder, switch.kept, part)?;
    if part.to < span.to {
        let rest = behind(part, span);
        add_ray(builder, moved(switch.other, span, rest), rest)?;
    }
    Ok(())
}

/// The numbers of the span, on a line.
fn add_ray(builder: &mut Builder, ray: Ray, span: Span) -> Result<(), NoMemory>
    requires { GoesOn (ray_at ray span.from) builder.old.latest span }
    ensures added { OnOk result (Added (ray_at ray span.from) span.to builder.old.done.items builder.old.latest builder.new.done.items builder.new.latest) }
    ensures last { OnOk result (value_at builder.new.latest builder.new.latest.to ≡ ray_at ray span.from span.to) }
{
    builder.add(span.to, ray.start, ray.slope)?;
    Ok(())
}

/// The first numbers of the span, as far as they are at most so many behind the first one.
#[tactic(auto, using(crate::proofs::Parts::all_kept, crate::proofs::Parts::few_kept, crate::proofs::Parts::enough_kept))]
fn kept_part(steps: Option<u64>, span: Span) -> Span
    ensures { IsKept steps span result }
{
    match steps {
        None => span,
        Some(steps) => shortened(steps, span),
    }
}

/// The same where there are so many.
fn shortened(steps: u64, span: Span) -> Span
    ensures { IsKept (Some steps) span result }
{
    let length = length_of(span);
    if steps < length {
        return Span {
            from: span.from,
            to: span.from + steps as i64,
        };
    }
    span
}

/// How many numbers stand behind the first one.
fn length_of(span: Span) -> u64
    ensures { pos result +ℤ span.from ≡ span.to }
{
    (span.to - span.from) as u64
}

/// The numbers behind the part.
fn behind(part: Span, span: Span) -> Span
    requires { part.to <ℤ span.to }
    ensures from { result.from ≡ part.to +ℤ pos 1 }
    ensures to { result.to ≡ span.to }
{
    Span {
        from: part.to + 1,
        to: span.to,
    }
}

/// The line that begins at the span's first number, from the rest's first number on.
fn moved(ray: Ray, span: Span, rest: Span) -> Ray
    requires order { span.from ≤ℤ rest.from }
    requires low { pos 0 ≤ℤ ray_at ray span.from rest.from }
    requires high { ray_at ray span.from rest.from ≤ℤ pos 4000000000000000000 }
    ensures start { result.start ≡ ray_at ray span.from rest.from }
    ensures slope { result.slope ≡ ray.slope }
{
    Ray {
        start: start_at(ray, span, rest),
        slope: ray.slope,
    }
}

/// What the line that begins at the span's first number is at the rest's first number.
fn start_at(ray: Ray, span: Span, rest: Span) -> i64
    requires { span.from ≤ℤ rest.from }
    ensures { result ≡ ray_at ray span.from rest.from }
{
    ray.value_after(rest.from - span.from)
}
