ghost use Rattle.std.specs.Prelude.{◌≡◌, ◌<ℤ◌, ◌≤ℤ◌, ◌+ℤ◌, pos, negsuc, IfOk, OnOk};
ghost use Rattle.std.specs.Int.{int_max};
ghost use Rattle.pb_cost_pieces.specs.Lines.{AreStretches};
ghost use Rattle.pb_cost_joins.specs.Counts.{IsCount, Says};
ghost use Rattle.pb_cost_joins.specs.Clipped.{clipped, IsBegun, IsClipped, IsMild};
ghost use Rattle.pb_cost_joins.specs.Adding.{Added};

use crate::adding::add_lines;
use crate::count::Count;
use crate::line::Line;
use crate::span::Span;
use pb_cost_pieces::{Builder, Join, NoMemory, Ray, Stretch};
use std::alloc::Global;

/// The line that begins at the span's first number, with 0 where it is below 0.
pub fn clipped(alloc: Global, span: Span, line: Line) -> Result<Count, NoMemory>
    requires { IsMild span line }
    ensures count { IfOk result IsCount }
    ensures says { IfOk result (λ c. Says c (clipped span line)) }
    ensures span { IfOk result (λ c. c.span ≡ span) }
    ensures weight { IfOk result (λ c. c.weight ≡ line.weight) }
{
    let list = clipped_list(alloc, span, line)?;
    Ok(Count {
        span,
        weight: line.weight,
        list,
    })
}

/// Its stretches.
fn clipped_list(alloc: Global, span: Span, line: Line) -> Result<Vec<Stretch>, NoMemory>
    requires { IsMild span line }
    ensures { IfOk result (λ list. AreStretches (clipped span line) span.to span.from list.items) }
{
    let builder = clipped_builder(alloc, span, line)?;
    let list = builder.finish()?;
    Ok(list)
}

/// All numbers of the span.
fn clipped_builder(alloc: Global, span: Span, line: Line) -> Result<Builder, NoMemory>
    requires { IsMild span line }
    ensures { IfOk result (λ builder. IsClipped span line builder.done.items builder.latest) }
{
    let mut builder = first_clipped(alloc, span, line);
    if span.from < span.to {
        add_rest(&mut builder, span, line)?;
        return Ok(builder);
    }
    Ok(builder)
}

/// The first number of the span.
fn first_clipped(alloc: Global, span: Span, line: Line) -> Builder
    requires { IsMild span line }
    ensures { IsBegun span line result.done.items result.latest }
{
    Builder::begin(alloc, span.from, start_of(line))
}

/// The line's first number, or 0 where it is below 0.
fn start_of(line: Line) -> i64
    ensures { result ≡ int_max line.ray.start (pos 0) }
{
    line.ray.start.max(0)
}

/// The numbers of the span behind the first one.
fn add_rest(builder: &mut Builder, span: Span, line: Line) -> Result<(), NoMemory>
    requires mild { IsMild span line }
    requires some { span.from <ℤ span.to }
    requires begun { IsBegun span line builder.old.done.items builder.old.latest }
    ensures { OnOk result (Added (clipped span line) span.to builder.old.done.items builder.old.latest builder.new.done.items builder.new.latest) }
{
    let rest = behind_first(span);
    let zero = zero();
    let behind = behind(line);
    add_lines(builder, Join::Most, zero, behind, rest)?;
    Ok(())
}

/// Nothing, for each number.
fn zero() -> Ray
    ensures start { result.start ≡ pos 0 }
    ensures slope { result.slope ≡ pos 0 }
{
    Ray { start: 0, slope: 0 }
}

/// The line from its next number on.
fn behind(line: Line) -> Ray
    requires low { negsuc 3999999999999999999 ≤ℤ (line.ray.start +ℤ line.ray.slope) }
    requires high { (line.ray.start +ℤ line.ray.slope) ≤ℤ pos 4000000000000000000 }
    ensures start { result.start ≡ line.ray.start +ℤ line.ray.slope }
    ensures slope { result.slope ≡ line.ray.slope }
{
    Ray {
        start: line.ray.start + line.ray.slope,
        slope: line.ray.slope,
    }
}

/// The span without its first number.
fn behind_first(span: Span) -> Span
    requires { span.from <ℤ span.to }
    ensures from { result.from ≡ span.from +ℤ pos 1 }
    ensures to { result.to ≡ span.to }
{
    Span {
        from: span.from + 1,
        to: span.to,
    }
}
