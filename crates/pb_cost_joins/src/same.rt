ghost use Rattle.std.specs.Prelude.{◌≡◌, ◌≤ℤ◌, pos, IfOk, [], ◌∷◌};
ghost use Rattle.pb_cost_joins.specs.Counts.{IsCount, Says};

use crate::count::Count;
use crate::span::Span;
use pb_cost_pieces::{NoMemory, Stretch};
use std::alloc::Global;

/// The same number everywhere.
pub fn constant(alloc: Global, span: Span, number: i64) -> Result<Count, NoMemory>
    requires low { pos 0 ≤ℤ number }
    requires high { number ≤ℤ pos 4100000 }
    ensures count { IfOk result IsCount }
    ensures says { IfOk result (λ c. Says c (λ n. number)) }
    ensures span { IfOk result (λ c. c.span ≡ span) }
    ensures weight { IfOk result (λ c. c.weight ≡ number) }
{
    let list = one(alloc, flat(span, number))?;
    Ok(Count {
        span,
        weight: number,
        list,
    })
}

/// The stretch of the whole span.
fn flat(span: Span, number: i64) -> Stretch
    requires low { pos 0 ≤ℤ number }
    requires high { number ≤ℤ pos 4100000 }
    ensures from { result.from ≡ span.from }
    ensures to { result.to ≡ span.to }
    ensures start { result.start ≡ number }
    ensures slope { result.slope ≡ pos 0 }
{
    Stretch {
        from: span.from,
        to: span.to,
        start: number,
        slope: 0,
    }
}

/// A stretch alone.
fn one(alloc: Global, stretch: Stretch) -> Result<Vec<Stretch>, NoMemory>
    ensures { IfOk result (λ list. list.items ≡ stretch ∷ []) }
{
    let mut list = Vec::new(alloc);
    list.push(stretch)?;
    Ok(list)
}
