ghost use Rattle.std.specs.Prelude.{◌≡◌, ◌<◌, ◌<ℤ◌, ◌≤ℤ◌, ◌+ℤ◌, pos, IfOk, IsErrOf, List, ◌∷◌, length};
ghost use Rattle.pb_cost_pieces.specs.declared.stretch.Stretch.{Stretch};
ghost use Rattle.pb_cost_pieces.specs.Lines.{joined, value_in, AreStretches};
ghost use Rattle.pb_cost_joins.specs.Counts.{IsCount, Says};
ghost use Rattle.pb_cost_joins.specs.Merging.{both_in, IsRead};

use crate::count::Count;
use crate::fault::CountFault;
use crate::merging::merge;
use pb_cost_pieces::{Builder, Join, NoMemory, Stretch};
use std::alloc::Global;

/// The most that a count changes by from one number to the next.
const MOST_WEIGHT: i64 = 4_100_000;

/// The sum, the least or the most of two counts over the same span, which weighs as much as both. `TooHeavy` comes exactly
/// where that is more than 4,100,000.
pub fn joined(alloc: Global, join: Join, a: &Count, b: &Count) -> Result<Count, CountFault>
    requires left { IsCount a.now }
    requires right { IsCount b.now }
    requires span { b.now.span ≡ a.now.span }
    ensures count { IfOk result IsCount }
    ensures says { IfOk result (λ c. Says c (λ n. joined join (value_in a.now.list.items n) (value_in b.now.list.items n))) }
    ensures span { IfOk result (λ c. c.span ≡ a.now.span) }
    ensures weight { IfOk result (λ c. c.weight ≡ a.now.weight +ℤ b.now.weight) }
    ensures heavy { IsErrOf result CountFault.TooHeavy → pos 4100000 <ℤ (a.now.weight +ℤ b.now.weight) }
{
    if a.weight + b.weight > MOST_WEIGHT {
        return Err(CountFault::TooHeavy);
    }
    match joined_light(alloc, join, a, b) {
        Ok(count) => Ok(count),
        Err(NoMemory) => Err(CountFault::NoMemory),
    }
}

/// Of two counts that aren't too heavy.
fn joined_light(alloc: Global, join: Join, a: &Count, b: &Count) -> Result<Count, NoMemory>
    requires left { IsCount a.now }
    requires right { IsCount b.now }
    requires span { b.now.span ≡ a.now.span }
    requires light { (a.now.weight +ℤ b.now.weight) ≤ℤ pos 4100000 }
    ensures count { IfOk result IsCount }
    ensures says { IfOk result (λ c. Says c (λ n. joined join (value_in a.now.list.items n) (value_in b.now.list.items n))) }
    ensures span { IfOk result (λ c. c.span ≡ a.now.span) }
    ensures weight { IfOk result (λ c. c.weight ≡ a.now.weight +ℤ b.now.weight) }
{
    let weight = weight_of(a, b);
    let list = joined_lists(alloc, join, a, b)?;
    Ok(Count {
        span: a.span,
        weight,
        list,
    })
}

/// How much both weigh.
fn weight_of(a: &Count, b: &Count) -> i64
    ensures { result ≡ a.now.weight +ℤ b.now.weight }
{
    a.weight + b.weight
}

/// The stretches of both joined.
fn joined_lists(alloc: Global, join: Join, a: &Count, b: &Count) -> Result<Vec<Stretch>, NoMemory>
    requires left { IsCount a.now }
    requires right { IsCount b.now }
    requires span { b.now.span ≡ a.now.span }
    requires light { (a.now.weight +ℤ b.now.weight) ≤ℤ pos 4100000 }
    ensures { IfOk result (λ list. AreStretches (both_in join a.now.list.items b.now.list.items) a.now.span.to a.now.span.from list.items) }
{
    let mut builder = first_number(alloc, join, a, b);
    merge(&mut builder, join, &a.list, &b.list)?;
    let list = builder.finish()?;
    Ok(list)
}

/// Both joined, at the first number.
fn first_number(alloc: Global, join: Join, a: &Count, b: &Count) -> Builder
    requires left { IsCount a.now }
    requires right { IsCount b.now }
    requires span { b.now.span ≡ a.now.span }
    requires light { (a.now.weight +ℤ b.now.weight) ≤ℤ pos 4100000 }
    ensures { IsRead join a.now.list.items b.now.list.items a.now.span.from a.now.span.to a.now.list.items b.now.list.items result.done.items result.latest }
{
    let value = join.of(first_value(a), first_value(b));
    Builder::begin(alloc, a.span.from, value)
}

/// What a count says of its first number.
fn first_value(count: &Count) -> i64
    requires { IsCount count.now }
    ensures { result ≡ value_in count.now.list.items count.now.span.from }
{
    let first = count.list[0];
    first.start
}
