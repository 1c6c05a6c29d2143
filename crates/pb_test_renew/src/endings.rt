//! How a renewing ends over a store of which some calls fail.

ghost use Rattle.pb_ctree.specs.Trees.{IsTree};

use crate::files::{K, L, has_part, joined, renew, store_of};
use pb_renew::{Losing, Unrenewed, Wanted};
use pb_renew_store::MemStore;
use std::alloc::Global;
use std::test::Fail;

/// An ending.
#[derive(Clone, Copy)]
pub enum Ending {
    /// OUT is renewed: each body that it had stands in it or in OUT.left, which has those that are gone behind what it had.
    Done,
    /// OUT isn't renewed, and both files are as they were.
    Refused,
    /// It is told that OUT is as it was, and that OUT.left has the bodies that are gone behind what it had; and so it is.
    Halfway,
    /// None of these.
    Astray,
}

/// The ending of renewing an OUT with K and L by a text, where the calls with these numbers fail.
///
/// `gone` are the bodies that are to go to OUT.left, and `before` is what that has; None where it isn't there.
pub fn ending_of(
    alloc: Global,
    wanted: &Wanted,
    gone: &[u8],
    before: Option<&[u8]>,
    fails: Vec<u64>,
) -> Result<Ending, Fail>
    requires { IsTree wanted.now.tree }
{
    let text = joined(alloc, K, L)?;
    let more = joined(alloc, before.unwrap_or_default(), gone)?;
    let mut store = store_of(alloc, &text, before, fails)?;
    let renewed = renew(alloc, &mut store, wanted, "o.c", Losing::Refused);
    let left = store.bytes_of("o.c.left");
    let is_more = if gone.is_empty() {
        left == before
    } else {
        left == Some(more.as_slice())
    };
    if store.bytes_of("o.c") == Some(text.as_slice()) {
        Ok(unrenewed(&renewed, left == before, is_more))
    } else if renewed.is_ok() && is_more && has_body(&store, K) && has_body(&store, L) {
        Ok(Ending::Done)
    } else {
        Ok(Ending::Astray)
    }
}

/// The ending where OUT is as it was.
fn unrenewed(renewed: &Result<(), Unrenewed>, is_same: bool, is_more: bool) -> Ending {
    match renewed {
        Ok(()) => Ending::Astray,
        Err(Unrenewed::Halfway) if is_more => Ending::Halfway,
        Err(Unrenewed::Halfway) => Ending::Astray,
        Err(_) if is_same => Ending::Refused,
        Err(_) => Ending::Astray,
    }
}

/// True where a body stands in OUT or in OUT.left.
fn has_body(store: &MemStore, body: &[u8]) -> bool {
    has_part(store.bytes_of("o.c"), body) || has_part(store.bytes_of("o.c.left"), body)
}

/// The endings where so many calls fail: from each of the first 80 on.
pub fn endings(
    alloc: Global,
    wanted: &Wanted,
    gone: &[u8],
    before: Option<&[u8]>,
    count: u64,
) -> Result<Vec<Ending>, Fail>
    requires { IsTree wanted.now.tree }
{
    let mut list = Vec::new(alloc);
    for first in 0_u64..80 {
        let fails = (first..first.saturating_add(count)).collect(alloc)?;
        list.push(ending_of(alloc, wanted, gone, before, fails)?)?;
    }
    Ok(list)
}

/// The endings where this call fails, and another one behind it: each up to the 60th.
pub fn endings_of_two(
    alloc: Global,
    wanted: &Wanted,
    gone: &[u8],
    before: Option<&[u8]>,
    first: u64,
) -> Result<Vec<Ending>, Fail>
    requires { IsTree wanted.now.tree }
{
    let mut list = Vec::new(alloc);
    for second in first..60 {
        let fails = [first, second].to_vec(alloc)?;
        list.push(ending_of(alloc, wanted, gone, before, fails)?)?;
    }
    Ok(list)
}

/// How many of the endings are this one.
pub fn count_of(endings: &[Ending], wanted: Ending) -> usize {
    endings.iter().filter(|it| **it == wanted).count()
}

/// The place of the first of these endings.
pub fn place_of(endings: &[Ending], wanted: Ending) -> Option<usize> {
    endings.iter().position(|it| *it == wanted)
}
