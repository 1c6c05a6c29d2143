ghost use Rattle.std.specs.Prelude.{◌<◌, length, map, IfOk};
ghost use Rattle.pb_do_faults.specs.Cycles.{IsCycle, FirstCycleIn, FirstCycle};
ghost use Rattle.pb_do_faults.specs.Search.{Tells};
ghost use Rattle.pb_do_faults.specs.Found.{body_calls};

use crate::call_site::{Body, CallSite};
use crate::searching::reaches;
use pb_text::{NoMemory, Place};
use std::alloc::Global;

fn is_cycle(alloc: Global, bodies: &[Body], i: usize, call: &CallSite) -> Result<bool, NoMemory>
    requires { i < length bodies.now }
    ensures { IfOk result (λ b. Tells b (IsCycle (map body_calls bodies.now) i call.now)) }
{
    match call.callee {
        Some(callee) => reaches(alloc, bodies, callee as usize, i),
        None => Ok(false),
    }
}

fn first_cycle_in(
    alloc: Global,
    bodies: &[Body],
    i: usize,
    calls: &[CallSite],
) -> Result<Option<Place>, NoMemory>
    requires { i < length bodies.now }
    ensures { IfOk result (λ found. FirstCycleIn (map body_calls bodies.now) i calls.now found) }
{
    for call in calls {
        if is_cycle(alloc, bodies, i, call)? {
            return Ok(Some(call.place));
        }
    }
    Ok(None)
}

/// The place of the first call whose subprotocol reaches, over calls, the one that the call stands in, if there is one.
pub fn first_cycle(alloc: Global, bodies: &[Body]) -> Result<Option<Place>, NoMemory>
    ensures { IfOk result (λ found. FirstCycle (map body_calls bodies.now) found) }
{
    for i in 0..bodies.len() {
        let found = first_cycle_in(alloc, bodies, i, &bodies[i].calls)?;
        if found.is_some() {
            return Ok(found);
        }
    }
    Ok(None)
}
