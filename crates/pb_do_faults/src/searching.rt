ghost use Rattle.std.specs.Prelude.{◌<◌, length, map, IfOk};
ghost use Rattle.pb_do_faults.specs.Cycles.{Reaches};
ghost use Rattle.pb_do_faults.specs.Search.{Tells};
ghost use Rattle.pb_do_faults.specs.Found.{body_calls};

use crate::call_site::Body;
use crate::reached::Reached;
use pb_text::NoMemory;
use std::alloc::Global;

/// Whether one subprotocol reaches another over calls. Each subprotocol is visited once at most.
pub fn reaches(alloc: Global, bodies: &[Body], from: usize, to: usize) -> Result<bool, NoMemory>
    requires { to < length bodies.now }
    ensures { IfOk result (λ b. Tells b (Reaches (map body_calls bodies.now) from to)) }
{
    let mut reached = Reached::none(alloc, bodies.len())?;
    reached.add(from)?;
    for next in 0..bodies.len() {
        if next >= reached.order.len() {
            return Ok(false);
        }
        let at = reached.order[next];
        if at == to {
            return Ok(true);
        }
        reached.visit(bodies, at)?;
    }
    Ok(false)
}
