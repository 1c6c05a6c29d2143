ghost use Rattle.std.specs.Prelude.{◌≡◌, map};
ghost use Rattle.pb_do_faults.specs.Faults.{unknown_in, unknown_among};
ghost use Rattle.pb_do_faults.specs.Found.{first, body_calls};

use crate::call_site::{Body, CallSite};
use pb_text::Place;

#[tactic(auto, using(crate::proofs::Firsts::first_here, crate::proofs::Firsts::first_later))]
fn first_unknown_in(calls: &[CallSite]) -> Option<Place>
    ensures { result ≡ first (unknown_in calls.now) }
{
    for call in calls {
        if call.callee.is_none() {
            return Some(call.place);
        }
    }
    None
}

/// The place of the first call that names no subprotocol, if there is one. Takes no memory.
#[tactic(auto, using(crate::proofs::Firsts::first_here, crate::proofs::Firsts::first_later))]
pub fn first_unknown(bodies: &[Body]) -> Option<Place>
    ensures { result ≡ first (unknown_among (map body_calls bodies.now)) }
{
    for body in bodies {
        let found = first_unknown_in(&body.calls);
        if found.is_some() {
            return found;
        }
    }
    None
}
