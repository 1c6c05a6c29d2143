ghost use Rattle.std.specs.Prelude.{◌≡◌, map};
ghost use Rattle.pb_do_syntax.specs.Names.{sub_at};
ghost use Rattle.pb_do_syntax.specs.Plain.{plain_sub};
ghost use Rattle.pb_do_faults.specs.Faults.{has_other_count, arity_in, arity_among};
ghost use Rattle.pb_do_faults.specs.Found.{first, body_calls};

use crate::call_site::{Body, CallSite};
use pb_do_syntax::Sub;
use pb_text::Place;

fn has_other_count(call: &CallSite, subs: &[Sub]) -> bool
    ensures { result ≡ has_other_count call.now.args (sub_at (map plain_sub subs.now) call.now.callee) }
{
    let Some(i) = call.callee else {
        return false;
    };
    match subs.get(i as usize) {
        Some(sub) => call.args != sub.params.len(),
        None => false,
    }
}

#[tactic(auto, using(crate::proofs::Firsts::first_here, crate::proofs::Firsts::first_later))]
fn first_wrong_arity_in(calls: &[CallSite], subs: &[Sub]) -> Option<Place>
    ensures { result ≡ first (arity_in (map plain_sub subs.now) calls.now) }
{
    for call in calls {
        if has_other_count(call, subs) {
            return Some(call.place);
        }
    }
    None
}

/// The place of the first call that has not as many arguments as its subprotocol has parameters, if there is one. Takes no
/// memory.
#[tactic(auto, using(crate::proofs::Firsts::first_here, crate::proofs::Firsts::first_later))]
pub fn first_wrong_arity(bodies: &[Body], subs: &[Sub]) -> Option<Place>
    ensures { result ≡ first (arity_among (map plain_sub subs.now) (map body_calls bodies.now)) }
{
    for body in bodies {
        let found = first_wrong_arity_in(&body.calls, subs);
        if found.is_some() {
            return found;
        }
    }
    None
}
