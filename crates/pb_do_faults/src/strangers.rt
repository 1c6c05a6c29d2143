ghost use Rattle.std.specs.Prelude.{◌≡◌, ◌++◌, [], map};
ghost use Rattle.pb_do_syntax.specs.Calls.{branches_of};
ghost use Rattle.pb_do_syntax.specs.Names.{names};
ghost use Rattle.pb_do_syntax.specs.Plain.{plain_block, plain_statement, plain_sub};
ghost use Rattle.pb_do_faults.specs.Strangers.{unless_known, all_unless_known, strangers_at, strangers_in, strangers_among, subs_strangers};
ghost use Rattle.pb_do_faults.specs.Found.{first, names_of};
ghost use Rattle.pb_do_inline.specs.Index.{param_lists};

use crate::around::Around;
use pb_do_syntax::{CallBlock, CallStatement, Sub};
use pb_syntax::End;
use pb_text::{Names, Place, Spot};

// The place of a name that isn't there.
#[tactic(auto, using(crate::proofs::Known::known, crate::proofs::Known::unknown))]
fn unless_known(spot: &Spot, known: &Names) -> Option<Place>
    ensures { result ≡ first (unless_known known.now spot.now) }
{
    match known.find(&spot.name) {
        Some(_) => None,
        None => Some(spot.place),
    }
}

fn unless_around(spot: &Spot, loops: &Around) -> Option<Place>
    ensures { result ≡ first (unless_known (names_of loops.now) spot.now) }
{
    if loops.has(&spot.name) {
        None
    } else {
        Some(spot.place)
    }
}

#[tactic(auto, using(crate::proofs::Firsts::first_here, crate::proofs::Firsts::first_later))]
fn unless_both_known(from: &End, to: &End, known: &Names) -> Option<Place>
    ensures { result ≡ first (unless_known known.now from.now.role ++ unless_known known.now to.now.role) }
{
    let found = unless_known(&from.role, known);
    if found.is_some() {
        return found;
    }
    unless_known(&to.role, known)
}

#[tactic(auto, using(crate::proofs::Firsts::first_here, crate::proofs::Firsts::first_later))]
fn unless_all_known(spots: &[Spot], known: &Names) -> Option<Place>
    ensures { result ≡ first (all_unless_known known.now spots.now) }
{
    for spot in spots {
        let found = unless_known(spot, known);
        if found.is_some() {
            return found;
        }
    }
    None
}

#[cycle(strangers)]
#[tactic(auto, using(crate::proofs::Firsts::first_here, crate::proofs::Firsts::first_later))]
fn first_stranger_in(block: &CallBlock, params: &Names, loops: &Around) -> Option<Place>
    ensures { result ≡ first (strangers_in params.now (names_of loops.now) (plain_block block.now).list) }
{
    for statement in &block.list {
        let found = first_stranger_at(statement, params, loops);
        if found.is_some() {
            return found;
        }
    }
    None
}

#[cycle(strangers)]
#[tactic(auto, using(crate::proofs::Firsts::first_here, crate::proofs::Firsts::first_later))]
fn first_stranger_among(branches: &[CallBlock], params: &Names, loops: &Around) -> Option<Place>
    ensures { result ≡ first (strangers_among params.now (names_of loops.now) (branches_of (map plain_block branches.now))) }
{
    for branch in branches {
        let found = first_stranger_in(branch, params, loops);
        if found.is_some() {
            return found;
        }
    }
    None
}

#[cycle(strangers)]
#[tactic(auto, using(crate::proofs::Firsts::first_here, crate::proofs::Firsts::first_later))]
fn first_stranger_of_choice(
    at: &End,
    branches: &[CallBlock],
    params: &Names,
    loops: &Around,
) -> Option<Place>
    ensures { result ≡ first (unless_known params.now at.now.role ++ strangers_among params.now (names_of loops.now) (branches_of (map plain_block branches.now))) }
{
    let found = unless_known(&at.role, params);
    if found.is_some() {
        return found;
    }
    first_stranger_among(branches, params, loops)
}

#[cycle(strangers)]
fn first_stranger_at(statement: &CallStatement, params: &Names, loops: &Around) -> Option<Place>
    ensures { result ≡ first (strangers_at params.now (names_of loops.now) (plain_statement statement.now)) }
{
    match statement {
        CallStatement::Do { args, .. } => unless_all_known(args, params),
        CallStatement::Foreach { items, .. } => first_stranger_in(items, params, loops),
        CallStatement::Rec { name, body, .. } => {
            first_stranger_in(body, params, &Around::Inside(name.name, &*loops))
        }
        CallStatement::Choice { at, branches, .. } => {
            first_stranger_of_choice(at, branches, params, loops)
        }
        CallStatement::Message { from, to, .. } => unless_both_known(from, to, params),
        CallStatement::Continue { name, .. } => unless_around(name, loops),
        CallStatement::Compute { at, .. } => unless_known(&at.role, params),
        CallStatement::Broadcast { from, .. } => unless_known(&from.role, params),
        CallStatement::Reduce { to, .. } => unless_known(&to.role, params),
        CallStatement::Barrier { .. } | CallStatement::Allreduce { .. } => None,
    }
}

fn first_stranger_of(sub: &Sub, params: &Names) -> Option<Place>
    ensures { result ≡ first (strangers_in params.now [] (plain_sub sub.now).body.list) }
{
    first_stranger_in(&sub.body, params, &Around::Nothing)
}

/// The place of the first name in a subprotocol that stands for no role or no loop there, if there is one. Takes no memory.
///
/// `params` has a table of the parameters of each subprotocol.
#[tactic(auto, using(crate::proofs::Known::as_many))]
pub fn first_stranger(subs: &[Sub], params: &[Names]) -> Option<Place>
    requires { params.now ≡ param_lists (map plain_sub subs.now) }
    ensures { result ≡ first (subs_strangers (map plain_sub subs.now)) }
{
    for i in 0..subs.len() {
        let found = first_stranger_of(&subs[i], &params[i]);
        if found.is_some() {
            return found;
        }
    }
    None
}
