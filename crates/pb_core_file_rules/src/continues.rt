ghost use Rattle.std.specs.Prelude.{◌≡◌, ◌<◌, ◌+◌, ◌&&◌, if◌then◌else◌, [], ◌∷◌, map, drop, length};
ghost use Rattle.pb_syntax.specs.Plain.{plain_block, plain_statement};
ghost use Rattle.pb_syntax.specs.Tree.{statements_of, branches_of};
ghost use Rattle.pb_core_language.specs.FileRules.{is_nothing, astray_at, astray_in, astray_among};
ghost use Rattle.pb_core_language.specs.Names.{is_named};
ghost use Rattle.pb_core_file_rules.specs.Lowering.{first, names_of};

use crate::scope::Around;
use pb_syntax::{Block, Statement};
use pb_text::{Place, Spot};

/// The first `continue` in the block that isn't last in its own block, or stands in no loop of its name.
#[cycle(continues)]
#[tactic(auto, using(crate::proofs::Firsts::first_here, crate::proofs::Firsts::first_later))]
pub fn first_astray_in(block: &Block, loops: &Around) -> Option<Place>
    ensures { result ≡ first (astray_in (names_of loops.now) (plain_block block.now).list) }
{
    for (i, statement) in block.list.iter().enumerate() {
        match first_astray_at(statement, is_last(&block.list, i), loops) {
            Some(place) => return Some(place),
            None => {}
        }
    }
    None
}

#[cycle(continues)]
#[tactic(auto, using(crate::proofs::Firsts::first_here, crate::proofs::Firsts::first_later))]
fn first_astray_among(branches: &[Block], loops: &Around) -> Option<Place>
    ensures { result ≡ first (astray_among (names_of loops.now) (branches_of (map plain_block branches.now))) }
{
    for branch in branches {
        let found = first_astray_in(branch, loops);
        if found.is_some() {
            return found;
        }
    }
    None
}

#[cycle(continues)]
fn first_astray_at(statement: &Statement, is_last: bool, loops: &Around) -> Option<Place>
    ensures { result ≡ first (astray_at (names_of loops.now) is_last (plain_statement statement.now)) }
{
    match statement {
        Statement::Continue { place, name } => astray(*place, name, is_last, loops),
        Statement::Foreach { items, .. } => first_astray_in(items, loops),
        Statement::Rec { name, body, .. } => {
            first_astray_in(body, &Around::Inside(name.name, &*loops))
        }
        Statement::Choice { branches, .. } => first_astray_among(branches, loops),
        Statement::Message { .. }
        | Statement::Compute { .. }
        | Statement::Barrier { .. }
        | Statement::Broadcast { .. }
        | Statement::Reduce { .. }
        | Statement::Allreduce { .. } => None,
    }
}

fn astray(place: Place, name: &Spot, is_last: bool, loops: &Around) -> Option<Place>
    ensures { result ≡ first (if is_last && is_named name.now.name (names_of loops.now) then [] else place ∷ []) }
{
    if is_last && loops.has(&name.name) {
        None
    } else {
        Some(place)
    }
}

/// Whether no statement stands behind this one.
#[tactic(auto, using(crate::proofs::Firsts::none_left))]
pub fn is_last(list: &[Statement], i: usize) -> bool
    requires { i < length list.now }
    ensures { result ≡ is_nothing (statements_of (map plain_statement (drop (i + 1) list.now))) }
{
    list.len() == i + 1
}
