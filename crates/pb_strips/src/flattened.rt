ghost use Rattle.std.specs.Prelude.{◌≡◌, None, map, OnOk, IfOk, IfErr, MatchResult};
ghost use Rattle.pb_syntax.specs.Plain as flat;
ghost use Rattle.pb_strips_syntax.specs.Plain.{plain_file, plain_block};
ghost use Rattle.pb_strips_syntax.specs.Flattening.{flat_roles, flat_in, flat_file};
ghost use Rattle.pb_strips_faults.specs.Found.{HasNoFault};
ghost use Rattle.pb_strips_flatten.specs.Excess.{excess_of};
ghost use Rattle.pb_strips.specs.Flattened.{IsRefused};
ghost use Rattle.pb_strips.specs.Stopped.{IsExcess};
ghost use Rattle.pb_strips.specs.declared.fault.StripFault.TheVariants as fault;

use crate::fault::StripFault;
use pb_strips_faults::checked_strips;
use pb_strips_flatten::{flat_body, flat_roles};
use pb_strips_syntax::StripTree;
use pb_syntax::{Block, FileTree, RoleText, Statement};
use std::alloc::Global;

fn file_with(strips: &StripTree, roles: Vec<RoleText>, list: Vec<Statement>) -> FileTree
    requires flat_roles { roles.items ≡ flat_roles strips.now.roles.items }
    requires flat_list { map flat.plain_statement list.items ≡ flat_in (plain_block strips.now.body).list None }
    ensures { flat.plain_file result ≡ flat_file (plain_file strips.now) }
{
    FileTree {
        constant: strips.constant,
        low: strips.low,
        low_place: strips.low_place,
        high: strips.high,
        high_place: strips.high_place,
        protocol: strips.protocol,
        roles,
        body: Block {
            place: strips.body.place,
            list,
        },
    }
}

// The flat file of a file without faults, unless a limit is passed.
fn small_file(alloc: Global, strips: &StripTree) -> Result<FileTree, StripFault>
    requires { HasNoFault (plain_file strips.now) }
    ensures small { OnOk result (excess_of (plain_file strips.now) ≡ None) }
    ensures flat { IfOk result (λ file. flat.plain_file file ≡ flat_file (plain_file strips.now)) }
    ensures excess { IfErr result (λ e. IsExcess (plain_file strips.now) e) }
{
    let roles = flat_roles(alloc, &strips.roles)?;
    let list = flat_body(alloc, &strips.body)?;
    Ok(file_with(strips, roles, list))
}

// The flat file, if there is no fault and no limit is passed.
fn sound_file(alloc: Global, strips: &StripTree) -> Result<FileTree, StripFault>
    ensures sound { OnOk result (HasNoFault (plain_file strips.now)) }
    ensures small { OnOk result (excess_of (plain_file strips.now) ≡ None) }
    ensures flat { IfOk result (λ file. flat.plain_file file ≡ flat_file (plain_file strips.now)) }
    ensures refused { IfErr result (λ e. IsRefused (plain_file strips.now) e) }
{
    checked_strips(alloc, strips)?;
    small_file(alloc, strips)
}

/// The file in which each column of a strip is a role of its own, and each `columns` is its body once for each value of its
/// variable, ascending.
///
/// All else of the protocol stays. Each fault comes exactly where its variant says, and a file without faults that passes no
/// limit is never refused but for memory. The same as `sound_file`, with the clause `only`.
pub fn flatten(alloc: Global, strips: &StripTree) -> Result<FileTree, StripFault>
    ensures sound { OnOk result (HasNoFault (plain_file strips.now)) }
    ensures small { OnOk result (excess_of (plain_file strips.now) ≡ None) }
    ensures flat { IfOk result (λ file. flat.plain_file file ≡ flat_file (plain_file strips.now)) }
    ensures refused { IfErr result (λ e. IsRefused (plain_file strips.now) e) }
    ensures only { HasNoFault (plain_file strips.now) → excess_of (plain_file strips.now) ≡ None → MatchResult result (λ given. flat.plain_file given ≡ flat_file (plain_file strips.now)) (λ e. e ≡ fault.NoMemory) }
{
    sound_file(alloc, strips)
}
