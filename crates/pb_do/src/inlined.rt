ghost use Rattle.std.specs.Prelude.{◌≡◌, map, OnOk, IfOk, IfErr, MatchResult};
ghost use Rattle.pb_syntax.specs.Tree.{PlainFile};
ghost use Rattle.pb_syntax.specs.Plain as flat;
ghost use Rattle.pb_do_syntax.specs.Plain.{plain_sub, plain_file};
ghost use Rattle.pb_do_syntax.specs.Inlining.{file_with, IsInlined};
ghost use Rattle.pb_do_inline.specs.Index.{IsIndex};
ghost use Rattle.pb_do_faults.specs.Found.{HasNoFault};
ghost use Rattle.pb_do.specs.Inlined.{IsExcess, IsRefused};
ghost use Rattle.pb_do.specs.declared.fault.DoFault.TheVariants as fault;

use crate::copies::copied_roles;
use crate::fault::DoFault;
use pb_do_faults::{Index, checked_calls};
use pb_do_inline::inlined_body;
use pb_do_syntax::CallTree;
use pb_syntax::{Block, FileTree, RoleText, Statement};
use std::alloc::Global;

fn file_with(calls: &CallTree, roles: Vec<RoleText>, list: Vec<Statement>) -> FileTree
    requires { roles.items ≡ calls.now.roles.items }
    ensures { flat.plain_file result ≡ file_with (plain_file calls.now) (map flat.plain_statement list.items) }
{
    FileTree {
        constant: calls.constant,
        low: calls.low,
        low_place: calls.low_place,
        high: calls.high,
        high_place: calls.high_place,
        protocol: calls.protocol,
        roles,
        body: Block {
            place: calls.body.place,
            list,
        },
    }
}

fn with_calls_replaced(alloc: Global, calls: &CallTree, index: &Index) -> Result<FileTree, DoFault>
    requires { IsIndex (map plain_sub calls.now.subs.items) index.now }
    ensures inlined { IfOk result (λ file. IsInlined (plain_file calls.now) (flat.plain_file file)) }
    ensures excess { IfErr result (λ e. IsExcess (plain_file calls.now) e) }
{
    let out = inlined_body(alloc, &calls.subs, index, &calls.body)?;
    let roles = copied_roles(alloc, &calls.roles)?;
    Ok(file_with(calls, roles, out.list))
}

// The file in which each call is replaced, where there is no fault.
fn sound_file(alloc: Global, calls: &CallTree) -> Result<FileTree, DoFault>
    ensures sound { OnOk result (HasNoFault (plain_file calls.now)) }
    ensures inlined { IfOk result (λ file. IsInlined (plain_file calls.now) (flat.plain_file file)) }
    ensures refused { IfErr result (λ e. IsRefused (plain_file calls.now) e) }
{
    let index = checked_calls(alloc, calls)?;
    with_calls_replaced(alloc, calls, &index)
}

/// The file in which each call is replaced by the statements of its subprotocol, arguments in place of parameters.
///
/// Loops keep their names, and all else of the protocol stays. Each fault comes exactly where its variant says, and a file
/// that has a result is never refused but for memory. The same as `sound_file`, with the clause `only`.
pub fn inline(alloc: Global, calls: &CallTree) -> Result<FileTree, DoFault>
    ensures sound { OnOk result (HasNoFault (plain_file calls.now)) }
    ensures inlined { IfOk result (λ file. IsInlined (plain_file calls.now) (flat.plain_file file)) }
    ensures refused { IfErr result (λ e. IsRefused (plain_file calls.now) e) }
    ensures only { HasNoFault (plain_file calls.now) → (file : PlainFile) → IsInlined (plain_file calls.now) file → MatchResult result (λ given. flat.plain_file given ≡ file) (λ e. e ≡ fault.NoMemory) }
{
    sound_file(alloc, calls)
}
