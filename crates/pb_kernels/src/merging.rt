ghost use Rattle.std.specs.Prelude.{◌≡◌, ◌⊎◌, ◌++◌, None, Some, IfOk, OnOk, MatchResult};
ghost use Rattle.pb_local.specs.Tree.{program_of};
ghost use Rattle.pb_ctree.specs.Functions.{functions_of};
ghost use Rattle.pb_kernels.specs.Marks.{prelude_name};
ghost use Rattle.pb_kernels.specs.Names.{body_of};
ghost use Rattle.pb_kernels.specs.Merges.{first_missing, first_extra, has_place, misfit, bodies_of};
ghost use Rattle.pb_kernels.specs.declared.fault.KernelFault.TheVariants as faults;

use crate::file::same_name;
use crate::functions::Functions;
use crate::{Bodies, Body, CTree, KName, KernelFault, KernelFile, Kind, NoMemory};
use pb_ctree::functions;
use std::alloc::Global;

/// The bodies of a tree's text: for each function, in printed order, the file's body with its name, and the file's
/// prelude, which is empty where the file has none.
///
/// `Missing` names the first function in printed order that the file lacks, and else `Extra` the first name of the file
/// that the tree hasn't. `NoMemory` may come before either. The file is given up in every case.
pub fn merge(alloc: Global, tree: &CTree, file: KernelFile) -> Result<Bodies, KernelFault>
    ensures fits { MatchResult result (λ _. misfit (functions_of (program_of tree.now.local)) file ≡ None) (λ fault. (fault ≡ faults.NoMemory) ⊎ (misfit (functions_of (program_of tree.now.local)) file ≡ Some fault)) }
    ensures prelude { IfOk result (λ bodies. bodies.prelude ≡ body_of prelude_name file) }
    ensures list { IfOk result (λ bodies. bodies.list.items ≡ bodies_of (functions_of (program_of tree.now.local)) file) }
{
    merged(alloc, tree, &file)
}

fn merged(alloc: Global, tree: &CTree, file: &KernelFile) -> Result<Bodies, KernelFault>
    ensures fits { MatchResult result (λ _. misfit (functions_of (program_of tree.now.local)) file.now ≡ None) (λ fault. (fault ≡ faults.NoMemory) ⊎ (misfit (functions_of (program_of tree.now.local)) file.now ≡ Some fault)) }
    ensures prelude { IfOk result (λ bodies. bodies.prelude ≡ body_of prelude_name file.now) }
    ensures list { IfOk result (λ bodies. bodies.list.items ≡ bodies_of (functions_of (program_of tree.now.local)) file.now) }
{
    let functions = Functions::of(alloc, functions(alloc, tree)?)?;
    match misfit(&functions, file) {
        Some(fault) => Err(fault),
        None => Ok(bodies_of(alloc, functions.list(), file)?),
    }
}

/// The bodies of these functions in this order, and the file's prelude. A body that the file lacks is empty. The only error
/// is want of memory.
pub fn bodies_of(alloc: Global, functions: &[KName], file: &KernelFile) -> Result<Bodies, NoMemory>
    ensures prelude { IfOk result (λ bodies. bodies.prelude ≡ body_of prelude_name file.now) }
    ensures list { IfOk result (λ bodies. bodies.list.items ≡ bodies_of functions.now file.now) }
{
    let prelude = copy_body(alloc, file, &PRELUDE)?;
    let mut list = Vec::new(alloc);
    push_bodies(alloc, functions, file, &mut list)?;
    Ok(Bodies { prelude, list })
}

const PRELUDE: KName = KName {
    kind: Kind::Prelude,
    name: None,
};

fn misfit(functions: &Functions, file: &KernelFile) -> Option<KernelFault>
    ensures { result ≡ misfit functions.now file.now }
{
    match first_missing(functions.list(), file) {
        Some(name) => Some(KernelFault::Missing(name)),
        None => match first_extra(functions, file) {
            Some(name) => Some(KernelFault::Extra(name)),
            None => None,
        },
    }
}

fn first_missing(functions: &[KName], file: &KernelFile) -> Option<KName>
    ensures { result ≡ first_missing functions.now file.now }
{
    for function in functions {
        if !file.has(function) {
            return Some(*function);
        }
    }
    None
}

fn first_extra(functions: &Functions, file: &KernelFile) -> Option<KName>
    ensures { result ≡ first_extra functions.now file.now }
{
    for place in 0..file.len() {
        let name = file.name_at(place);
        if !has_place(functions, &name) {
            return Some(name);
        }
    }
    None
}

fn has_place(functions: &Functions, name: &KName) -> bool
    ensures { result ≡ has_place functions.now name.now }
{
    same_name(name, &PRELUDE) || functions.has(name)
}

fn push_bodies(
    alloc: Global,
    functions: &[KName],
    file: &KernelFile,
    out: &mut Vec<Body>,
) -> Result<(), NoMemory>
    ensures { OnOk result (out.new.items ≡ out.old.items ++ bodies_of functions.now file.now) }
{
    for function in functions {
        out.push(copy_body(alloc, file, function)?)?;
    }
    Ok(())
}

/// The file's body with this name; an empty one where the file lacks it.
fn copy_body(alloc: Global, file: &KernelFile, name: &KName) -> Result<Body, NoMemory>
    ensures { IfOk result (λ body. body ≡ body_of name.now file.now) }
{
    let mut bytes = Vec::new(alloc);
    bytes.extend_from_slice(file.bytes_of(name))?;
    match Body::of(bytes) {
        Some(body) => Ok(body),
        None => unreachable!(),
    }
}
