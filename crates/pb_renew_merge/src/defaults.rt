//! Functions that nobody has filled in.

ghost use Rattle.std.specs.Prelude.{◌≡◌, ◌++◌, IfOk, IsTrue, OnOk};
ghost use Rattle.std.specs.List.{All};
ghost use Rattle.pb_ctree.specs.Trees.{IsTree};
ghost use Rattle.pb_local.specs.Names.{is_name};
ghost use Rattle.pb_typed_frame.specs.Functions.{Named};
ghost use Rattle.pb_renew_merge.specs.Defaults.{default_name, default_names, has_default};
ghost use Rattle.pb_renew_text.specs.Texts.{functions_of};

use pb_kernels::{KName, KernelFile, NoMemory};
use pb_renew_text::{Form, Function, Wanted, default_in, wanted_functions};
use pb_typed_frame::body_name;
use std::alloc::Global;

/// The functions of a text whose body in the file is the default one, in printed order.
pub fn default_names(
    alloc: Global,
    wanted: &Wanted,
    kept: &KernelFile,
) -> Result<Vec<KName>, NoMemory>
    requires { IsTree wanted.now.tree }
    ensures { IfOk result (λ list. list.items ≡ default_names wanted.now.form (functions_of wanted.now) kept.now) }
{
    let functions = wanted_functions(alloc, wanted)?;
    let mut list = Vec::new(alloc);
    push_defaults(alloc, &wanted.form, &functions, kept, &mut list)?;
    Ok(list)
}

fn push_defaults(
    alloc: Global,
    form: &Form,
    functions: &[Function],
    kept: &KernelFile,
    out: &mut Vec<KName>,
) -> Result<(), NoMemory>
    requires { All Named functions.now }
    ensures { OnOk result (out.new.items ≡ out.old.items ++ default_names form.now functions.now kept.now) }
{
    for function in functions {
        push_default(alloc, form, function, kept, out)?;
    }
    Ok(())
}

/// Appends the function's name, where its body is the default one.
fn push_default(
    alloc: Global,
    form: &Form,
    function: &Function,
    kept: &KernelFile,
    out: &mut Vec<KName>,
) -> Result<(), NoMemory>
    requires { IsTrue (is_name function.now.name) }
    ensures { OnOk result (out.new.items ≡ out.old.items ++ default_name form.now function.now kept.now) }
{
    let name = body_name(function);
    // The check learns here of which type a name's word is.
    let _word = &name.name;
    if has_default(alloc, form, function, kept)? {
        out.push(name)?;
    }
    Ok(())
}

fn has_default(
    alloc: Global,
    form: &Form,
    function: &Function,
    kept: &KernelFile,
) -> Result<bool, NoMemory>
    requires { IsTrue (is_name function.now.name) }
    ensures { IfOk result (λ is. is ≡ has_default form.now function.now kept.now) }
{
    let default = default_in(alloc, form, function)?;
    Ok(kept.bytes_of(&body_name(function)) == default.bytes())
}
