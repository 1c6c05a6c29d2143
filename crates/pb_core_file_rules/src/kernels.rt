ghost use Rattle.std.specs.Prelude.{◌≡◌, ◌++◌, [], ◌∷◌, map, OnOk};
ghost use Rattle.pb_syntax.specs.Plain.{plain_block, plain_statement};
ghost use Rattle.pb_syntax.specs.Tree.{branches_of};
ghost use Rattle.pb_core_language.specs.Meaning.{kernels_at, kernels_in, kernels_among};
ghost use Rattle.pb_core_file_rules.specs.Tables.{kernel};

use pb_syntax::{Block, CoreKernel, KernelKind, NoMemory, Statement};
use pb_text::Spot;

fn push_kernel(name: &Spot, kind: KernelKind, out: &mut Vec<CoreKernel>) -> Result<(), NoMemory>
    ensures { OnOk result (out.new.items ≡ out.old.items ++ (kernel name.now kind ∷ [])) }
{
    let name = name.name;
    out.push(CoreKernel { name, kind })?;
    Ok(())
}

/// Adds the kernels of the block, in the order of the file.
#[cycle(kernels)]
pub fn add_kernels_in(block: &Block, out: &mut Vec<CoreKernel>) -> Result<(), NoMemory>
    ensures { OnOk result (out.new.items ≡ out.old.items ++ kernels_in (plain_block block.now).list) }
{
    for statement in &block.list {
        add_kernels_at(statement, out)?;
    }
    Ok(())
}

#[cycle(kernels)]
fn add_kernels_among(branches: &[Block], out: &mut Vec<CoreKernel>) -> Result<(), NoMemory>
    ensures { OnOk result (out.new.items ≡ out.old.items ++ kernels_among (branches_of (map plain_block branches.now))) }
{
    for branch in branches {
        add_kernels_in(branch, out)?;
    }
    Ok(())
}

#[cycle(kernels)]
fn add_kernels_at(statement: &Statement, out: &mut Vec<CoreKernel>) -> Result<(), NoMemory>
    ensures { OnOk result (out.new.items ≡ out.old.items ++ kernels_at (plain_statement statement.now)) }
{
    match statement {
        Statement::Choice {
            kernel,
            branches,
            ..
        } => {
            push_kernel(kernel, KernelKind::Choice, out)?;
            add_kernels_among(branches, out)
        }
        Statement::Compute { kernel, .. } => push_kernel(kernel, KernelKind::Compute, out),
        Statement::Foreach { items, .. } => add_kernels_in(items, out),
        Statement::Rec { body, .. } => add_kernels_in(body, out),
        Statement::Message { .. }
        | Statement::Continue { .. }
        | Statement::Barrier { .. }
        | Statement::Broadcast { .. }
        | Statement::Reduce { .. }
        | Statement::Allreduce { .. } => Ok(()),
    }
}
