ghost use Rattle.std.specs.Prelude.{◌≡◌, MatchResult};
ghost use Rattle.pb_ctree.specs.Texts.{Spells};
ghost use Rattle.pb_kernels.specs.declared.fault.KernelFault.TheVariants as faults;
ghost use Rattle.pb_kernels_laws.specs.Laws.{IsMerged, IsTextOfTree};

use pb_kernels::{Bodies, CTree, KernelFault, KernelFile, merge, read_kernels};
use std::alloc::Global;

/// The bodies of a text of this tree, read as a kernel file and merged into the tree: with them it has that text again.
/// The only fault is `NoMemory`.
pub fn own_bodies(alloc: Global, tree: &CTree, text: &[u8]) -> Result<Bodies, KernelFault>
    requires { IsTextOfTree tree.now text.now }
    ensures { MatchResult result (λ again. Spells tree.now again text.now) (λ fault. fault ≡ faults.NoMemory) }
{
    let file = match read_kernels(alloc, text) {
        Ok(file) => file,
        Err(fault) => return Err(fault),
    };
    merged(alloc, tree, file)
}

/// The same as `merge`, with its clauses as the relation of which the law speaks.
fn merged(alloc: Global, tree: &CTree, file: KernelFile) -> Result<Bodies, KernelFault>
    ensures { IsMerged tree.now file result }
{
    merge(alloc, tree, file)
}
