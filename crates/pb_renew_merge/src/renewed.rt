//! An old text and the text that renews it.

ghost use Rattle.std.specs.Prelude.{◌≡◌, ◌⊎◌, IfErr, IfOk};
ghost use Rattle.pb_ctree.specs.Trees.{IsTree};
ghost use Rattle.pb_kernels.specs.declared.fault.KernelFault.TheVariants as faults;
ghost use Rattle.pb_renew_merge.specs.Renewed.{IsRenewal, IsTextFault};

use crate::lost::lost_names;
use crate::reading::read_text;
use pb_kernels::{KName, KernelFault, KernelFile};
use pb_renew_text::{Wanted, wanted_text};
use std::alloc::Global;

/// What a text becomes.
#[derive(Drop)]
pub struct Renewed {
    /// The bodies of the old text.
    pub old: KernelFile,
    /// The new text.
    pub text: Vec<u8>,
    /// The bodies of the new text.
    pub kept: KernelFile,
    /// The names of the old bodies that the new text lacks, in their order.
    pub gone: Vec<KName>,
}

/// The text that is wanted, with each body of an old text that still has a function whose parameters allow it, and default bodies for
/// the other functions.
///
/// `BadMarker` and `Twice` say why the old text is no kernel file, or why the new one can't be read again. An empty old text has
/// no body. `NoMemory` may come in place of each.
#[tactic(auto, using(crate::proofs::Faults::no_file, crate::proofs::Faults::no_text))]
pub fn renew_text(alloc: Global, wanted: &Wanted, out: &[u8]) -> Result<Renewed, KernelFault>
    requires { IsTree wanted.now.tree }
    ensures renewal { IfOk result (IsRenewal out.now wanted.now) }
    ensures fault { IfErr result (λ fault. (fault ≡ faults.NoMemory) ⊎ IsTextFault out.now wanted.now fault) }
{
    let old = match read_text(alloc, out) {
        Ok(old) => old,
        Err(fault) => return Err(fault),
    };
    let text = wanted_text(alloc, wanted, &old)?;
    let kept = match read_text(alloc, &text) {
        Ok(kept) => kept,
        Err(fault) => return Err(fault),
    };
    let gone = lost_names(alloc, &old, &kept)?;
    Ok(Renewed {
        old,
        text,
        kept,
        gone,
    })
}
