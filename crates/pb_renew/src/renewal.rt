//! The text of a tree with the bodies of an old one, or why there is none.

ghost use Rattle.std.specs.Prelude.{◌≡◌, ◌<◌, [], IfErr, IfOk, length, true};
ghost use Rattle.pb_ctree.specs.Trees.{IsTree};
ghost use Rattle.pb_renew.specs.Reasons.{IsNoRenewal};
ghost use Rattle.pb_renew_merge.specs.Renewed.{IsRenewal};

use crate::unrenewed::Unrenewed;
use crate::{KernelFault, Wanted};
use pb_kernels::{KName, KernelFile, Kind};
use pb_renew_merge::{Renewed, renew_text};
use std::alloc::Global;

const PRELUDE: KName = KName {
    kind: Kind::Prelude,
    name: None,
};

/// What becomes of an OUT with these bytes.
#[tactic(auto, using(crate::proofs::Reasons::untexted, crate::proofs::Reasons::bodiless))]
pub fn renewal_of(alloc: Global, wanted: &Wanted, bytes: &[u8]) -> Result<Renewed, Unrenewed>
    requires { IsTree wanted.now.tree }
    ensures renewal { IfOk result (IsRenewal bytes.now wanted.now) }
    ensures fault { IfErr result (λ why. IsNoRenewal why bytes.now wanted.now) }
{
    match renew_text(alloc, wanted, bytes) {
        Ok(renewal) => {
            if has_no_body(bytes, &renewal.old) {
                Err(Unrenewed::Out(KernelFault::Missing(PRELUDE)))
            } else {
                Ok(renewal)
            }
        }
        Err(fault) => Err(Unrenewed::no_text(fault)),
    }
}

/// True where there are bytes, and no body among them.
#[tactic(auto, using(crate::proofs::Reasons::none_in))]
fn has_no_body(bytes: &[u8], file: &KernelFile) -> bool
    ensures some { result ≡ true → 0 < length bytes.now }
    ensures none { result ≡ true → file.now ≡ [] }
{
    !bytes.is_empty() && file.len() == 0
}
