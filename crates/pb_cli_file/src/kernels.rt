//! The command `gen` with a kernel file.

ghost use Rattle.std.specs.Prelude.{◌≡◌, ◌⊎◌, Some, IfOk, IfErr, IsErrOf};
ghost use Rattle.pb_io.specs.Faults.{Rose};
ghost use Rattle.pb_io.specs.Files.{IsSureOf};
ghost use Rattle.pb_ctree.specs.Trees.{IsTree};
ghost use Rattle.pb_kernels.specs.declared.fault.KernelFault.TheVariants as faults;
ghost use Rattle.pb_cli_file.specs.Files.{Answers, IsAcceptedFile};
ghost use Rattle.pb_cli_file.specs.Kernels.{IsKernelFault, IsMergeReply, IsMergedText, IsTextWith, kernel_refusal, kind_of, misfit_of, told};

use crate::answer::Answer;
use crate::file::bytes_in;
use crate::tree::tree_in;
use pb_cli_status::{KernelKind, KernelWrong, Refusal};
use pb_compile::CTree;
use pb_cprint::print_c;
use pb_io::Folder;
use pb_kernels::{KName, KernelFault, KernelFile, Kind, NoMemory, merge, read_kernels};
use std::alloc::Global;

/// The C text of the protocol in a file, with the bodies of a kernel file of at most 1,048,576 bytes, or why there is none.
///
/// The kernel file is read only where the protocol is accepted.
#[tactic(auto, using(crate::proofs::Merged::denied, crate::proofs::Merged::unread, crate::proofs::Merged::made, crate::proofs::Merged::refused, crate::proofs::Merged::accepted, crate::proofs::Merged::not_unread))]
pub fn merged_answer<F: Folder>(
    alloc: Global,
    folder: &mut F,
    file: &str,
    kernels: &str,
) -> Result<Answer, Refusal>
    ensures reply { Answers result (IsMergeReply file.now kernels.now (F.holds folder.old)) }
    ensures fault { IsErrOf result Refusal.ReadFault → Rose (F.faults folder.old) (F.faults folder.new) }
    ensures sure { IsErrOf result Refusal.ReadFault → IsSureOf (F.steady folder.old) (F.holds folder.old) file.now
        → IsSureOf (F.steady folder.old) (F.holds folder.old) kernels.now → ⊥ }
    ensures late { IsErrOf result Refusal.ReadFault → IsSureOf (F.steady folder.old) (F.holds folder.old) file.now
        → IsAcceptedFile file.now (F.holds folder.old) }
{
    let tree = match tree_in(alloc, folder, file) {
        Ok(tree) => tree,
        Err(why) => return Err(why),
    };
    let bytes = match bytes_in(alloc, folder, kernels) {
        Ok(bytes) => bytes,
        Err(why) => return Err(why),
    };
    match merged_text(alloc, &tree, &bytes) {
        Ok(text) => Ok(Answer::Text(text)),
        Err(fault) => Err(kernel_refusal(fault)),
    }
}

/// The text of a tree with the bodies of a kernel file.
#[tactic(auto, using(crate::proofs::Merged::read_fault, crate::proofs::Merged::merge_faults, crate::proofs::Merged::merged))]
fn merged_text(alloc: Global, tree: &CTree, bytes: &[u8]) -> Result<Vec<u8>, KernelFault>
    requires { IsTree tree.now }
    ensures text { IfOk result (λ text. IsMergedText bytes.now tree.now text.items) }
    ensures fault { IfErr result (λ fault. (fault ≡ faults.NoMemory) ⊎ IsKernelFault bytes.now tree.now fault) }
{
    match read_kernels(alloc, bytes) {
        Ok(file) => text_with(alloc, tree, file),
        Err(fault) => Err(fault),
    }
}

/// The text of a tree with these bodies.
#[tactic(auto, using(crate::proofs::Merged::many, crate::proofs::Merged::with_bodies))]
fn text_with(alloc: Global, tree: &CTree, file: KernelFile) -> Result<Vec<u8>, KernelFault>
    requires { IsTree tree.now }
    ensures text { IfOk result (λ text. IsTextWith file tree.now text.items) }
    ensures fault { IfErr result (λ fault. (fault ≡ faults.NoMemory) ⊎ (misfit_of tree.now file ≡ Some fault)) }
{
    match merge(alloc, tree, file) {
        Ok(bodies) => match print_c(alloc, tree, &bodies) {
            Ok(text) => Ok(text),
            Err(NoMemory) => Err(KernelFault::NoMemory),
        },
        Err(fault) => Err(fault),
    }
}

/// The refusal that tells a fault of a kernel file.
fn kernel_refusal(fault: KernelFault) -> Refusal
    ensures { result ≡ kernel_refusal fault }
{
    match fault {
        KernelFault::BadMarker(line) => Refusal::KernelMarker(line),
        KernelFault::Twice(name) => told(name, KernelWrong::Twice),
        KernelFault::Missing(name) => told(name, KernelWrong::Missing),
        KernelFault::Extra(name) => told(name, KernelWrong::Extra),
        KernelFault::NoMemory => Refusal::NoMemory,
    }
}

/// What is told of a body.
fn told(name: KName, wrong: KernelWrong) -> Refusal
    ensures { result ≡ told name wrong }
{
    Refusal::Kernel {
        kind: kind_of(name.kind),
        name: name.name,
        wrong,
    }
}

fn kind_of(kind: Kind) -> KernelKind
    ensures { result ≡ kind_of kind }
{
    match kind {
        Kind::Prelude => KernelKind::Prelude,
        Kind::Compute => KernelKind::Compute,
        Kind::Choice => KernelKind::Choice,
        Kind::Make => KernelKind::Make,
        Kind::Take => KernelKind::Take,
        Kind::Room => KernelKind::Room,
    }
}
