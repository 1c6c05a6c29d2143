//! The bodies of a text.

ghost use Rattle.pb_kernels.specs.Files.{program_file};
ghost use Rattle.pb_kernels.specs.Outcomes.{Gives};

use pb_kernels::{Dialect, KernelFault, KernelFile, read_bodies};
use std::alloc::Global;

/// The bodies of a text, plain or with types: those of a plain one are read as they are of a kernel file.
#[tactic(auto, unfolding(pb_kernels::specs::Files::program_file))]
pub fn read_text(alloc: Global, bytes: &[u8]) -> Result<KernelFile, KernelFault>
    ensures { Gives (program_file bytes.now) result }
{
    read_bodies(alloc, bytes, Dialect::Program)
}
