ghost use Rattle.std.specs.Prelude.{◌≡◌, ◌<◌, ◌≤◌, ◌∷◌, true, false, not, nat_eq, length, take, drop};
ghost use Rattle.std.specs.List.{prefix_len};
ghost use Rattle.pb_ctree.specs.Bodies.{is_rest};
ghost use Rattle.pb_kernels.specs.Files.{bodies_in, kernel_file, lines, first_len};
ghost use Rattle.pb_kernels.specs.Outcomes.{Gives};

use crate::reading::Reading;
use crate::{Dialect, KernelFault, KernelFile};
use std::alloc::Global;

/// The bodies of a kernel file of a plain text.
///
/// `BadMarker` and `Twice` name the first line at fault; a body that is never closed comes after all others.
/// `NoMemory` may come before either.
#[tactic(auto, unfolding(crate::specs::Files::kernel_file))]
pub fn read_kernels(alloc: Global, bytes: &[u8]) -> Result<KernelFile, KernelFault>
    ensures { Gives (kernel_file bytes.now) result }
{
    read_bodies(alloc, bytes, Dialect::Plain)
}

/// The bodies of a kernel file of this dialect.
///
/// `BadMarker` and `Twice` name the first line at fault; a body that is never closed comes after all others.
/// `NoMemory` may come before either.
pub fn read_bodies(alloc: Global, bytes: &[u8], dialect: Dialect) -> Result<KernelFile, KernelFault>
    ensures { Gives (bodies_in dialect bytes.now) result }
{
    let mut reading = Reading::new(alloc);
    let mut number: u32 = 1;
    let mut at = 0;
    while at < bytes.len() {
        let len = line_len(&bytes[at..]);
        reading.read(alloc, &bytes[at..at + len], dialect, number)?;
        number = number.saturating_add(1);
        at += len;
    }
    reading.finish()
}

/// The number of bytes of the first line, with its line feed. The same as `first_len`, with the clauses on lines.
fn line_len(bytes: &[u8]) -> usize
    requires { 0 < length bytes.now }
    ensures first { lines bytes.now ≡ take result bytes.now ∷ lines (drop result bytes.now) }
    ensures some { 0 < result }
    ensures within { result ≤ length bytes.now }
    ensures ends { result < length bytes.now → is_rest false (take result bytes.now) ≡ true }
{
    first_len(bytes)
}

fn first_len(bytes: &[u8]) -> usize
    ensures { result ≡ first_len bytes.now }
{
    (before_break(bytes) + 1).min(bytes.len())
}

fn before_break(bytes: &[u8]) -> usize
    ensures count { result ≡ prefix_len (λ byte. not (nat_eq byte 10)) bytes.now }
    ensures within { result ≤ length bytes.now }
{
    bytes.iter().take_while(|byte| **byte != b'\n').count()
}
