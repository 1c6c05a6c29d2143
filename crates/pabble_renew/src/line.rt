//! The line that tells why OUT isn't renewed.

ghost use Rattle.std.specs.Prelude.{◌≡◌};
ghost use Rattle.pb_cli_file.specs.Kernels.{kernel_refusal, kind_of, told};

use crate::fault::Fault;
use pb_cli_status::{KernelKind, KernelWrong, Refusal, refuse};
use pb_io::MemSink;
use pb_kernels::{KName, KernelFault, Kind};
use pb_renew::Unrenewed;
use pb_text::{NoMemory, push_number};
use std::alloc::Global;

/// The line where memory runs out.
pub const NO_MEMORY: &[u8] = b"pabble-renew: no memory\n";

/// How many bytes the line of a refusal has at most: that of a rule, with three numbers, a role of 64 bytes and its index, is the
/// longest.
const MOST_LINE: usize = 256;

/// How each line begins.
const FRONT: &[u8] = b"pabble-renew: ";

/// The line that tells a fault.
pub fn line_of(alloc: Global, fault: Fault) -> Result<Vec<u8>, NoMemory> {
    let mut line = Vec::new(alloc);
    match fault {
        Fault::Usage => push(&mut line, USAGE)?,
        Fault::Written => push(&mut line, b"pabble-renew: usage: FILE would be written\n")?,
        Fault::NoMemory => push(&mut line, NO_MEMORY)?,
        Fault::NoFile => push(&mut line, NO_FILE)?,
        Fault::File(refusal) => push_refusal(alloc, &mut line, FRONT, refusal)?,
        Fault::Out(why) => push_unrenewed(alloc, &mut line, why)?,
    }
    Ok(line)
}

const USAGE: &[u8] = b"pabble-renew: usage: pabble-renew [--force] [--dry-run] FILE OUT\n";

const NO_FILE: &[u8] = b"pabble-renew: no regular file\n";

/// Appends why OUT can't be renewed.
fn push_unrenewed(alloc: Global, line: &mut Vec<u8>, why: Unrenewed) -> Result<(), NoMemory> {
    match why {
        Unrenewed::ReadFault => push_refusal(alloc, line, FRONT, Refusal::ReadFault),
        Unrenewed::NoFile => push(line, NO_FILE),
        Unrenewed::Shared => push(line, b"pabble-renew: more than one name\n"),
        Unrenewed::TooLong => push_refusal(alloc, line, FRONT, Refusal::FileBytes),
        Unrenewed::NoMemory => push(line, NO_MEMORY),
        Unrenewed::Indented(at) => push_line(
            line,
            b"pabble-renew: indented marker at line ",
            at,
            b"\n",
        ),
        Unrenewed::Out(KernelFault::Missing(_)) => push(line, b"pabble-renew: no kernels\n"),
        Unrenewed::Out(fault) => push_refusal(alloc, line, FRONT, kernel_refusal(fault)),
        Unrenewed::Outside(at) => push_line(
            line,
            b"pabble-renew: line ",
            at,
            b" is outside of bodies\n",
        ),
        Unrenewed::LeftIndented(at) => {
            push_line(
                line,
                b"pabble-renew: left: indented marker at line ",
                at,
                b"\n",
            )
        }
        Unrenewed::Left(fault) => {
            push_refusal(alloc, line, b"pabble-renew: left: ", kernel_refusal(fault))
        }
        Unrenewed::Busy => push(line, b"pabble-renew: busy\n"),
        Unrenewed::Changed => push(line, b"pabble-renew: changed meanwhile\n"),
        Unrenewed::Olds => push(line, b"pabble-renew: too many old files\n"),
        Unrenewed::WriteFault => push(line, b"pabble-renew: write fault\n"),
        Unrenewed::Halfway => push(line, b"pabble-renew: write fault, and OUT.left has more\n"),
    }
}

fn push(line: &mut Vec<u8>, bytes: &[u8]) -> Result<(), NoMemory> {
    line.extend_from_slice(bytes)?;
    Ok(())
}

/// Appends words around the number of a line.
fn push_line(line: &mut Vec<u8>, front: &[u8], at: u32, behind: &[u8]) -> Result<(), NoMemory> {
    push(line, front)?;
    push_number(line, i64::from(at))?;
    push(line, behind)
}

/// Appends a front, and what the line of `pabble` on a refusal has behind the program's name.
fn push_refusal(
    alloc: Global,
    line: &mut Vec<u8>,
    front: &[u8],
    refusal: Refusal,
) -> Result<(), NoMemory> {
    let mut sink = MemSink::new(alloc, MOST_LINE, MOST_LINE, Vec::new(alloc))?;
    let _status = refuse(&mut sink, refusal);
    push(line, front)?;
    push(
        line,
        sink.taken().strip_prefix(b"pabble: ").unwrap_or_default(),
    )
}

/// The refusal that tells a fault of a kernel file.
fn kernel_refusal(fault: KernelFault) -> Refusal
    ensures { result ≡ kernel_refusal fault }
{
    match fault {
        KernelFault::BadMarker(line) => Refusal::KernelMarker(line),
        KernelFault::Twice(name) => told(name, KernelWrong::Twice),
        KernelFault::Missing(name) => told(name, KernelWrong::Missing),
        KernelFault::Extra(name) => told(name, KernelWrong::Extra),
        KernelFault::NoMemory => Refusal::NoMemory,
    }
}

/// What is told of a body.
fn told(name: KName, wrong: KernelWrong) -> Refusal
    ensures { result ≡ told name wrong }
{
    Refusal::Kernel {
        kind: kind_of(name.kind),
        name: name.name,
        wrong,
    }
}

fn kind_of(kind: Kind) -> KernelKind
    ensures { result ≡ kind_of kind }
{
    match kind {
        Kind::Prelude => KernelKind::Prelude,
        Kind::Compute => KernelKind::Compute,
        Kind::Choice => KernelKind::Choice,
        Kind::Make => KernelKind::Make,
        Kind::Take => KernelKind::Take,
        Kind::Room => KernelKind::Room,
    }
}
