//! The status lines of kernel files.

ghost use Rattle.std.specs.Prelude.{◌≡◌, ◌≤◌, ◌++◌, codes, OnOk, OnErr};
ghost use Rattle.std.specs.Io.KnownBytes.{Appends};
ghost use Rattle.pb_io.specs.Faults.{Rose};
ghost use Rattle.pb_io.specs.Sinks.{AppendsFront};
ghost use Rattle.pb_cli_status.specs.Lines.{front_of, kernel_line, name_or_none, wrong_words};

use crate::parts::write_parts;
use pb_io::{OutFault, Sink};
use pb_text::Name;

/// What a body of a kernel file is for.
#[derive(Clone, Copy, Debug)]
pub enum KernelKind {
    /// What stands before the functions. It has no name.
    Prelude,
    /// A compute kernel.
    Compute,
    /// A choice kernel.
    Choice,
    /// It makes the words of a label.
    Make,
    /// It takes the words of a label.
    Take,
    /// It gives the memory that a label's elements are received into.
    Room,
}

/// What is wrong with a body of a kernel file.
#[derive(Clone, Copy, Debug)]
pub enum KernelWrong {
    /// It is the second one with its name.
    Twice,
    /// The file lacks it.
    Missing,
    /// The text has no place for it.
    Extra,
}

/// How the name of a body begins.
fn front_of(kind: KernelKind) -> &'static [u8]
    ensures { result.now ≡ front_of kind }
{
    match kind {
        KernelKind::Prelude => b"prelude",
        KernelKind::Compute => b"k_",
        KernelKind::Choice => b"c_",
        KernelKind::Make => b"make_",
        KernelKind::Take => b"take_",
        KernelKind::Room => b"room_",
    }
}

/// The bytes of a name; none where there is none.
fn name_or_none(name: &Option<Name>) -> &[u8]
    ensures { result.now ≡ name_or_none name.now }
{
    match name {
        None => b"",
        Some(name) => name.bytes(),
    }
}

/// What is told of a body, and the line's end.
fn wrong_words(wrong: KernelWrong) -> &'static [u8]
    ensures { result.now ≡ wrong_words wrong }
{
    match wrong {
        KernelWrong::Twice => b" twice\n",
        KernelWrong::Missing => b" missing\n",
        KernelWrong::Extra => b" extra\n",
    }
}

/// Appends the line of a body that is wrong.
pub fn write_kernel<O: Sink>(
    out: &mut O,
    kind: KernelKind,
    name: &Option<Name>,
    wrong: KernelWrong,
) -> Result<(), OutFault>
    ensures whole { OnOk result (Appends (O.taken out.old) (O.taken out.new) (kernel_line kind name.now wrong)) }
    ensures front { OnErr result (AppendsFront (O.taken out.old) (O.taken out.new) (kernel_line kind name.now wrong)) }
    ensures fault { OnErr result (Rose (O.faults out.old) (O.faults out.new)) }
    ensures later { O.faults out.old ≤ O.faults out.new }
{
    write_named(out, front_of(kind), name_or_none(name), wrong_words(wrong))
}

/// Appends the line of a body with this front and name, of which this is told.
fn write_named<O: Sink>(
    out: &mut O,
    front: &[u8],
    name: &[u8],
    wrong: &[u8],
) -> Result<(), OutFault>
    ensures whole { OnOk result (Appends (O.taken out.old) (O.taken out.new) (codes "pabble: kernel " ++ (front.now ++ name.now ++ wrong.now))) }
    ensures front { OnErr result (AppendsFront (O.taken out.old) (O.taken out.new) (codes "pabble: kernel " ++ (front.now ++ name.now ++ wrong.now))) }
    ensures fault { OnErr result (Rose (O.faults out.old) (O.faults out.new)) }
    ensures later { O.faults out.old ≤ O.faults out.new }
{
    write_parts(out, &[b"pabble: kernel ", front, name, wrong])
}
