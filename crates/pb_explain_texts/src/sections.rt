//! What stands where in a C text.

/// A part of a C text.
#[derive(Clone, Copy)]
enum Section {
    /// The names of roles and labels.
    Tables,
    /// The lines behind `#include <mpi.h>`.
    Includes,
    /// The prelude and the functions.
    Functions,
    /// The statements of `main`.
    Main,
    /// The lines behind `MPI_Finalize`.
    End,
}

impl Section {
    /// The section behind a line of this one.
    fn behind(self, line: &[u8]) -> Section {
        if line == b"#include <mpi.h>".as_slice() {
            Section::Includes
        } else if line == b"/*@ prelude */".as_slice() {
            Section::Functions
        } else if line == b"int main(int argc, char **argv)".as_slice() {
            Section::Main
        } else if line == b"  MPI_Finalize();".as_slice() && self == Section::Main {
            Section::End
        } else {
            self
        }
    }

    /// What stands in it.
    fn wanted(self) -> &'static str {
        match self {
            Section::Tables => {
                "a role as `/* role W 0 to N - 1 */`, a label as `/* label A int32[1] */`, or `#include <mpi.h>`"
            }
            Section::Includes => {
                "`#include <stdint.h>`, the two lines of buffers, and `/*@ prelude */`"
            }
            Section::Functions => {
                "the prelude, a function `r_W` for each role, the kernels with their markers in the order of labels and kernels, and `main`"
            }
            Section::Main => {
                "a line of `main` as `gen` spells it, with two spaces for each open brace"
            }
            Section::End => "`  return 0;`, `}` and the end",
        }
    }
}

/// What stands in this line of the text.
pub fn wanted_at(bytes: &[u8], line: u32) -> &'static str {
    match line {
        1 => "`/* pabble 1 */`",
        2 => "`/* protocol NAME */`",
        3 => "the range, as `/* N 2 to max */`",
        _ => section_at(bytes, line).wanted(),
    }
}

/// The section in which a line stands.
fn section_at(bytes: &[u8], line: u32) -> Section {
    let mut section = Section::Tables;
    let mut number = 1u32;
    for text in bytes.split(|byte| *byte == b'\n') {
        if number >= line {
            return section;
        }
        section = section.behind(text);
        number = number.saturating_add(1);
    }
    section
}
