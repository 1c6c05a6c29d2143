//! The lines of a text that are always the same.

ghost use Rattle.std.specs.Prelude.{◌≡◌, ◌++◌, OnOk};
ghost use Rattle.pb_cprint.specs.Framed.{title, buffers_written, prelude_marker, end_marker, brace, end_brace, start_written, zeros_written, abort_size, seat_end, end_written};

use pb_ctree::NoMemory;

/// Appends the first line of a text, which has the number of the format.
pub fn push_title(out: &mut Vec<u8>) -> Result<(), NoMemory>
    ensures { OnOk result (out.new.items ≡ out.old.items ++ title) }
{
    out.extend_from_slice(b"/* pabble 1 */\n")?;
    Ok(())
}

/// Appends the lines that include the headers and declare the buffers, each of 1,024 words.
pub fn push_buffers(out: &mut Vec<u8>) -> Result<(), NoMemory>
    ensures { OnOk result (out.new.items ≡ out.old.items ++ buffers_written) }
{
    out.extend_from_slice(
        b"#include <mpi.h>\n#include <stdint.h>\nstatic int32_t is[1024], ir[1024];\nstatic uint32_t us[1024], ur[1024];\n",
    )?;
    Ok(())
}

/// Appends the line that opens the prelude.
pub fn push_prelude_marker(out: &mut Vec<u8>) -> Result<(), NoMemory>
    ensures { OnOk result (out.new.items ≡ out.old.items ++ prelude_marker) }
{
    out.extend_from_slice(b"/*@ prelude */\n")?;
    Ok(())
}

/// Appends the line that ends the prelude or a body.
pub fn push_end_marker(out: &mut Vec<u8>) -> Result<(), NoMemory>
    ensures { OnOk result (out.new.items ≡ out.old.items ++ end_marker) }
{
    out.extend_from_slice(b"/*@ end */\n")?;
    Ok(())
}

/// Appends the line that opens a function.
pub fn push_brace(out: &mut Vec<u8>) -> Result<(), NoMemory>
    ensures { OnOk result (out.new.items ≡ out.old.items ++ brace) }
{
    out.extend_from_slice(b"{\n")?;
    Ok(())
}

/// Appends the line that closes a function.
pub fn push_end_brace(out: &mut Vec<u8>) -> Result<(), NoMemory>
    ensures { OnOk result (out.new.items ≡ out.old.items ++ end_brace) }
{
    out.extend_from_slice(b"}\n")?;
    Ok(())
}

/// Appends the first lines of `main`, up to the rank's own number.
pub fn push_start(out: &mut Vec<u8>) -> Result<(), NoMemory>
    ensures { OnOk result (out.new.items ≡ out.old.items ++ start_written) }
{
    out.extend_from_slice(
        b"int main(int argc, char **argv)\n{\n  int size, rank;\n  int32_t N, R, I, a, i;\n  MPI_Status st;\n  MPI_Init(&argc, &argv);\n  MPI_Comm_size(MPI_COMM_WORLD, &size);\n  MPI_Comm_rank(MPI_COMM_WORLD, &rank);\n",
    )?;
    Ok(())
}

/// Appends the lines that set R, I, a and i to 0.
pub fn push_zeros(out: &mut Vec<u8>) -> Result<(), NoMemory>
    ensures { OnOk result (out.new.items ≡ out.old.items ++ zeros_written) }
{
    out.extend_from_slice(b"  R = 0;\n  I = 0;\n  a = 0;\n  i = 0;\n")?;
    Ok(())
}

/// Appends the line that ends the program with 2 where the number of ranks is wrong, and its closing brace.
pub fn push_abort_size(out: &mut Vec<u8>) -> Result<(), NoMemory>
    ensures { OnOk result (out.new.items ≡ out.old.items ++ abort_size) }
{
    out.extend_from_slice(b"    MPI_Abort(MPI_COMM_WORLD, 2);\n  }\n")?;
    Ok(())
}

/// Appends the closing brace behind a role and an index.
pub fn push_seat_end(out: &mut Vec<u8>) -> Result<(), NoMemory>
    ensures { OnOk result (out.new.items ≡ out.old.items ++ seat_end) }
{
    out.extend_from_slice(b"  }\n")?;
    Ok(())
}

/// Appends the last lines of `main`.
pub fn push_finish(out: &mut Vec<u8>) -> Result<(), NoMemory>
    ensures { OnOk result (out.new.items ≡ out.old.items ++ end_written) }
{
    out.extend_from_slice(b"  MPI_Finalize();\n  return 0;\n}\n")?;
    Ok(())
}
